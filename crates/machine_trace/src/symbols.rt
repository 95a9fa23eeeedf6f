// The names of addresses, by the symbol table of an ELF file.
use std::alloc::AllocError;
use std::fmt::Write;

/// The type of a section that holds symbols, and the size of a symbol and of a section's header.
const SYMBOLS: u64 = 2;

const SYMBOL_SIZE: u64 = 24;

const HEADER_SIZE: u64 = 64;

/// The most characters of a name that are shown.
const SHOWN: u64 = 80;

/// The most symbols that are looked at.
const MOST: u64 = 65_536;

/// The symbols of an ELF file. Where it has no symbol table, or one that does not lie in the file, there are none.
#[derive(Clone, Copy)]
pub struct Symbols<'a> {
    file: &'a [u8],
    /// Where the table begins, and how many symbols it has.
    table: u64,
    count: u64,
    /// Where their names lie.
    names: u64,
}

/// The types of symbols that name an address: none, data, and a function.
const NAMING: u8 = 3;

/// A symbol: its type, the address of what it names, how many bytes that has, and where the name begins in the file.
#[derive(Clone, Copy)]
struct Symbol {
    kind: u8,
    value: u64,
    size: u64,
    name: u64,
}

/// The byte at an offset of a file, and 0 past its end.
fn byte_at(file: &[u8], at: u64) -> u8 {
    match usize::try_from(at) {
        Ok(at) if at < file.len() => file[at],
        _ => 0,
    }
}

/// A little-endian number of so many bytes.
fn number_at(file: &[u8], at: u64, bytes: u64) -> u64 {
    let mut number = 0u64;
    for i in 0..bytes {
        let byte = byte_at(file, at.saturating_add(bytes - 1 - i));
        number = number.wrapping_mul(256).wrapping_add(u64::from(byte));
    }
    number
}

/// The offset of the header of a section.
fn header_at(file: &[u8], section: u64) -> u64 {
    number_at(file, 40, 8).saturating_add(section.wrapping_mul(HEADER_SIZE))
}

impl<'a> Symbols<'a> {
    /// Those of the first symbol table of a file.
    pub fn of(file: &'a [u8]) -> Symbols<'a> {
        for section in 0..number_at(file, 60, 2) {
            let header = header_at(file, section);
            if number_at(file, header.saturating_add(4), 4) == SYMBOLS {
                return Symbols::in_section(file, header);
            }
        }
        Symbols {
            file,
            table: 0,
            count: 0,
            names: 0,
        }
    }

    /// Those of the section with a header at this offset.
    fn in_section(file: &'a [u8], header: u64) -> Symbols<'a> {
        let names = header_at(file, number_at(file, header.saturating_add(40), 4));
        let size = number_at(file, header.saturating_add(32), 8);
        Symbols {
            file,
            table: number_at(file, header.saturating_add(24), 8),
            count: (size / SYMBOL_SIZE).min(MOST),
            names: number_at(file, names.saturating_add(24), 8),
        }
    }

    fn symbol(&self, i: u64) -> Symbol {
        let at = self.table.saturating_add(i.saturating_mul(SYMBOL_SIZE));
        let name = number_at(self.file, at, 4);
        Symbol {
            kind: byte_at(self.file, at.saturating_add(4)) % 16,
            value: number_at(self.file, at.saturating_add(8), 8),
            size: number_at(self.file, at.saturating_add(16), 8),
            name: self.names.saturating_add(name),
        }
    }

    /// The symbol within whose bytes an address lies; a symbol without a size names its own address alone. Those that mark
    /// what kind of code follows, `$x` and the like, name nothing.
    fn find(&self, address: u64) -> Option<Symbol> {
        for i in 0..self.count {
            let symbol = self.symbol(i);
            let past = address.wrapping_sub(symbol.value);
            let first = byte_at(self.file, symbol.name);
            let is_named = symbol.kind < NAMING && first != 0 && first != b'$';
            if is_named && address >= symbol.value && past < symbol.size.max(1) {
                return Some(symbol);
            }
        }
        None
    }

    /// Appends the name of an address, and how far it lies past the symbol's, in parentheses after a space, where it has one.
    pub fn push_name(&self, page: &mut String, address: u64) -> Result<(), AllocError> {
        let Some(symbol) = self.find(address) else {
            return Ok(());
        };
        page.push_str(" (")?;
        for i in 0..SHOWN {
            match byte_at(self.file, symbol.name.saturating_add(i)) {
                0 => break,
                byte if byte > 0x20 && byte < 0x7f => page.push(char::from(byte))?,
                _ => page.push_str("?")?,
            }
        }
        let past = address.wrapping_sub(symbol.value);
        if past > 0 {
            write!(page, "+{past:#x}")?;
        }
        page.push_str(")")
    }
}
