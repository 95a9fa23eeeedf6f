// The file's header, and the program headers that it names.
ghost use Rattle.std.specs.Prelude.{◌≡◌, ◌+◌, ◌*◌, ◌<◌, ◌≤◌, length, take, true, None};
ghost use Rattle.std.specs.Str.{bytes_eq};
ghost use Rattle.machine_defs.specs.Elf.{broken_header, e_entry, e_phentsize, e_phnum, e_phoff, has_table, header_size, is_for_machine, magic, program_header_size};
ghost use Rattle.elf_load.specs.Judging.{loaded_at};

use super::field::{is_inside, u8_at, u16_at, u64_at};
use super::segment::Segment;
use std::marker::Model;

const HEADER_SIZE: usize = 64;

const PROGRAM_HEADER_SIZE: u16 = 56;

const MAGIC: [u8; 4] = [0x7f, b'E', b'L', b'F'];

const CLASS_64: u8 = 2;

const DATA_LITTLE_ENDIAN: u8 = 1;

const MACHINE_RISC_V: u16 = 243;

/// The header of a file of 64 bytes at least, by the names of the format. Contracts see the file.
#[derive(Drop)]
pub(crate) struct Header<'a> {
    file: &'a [u8],
}

impl<'a> Model for Header<'a> {
    ghost use Rattle.std.specs.Prelude.{ℕ, ◌^◌, ◌<◌, ◌≤◌, List, length};
    ghost use Rattle.machine_defs.specs.Elf.{header_size};

    ghost Value = { List ℕ };

    ghost view = { λ h. h.file.now };

    ghost invariant = { λ h. (header_size ≤ length h.file.now) × (length h.file.now < 2 ^ 64) };
}

/// The first of E 1 to E 4 that a file meets.
#[tactic(auto, unfolding(machine_defs::specs::Elf::broken_header))]
pub(crate) fn broken_header(file: &[u8]) -> Option<u8>
    ensures { result ≡ broken_header file.now }
{
    if file.len() < HEADER_SIZE {
        return Some(1);
    }
    let header = Header::of(file);
    if !header.has_magic() {
        return Some(2);
    }
    if !header.is_for_machine() {
        return Some(3);
    }
    if !header.has_table() {
        return Some(4);
    }
    None
}

impl<'a> Header<'a> {
    pub(crate) fn of(file: &'a [u8]) -> Self
        requires { header_size ≤ length file.now }
        ensures { result ≡ file.now }
    {
        Header { file }
    }

    fn has_magic(&self) -> bool
        ensures { result ≡ bytes_eq (take 4 self.now) magic }
    {
        &self.file[..4] == MAGIC.as_slice()
    }

    fn is_for_machine(&self) -> bool
        ensures { result ≡ is_for_machine self.now }
    {
        u8_at(self.file, 4) == CLASS_64
            && u8_at(self.file, 5) == DATA_LITTLE_ENDIAN
            && u16_at(self.file, 18) == MACHINE_RISC_V
    }

    /// Where the program begins.
    pub(crate) fn e_entry(&self) -> u64
        ensures { result ≡ e_entry self.now }
    {
        u64_at(self.file, 24)
    }

    fn e_phoff(&self) -> u64
        ensures { result ≡ e_phoff self.now }
    {
        u64_at(self.file, 32)
    }

    fn e_phentsize(&self) -> u16
        ensures { result ≡ e_phentsize self.now }
    {
        u16_at(self.file, 54)
    }

    /// How many program headers there are.
    pub(crate) fn e_phnum(&self) -> u16
        ensures { result ≡ e_phnum self.now }
    {
        u16_at(self.file, 56)
    }

    fn has_table(&self) -> bool
        ensures { result ≡ has_table self.now }
    {
        let count = self.e_phnum();
        let size = u64::from(PROGRAM_HEADER_SIZE) * u64::from(count);
        (count == 0 || self.e_phentsize() == PROGRAM_HEADER_SIZE)
            && is_inside(self.file, self.e_phoff(), size)
    }

    /// The segment of program header `index`, from 0, if it is one that is loaded.
    #[tactic(auto, unfolding(machine_defs::specs::Elf::is_inside))]
    pub(crate) fn segment(&self, index: u16) -> Option<Segment>
        requires table { has_table self.now ≡ true }
        requires index { index < e_phnum self.now }
        ensures { result ≡ loaded_at self.now (e_phoff self.now + program_header_size * index) }
    {
        let file = self.file;
        let at = self.e_phoff() + u64::from(PROGRAM_HEADER_SIZE) * u64::from(index);
        Segment::loaded_at(file, at as usize)
    }
}
