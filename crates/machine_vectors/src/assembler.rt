// Rows of the assembler's lines, and of listings.

use row_table::Row;
use rv_text::{AssemblyStop, assemble, dis, elf_file, read_line, show, word};
use std::alloc::{AllocError, Global};

/// The word of the instruction whose text the line is, or `none`.
fn word_of(alloc: Global, line: &[u8]) -> Result<String, AllocError> {
    match read_line(line) {
        Some(i) => match word(&i) {
            Some(word) => format!(in alloc; "{word:08x}"),
            None => String::from_str(alloc, "no word"),
        },
        None => String::from_str(alloc, "none"),
    }
}

/// Whether the text of what was read is the line.
fn is_shown(alloc: Global, line: &[u8]) -> Option<bool> {
    match read_line(line) {
        Some(i) => Some(show(alloc, &i).ok()?.as_slice() == line),
        None => Some(true),
    }
}

fn line_agrees(alloc: Global, line: &[u8], wanted: &str) -> Option<bool> {
    let word = word_of(alloc, line).ok()?;
    Some(word.as_str() == wanted && is_shown(alloc, line)?)
}

/// A line, and the word of its instruction.
pub(crate) fn line(alloc: Global, row: &mut Row) -> Option<bool> {
    let line = row.word();
    line_agrees(alloc, line.as_bytes(), row.word())
}

/// The same, with the line's bytes in hex.
pub(crate) fn line_bytes(alloc: Global, row: &mut Row) -> Option<bool> {
    let line = row.bytes(alloc)?;
    line_agrees(alloc, line.as_slice(), row.word())
}

/// Code, and the text of its listing, both in hex.
pub(crate) fn listing(alloc: Global, row: &mut Row) -> Option<bool> {
    let code = row.bytes(alloc)?;
    let wanted = row.bytes(alloc)?;
    let text = dis(alloc, code.as_slice()).ok()?;
    Some(text.as_slice() == wanted.as_slice())
}

/// A text in hex, and the file that is made of it, or the number of its first bad line.
pub(crate) fn assembled(alloc: Global, row: &mut Row) -> Option<bool> {
    let text = row.bytes(alloc)?;
    match assemble(alloc, text.as_slice()) {
        Ok(code) => is_file(alloc, code.as_slice(), row),
        Err(AssemblyStop::BadLine(number)) => Some(
            row.word() == "bad line" && row.number()? == number,
        ),
        Err(AssemblyStop::NoMemory) => None,
    }
}

fn is_file(alloc: Global, code: &[u8], row: &mut Row) -> Option<bool> {
    let kind = row.word();
    let wanted = row.bytes(alloc)?;
    let file = elf_file(alloc, code).ok()?;
    Some(kind == "file" && file.as_slice() == wanted.as_slice())
}
