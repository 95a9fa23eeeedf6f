// What the columns of a row hold.

use row_table::Row;
use std::alloc::{AllocError, Global};

/// A run, its input, what it must answer, and which reads and writes of its streams fail.
#[derive(Drop)]
pub struct Run {
    pub words: String,
    pub status: u8,
    pub input: Vec<u8>,
    pub text: Vec<u8>,
    pub reads: Vec<u64>,
    pub writes: Vec<u64>,
}

/// Bytes in hex, `-` for none, and after a `+` how many zero bytes follow.
fn bytes_of(alloc: Global, column: &str) -> Option<Vec<u8>> {
    let column = column.strip_prefix('-').unwrap_or(column);
    let (digits, zeros) = column.split_once('+').unwrap_or((column, "0"));
    let zeros: usize = zeros.parse().ok()?;
    let mut bytes = hex::decode(alloc, digits).ok()?;
    bytes.resize(bytes.len().checked_add(zeros)?, 0).ok()?;
    Some(bytes)
}

/// A folder, and the words after it.
pub fn words_of(alloc: Global, words: &str) -> Result<Vec<String>, AllocError> {
    let mut owned = Vec::new(alloc);
    owned.push(String::from_str(alloc, "any")?)?;
    for word in words.split(' ') {
        owned.push(String::from_str(alloc, word)?)?;
    }
    Ok(owned)
}

/// A run by its words, the number of its status, its input, its text, and the reads and the writes that fail.
pub fn run_of(alloc: Global, row: &mut Row) -> Option<Run> {
    let words = String::from_str(alloc, row.word()).ok()?;
    let status = row.word().parse().ok()?;
    let input = bytes_of(alloc, row.word())?;
    let text = row.bytes(alloc)?;
    let reads = row.numbers(alloc)?;
    let writes = row.numbers(alloc)?;
    Some(Run {
        words,
        status,
        input,
        text,
        reads,
        writes,
    })
}
