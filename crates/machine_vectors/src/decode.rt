// Rows of words that are decoded.

use row_table::Row;
use rv_decode::decode;
use rv_text::show;
use std::alloc::{AllocError, Global};

/// The instruction's text and its length in bytes, or `none` and 0.
fn decoded(alloc: Global, word: u32) -> Result<(Vec<u8>, u8), AllocError> {
    match decode(word) {
        Some((ins, length)) => Ok((show(alloc, &ins)?, length)),
        None => Ok((b"none".to_vec(alloc)?, 0)),
    }
}

/// A word, and what it is decoded to.
pub(crate) fn agrees(alloc: Global, row: &mut Row) -> Option<bool> {
    let word = u32::try_from(row.digits()?).ok()?;
    let (text, length) = decoded(alloc, word).ok()?;
    Some(text.as_slice() == row.word().as_bytes() && u64::from(length) == row.digits()?)
}

fn is_instruction(word: u32) -> bool {
    decode(word).is_some()
}

/// How many patterns of a compressed form are instructions.
pub(crate) fn compressed_count() -> u32 {
    let mut found = 0u32;
    for half in 0..0x1_0000u32 {
        if half % 4 != 3 && is_instruction(half) {
            found = found.saturating_add(1);
        }
    }
    found
}

/// How many patterns of opcode, funct3 and funct7 are instructions, with x0 for each register.
pub(crate) fn full_count() -> u32 {
    let mut found = 0u32;
    for opcode in 0..32u32 {
        for funct3 in 0..8u32 {
            for funct7 in 0..128u32 {
                let word = funct7 << 25 | funct3 << 12 | opcode << 2 | 3;
                if is_instruction(word) {
                    found = found.saturating_add(1);
                }
            }
        }
    }
    found
}
