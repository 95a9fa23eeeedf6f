// What the columns of a row name.

use outside::{Area, Failed};
use row_table::Row;
use std::alloc::Global;

pub(crate) fn area_of(name: &str) -> Option<Area> {
    match name {
        "log" => Some(Area::Log),
        "snap_a" => Some(Area::SnapA),
        "snap_b" => Some(Area::SnapB),
        _ => None,
    }
}

/// Whether the call was to succeed, or to fail, as it has.
pub(crate) fn is_done(done: bool, row: &mut Row) -> Option<bool> {
    Some(row.is("ok", "failed")? == done)
}

/// Whether the next column is this number.
pub(crate) fn is_number(number: u64, row: &mut Row) -> Option<bool> {
    Some(row.number()? == number)
}

/// Whether the next column has these bytes.
pub(crate) fn are_bytes(alloc: Global, bytes: &[u8], row: &mut Row) -> Option<bool> {
    Some(row.bytes(alloc)?.as_slice() == bytes)
}

/// The number, or `failed`.
pub(crate) fn is_count(counted: Result<u64, Failed>, row: &mut Row) -> Option<bool> {
    let word = row.word();
    match counted {
        Ok(n) => Some(word.parse() == Ok(n)),
        Err(Failed) => Some(word == "failed"),
    }
}

/// How many bytes are read, and which are in the buffer then.
pub(crate) fn is_read(
    alloc: Global,
    read: Result<usize, Failed>,
    into: &[u8],
    row: &mut Row,
) -> Option<bool> {
    let counted = is_count(read.map(|n| n as u64), row)?;
    Some(counted && are_bytes(alloc, into, row)?)
}
