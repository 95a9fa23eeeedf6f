// Rows of what the record of a block holds.

use log_file::{ext_form, parts};
use row_table::Row;
use std::alloc::Global;

/// Whether the next column has these bytes.
pub(crate) fn are_bytes(alloc: Global, bytes: &[u8], row: &mut Row) -> Option<bool> {
    Some(row.bytes(alloc)?.as_slice() == bytes)
}

/// A body: the block and the ext in it, or `none`.
pub(crate) fn agrees_on_parts(alloc: Global, row: &mut Row) -> Option<bool> {
    let body = row.bytes(alloc)?;
    match parts(&body) {
        Some((block, ext)) => Some(are_bytes(alloc, block, row)? && are_bytes(alloc, ext, row)?),
        None => Some(row.word() == "none"),
    }
}

/// `yes` or `no`.
pub(crate) fn agrees_on_ext(alloc: Global, row: &mut Row) -> Option<bool> {
    let has_form = ext_form(&row.bytes(alloc)?);
    Some(row.is("yes", "no")? == has_form)
}
