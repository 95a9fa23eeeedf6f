// Rows of the streams.

use crate::area::{is_count, is_read};
use outside::{Sink, Source};
use row_table::Row;
use std::alloc::Global;

/// How many bytes are read, and which four are in the buffer then, which dashes fill before.
pub(crate) fn agrees_on_read<S: Source>(
    alloc: Global,
    source: &mut S,
    row: &mut Row,
) -> Option<bool> {
    let mut into = [b'-'; 4];
    let read = source.read(&mut into);
    is_read(alloc, read, &into, row)
}

/// The bytes, and how many are taken.
pub(crate) fn agrees_on_write<K: Sink>(alloc: Global, sink: &mut K, row: &mut Row) -> Option<bool> {
    let piece = row.bytes(alloc)?;
    let written = sink.write(&piece);
    is_count(written.map(|n| n as u64), row)
}
