// Rows of epochs, sinces and the DAO's numbers.

use crate::{dao, epoch, since};
use row_table::Row;
use std::alloc::Global;

/// Whether the call gives what the row says; None where it is no row.
pub(crate) fn agrees(alloc: Global, row: &mut Row) -> Option<bool> {
    match row.word() {
        "epoch_of" => epoch::agrees_on_epoch(row),
        "parts" => epoch::agrees_on_parts(row),
        "well_formed" => epoch::agrees_on_form(row),
        "span_over" => epoch::agrees_on_span(row),
        "share" => epoch::agrees_on_share(row),
        "primary" => epoch::agrees_on_primary(alloc, row),
        "is_second_at" => epoch::agrees_on_edition(alloc, row),
        "meets" => since::agrees_on_since(row),
        call => dao::agrees(alloc, call, row),
    }
}
