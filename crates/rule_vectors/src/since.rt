// Rows of sinces.

use row_table::Row;
use since_rules::{SinceAt, SinceFault, meets};

/// The height that spends, its median time, the height of the cell, its start, blocks in an epoch.
fn since_at(row: &mut Row) -> Option<SinceAt> {
    Some(SinceAt {
        number: row.number()?,
        median: row.number()?,
        made: row.number()?,
        start: row.number()?,
        length: row.short()?,
    })
}

/// What a since is answered there; None where it may not be asked.
fn answer(since: u64, at: &SinceAt) -> Option<&'static str> {
    if at.length < 1 || at.length >= 1 << 16 || at.made > at.number || at.number >= 1 << 24 {
        return None;
    }
    match meets(since, at) {
        Ok(()) => Some("met"),
        Err(SinceFault::Immature) => Some("immature"),
        Err(SinceFault::Invalid) => Some("invalid"),
    }
}

/// A since, where it is asked, and the answer.
pub(crate) fn agrees_on_since(row: &mut Row) -> Option<bool> {
    let since = row.number()?;
    let at = since_at(row)?;
    Some(answer(since, &at)? == row.word())
}
