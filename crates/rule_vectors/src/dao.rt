// Rows of the DAO field and of withdrawals.

use dao_math::{Dao, DaoMove, max_withdraw, miner_share, next_field};
use row_table::Row;
use std::alloc::Global;

/// C, AR, S and U.
fn field_of(row: &mut Row) -> Option<Dao> {
    Some(Dao {
        c: row.number()?,
        ar: row.number()?,
        s: row.number()?,
        u: row.number()?,
    })
}

/// What a block moves.
fn move_of(row: &mut Row) -> Option<DaoMove> {
    Some(DaoMove {
        primary: row.number()?,
        secondary: row.number()?,
        interest: row.signed()?,
        made: row.wide()?,
        freed: row.wide()?,
    })
}

/// The field before a block, what the block moves, and the field after it or `none`.
fn agrees_on_next_field(row: &mut Row) -> Option<bool> {
    let old = field_of(row)?;
    let moved = move_of(row)?;
    if old.c == 0 {
        return None;
    }
    Some(match next_field(&old, &moved) {
        Some(field) => field == field_of(row)?,
        None => row.rest() == "none",
    })
}

/// The field before a block, and its secondary share.
fn agrees_on_miner_share(row: &mut Row) -> Option<bool> {
    let old = field_of(row)?;
    let secondary = row.number()?;
    if old.c == 0 {
        return None;
    }
    Some(miner_share(&old, secondary) == row.wide()?)
}

/// A cell's capacity and what it occupies, the rate then and the rate before; what it counts, or `none`.
fn agrees_on_withdrawal(row: &mut Row) -> Option<bool> {
    let capacity = row.number()?;
    let occupied = row.number()?;
    let rate_then = row.number()?;
    let rate_before = row.number()?;
    if occupied > capacity || rate_before == 0 {
        return None;
    }
    Some(
        match max_withdraw(capacity, occupied, rate_then, rate_before) {
            Some(counted) => counted == row.number()?,
            None => row.rest() == "none",
        },
    )
}

/// A field, and its bytes.
fn agrees_on_bytes(alloc: Global, row: &mut Row) -> Option<bool> {
    let field = field_of(row)?;
    let bytes = <[u8; 32]>::try_from(&row.bytes(alloc)?[..]).ok()?;
    Some(Dao::read(&bytes) == field && field.write() == bytes)
}

/// Whether the call gives what the row says; None where it is no row.
pub(crate) fn agrees(alloc: Global, call: &str, row: &mut Row) -> Option<bool> {
    match call {
        "next_field" => agrees_on_next_field(row),
        "miner_share" => agrees_on_miner_share(row),
        "max_withdraw" => agrees_on_withdrawal(row),
        "Dao" => agrees_on_bytes(alloc, row),
        _ => None,
    }
}
