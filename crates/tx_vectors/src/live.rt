//! The live cells after blocks, one after the other.

use crate::kept::{applied, out_point_in, state_of};
use crate::rows::{hash_of_all, hash_on, made_up};
use blake2b_ckb::Hasher;
use cell_state::{Cells, Ext, Odd, OutPoint, State};
use mol_schema::BlockView;
use outside::{NoMemory, Steps};
use row_table::Row;
use std::alloc::Global;
use std::sync::ledger::Ledger;
use view_hashes::transaction_hashes;

/// Whether the live cells answer what the columns want; None where they are no row.
pub(crate) fn agrees<L: Ledger>(
    alloc: Global,
    state: &mut Option<State>,
    steps: &mut Steps<L>,
    row: &mut Row,
) -> Option<bool> {
    let wanted = row.word();
    let bytes = row.bytes(alloc)?;
    if wanted == "genesis" {
        return begins(alloc, state, &bytes);
    }
    agrees_on(alloc, state.as_mut()?, steps, wanted, &bytes, row)
}

/// The live cells after a genesis alone.
fn begins(alloc: Global, state: &mut Option<State>, bytes: &[u8]) -> Option<bool> {
    *state = state_of(alloc, bytes);
    Some(state.is_some())
}

fn agrees_on<L: Ledger>(
    alloc: Global,
    state: &mut State,
    steps: &mut Steps<L>,
    wanted: &str,
    bytes: &[u8],
    row: &mut Row,
) -> Option<bool> {
    let (word, rest) = wanted.split_once(' ').unwrap_or((wanted, ""));
    match word {
        "load" => Some(load(state, steps, rest.parse().ok()?).is_ok()),
        "rows" => has_rows(alloc, state, rest),
        "row" => has_row(alloc, state, bytes, rest),
        "none" => Some(state.get(&out_point_in(bytes)?).is_none()),
        _ => is_changed(alloc, state, steps, word, rest, bytes, row),
    }
}

/// Adds so many made-up rows, but for those that are there.
fn load<L: Ledger>(state: &mut State, steps: &mut Steps<L>, count: u32) -> Result<(), NoMemory> {
    for i in 0..count {
        let (o, meta) = made_up(i);
        if state.get(&o).is_none() {
            state.reserve(1)?;
            state.load_row(o, meta, steps);
        }
    }
    Ok(())
}

/// Whether these are the bytes in hex.
fn is_hex(alloc: Global, bytes: &[u8], digits: &str) -> Option<bool> {
    Some(hex::decode(alloc, digits).ok()?.as_slice() == bytes)
}

/// How many rows there are and the hash of all in order.
fn has_rows(alloc: Global, state: &State, wanted: &str) -> Option<bool> {
    let (count, hash) = wanted.split_once(' ')?;
    let found = hash_of_all(alloc, state)?;
    Some(count.parse() == Ok(state.rows()) && is_hex(alloc, &found, hash)?)
}

/// The hash of the row of an out-point.
fn has_row(alloc: Global, state: &State, bytes: &[u8], hash: &str) -> Option<bool> {
    let o = out_point_in(bytes)?;
    let Some(meta) = state.get(&o) else {
        return Some(false);
    };
    let mut hasher = Hasher::new();
    hash_on(&mut hasher, &o, &meta);
    is_hex(alloc, &hasher.finalize(), hash)
}

/// What a block at a place is answered that is applied, or that is taken back where its ext follows: `ok` or `undone`, or else
/// `not_live` or `live`, the place and an out-point.
fn is_changed<L: Ledger>(
    alloc: Global,
    state: &mut State,
    steps: &mut Steps<L>,
    word: &str,
    rest: &str,
    bytes: &[u8],
    row: &mut Row,
) -> Option<bool> {
    let (place, o) = rest.split_once(' ').unwrap_or((rest, ""));
    let answer = if row.rest().is_empty() {
        applied(alloc, state, steps, bytes, place.parse().ok()?)?
    } else {
        let ext = row.bytes(alloc)?;
        undone(alloc, state, steps, bytes, &ext)?
    };
    match answer {
        Ok(()) => Some(word == "ok" || word == "undone"),
        Err(odd) => is_odd(alloc, odd, word, o),
    }
}

/// What is odd by its word and its out-point.
fn is_odd(alloc: Global, odd: Odd, word: &str, text: &str) -> Option<bool> {
    let (name, o) = match odd {
        Odd::NotLive(o) => ("not_live", o),
        Odd::Live(o) => ("live", o),
    };
    Some(word == name && is_named(alloc, &o, text)?)
}

/// The hash and the index of an out-point.
fn is_named(alloc: Global, odd: &OutPoint, text: &str) -> Option<bool> {
    let (hash, index) = text.split_once(':')?;
    Some(index.parse() == Ok(odd.index) && is_hex(alloc, &odd.tx_hash, hash)?)
}

/// What a block that is taken back with an ext is answered.
fn undone<L: Ledger>(
    alloc: Global,
    state: &mut State,
    steps: &mut Steps<L>,
    block: &[u8],
    ext: &[u8],
) -> Option<Result<(), Odd>> {
    let block = BlockView::read(block)?;
    let ext = Ext::read(alloc, ext).ok()??;
    state.reserve(ext.spent.len() as u64).ok()?;
    let hashes = transaction_hashes(alloc, &block).ok()?;
    Some(state.undo(&block, &hashes, &ext, steps))
}
