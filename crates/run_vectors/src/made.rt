// Generated chains, piece by piece.
//
// After the word `chain` stand the seed, how many blocks are made, which of these the row is about (0: the genesis, `spec`: the
// specification), and its bytes in hex; or `hash`, which it is about, and the hash of all its bytes. These rows come from outside.
use blake2b_ckb::ckbhash;
use chain_gen::{Made, make};
use row_table::Row;
use std::alloc::Global;

/// The most blocks of a chain.
const BLOCK_LIMIT: u32 = 20_000;

/// Whether a piece of a chain is what the row has; None where it is no row.
pub(crate) fn agrees(alloc: Global, row: &mut Row) -> Option<bool> {
    let seed = row.number()?;
    let count = row.short()?;
    if count > BLOCK_LIMIT {
        return None;
    }
    let made = make(alloc, seed, count).ok()?;
    let which = row.word();
    if which == "hash" {
        return has_hash(alloc, &made, row);
    }
    let wanted = hex::decode(alloc, row.rest()).ok()?;
    Some(piece(&made, which)? == wanted.as_slice())
}

/// Whether a piece of a chain has this hash.
fn has_hash(alloc: Global, made: &Made, row: &mut Row) -> Option<bool> {
    let which = row.word();
    let wanted = hex::decode(alloc, row.rest()).ok()?;
    Some(ckbhash(piece(made, which)?).as_slice() == wanted.as_slice())
}

/// A piece of a chain.
fn piece<'a>(made: &'a Made, which: &str) -> Option<&'a [u8]> {
    if which == "spec" {
        return Some(&made.spec);
    }
    let place = usize::from_str_radix(which, 10).ok()?;
    if place == 0 {
        return Some(&made.genesis);
    }
    Some(made.blocks.get(place - 1)?.as_slice())
}
