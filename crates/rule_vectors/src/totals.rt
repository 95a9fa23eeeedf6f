//! The running totals of a branch.

ghost use Rattle.std.specs.Prelude.{◌≡◌, ◌<◌, length, IfSome, IsTrue};
ghost use Rattle.chain_tree.specs.Blocks.{AreRated};
ghost use Rattle.supply.specs.Standing.{AreBounded};

use crate::chain::Chain;
use crate::given::are_rated;
use dao_math::Dao;
use outside::ReadStop;
use row_table::Row;
use std::alloc::Global;
use supply::Totals;

/// Whether the totals of the branch of a block may be asked.
fn may_be_asked(chain: &Chain, place: u32) -> bool
    ensures within { IsTrue result → place < length chain.now.tree.entries }
    ensures rated { IsTrue result → AreRated chain.now.tree.entries }
    ensures counts { IsTrue result → length chain.now.blocks.stored ≡ length chain.now.tree.entries }
{
    place < chain.tree.len() && chain.blocks.len() == chain.tree.len() && are_rated(&chain.tree)
}

/// Those of the branch of a block; None where they may not be asked.
fn of_branch(alloc: Global, chain: &mut Chain, place: u32) -> Option<Totals>
    ensures bounded { IfSome result AreBounded }
{
    if !may_be_asked(chain, place) {
        return None;
    }
    Totals::of_branch(alloc, &chain.spec, &chain.tree, &mut chain.blocks, place).ok()
}

/// Takes the block at a place back, which is not the genesis. None where this may not be asked.
fn taken(alloc: Global, chain: &mut Chain, totals: &Totals, place: u32) -> Option<Totals> {
    if place == 0 || !may_be_asked(chain, place) {
        return None;
    }
    let mut totals = *totals;
    totals
        .take(alloc, &chain.spec, &chain.tree, &mut chain.blocks, place)
        .ok()?;
    Some(totals)
}

/// Takes it: None where this may not be asked, and else the totals then, with what stopped it.
fn added(
    alloc: Global,
    chain: &mut Chain,
    totals: &Totals,
    place: u32,
) -> Option<(Totals, Result<(), ReadStop>)> {
    if place == 0 || !may_be_asked(chain, place) {
        return None;
    }
    let mut totals = *totals;
    let stop = totals.add(alloc, &chain.spec, &chain.tree, &mut chain.blocks, place);
    Some((totals, stop))
}

/// The totals of a row.
fn wanted(row: &mut Row) -> Option<Totals> {
    Some(Totals {
        height: row.number()?,
        live: row.wide()?,
        occupied: row.wide()?,
        unpaid: row.wide()?,
        burned: row.wide()?,
    })
}

/// Whether the block at a place is taken back to the totals of its parent's branch, and taken again to its own.
fn comes_back(alloc: Global, chain: &mut Chain, totals: &Totals, place: u32) -> Option<bool> {
    if place == 0 {
        return Some(true);
    }
    let before = taken(alloc, chain, totals, place)?;
    if place >= chain.tree.len() {
        return None;
    }
    let parent = chain.tree.entry(place).parent;
    let again = added(alloc, chain, &before, place)?;
    Some(of_branch(alloc, chain, parent)? == before && again.0 == *totals && again.1.is_ok())
}

/// Whether the totals of a branch are those of a row, with what they leave of its last block's field.
pub(crate) fn agree(alloc: Global, chain: &mut Chain, row: &mut Row) -> Option<bool> {
    let place = row.short()?;
    let totals = of_branch(alloc, chain, place)?;
    if place >= chain.tree.len() {
        return None;
    }
    let left = totals.left(&Dao::read(&chain.tree.entry(place).dao));
    let is = totals == wanted(row)? && left == (row.signed()?, row.signed()?);
    Some(is && comes_back(alloc, chain, &totals, place)?)
}

/// Whether the block of a row is found damaged, as its step does not fit the totals of its parent's branch, and these stay.
pub(crate) fn are_unfit(alloc: Global, chain: &mut Chain, row: &mut Row) -> Option<bool> {
    let place = row.short()?;
    if place >= chain.tree.len() {
        return None;
    }
    let parent = chain.tree.entry(place).parent;
    let before = of_branch(alloc, chain, parent)?;
    let (after, stop) = added(alloc, chain, &before, place)?;
    Some(after == before && matches!(stop, Err(ReadStop::Damaged(_))))
}
