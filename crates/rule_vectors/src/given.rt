//! What a branch gives to a block of it.

ghost use Rattle.std.specs.Prelude.{IsTrue};
ghost use Rattle.chain_tree.specs.Blocks.{AreRated};

use crate::chain::Chain;
use chain_tree::Tree;
use dao_math::is_rated;
use rewards::reward;
use std::alloc::Global;

/// Whether C and AR of each entry's field are above 0.
pub(crate) fn are_rated(tree: &Tree) -> bool
    ensures { IsTrue result → AreRated tree.now.entries }
{
    'entries: for place in 0..tree.len() {
        if !is_rated(&tree.entry(place).dao) {
            return false;
        }
    }
    true
}

/// The reward of the block at a height, by a parent's branch; None where this may not be asked.
pub(crate) fn found(
    alloc: Global,
    chain: &mut Chain,
    parent: u32,
    target: u64,
) -> Option<Option<u64>> {
    if parent >= chain.tree.len() || chain.blocks.len() != chain.tree.len() {
        return None;
    }
    let far = target.checked_add(u64::from(chain.spec.w_far))?;
    if target == 0 || far > chain.tree.entry(parent).number || !are_rated(&chain.tree) {
        return None;
    }
    reward(
        alloc,
        &chain.spec,
        &chain.tree,
        &mut chain.blocks,
        parent,
        target,
    )
    .ok()
}
