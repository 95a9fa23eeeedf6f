//! The rule J15, on uncles.

use crate::chain::Chain;
use mol_schema::BlockView;
use std::alloc::Global;
use uncle_rules::uncles_ok;

/// Whether the uncles of a block on the parent at a place keep the rule; None where this may not be asked.
pub(crate) fn keeps(alloc: Global, chain: &Chain, parent: u32, block: &[u8]) -> Option<bool> {
    if parent >= chain.tree.len() {
        return None;
    }
    let block = BlockView::read(block)?;
    uncles_ok(
        alloc,
        &chain.spec,
        &chain.tree,
        &chain.uncles,
        parent,
        &block,
    )
    .ok()
}
