//! The proposal window.

use crate::chain::Chain;
use proposal_window::earliest;

/// The earliest proposer of an id, from a parent on for a height; None where this may not be asked.
pub(crate) fn found(
    chain: &mut Chain,
    parent: u32,
    id: &[u8; 10],
    height: u64,
) -> Option<Option<u64>> {
    if parent >= chain.tree.len() || chain.blocks.len() != chain.tree.len() {
        return None;
    }
    if height > chain.tree.entry(parent).number + 1 {
        return None;
    }
    earliest(
        &chain.spec,
        &chain.tree,
        &mut chain.blocks,
        parent,
        id,
        height,
    )
    .ok()
}
