//! The rules J4 to J14 on an item.

use crate::chain::{Chain, ext_of, join, parent_of};
use blake2b_ckb::ckbhash;
use block_rules::Checked;
use mol_schema::BlockView;
use rule_defs::Rule;
use std::alloc::Global;

/// The first rule that a block breaks which is not kept: its parent is kept, J4 to J8, or J9 to J14.
fn broken(alloc: Global, chain: &Chain, block: &BlockView<'_>) -> Option<Option<Rule>> {
    let header = block.header();
    let Some(parent) = parent_of(&chain.tree, &header) else {
        return Some(Some(Rule::Parent));
    };
    if let Some(rule) = header_rules::check(&chain.spec, &chain.tree, parent, &header) {
        return Some(Some(rule));
    }
    match block_rules::check(alloc, &chain.spec, block) {
        Ok(Checked::Broken(rule)) => Some(Some(rule)),
        Ok(Checked::Kept(_)) => Some(None),
        Err(_) => None,
    }
}

/// Whether an item is answered so. None where a block that breaks none of the rules does not join its parent.
pub(crate) fn is_answered(
    alloc: Global,
    chain: &mut Chain,
    item: &[u8],
    wanted: &str,
) -> Option<bool> {
    let Some(block) = BlockView::read(item) else {
        return Some(wanted == "refused J1");
    };
    if chain.tree.find(&ckbhash(block.header().bytes())).is_some() {
        return Some(wanted == "known");
    }
    if let Some(rule) = broken(alloc, chain, &block)? {
        return Some(format!(in alloc; "refused {rule}").ok()?.as_str() == wanted);
    }
    join(alloc, chain, &block, ext_of(alloc, &block)?)?;
    Some(wanted == "joined")
}
