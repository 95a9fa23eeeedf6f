// A block that was judged, explained.
ghost use Rattle.std.specs.Prelude.{◌≡◌, ◌<◌, ◌≤◌, length};
ghost use Rattle.chain_tree.specs.Blocks.{IsParent};
ghost use Rattle.chain_tree.specs.Reading.{HasRead, stop_of};

use crate::commitments::explain_commitment;
use crate::header::explain_header;
use crate::in_block::{OnParent, explain_transactions};
use crate::payment::{explain_dao, explain_payment};
use crate::uncles::explain_uncles;
use block_judge::Context;
use cell_state::State;
use chain_tree::Blocks;
use mol_schema::BlockView;
use node_store::Kept;
use outside::{ReadStop, Steps};
use std::alloc::Global;
use std::sync::ledger::Ledger;
use transaction_page::{Page, explain_block_bytes, hash_from, push_rule};

/// An item that was judged as a block: the rule that it breaks, and the group whose page is asked for.
#[derive(Clone, Copy)]
pub struct JudgedBlock<'i> {
    pub item: &'i [u8],
    pub rule: u8,
    pub asked: Option<u32>,
}

/// Appends the page of an item that was judged as a block. The live cells are those of the tip; they are not kept.
pub(crate) fn explain_item<B: Blocks, L: Ledger>(
    alloc: Global,
    page: &mut Page,
    kept: &Kept,
    blocks: &mut B,
    state: State,
    judged: &JudgedBlock<'_>,
    steps: &mut Steps<L>,
) -> Result<(), ReadStop>
    requires counts { B.count blocks.old ≡ length kept.now.chain.blocks }
    ensures read { HasRead B.told B.count B.loans_of B.faults B.damages blocks.old blocks.new (stop_of result) }
{
    push_rule(page, judged.rule);
    let Some(block) = BlockView::read(judged.item) else {
        drop(state);
        explain_block_bytes(page, judged.item);
        return Ok(());
    };
    let hash = hash_from(block.header().parent_hash());
    let Some(parent) = kept.tree.find(&hash) else {
        drop(state);
        page.add("place parent_hash\nfound ");
        page.bytes(&hash);
        page.add("\nwanted the hash of a kept block\n");
        return Ok(());
    };
    let on = OnParent {
        block: &block,
        rule: judged.rule,
        asked: judged.asked,
    };
    if on.rule < 18 {
        drop(state);
        explain_header(page, kept, parent, &block, on.rule);
        explain_commitment(alloc, page, &block, on.rule);
        return explain_uncles_of(page, kept, blocks, parent, &on);
    }
    let from = kept.tree.tip();
    let there = match kept.moved(alloc, blocks, state, from, parent, steps) {
        Ok(there) => there,
        Err(stop) => return Err(stop),
    };
    let came = explain_over(alloc, page, kept, blocks, &there, parent, &on);
    drop(there);
    came
}

/// J15.
fn explain_uncles_of<B: Blocks>(
    page: &mut Page,
    kept: &Kept,
    blocks: &mut B,
    parent: u32,
    on: &OnParent<'_, '_>,
) -> Result<(), ReadStop>
    requires counts { B.count blocks.old ≡ length kept.now.chain.blocks }
    ensures read { HasRead B.told B.count B.loans_of B.faults B.damages blocks.old blocks.new (stop_of result) }
{
    if on.rule != 15 {
        return Ok(());
    }
    explain_uncles(page, &kept.spec, &kept.tree, parent, blocks, on)
}

/// J18 to J32, over the live cells of the parent's branch.
fn explain_over<B: Blocks>(
    alloc: Global,
    page: &mut Page,
    kept: &Kept,
    blocks: &mut B,
    state: &State,
    parent: u32,
    on: &OnParent<'_, '_>,
) -> Result<(), ReadStop>
    requires placed { parent < length kept.now.chain.blocks }
    requires counts { B.count blocks.old ≡ length kept.now.chain.blocks }
    ensures read { HasRead B.told B.count B.loans_of B.faults B.damages blocks.old blocks.new (stop_of result) }
{
    if on.rule == 31 {
        return explain_payment(
            alloc, page, &kept.spec, &kept.tree, parent, blocks, on.block,
        );
    }
    let context = Context {
        spec: &kept.spec,
        tree: &kept.tree,
        uncles: &kept.uncles,
        cells: state,
        parent,
    };
    let progress = match explain_transactions(alloc, page, &context, blocks, on) {
        Ok(progress) => progress,
        Err(stop) => return Err(stop),
    };
    if let (32, Some(progress)) = (on.rule, progress) {
        explain_dao(page, &kept.spec, &kept.tree, parent, on.block, &progress);
    }
    Ok(())
}
