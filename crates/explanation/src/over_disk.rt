// A page over a disk: the call makes a source of kept blocks of the disk and the cache, and lets it go.
ghost use Rattle.std.specs.Prelude.{◌≡◌, IfSome};
ghost use Rattle.chain_defs.specs.Hashes.{transaction_hash};
ghost use Rattle.chain_tree.specs.Reading.{HasRead, stop_of};
ghost use Rattle.node_store.specs.Node.{LogHoldsKept, HasOnlyRead};
ghost use Rattle.std.specs.Prelude.{length};

use crate::block::{JudgedBlock, explain_item};
use cell_state::State;
use chain_tree::Blocks;
use node_store::{Cache, Kept, Store};
use outside::{Disk, ReadStop, Steps};
use std::alloc::Global;
use std::sync::ledger::Ledger;
use transaction_page::{Judged, Page, Site, explain, push_rule};

/// The page of a transaction after the tip.
pub(crate) fn transaction_on<D: Disk>(
    alloc: Global,
    disk: &mut D,
    cache: &mut Cache,
    kept: &Kept,
    state: &State,
    judged: &Judged<'_, '_>,
) -> Result<String, ReadStop>
    requires own { IfSome (D.reads_as disk.old) (LogHoldsKept kept.now cache.old.held) }
    requires hash { judged.now.hash ≡ transaction_hash judged.now.tx.now }
    ensures looked { HasOnlyRead D.content_of D.reads_as D.faults disk.old disk.new kept.now cache.old cache.new (stop_of result) }
{
    let mut store = Store::new(alloc, disk, &kept.tree, cache);
    transaction_over(alloc, kept, &mut store, state, judged)
}

/// The page of an item that was judged as a block, with the live cells of the tip.
pub(crate) fn block_on<D: Disk, L: Ledger>(
    alloc: Global,
    disk: &mut D,
    cache: &mut Cache,
    kept: &Kept,
    state: State,
    judged: &JudgedBlock<'_>,
    steps: &mut Steps<L>,
) -> Result<String, ReadStop>
    requires own { IfSome (D.reads_as disk.old) (LogHoldsKept kept.now cache.old.held) }
    ensures looked { HasOnlyRead D.content_of D.reads_as D.faults disk.old disk.new kept.now cache.old cache.new (stop_of result) }
{
    let mut store = Store::new(alloc, disk, &kept.tree, cache);
    block_over(alloc, kept, &mut store, state, judged, steps)
}

/// The same over a source of kept blocks.
fn block_over<B: Blocks, L: Ledger>(
    alloc: Global,
    kept: &Kept,
    blocks: &mut B,
    state: State,
    judged: &JudgedBlock<'_>,
    steps: &mut Steps<L>,
) -> Result<String, ReadStop>
    requires counts { B.count blocks.old ≡ length kept.now.chain.blocks }
    ensures read { HasRead B.told B.count B.loans_of B.faults B.damages blocks.old blocks.new (stop_of result) }
{
    let mut page = Page::new(alloc);
    match explain_item(alloc, &mut page, kept, blocks, state, judged, steps) {
        Ok(()) => {}
        Err(stop) => {
            drop(page);
            return Err(stop);
        }
    }
    match page.into_text() {
        Some(text) => Ok(text),
        None => Err(ReadStop::NoMemory),
    }
}

/// The page of a transaction over a source of kept blocks.
fn transaction_over<B: Blocks>(
    alloc: Global,
    kept: &Kept,
    blocks: &mut B,
    state: &State,
    judged: &Judged<'_, '_>,
) -> Result<String, ReadStop>
    requires counts { B.count blocks.old ≡ length kept.now.chain.blocks }
    requires hash { judged.now.hash ≡ transaction_hash judged.now.tx.now }
    ensures read { HasRead B.told B.count B.loans_of B.faults B.damages blocks.old blocks.new (stop_of result) }
{
    let spec = &kept.spec;
    let site = Site {
        spec,
        tree: &kept.tree,
        parent: kept.tree.tip(),
        cells: state,
        own: None,
        left: spec.max_cycles,
    };
    let mut page = Page::new(alloc);
    if let Some(rule) = judged.rule {
        push_rule(&mut page, rule);
    }
    match explain(alloc, &mut page, &site, blocks, judged) {
        Ok(()) => {}
        Err(stop) => {
            drop(page);
            return Err(stop);
        }
    }
    match page.into_text() {
        Some(text) => Ok(text),
        None => Err(ReadStop::NoMemory),
    }
}
