// J18 to J30 in a block: its transactions are judged one after the other, up to the one that breaks a rule.
ghost use Rattle.std.specs.Prelude.{◌≡◌, ◌^◌, ◌<◌, ◌≤◌, IfOk, IfSome, length};
ghost use Rattle.chain_defs.specs.Hashes.{transaction_hash as hash_of};
ghost use Rattle.chain_tree.specs.Blocks.{IsParent};
ghost use Rattle.chain_tree.specs.Reading.{HasRead, stop_of};

use block_judge::{BlockCells, BlockSoFar, Context, JudgeStop, PassedTransaction, judge_appended};
use cell_state::Cells;
use chain_tree::Blocks;
use mol_schema::{BlockView, TxView};
use outside::{NoMemory, ReadStop};
use proposal_window::Proposed;
use std::alloc::Global;
use transaction_page::{Judged, OwnBlock, Page, Site, explain};
use view_hashes::{proposal_id, transaction_hash};

/// A block on its kept parent that was judged: the rule that it breaks, and the group whose page is asked for.
#[derive(Clone, Copy)]
pub(crate) struct OnParent<'b, 'a> {
    pub(crate) block: &'b BlockView<'a>,
    pub(crate) rule: u8,
    pub(crate) asked: Option<u32>,
}

/// The transactions of a block, with the ids that are proposed for it.
#[derive(Drop)]
struct Way<'w, 'b, 'a> {
    on: &'w OnParent<'b, 'a>,
    transactions: &'w [TxView<'a>],
    proposed: &'w Proposed,
}

/// What the transactions of a block leave and come to so far: cycles, the interest that they withdraw, and what the cells
/// occupy that they spend, in shannons.
#[derive(Clone, Copy)]
pub(crate) struct Progress {
    left: u64,
    pub(crate) interest: i128,
    pub(crate) freed: u128,
}

/// The next transaction of a block, with its hash, and those before it.
#[derive(Clone, Copy)]
struct Next<'w, 'a> {
    tx: &'w TxView<'a>,
    hash: [u8; 32],
    before: &'w [TxView<'a>],
}

/// Its transactions, in their order.
fn transactions_of<'a>(alloc: Global, block: &BlockView<'a>) -> Result<Vec<TxView<'a>>, NoMemory> {
    let mut list = Vec::new(alloc);
    'transactions: for i in 0..block.transactions_count() {
        list.push(block.transactions_item(i))?;
    }
    Ok(list)
}

/// Goes through the transactions of a block, and explains the first that breaks its rule, where it is one of J18 to J30. Where
/// none does: what they come to.
pub(crate) fn explain_transactions<C: Cells, B: Blocks>(
    alloc: Global,
    page: &mut Page,
    context: &Context<'_, C>,
    blocks: &mut B,
    on: &OnParent<'_, '_>,
) -> Result<Option<Progress>, ReadStop>
    requires placed { IsParent context.now.tree.now.entries context.now.parent }
    requires counts { B.count blocks.old ≡ length context.now.tree.now.entries }
    ensures read { HasRead B.told B.count B.loans_of B.faults B.damages blocks.old blocks.new (stop_of result) }
{
    let tree = context.tree;
    let height = tree.entry(context.parent).number + 1;
    let proposed = match Proposed::of(alloc, context.spec, tree, blocks, context.parent, height) {
        Ok(proposed) => proposed,
        Err(stop) => return Err(stop),
    };
    let transactions = match transactions_of(alloc, on.block) {
        Ok(transactions) => transactions,
        Err(NoMemory) => {
            drop(proposed);
            return Err(ReadStop::NoMemory);
        }
    };
    let mut cells = BlockCells::of(alloc, context.cells);
    let way = Way {
        on,
        transactions: &transactions,
        proposed: &proposed,
    };
    let came = walk(alloc, page, context, &way, &mut cells, blocks);
    drop((cells, transactions, proposed));
    came
}

fn walk<C: Cells, B: Blocks>(
    alloc: Global,
    page: &mut Page,
    context: &Context<'_, C>,
    way: &Way<'_, '_, '_>,
    cells: &mut BlockCells<'_, C>,
    blocks: &mut B,
) -> Result<Option<Progress>, ReadStop>
    requires placed { IsParent context.now.tree.now.entries context.now.parent }
    requires counts { B.count blocks.old ≡ length context.now.tree.now.entries }
    ensures read { HasRead B.told B.count B.loans_of B.faults B.damages blocks.old blocks.new (stop_of result) }
{
    let spec = context.spec;
    let mut so_far = Progress {
        left: spec.max_cycles,
        interest: 0,
        freed: 0,
    };
    'transactions: for i in 0..way.transactions.len() {
        let tx = &way.transactions[i];
        let next = Next {
            tx,
            hash: transaction_hash(tx),
            before: &way.transactions[..i],
        };
        match go_past(alloc, page, context, way, &next, cells, blocks, so_far) {
            Ok(Some(after)) => so_far = after,
            Ok(None) => return Ok(None),
            Err(stop) => return Err(stop),
        }
        let Ok(place) = u32::try_from(i) else {
            return Err(ReadStop::NoMemory);
        };
        match cells.take(tx, &next.hash, place, context.tree.len()) {
            Ok(()) => {}
            Err(_) => return Err(ReadStop::NoMemory),
        }
    }
    Ok(Some(so_far))
}

/// Judges the next transaction, and explains it where it breaks a rule. The cellbase breaks none of these.
fn go_past<C: Cells, B: Blocks>(
    alloc: Global,
    page: &mut Page,
    context: &Context<'_, C>,
    way: &Way<'_, '_, '_>,
    next: &Next<'_, '_>,
    cells: &BlockCells<'_, C>,
    blocks: &mut B,
    so_far: Progress,
) -> Result<Option<Progress>, ReadStop>
    requires hash { next.now.hash ≡ hash_of next.now.tx.now }
    requires left { so_far.left ≤ 2 ^ 40 }
    requires placed { IsParent context.now.tree.now.entries context.now.parent }
    requires counts { B.count blocks.old ≡ length context.now.tree.now.entries }
    ensures left { IfOk result (λ after. IfSome after (λ it. it.left ≤ 2 ^ 40)) }
    ensures read { HasRead B.told B.count B.loans_of B.faults B.damages blocks.old blocks.new (stop_of result) }
{
    if next.before.is_empty() {
        return Ok(Some(so_far));
    }
    let passed = match judge_next(alloc, context, way, next, cells, blocks, so_far) {
        Ok(passed) => passed,
        Err(stop) => return Err(stop),
    };
    if let Some(after) = passed {
        return Ok(Some(after));
    }
    push_transaction(page, next);
    match explain_next(alloc, page, context, way, next, cells, blocks, so_far.left) {
        Ok(()) => Ok(None),
        Err(stop) => Err(stop),
    }
}

/// Judges the next transaction: what the block's come to with it, where it keeps its rules.
fn judge_next<C: Cells, B: Blocks>(
    alloc: Global,
    context: &Context<'_, C>,
    way: &Way<'_, '_, '_>,
    next: &Next<'_, '_>,
    cells: &BlockCells<'_, C>,
    blocks: &mut B,
    so_far: Progress,
) -> Result<Option<Progress>, ReadStop>
    requires hash { next.now.hash ≡ hash_of next.now.tx.now }
    requires left { so_far.left ≤ 2 ^ 40 }
    requires placed { IsParent context.now.tree.now.entries context.now.parent }
    requires counts { B.count blocks.old ≡ length context.now.tree.now.entries }
    ensures left { IfOk result (λ after. IfSome after (λ it. it.left ≤ 2 ^ 40)) }
    ensures read { HasRead B.told B.count B.loans_of B.faults B.damages blocks.old blocks.new (stop_of result) }
{
    if !way.proposed.contains(&proposal_id(&next.hash)) {
        return Ok(None);
    }
    let block = BlockSoFar {
        timestamp: way.on.block.header().timestamp(),
        transactions: next.before,
        cells,
        left: so_far.left,
    };
    match judge_appended(alloc, context, &block, blocks, next.tx, next.hash) {
        Ok(passed) => {
            let after = so_far.after(&passed);
            drop(passed);
            Ok(Some(after))
        }
        Err(JudgeStop::Broken(_)) => Ok(None),
        Err(JudgeStop::Read(stop)) => Err(stop),
    }
}

/// Appends which of the block's transactions it is.
fn push_transaction(page: &mut Page, next: &Next<'_, '_>) {
    page.add("place transaction ");
    page.count(next.before.len());
    page.add(", ");
    page.bytes(&next.hash);
    page.add("\n");
}

/// Explains the next transaction, which breaks the block's rule.
fn explain_next<C: Cells, B: Blocks>(
    alloc: Global,
    page: &mut Page,
    context: &Context<'_, C>,
    way: &Way<'_, '_, '_>,
    next: &Next<'_, '_>,
    cells: &BlockCells<'_, C>,
    blocks: &mut B,
    left: u64,
) -> Result<(), ReadStop>
    requires hash { next.now.hash ≡ hash_of next.now.tx.now }
    requires left { left ≤ 2 ^ 40 }
    requires placed { IsParent context.now.tree.now.entries context.now.parent }
    requires counts { B.count blocks.old ≡ length context.now.tree.now.entries }
    ensures read { HasRead B.told B.count B.loans_of B.faults B.damages blocks.old blocks.new (stop_of result) }
{
    let site = Site {
        spec: context.spec,
        tree: context.tree,
        parent: context.parent,
        cells,
        own: Some(OwnBlock {
            timestamp: way.on.block.header().timestamp(),
            before: next.before,
            all: way.transactions,
        }),
        left,
    };
    let judged = Judged {
        tx: next.tx,
        hash: next.hash,
        rule: Some(way.on.rule),
        asked: way.on.asked,
    };
    explain(alloc, page, &site, blocks, &judged)
}

impl Progress {
    /// With a transaction more.
    fn after(self, passed: &PassedTransaction) -> Progress
        ensures { self.left ≤ 2 ^ 40 → result.left ≤ 2 ^ 40 }
    {
        Progress {
            left: self.left.saturating_sub(passed.cycles),
            interest: self.interest.saturating_add(passed.interest),
            freed: self.freed.saturating_add(passed.freed),
        }
    }
}
