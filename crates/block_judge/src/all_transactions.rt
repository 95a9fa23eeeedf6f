// J18 to J30: the transactions of a block, one after the other.
ghost use Rattle.std.specs.Prelude.{◌≡◌, ◌+◌, ◌-◌, ◌<◌, ◌^◌, ◌≤◌, ◌++◌, ◌∷◌, [], ℕ, nat_lt, pos, List, Some, Err, IfOk, OnOk, length, map};
ghost use Rattle.std.specs.List.{All, filter};
ghost use Rattle.chain_defs.specs.Schema.{OutPoint};
ghost use Rattle.chain_defs.specs.Hashes.{transaction_hash};
ghost use Rattle.chain_tree.specs.Told.{Stored, blocks_of};
ghost use Rattle.chain_tree.specs.Reading.{HasRead};
ghost use Rattle.chain_defs.specs.Events.{events_of};
ghost use Rattle.chain_defs.specs.Row.{row_after};
ghost use Rattle.rule_defs.specs.Site.{Site};
ghost use Rattle.tx_rules.specs.At.{IsAtParent, IsSiteOf};
ghost use Rattle.chain_tree.specs.Blocks.{IsParent};
ghost use Rattle.tx_rules.specs.Copying.{ServesAgain, row_in};
ghost use Rattle.verdict_defs.specs.Judged.{judged_transactions, judged_where};
ghost use Rattle.rule_defs.specs.RuleNumber.{rule_number};
ghost use Rattle.rule_defs.specs.declared.rule.Rule.{Rule};
ghost use Rattle.block_judge.specs.declared.stop.JudgeStop.TheVariants.{Broken};
ghost use Rattle.block_judge.specs.Answers.{Answers, AddsAnswered, IsOutcomeOf, AddsJudged};
ghost use Rattle.block_judge.specs.BlockCells.{rows_in};
ghost use Rattle.block_judge.specs.Progress.{AreFew, CanMove};
ghost use Rattle.block_judge.specs.Standing.{IsTriedOnTransaction, ContextStandsFor, seen};
ghost use Rattle.block_judge.specs.Stops.{read_stop_of};

use crate::block_cells::BlockCells;
use crate::context::Context;
use crate::known::hash_of;
use crate::spent::push_spent;
use crate::stop::JudgeStop;
use crate::transactions::{PassedTransaction, Turn, judge_transaction};
use cell_state::{Cells, Ext, Resolved};
use chain_tree::Blocks;
use mol_schema::{BlockView, TxView};
use outside::{NoMemory, ReadStop};
use proposal_window::Proposed;
use std::alloc::Global;
use std::mem;
use tx_rules::{JudgedTx, Own, TxAt};
use view_hashes::proposal_id;

/// What the transactions of a block come to: their ext, the interest that they withdraw and what the cells occupy that
/// they spend, in shannons.
#[derive(Drop)]
pub(crate) struct Outcome {
    pub(crate) ext: Ext,
    pub(crate) interest: i128,
    pub(crate) freed: u128,
}

/// What the transactions of a block so far leave: the cells that the next one sees, the cycles, what they come to, and the
/// copies that the last one made of the cells of its deps.
#[derive(Drop)]
struct Progress<'a, C: Cells> {
    cells: BlockCells<'a, C>,
    left: u64,
    ext: Ext,
    interest: i128,
    freed: u128,
    deps: Vec<Resolved>,
}

/// Puts a fee after those that are there.
fn push_fee(fees: &mut Vec<u64>, fee: u64) -> Result<(), NoMemory>
    ensures { OnOk result (fees.new.items ≡ fees.old.items ++ fee ∷ []) }
{
    fees.push(fee)?;
    Ok(())
}

/// Puts what an ext has of a transaction after what is there: its fee, and the rows of its inputs that kept blocks made,
/// of which there are `e`.
fn push_ext(ext: &mut Ext, passed: &PassedTransaction, e: u32) -> Result<(), NoMemory>
    ensures fees { OnOk result (ext.new.fees ≡ ext.old.fees ++ passed.now.fee ∷ []) }
    ensures spent { OnOk result (ext.new.spent ≡ ext.old.spent ++ filter (λ it. nat_lt it.1.block e) (map row_in passed.now.inputs.items)) }
{
    push_fee(&mut ext.fees, passed.fee)?;
    push_spent(&mut ext.spent, &passed.inputs, e)
}

impl<'a, C: Cells> Progress<'a, C> {
    /// That of the cellbase alone, which comes with its hash: it takes no cycles, and the ext has nothing of it.
    fn after_cellbase(
        alloc: Global,
        cellbase: &TxView<'_>,
        hash: &[u8; 32],
        at: &TxAt<'_, '_, '_>,
        cells: &'a C,
    ) -> Result<Progress<'a, C>, NoMemory>
        requires hash { hash.now ≡ transaction_hash cellbase.now }
        ensures left { IfOk result (λ progress. progress.left ≡ at.now.spec.max_cycles) }
        ensures few { IfOk result (λ progress. progress.left ≤ 2 ^ 40) }
        ensures fees { IfOk result (λ progress. progress.ext.fees ≡ []) }
        ensures spent { IfOk result (λ progress. progress.ext.spent ≡ []) }
        ensures interest { IfOk result (λ progress. progress.interest ≡ pos 0) }
        ensures freed { IfOk result (λ progress. progress.freed ≡ 0) }
        ensures deps { IfOk result (λ progress. progress.deps.items ≡ []) }
        ensures rows { IfOk result (λ progress. (height : ℕ) (o : OutPoint) → 0 < height
            → rows_in C.rows progress.cells o ≡ row_after (length at.now.entries) (events_of cellbase.now height 0) (C.rows cells.now) o) }
    {
        let spec = at.spec;
        let mut cells = BlockCells::of(alloc, cells);
        cells.take(cellbase, hash, 0, at.tree.len())?;
        Ok(Progress {
            cells,
            left: spec.max_cycles,
            ext: Ext {
                fees: Vec::new(alloc),
                spent: Vec::new(alloc),
            },
            interest: 0,
            freed: 0,
            deps: Vec::new(alloc),
        })
    }

    /// Takes what a transaction at a place after the cellbase does, which keeps its rules.
    fn take(
        &mut self,
        tx: &TxView<'_>,
        hash: &[u8; 32],
        passed: &PassedTransaction,
        place: u32,
        e: u32,
    ) -> Result<(), NoMemory>
        requires hash { hash.now ≡ transaction_hash tx.now }
        requires cycles { passed.now.cycles ≤ self.old.left }
        requires few { AreFew place self.old.left self.old.interest self.old.freed }
        requires moves { CanMove 1 passed.now.interest passed.now.freed }
        ensures moved { OnOk result (CanMove (place + 1) self.new.interest self.new.freed) }
        ensures taken { OnOk result (AddsAnswered e passed.now self.old self.new) }
        ensures within { self.new.left ≤ self.old.left }
        ensures rows { OnOk result ((height : ℕ) (o : OutPoint) → 0 < height
            → rows_in C.rows self.new.cells o ≡ row_after e (events_of tx.now height place) (rows_in C.rows self.old.cells) o) }
    {
        self.cells.take(tx, hash, place, e)?;
        push_ext(&mut self.ext, passed, e)?;
        self.left -= passed.cycles;
        self.interest += passed.interest;
        self.freed += passed.freed;
        Ok(())
    }

    /// Judges the next transaction, which is at a place after the cellbase, and takes what it does.
    fn judge_next<B: Blocks>(
        &mut self,
        alloc: Global,
        judged: &JudgedTx<'_, '_>,
        at: &TxAt<'_, '_, '_>,
        blocks: &mut B,
        place: u32,
    ) -> Result<(), JudgeStop>
        requires placed { IsAtParent at.now }
        requires hash { judged.now.hash ≡ transaction_hash judged.now.tx.now }
        requires few { AreFew place self.old.left self.old.interest self.old.freed }
        requires counts { B.count blocks.old ≡ length at.now.entries }
        requires deps { All (ServesAgain (B.told blocks.old) at.now) self.old.deps.items }
        ensures read { HasRead B.told B.count B.loans_of B.faults B.damages blocks.old blocks.new (read_stop_of result) }
        ensures rule { (rule : Rule) → result ≡ Err (Broken rule) → IsTriedOnTransaction (rule_number rule) }
        ensures within { self.new.left ≤ self.old.left }
        ensures moved { OnOk result (CanMove (place + 1) self.new.interest self.new.freed) }
        ensures fees { OnOk result (length self.new.ext.fees ≡ length self.old.ext.fees + 1) }
        ensures rows { OnOk result ((height : ℕ) (o : OutPoint) → 0 < height
            → rows_in C.rows self.new.cells o ≡ row_after (length at.now.entries) (events_of judged.now.tx.now height place) (rows_in C.rows self.old.cells) o) }
        ensures deps { OnOk result (All (ServesAgain (B.told blocks.old) at.now) self.new.deps.items) }

        // At the site that its cells make.
        ensures exact { (stored : List Stored) (site : Site) → B.told blocks.old ≡ Some stored
            → IsSiteOf stored at.now (rows_in C.rows self.old.cells) site
            → Answers (λ is _. AddsJudged (blocks_of stored) at.now.parent site is self.old self.new)
            (judged_where judged.now.proposed site self.old.left judged.now.tx.now) result }
    {
        let turn = Turn {
            left: self.left,
            before: mem::replace(&mut self.deps, Vec::new(alloc)),
        };
        let passed = match judge_transaction(alloc, judged, at, &self.cells, blocks, turn) {
            Ok(passed) => passed,
            Err(stop) => return Err(stop),
        };
        match self.take(judged.tx, &judged.hash, &passed, place, at.tree.len()) {
            Ok(()) => {}
            Err(_) => return Err(JudgeStop::Read(ReadStop::NoMemory)),
        }
        self.deps = passed.deps;
        Ok(())
    }
}

/// Judges the transactions of a block after its cellbase, by J18 to J30: the first rule that one of them breaks, or the
/// block's ext. Where there are any, the proposal window is read once.
pub(crate) fn judge_transactions<C: Cells, B: Blocks>(
    alloc: Global,
    context: &Context<'_, C>,
    blocks: &mut B,
    block: &BlockView<'_>,
    hashes: &[[u8; 32]],
) -> Result<Outcome, JudgeStop>
    requires placed { IsParent context.now.tree.now.entries context.now.parent }
    requires counts { B.count blocks.old ≡ length context.now.tree.now.entries }
    requires some { 0 < length block.now.transactions }
    requires hashes { hashes.now ≡ map transaction_hash block.now.transactions }
    ensures read { HasRead B.told B.count B.loans_of B.faults B.damages blocks.old blocks.new (read_stop_of result) }
    ensures rule { (rule : Rule) → result ≡ Err (Broken rule) → IsTriedOnTransaction (rule_number rule) }
    ensures fees { IfOk result (λ it. length it.ext.fees ≡ length block.now.transactions - 1) }
    ensures exact { (stored : List Stored) → B.told blocks.old ≡ Some stored → ContextStandsFor stored (seen C.rows context.now)
        → Answers IsOutcomeOf (judged_transactions context.now.spec.now (blocks_of stored) context.now.parent block.now) result }
{
    let count = block.transactions_count();
    if count == 1 {
        return Ok(Outcome {
            ext: Ext {
                fees: Vec::new(alloc),
                spent: Vec::new(alloc),
            },
            interest: 0,
            freed: 0,
        });
    }
    let at = TxAt {
        spec: context.spec,
        tree: context.tree,
        parent: context.parent,
        block: Some(Own::of_block(BlockView::from_encoding(block.bytes()))),
    };
    let proposed = match Proposed::of(
        alloc,
        context.spec,
        context.tree,
        blocks,
        context.parent,
        at.height(),
    ) {
        Ok(proposed) => proposed,
        Err(stop) => return Err(JudgeStop::Read(stop)),
    };
    let cellbase = block.transactions_item(0);
    let hash = hash_of(block, hashes, &cellbase, 0);
    let mut progress = match Progress::after_cellbase(alloc, &cellbase, &hash, &at, context.cells) {
        Ok(progress) => progress,
        Err(_) => return Err(JudgeStop::Read(ReadStop::NoMemory)),
    };
    'later: for place in 1..count {
        let tx = block.transactions_item(place);
        let hash = hash_of(block, hashes, &tx, place);
        let judged = JudgedTx {
            tx: &tx,
            hash,
            proposed: proposed.contains(&proposal_id(&hash)),
        };
        match progress.judge_next(alloc, &judged, &at, blocks, place as u32) {
            Ok(()) => {}
            Err(stop) => {
                drop(progress);
                return Err(stop);
            }
        }
    }
    Ok(Outcome {
        ext: progress.ext,
        interest: progress.interest,
        freed: progress.freed,
    })
}
