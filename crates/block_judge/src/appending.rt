// J18 and J20 to J30: a transaction put at the end of those that stand in a block so far.
ghost use Rattle.std.specs.Prelude.{◌≡◌, ◌≤◌, ◌^◌, List, Some, Err, IfOk, length};
ghost use Rattle.chain_defs.specs.Branch.{branch};
ghost use Rattle.chain_defs.specs.Hashes.{transaction_hash};
ghost use Rattle.chain_tree.specs.Blocks.{IsParent};
ghost use Rattle.chain_tree.specs.Told.{Stored, blocks_of};
ghost use Rattle.chain_tree.specs.Reading.{HasRead};
ghost use Rattle.rule_defs.specs.TransactionRules.{has_form};
ghost use Rattle.tx_rules.specs.At.{spends_rows};
ghost use Rattle.verdict_defs.specs.Judged.{judged_alone};
ghost use Rattle.rule_defs.specs.RuleNumber.{rule_number};
ghost use Rattle.rule_defs.specs.declared.rule.Rule.{Rule};
ghost use Rattle.block_judge.specs.declared.stop.JudgeStop.TheVariants.{Broken};
ghost use Rattle.block_judge.specs.Answers.{Answers, FitsWithin, IsPassed};
ghost use Rattle.block_judge.specs.Appending.{SeesSoFar, at_next, next_site, so_far_seen};
ghost use Rattle.block_judge.specs.ByRows.{SaysByRows};
ghost use Rattle.block_judge.specs.Inputs.{AreInputsOf};
ghost use Rattle.block_judge.specs.Standing.{IsTriedAlone, seen};
ghost use Rattle.block_judge.specs.Stops.{read_stop_of};

use crate::context::Context;
use crate::stop::JudgeStop;
use crate::transactions::{PassedTransaction, Turn, judge_transaction};
use cell_state::Cells;
use chain_tree::Blocks;
use mol_schema::TxView;
use std::alloc::Global;
use tx_rules::{JudgedTx, Own, TxAt};

/// A block that is made, so far: its timestamp in milliseconds, its transactions, the cellbase first, and what these leave,
/// which is the cells that the next one sees, as [`BlockCells`](crate::BlockCells) has them, and the cycles.
#[derive(Drop)]
pub struct BlockSoFar<'a, 'b, S> {
    pub timestamp: u64,
    pub transactions: &'a [TxView<'b>],
    pub cells: &'a S,
    pub left: u64,
}

/// Judges a transaction, which comes with its hash, as the next one of a block on the context's parent that has these so far:
/// by J18 and J20 to J30. Damaged as `judge` is.
pub fn judge_appended<C: Cells, S: Cells, B: Blocks>(
    alloc: Global,
    context: &Context<'_, C>,
    so_far: &BlockSoFar<'_, '_, S>,
    blocks: &mut B,
    tx: &TxView<'_>,
    hash: [u8; 32],
) -> Result<PassedTransaction, JudgeStop>
    requires placed { IsParent context.now.tree.now.entries context.now.parent }
    requires counts { B.count blocks.old ≡ length context.now.tree.now.entries }
    requires hash { hash ≡ transaction_hash tx.now }
    requires left { so_far.now.left ≤ 2 ^ 40 }
    ensures read { HasRead B.told B.count B.loans_of B.faults B.damages blocks.old blocks.new (read_stop_of result) }
    ensures tried { (rule : Rule) → result ≡ Err (Broken rule) → IsTriedAlone (rule_number rule) }
    ensures fits { IfOk result (FitsWithin so_far.now.left) }

    // Over any source of blocks: J18 and J20, and the cells of its inputs.
    ensures by_rows { SaysByRows (has_form tx.now) (spends_rows (S.rows so_far.now.cells.now) tx.now) result }
    ensures copied { IfOk result (λ passed. AreInputsOf (B.told blocks.old) (at_next (seen C.rows context.now) (so_far_seen S.rows so_far.now)) tx.now passed.inputs.items) }

    // Over kept blocks that are known, with the cells after the transactions so far.
    ensures exact { (stored : List Stored) → B.told blocks.old ≡ Some stored → SeesSoFar stored (seen C.rows context.now) (so_far_seen S.rows so_far.now)
        → Answers (IsPassed (blocks_of stored) context.now.parent)
        (judged_alone (next_site context.now.spec.now (branch (blocks_of stored) context.now.parent) so_far.now.timestamp so_far.now.transactions.now)
        so_far.now.left tx.now) result }
{
    let at = TxAt {
        spec: context.spec,
        tree: context.tree,
        parent: context.parent,
        block: Some(Own::so_far(so_far.timestamp, so_far.transactions)),
    };
    let judged = JudgedTx {
        tx,
        hash,
        proposed: true,
    };
    let turn = Turn {
        left: so_far.left,
        before: Vec::new(alloc),
    };
    judge_transaction(alloc, &judged, &at, so_far.cells, blocks, turn)
}
