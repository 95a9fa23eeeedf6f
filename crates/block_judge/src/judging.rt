// A block judged by all rules, and a transaction judged alone.
ghost use Rattle.std.specs.Prelude.{◌≡◌, ◌-◌, ◌<◌, ◌≤◌, List, Option, Some, Err, IfOk, IsTrue, length, map};
ghost use Rattle.chain_defs.specs.Schema.{OutPoint};
ghost use Rattle.chain_defs.specs.Branch.{branch};
ghost use Rattle.chain_defs.specs.Hashes.{transaction_hash};
ghost use Rattle.chain_tree.specs.Told.{Stored, blocks_of};
ghost use Rattle.chain_tree.specs.Reading.{HasRead};
ghost use Rattle.chain_defs.specs.Cell.{Cell};
ghost use Rattle.rule_defs.specs.Cellbase as rules;
ghost use Rattle.rule_defs.specs.TransactionRules.{has_form};
ghost use Rattle.tx_rules.specs.At.{spends_rows};
ghost use Rattle.chain_tree.specs.Blocks.{IsParent};
ghost use Rattle.chain_defs.specs.Dao.{is_rated};
ghost use Rattle.rule_defs.specs.Site.{site_after};
ghost use Rattle.rule_defs.specs.RuleNumber.{rule_number};
ghost use Rattle.verdict_defs.specs.Judged.{judged_alone};
ghost use Rattle.block_judge.specs.declared.stop.JudgeStop.TheVariants.{Broken};
ghost use Rattle.block_judge.specs.Answers.{Answers, JudgesBlock, PaysAndTakes};
ghost use Rattle.block_judge.specs.ByRows.{SaysByForm, SaysByRows, AgreeOnLive};
ghost use Rattle.block_judge.specs.Standing.{IsTried, IsTriedAlone, ContextStandsFor, ContextStandsForAll, seen};
ghost use Rattle.block_judge.specs.Stops.{read_stop_of};

use crate::all_transactions::judge_transactions;
use crate::cellbase::forms_cellbase;
use crate::context::Context;
use crate::ending::judge_end;
use crate::stop::JudgeStop;
use crate::transactions::{Turn, judge_transaction};
use cell_state::{Cells, Ext};
use chain_tree::Blocks;
use mol_schema::{BlockView, TxView};
use rule_defs::Rule;
use std::alloc::Global;
use tx_rules::{JudgedTx, TxAt};
use view_hashes::transaction_hash;

/// Judges a block that has passed at sight, by J17 over the live cells and by J18 to J32: the first rule that it breaks, or
/// its ext. The hashes are those of its transactions, as `judge_at_sight` answers them. The cells are those of the parent's
/// branch, whichever the tip is on. Damaged where a kept block, or a row of the cells, is not what the tree and the branch
/// say, which never comes over blocks that tell them.
pub fn judge<C: Cells, B: Blocks>(
    alloc: Global,
    context: &Context<'_, C>,
    blocks: &mut B,
    block: &BlockView<'_>,
    hashes: &[[u8; 32]],
) -> Result<Ext, JudgeStop>
    requires placed { IsParent context.now.tree.now.entries context.now.parent }
    requires counts { B.count blocks.old ≡ length context.now.tree.now.entries }
    requires hashes { hashes.now ≡ map transaction_hash block.now.transactions }
    requires some { 0 < length block.now.transactions }
    ensures read { HasRead B.told B.count B.loans_of B.faults B.damages blocks.old blocks.new (read_stop_of result) }
    ensures tried { (rule : Rule) → result ≡ Err (Broken rule) → IsTried (rule_number rule) }

    // Over any source of blocks: J17; a fee for each transaction after the cellbase; and a DAO field that later ones can be reckoned by.
    ensures by_rows { (live : OutPoint → Option Cell) → AgreeOnLive (C.rows context.now.cells.now) live
        → SaysByForm (rules.forms_cellbase live block.now) result }
    ensures fees { IfOk result (λ ext. length ext.fees ≡ length block.now.transactions - 1) }
    ensures rated { IfOk result (λ _. IsTrue (is_rated block.now.header.dao)) }

    // Over kept blocks that are known with their own fees, with the cells of the parent's branch: J17 to J32, which are all rules on one that has passed at sight.
    ensures exact { (stored : List Stored) → B.told blocks.old ≡ Some stored → ContextStandsForAll stored (seen C.rows context.now)
        → JudgesBlock (blocks_of stored) (seen C.rows context.now) block.now result }
{
    if !forms_cellbase(context.cells, block, hashes) {
        return Err(JudgeStop::Broken(Rule::CellbaseForm));
    }
    let outcome = match judge_transactions(alloc, context, blocks, block, hashes) {
        Ok(outcome) => outcome,
        Err(stop) => return Err(stop),
    };
    match judge_end(alloc, context, blocks, block, &outcome) {
        Ok(()) => Ok(outcome.ext),
        Err(stop) => {
            drop(outcome);
            Err(stop)
        }
    }
}

/// Judges a transaction alone, at the height after the parent and under the edition of that height, by J18 and J20 to J30 with all cycles of a block: its fee
/// in shannons and the cycles that its scripts take. Damaged as `judge` is.
pub fn dry_run<C: Cells, B: Blocks>(
    alloc: Global,
    context: &Context<'_, C>,
    blocks: &mut B,
    tx: &TxView<'_>,
) -> Result<(u64, u64), JudgeStop>
    requires placed { IsParent context.now.tree.now.entries context.now.parent }
    requires counts { B.count blocks.old ≡ length context.now.tree.now.entries }
    ensures read { HasRead B.told B.count B.loans_of B.faults B.damages blocks.old blocks.new (read_stop_of result) }
    ensures tried { (rule : Rule) → result ≡ Err (Broken rule) → IsTriedAlone (rule_number rule) }

    // Over any source of blocks: J18 and J20, and no more cycles than those of a block.
    ensures by_rows { SaysByRows (has_form tx.now) (spends_rows (C.rows context.now.cells.now) tx.now) result }
    ensures within { IfOk result (λ it. it.1 ≤ context.now.spec.now.max_cycles) }

    // Over kept blocks that are known, with the cells of the parent's branch.
    ensures exact { (stored : List Stored) → B.told blocks.old ≡ Some stored → ContextStandsFor stored (seen C.rows context.now)
        → Answers PaysAndTakes (judged_alone (site_after context.now.spec.now (branch (blocks_of stored) context.now.parent)) context.now.spec.now.max_cycles tx.now) result }
{
    let spec = context.spec;
    let at = TxAt {
        spec,
        tree: context.tree,
        parent: context.parent,
        block: None,
    };
    let judged = JudgedTx {
        tx,
        hash: transaction_hash(tx),
        proposed: true,
    };
    let turn = Turn {
        left: spec.max_cycles,
        before: Vec::new(alloc),
    };
    match judge_transaction(alloc, &judged, &at, context.cells, blocks, turn) {
        Ok(passed) => Ok((passed.fee, passed.cycles)),
        Err(stop) => Err(stop),
    }
}
