// J18 to J30: one transaction.
ghost use Rattle.std.specs.Prelude.{◌≡◌, ◌^◌, ◌<◌, ◌≤◌, true, List, Some, Err, IfOk, length};
ghost use Rattle.std.specs.List.{All, sum_by};
ghost use Rattle.chain_defs.specs.Hashes.{transaction_hash};
ghost use Rattle.chain_tree.specs.Told.{Stored, blocks_of};
ghost use Rattle.chain_tree.specs.Reading.{HasRead};
ghost use Rattle.rule_defs.specs.Site.{Site};
ghost use Rattle.rule_defs.specs.TransactionRules.{has_form};
ghost use Rattle.tx_rules.specs.At.{IsAtParent, IsSiteOf, spends_rows};
ghost use Rattle.tx_rules.specs.Copying.{ServesAgain};
ghost use Rattle.verdict_defs.specs.Judged.{judged_where};
ghost use Rattle.rule_defs.specs.RuleNumber.{rule_number};
ghost use Rattle.rule_defs.specs.declared.rule.Rule.{Rule};
ghost use Rattle.block_judge.specs.declared.stop.JudgeStop.TheVariants.{Broken};
ghost use Rattle.block_judge.specs.Answers.{Answers, FitsWithin, IsPassed};
ghost use Rattle.block_judge.specs.ByRows.{SaysByRows};
ghost use Rattle.block_judge.specs.Inputs.{AreInputsOf};
ghost use Rattle.block_judge.specs.Standing.{IsTriedAlone, IsTriedOnTransaction};
ghost use Rattle.block_judge.specs.Stops.{of_resolving, read_stop_of};

use crate::scripts::run_scripts;
use crate::stop::JudgeStop;
use cell_state::{Cells, Resolved};
use chain_tree::Blocks;
use mol_schema::TxView;
use std::alloc::Global;
use tx_rules::{JudgedTx, TxAt, TxStop, resolve};

/// A transaction that keeps its rules: its fee, the interest that it withdraws and what the cells occupy that it spends, in
/// shannons; the cycles of its scripts, and the cells of its inputs and of its resolved deps.
#[derive(Drop)]
pub struct PassedTransaction {
    pub fee: u64,
    pub interest: i128,
    pub freed: u128,
    pub cycles: u64,
    pub inputs: Vec<Resolved>,
    pub deps: Vec<Resolved>,
}

/// What a transaction finds when it is its turn: the cycles that are left, and the copies that one before it at the same
/// place made of the cells of its deps.
#[derive(Drop)]
pub(crate) struct Turn {
    pub(crate) left: u64,
    pub(crate) before: Vec<Resolved>,
}

/// What the cells of a transaction's inputs occupy, in shannons. It has below 2^32 of them.
fn freed_with(tx: &TxView<'_>, inputs: &[Resolved]) -> u128
    requires each { length inputs.now ≡ length tx.now.raw.inputs }
    ensures freed { result ≡ sum_by (λ input. input.row.occupied) inputs.now }
    ensures fits { result < 2 ^ 96 }
{
    let mut freed: u128 = 0;
    'inputs: for i in 0..tx.raw().inputs_count() {
        let input = &inputs[i];
        freed += u128::from(input.meta.occupied);
    }
    freed
}

/// What a stop of resolving is answered as.
fn stopped(stop: TxStop) -> JudgeStop
    ensures { result ≡ of_resolving stop }
{
    match stop {
        TxStop::Broken(rule) => JudgeStop::Broken(rule),
        TxStop::Read(stop) => JudgeStop::Read(stop),
    }
}

/// Judges a transaction within so many cycles, by J18 to J30.
pub(crate) fn judge_transaction<C: Cells, B: Blocks>(
    alloc: Global,
    judged: &JudgedTx<'_, '_>,
    at: &TxAt<'_, '_, '_>,
    cells: &C,
    blocks: &mut B,
    turn: Turn,
) -> Result<PassedTransaction, JudgeStop>
    requires hash { judged.now.hash ≡ transaction_hash judged.now.tx.now }
    requires placed { IsAtParent at.now }
    requires left { turn.left ≤ 2 ^ 40 }
    requires counts { B.count blocks.old ≡ length at.now.entries }
    requires before { All (ServesAgain (B.told blocks.old) at.now) turn.before.items }
    ensures read { HasRead B.told B.count B.loans_of B.faults B.damages blocks.old blocks.new (read_stop_of result) }
    ensures fits { IfOk result (FitsWithin turn.left) }
    ensures rule { (rule : Rule) → result ≡ Err (Broken rule) → IsTriedOnTransaction (rule_number rule) }
    // J18 and J20, and the cells of its inputs, over any source of blocks.
    ensures by_rows { judged.now.proposed ≡ true → SaysByRows (has_form judged.now.tx.now) (spends_rows (C.rows cells.now) judged.now.tx.now) result }
    ensures copied { IfOk result (λ passed. AreInputsOf (B.told blocks.old) at.now judged.now.tx.now passed.inputs.items) }
    ensures alone { judged.now.proposed ≡ true → (rule : Rule) → result ≡ Err (Broken rule) → IsTriedAlone (rule_number rule) }
    // Over kept blocks that are known, at the site of the transaction.
    ensures exact { (stored : List Stored) (site : Site) → B.told blocks.old ≡ Some stored → IsSiteOf stored at.now (C.rows cells.now) site
        → Answers (IsPassed (blocks_of stored) at.now.parent) (judged_where judged.now.proposed site turn.left judged.now.tx.now) result }
    ensures again { IfOk result (λ passed. All (ServesAgain (B.told blocks.old) at.now) passed.deps.items) }
{
    let Turn { left, before } = turn;
    let ok = match resolve(alloc, judged, at, cells, blocks, before) {
        Ok(ok) => ok,
        Err(stop) => return Err(stopped(stop)),
    };
    let cycles = match run_scripts(alloc, at, &ok.resolved, blocks, left) {
        Ok(cycles) => cycles,
        Err(stop) => {
            // What was resolved is dropped by a call, which is one step of the proof; else each of its fields is one.
            drop(ok);
            return Err(stop);
        }
    };
    Ok(PassedTransaction {
        fee: ok.fee,
        interest: ok.interest,
        freed: freed_with(judged.tx, &ok.resolved.inputs),
        cycles,
        inputs: ok.resolved.inputs,
        deps: ok.resolved.deps,
    })
}
