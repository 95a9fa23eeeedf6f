// J28 to J30: the scripts of a transaction.
ghost use Rattle.std.specs.Prelude.{◌≡◌, ◌^◌, ◌≤◌, List, Option, Some, Err, IfOk, length};
ghost use Rattle.chain_defs.specs.Schema.{OutPoint};
ghost use Rattle.chain_defs.specs.Row.{Row};
ghost use Rattle.chain_tree.specs.Told.{Stored, blocks_of};
ghost use Rattle.chain_tree.specs.Reading.{HasRead};
ghost use Rattle.rule_defs.specs.Site.{Site};
ghost use Rattle.tx_rules.specs.At.{IsAtParent, IsSiteOf};
ghost use Rattle.tx_rules.specs.Outcome.{IsFormed, IsResolved};
ghost use Rattle.verdict_defs.specs.Scene.{scene_of};
ghost use Rattle.verdict_defs.specs.ScriptRules as rules;
ghost use Rattle.rule_defs.specs.RuleNumber.{rule_number};
ghost use Rattle.block_judge.specs.declared.stop.JudgeStop.TheVariants.{Broken};
ghost use Rattle.block_judge.specs.Answers.{Answers, AreCycles, judged_scripts};
ghost use Rattle.block_judge.specs.Standing.{IsScriptRule};
ghost use Rattle.block_judge.specs.Stops.{AnswersRunning, read_stop_of};

use crate::stop::JudgeStop;
use cell_state::ResolvedTx;
use chain_tree::Blocks;
use rule_defs::Rule;
use script_run::{ScriptStop, run_groups};
use std::alloc::Global;
use tx_rules::TxAt;
use verdict_defs::Failure;

/// The rule that a failure breaks.
fn rule_of(failure: Failure) -> Rule
    ensures { rule_number result ≡ rules.rule_of failure }
{
    match failure {
        Failure::NoCode(_) | Failure::ManyCodes(_) => Rule::ScriptCode,
        Failure::BadElf(_, _) | Failure::MachineFault(_, _) | Failure::ExitNot0(_, _) =>
            Rule::ScriptExit,
        Failure::Spent => Rule::Cycles,
    }
}

/// What a stop of the scripts is answered as.
fn stopped(stop: ScriptStop) -> JudgeStop
    ensures { AnswersRunning stop result }
{
    match stop {
        ScriptStop::Failed(failure) => JudgeStop::Broken(rule_of(failure)),
        ScriptStop::Read(stop) => JudgeStop::Read(stop),
    }
}

/// Runs the scripts of a transaction that was resolved, within so many cycles, and answers those that they take.
pub(crate) fn run_scripts<B: Blocks>(
    alloc: Global,
    at: &TxAt<'_, '_, '_>,
    resolved: &ResolvedTx<'_>,
    blocks: &mut B,
    left: u64,
) -> Result<u64, JudgeStop>
    requires placed { IsAtParent at.now }
    requires left { left ≤ 2 ^ 40 }
    requires counts { B.count blocks.old ≡ length at.now.entries }
    requires formed { IsFormed at.now.entries resolved.now.tx resolved.now }
    ensures read { HasRead B.told B.count B.loans_of B.faults B.damages blocks.old blocks.new (read_stop_of result) }
    ensures within { IfOk result (λ cycles. cycles ≤ left) }
    ensures rule { (rule : Rule) → result ≡ Err (Broken rule) → IsScriptRule (rule_number rule) }
    ensures exact { (stored : List Stored) (rows : OutPoint → Option Row) (site : Site) → B.told blocks.old ≡ Some stored → IsSiteOf stored at.now rows site
        → IsResolved (blocks_of stored) at.now.parent site resolved.now.tx resolved.now
        → Answers AreCycles (judged_scripts (scene_of site resolved.now.tx) left) result }
{
    let second = at.spec.is_second_at(at.height());
    match run_groups(alloc, at.spec, resolved, at.tree, blocks, left, second) {
        Ok(cycles) => Ok(cycles),
        Err(stop) => Err(stopped(stop)),
    }
}
