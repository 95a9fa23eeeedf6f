// All script groups of a transaction, one after the other.
ghost use Rattle.std.specs.Prelude.{◌≡◌, ◌^◌, ◌<◌, ◌≤◌, List, map, Some, None, Err, IfOk, IfSome, IsSome, length};
ghost use Rattle.std.specs.List.{All};
ghost use Rattle.outside.specs.declared.disk.Area.TheVariants.{Log};
ghost use Rattle.outside.specs.declared.disk.Damage.{Damage};
ghost use Rattle.outside.specs.declared.disk.ReadStop.TheVariants.{Damaged};
ghost use Rattle.program_run.specs.Program.{execution_of};
ghost use Rattle.chain_tree.specs.Told.{Stored};
ghost use Rattle.chain_tree.specs.Reading.{HasRead};
ghost use Rattle.verdict_defs.specs.Scene.{Scene};
ghost use Rattle.verdict_defs.specs.Outcome as defs;
ghost use Rattle.script_run.specs.Fitting as fitting;
ghost use Rattle.script_run.specs.Running.{ExitsWithin, IsOutcome, answer_of, read_stop_of};
ghost use Rattle.script_run.specs.Showing.{scene_shown};
ghost use Rattle.script_run.specs.Shown.{AreCodesIn, HasItsHash, codes_of};
ghost use Rattle.script_run.specs.declared.stop.ScriptStop.TheVariants.{Read};

use crate::codes::{Codes, Located};
use crate::groups::{Group, groups_of};
use crate::shown::ShownTx;
use crate::stop::ScriptStop;
use crate::type_id::{TYPE_ID_CYCLES, is_type_id, type_id_exit};
use crate::world::run_code;
use cell_state::ResolvedTx;
use chain_tree::{Blocks, Tree};
use epochs::Spec;
use machine_defs::Outcome;
use mol_schema::TxView;
use outside::{NoMemory, ReadStop};
use program_run::Execution;
use std::alloc::Global;
use verdict_defs::Failure;

/// Why the code of a group is not found. Of TYPE_ID none is looked for.
fn lacks_code(codes: &Codes<'_>, group: &Group<'_>, place: u32) -> Option<Failure>
    ensures { (scene : Scene) → AreCodesIn codes.now scene → result ≡ defs.has_no_code scene place group.now.group }
{
    if is_type_id(&group.script) {
        return None;
    }
    match codes.find(&group.script) {
        Located::NoCode => Some(Failure::NoCode(place)),
        Located::ManyCodes => Some(Failure::ManyCodes(place)),
        Located::At(_) => None,
    }
}

/// Why the code of the first group without one is not found.
pub(crate) fn first_without_code(codes: &Codes<'_>, groups: &[Group<'_>]) -> Option<Failure>
    requires few { length groups.now < 2 ^ 32 }
    ensures { (scene : Scene) → AreCodesIn codes.now scene → result ≡ defs.first_without_code scene 0 (map (λ it. it.group) groups.now) }
{
    'groups: for i in 0..groups.len() {
        if let Some(failure) = lacks_code(codes, &groups[i], i as u32) {
            return Some(failure);
        }
    }
    None
}

/// The cycles of a group that exited, which fails unless its code is 0.
fn exited(place: u32, code: i8, cycles: u64) -> Result<u64, Failure>
    ensures exact { result ≡ defs.exited place code cycles }
    ensures cycles { IfOk result (λ taken. taken ≡ cycles) }
{
    if code == 0 {
        Ok(cycles)
    } else {
        Err(Failure::ExitNot0(place, code))
    }
}

/// What came of the code of a group.
fn executed(place: u32, came: Execution, left: u64) -> Result<u64, Failure>
    requires within { ExitsWithin left came }
    ensures exact { result ≡ defs.executed place (execution_of came) }
    ensures within { IfOk result (λ cycles. cycles ≤ left) }
{
    match came {
        Execution::BadElf(condition) => Err(Failure::BadElf(place, condition)),
        Execution::Ended { outcome, cycles } => match outcome {
            Outcome::Exit(code) => exited(place, code, cycles),
            Outcome::Fault(number) => Err(Failure::MachineFault(place, number)),
            Outcome::Spent => Err(Failure::Spent),
        },
    }
}

/// TYPE_ID, of a group whose script it is.
#[tactic(auto, unfolding(verdict_defs::specs::TypeId::type_id_cycles))]
fn run_type_id(tx: &TxView<'_>, group: &Group<'_>, place: u32, left: u64) -> Result<u64, Failure>
    ensures exact { (scene : Scene) → scene.transaction ≡ tx.now → result ≡ defs.run_type_id scene left place group.now.group }
    ensures within { IfOk result (λ cycles. cycles ≤ left) }
{
    if left < TYPE_ID_CYCLES {
        return Err(Failure::Spent);
    }
    exited(place, type_id_exit(tx, group), TYPE_ID_CYCLES)
}

/// The answer of a group whose script is a rule, or was run.
fn answered(came: Result<u64, Failure>) -> Result<u64, ScriptStop>
    ensures { result ≡ answer_of came }
{
    match came {
        Ok(cycles) => Ok(cycles),
        Err(failure) => Err(ScriptStop::Failed(failure)),
    }
}

/// Runs a group within the cycles that are left: `Ok` has those that it takes.
fn run_group<B: Blocks>(
    alloc: Global,
    tx: &ShownTx<'_>,
    codes: &Codes<'_>,
    blocks: &mut B,
    group: &Group<'_>,
    place: u32,
    left: u64,
) -> Result<u64, ScriptStop>
    requires left { left ≤ 2 ^ 40 }
    requires counts { B.count blocks.old ≡ tx.now.kept }
    requires codes { codes.now ≡ codes_of tx.now }
    ensures read { HasRead B.told B.count B.loans_of B.faults B.damages blocks.old blocks.new (read_stop_of result) }
    ensures within { IfOk result (λ cycles. cycles ≤ left) }
    ensures exact { (stored : List Stored) (scene : Scene) → B.told blocks.old ≡ Some stored → scene_shown tx.now.second tx.now.epoch_length stored tx.now.it ≡ Some scene
        → HasItsHash group.now → IsOutcome (defs.run_group scene left place group.now.group) result }
    ensures undamaged { IsSome (B.told blocks.old) → (damage : Damage) → result ≡ Err (Read (Damaged damage)) → ⊥ }
{
    if is_type_id(&group.script) {
        let it = tx.it;
        return answered(run_type_id(&it.tx, group, place, left));
    }
    match codes.find(&group.script) {
        Located::NoCode => Err(ScriptStop::Failed(Failure::NoCode(place))),
        Located::ManyCodes => Err(ScriptStop::Failed(Failure::ManyCodes(place))),
        Located::At(code) => match run_code(alloc, tx, group, blocks, code, left) {
            Ok(came) => answered(executed(place, came, left)),
            Err(stop) => Err(ScriptStop::Read(stop)),
        },
    }
}

/// Runs groups one after the other, each within what those before it left of the budget.
fn run_each<B: Blocks>(
    alloc: Global,
    tx: &ShownTx<'_>,
    codes: &Codes<'_>,
    blocks: &mut B,
    groups: &[Group<'_>],
    budget: u64,
) -> Result<u64, ScriptStop>
    requires few { length groups.now < 2 ^ 32 }
    requires budget { budget ≤ 2 ^ 40 }
    requires counts { B.count blocks.old ≡ tx.now.kept }
    requires codes { codes.now ≡ codes_of tx.now }
    ensures read { HasRead B.told B.count B.loans_of B.faults B.damages blocks.old blocks.new (read_stop_of result) }
    ensures within { IfOk result (λ cycles. cycles ≤ budget) }
    ensures exact { (stored : List Stored) (scene : Scene) → B.told blocks.old ≡ Some stored → scene_shown tx.now.second tx.now.epoch_length stored tx.now.it ≡ Some scene
        → All HasItsHash groups.now → IsOutcome (defs.run_from scene budget 0 (map (λ it. it.group) groups.now)) result }
    ensures undamaged { IsSome (B.told blocks.old) → (damage : Damage) → result ≡ Err (Read (Damaged damage)) → ⊥ }
{
    let mut used = 0;
    'groups: for i in 0..groups.len() {
        let left = budget - used;
        match run_group(alloc, tx, codes, blocks, &groups[i], i as u32, left) {
            Ok(cycles) => used += cycles,
            Err(stop) => return Err(stop),
        }
    }
    Ok(used)
}

/// Runs the script groups of a transaction as its scripts are shown it. No group runs where the code of one is not
/// found.
fn run_shown<'a, B: Blocks>(
    alloc: Global,
    tx: &'a ShownTx<'a>,
    codes: &Codes<'_>,
    blocks: &mut B,
    budget: u64,
) -> Result<u64, ScriptStop>
    requires budget { budget ≤ 2 ^ 40 }
    requires counts { B.count blocks.old ≡ tx.now.kept }
    requires codes { codes.now ≡ codes_of tx.now }
    ensures read { HasRead B.told B.count B.loans_of B.faults B.damages blocks.old blocks.new (read_stop_of result) }
    ensures within { IfOk result (λ cycles. cycles ≤ budget) }
    ensures exact { (stored : List Stored) (scene : Scene) → B.told blocks.old ≡ Some stored → scene_shown tx.now.second tx.now.epoch_length stored tx.now.it ≡ Some scene
        → IsOutcome (defs.outcome_of scene budget) result }
    ensures undamaged { IsSome (B.told blocks.old) → (damage : Damage) → result ≡ Err (Read (Damaged damage)) → ⊥ }
{
    let groups = match groups_of(alloc, tx) {
        Ok(groups) => groups,
        Err(NoMemory) => return Err(ScriptStop::Read(ReadStop::NoMemory)),
    };
    if let Some(failure) = first_without_code(codes, &groups) {
        return Err(ScriptStop::Failed(failure));
    }
    run_each(alloc, tx, codes, blocks, &groups, budget)
}

/// Runs the script groups of a transaction within a budget in cycles: `Ok` has the cycles that they take. No group runs
/// where the code of one is not found, which is by the second edition of the rules or by the first as `second` says. Nothing
/// is asked of the blocks where what it resolves to does not fit, which is damage.
pub fn run_groups<B: Blocks>(
    alloc: Global,
    spec: &Spec,
    tx: &ResolvedTx<'_>,
    tree: &Tree,
    blocks: &mut B,
    budget: u64,
    second: bool,
) -> Result<u64, ScriptStop>
    requires budget { budget ≤ 2 ^ 40 }
    requires counts { B.count blocks.old ≡ length tree.now.entries }
    ensures read { HasRead B.told B.count B.loans_of B.faults B.damages blocks.old blocks.new (read_stop_of result) }
    ensures within { IfOk result (λ cycles. cycles ≤ budget) }

    // Over any source of blocks: what does not fit is damage where its block lies, and nothing else is answered.
    ensures unfit { IfSome (fitting.unfit tree.now.entries tx.now) (λ at. result ≡ Err (Read (Damaged (record { area = Log; at = at })))) }

    // Over kept blocks that are known, where it shows a scene.
    ensures exact { (stored : List Stored) (scene : Scene) → B.told blocks.old ≡ Some stored → scene_shown second spec.now.epoch_length stored tx.now ≡ Some scene
        → IsOutcome (defs.outcome_of scene budget) result }
    ensures undamaged { (stored : List Stored) (scene : Scene) → B.told blocks.old ≡ Some stored → scene_shown second spec.now.epoch_length stored tx.now ≡ Some scene
        → (damage : Damage) → result ≡ Err (Read (Damaged damage)) → ⊥ }

    // Over kept blocks that are known what fits is not damaged.
    ensures fit { IsSome (B.told blocks.old) → fitting.unfit tree.now.entries tx.now ≡ None → (damage : Damage) → result ≡ Err (Read (Damaged damage)) → ⊥ }
{
    let shown = match ShownTx::of(alloc, tx, tree, spec.epoch_length, second) {
        Ok(shown) => shown,
        Err(stop) => {
            blocks.report(stop);
            return Err(ScriptStop::Read(stop));
        }
    };
    let codes = match Codes::of(alloc, &tx.deps, second) {
        Ok(codes) => codes,
        Err(NoMemory) => return Err(ScriptStop::Read(ReadStop::NoMemory)),
    };
    run_shown(alloc, &shown, &codes, blocks, budget)
}
