// The script groups of a transaction, watched as they run.
ghost use Rattle.std.specs.Prelude.{◌≡◌, ◌^◌, ◌<◌, ◌≤◌, Err, IfSome, length};
ghost use Rattle.outside.specs.Causes.{CountsFault};
ghost use Rattle.outside.specs.declared.disk.Area.TheVariants.{Log};
ghost use Rattle.outside.specs.declared.disk.Damage.{Damage};
ghost use Rattle.outside.specs.declared.disk.ReadStop.TheVariants.{DiskFault, Damaged};
ghost use Rattle.vm_sys.specs.Finding.{Finds};
ghost use Rattle.chain_tree.specs.Reading.{HasRead, stop_of};

use crate::codes::{Codes, Located};
use crate::groups::{Group, groups_of};
use crate::running::first_without_code;
use crate::shown::ShownTx;
use crate::type_id::{TYPE_ID_CYCLES, is_type_id, type_id_exit};
use crate::world::watch_code;
use cell_state::ResolvedTx;
use chain_tree::{Blocks, Tree};
use epochs::Spec;
use machine_defs::Outcome;
use outside::{NoMemory, ReadStop};
use program_run::Execution;
use std::alloc::Global;
use vm_sys::World;

/// How a group ended.
#[derive(Clone, Copy, Debug)]
pub enum GroupEnd {
    /// No dep is its code.
    NoCode,
    /// Several deps are, and they are not one code.
    ManyCodes,
    /// It is TYPE_ID, which exited with this code.
    TypeId(i8),
    /// It is TYPE_ID, for which the cycles that were left are too few.
    TypeIdSpent,
    /// Its code was run.
    Ran(Execution),
    /// It was not run: a group before it failed, or the code of one is not found.
    NotRun,
}

impl GroupEnd {
    /// Whether the transaction keeps its rules by this group.
    pub fn is_good(&self) -> bool {
        match self {
            GroupEnd::TypeId(code) => *code == 0,
            GroupEnd::Ran(Execution::Ended { outcome, .. }) => *outcome == Outcome::Exit(0),
            _ => false,
        }
    }

    /// The cycles that it took.
    pub fn cycles(&self) -> u64 {
        match self {
            GroupEnd::TypeId(_) => TYPE_ID_CYCLES,
            GroupEnd::Ran(Execution::Ended { cycles, .. }) => *cycles,
            _ => 0,
        }
    }
}

/// Who watches the groups of a transaction: it is told of each, and runs its code.
pub trait Watcher {
    /// A group, before it is run, by its place among all.
    fn begin(&mut self, place: u32, group: &Group<'_>) -> Result<(), NoMemory>;

    /// Runs the code of the group that began last, within a budget in cycles, over what surrounds it.
    fn run<W: World>(
        &mut self,
        alloc: Global,
        code: &[u8],
        budget: u64,
        world: &mut W,
    ) -> Result<Execution, ReadStop>
        requires budget { budget ≤ 2 ^ 40 }
        ensures loans { W.loans_of world.new ≡ W.loans_of world.old }
        ensures cause { CountsFault (W.faults world.old) (W.faults world.new) (result ≡ Err DiskFault) }
        ensures answered { Finds (W.damages world.old) (W.damages world.new) (λ damage. result ≡ Err (Damaged damage)) }
        ensures damage { (damage : Damage) → result ≡ Err (Damaged damage) → damage.area ≡ Log };

    /// How that group ended.
    fn end(&mut self, group: &Group<'_>, end: GroupEnd) -> Result<(), NoMemory>;
}

/// Where the groups of a transaction are run: the specification, the tree, the cycles that are left, and whether code is found
/// by the second edition of the rules.
#[derive(Clone, Copy)]
pub struct Terms<'a> {
    pub spec: &'a Spec,
    pub tree: &'a Tree,
    pub budget: u64,
    pub second: bool,
}

/// Runs a group by its watcher within the cycles that are left, unless it is not to run.
fn watch_group<B: Blocks, R: Watcher>(
    alloc: Global,
    tx: &ShownTx<'_>,
    codes: &Codes<'_>,
    group: &Group<'_>,
    blocks: &mut B,
    watcher: &mut R,
    left: Option<u64>,
) -> Result<GroupEnd, ReadStop>
    requires left { IfSome left (λ left. left ≤ 2 ^ 40) }
    requires counts { B.count blocks.old ≡ tx.now.kept }
    ensures read { HasRead B.told B.count B.loans_of B.faults B.damages blocks.old blocks.new (stop_of result) }
{
    if is_type_id(&group.script) {
        return Ok(type_id_end(tx, group, left));
    }
    match codes.find(&group.script) {
        Located::NoCode => Ok(GroupEnd::NoCode),
        Located::ManyCodes => Ok(GroupEnd::ManyCodes),
        Located::At(code) => match left {
            None => Ok(GroupEnd::NotRun),
            Some(left) => match watch_code(alloc, tx, group, blocks, watcher, code, left) {
                Ok(came) => Ok(GroupEnd::Ran(came)),
                Err(stop) => Err(stop),
            },
        },
    }
}

/// How a group ends whose script is TYPE_ID.
fn type_id_end(tx: &ShownTx<'_>, group: &Group<'_>, left: Option<u64>) -> GroupEnd {
    match left {
        None => GroupEnd::NotRun,
        Some(left) if left < TYPE_ID_CYCLES => GroupEnd::TypeIdSpent,
        Some(_) => {
            let it = tx.it;
            GroupEnd::TypeId(type_id_exit(&it.tx, group))
        }
    }
}

/// Runs groups by their watcher one after the other, each within what those before it left, up to one that fails.
fn watch_each<B: Blocks, R: Watcher>(
    alloc: Global,
    tx: &ShownTx<'_>,
    codes: &Codes<'_>,
    groups: &[Group<'_>],
    blocks: &mut B,
    watcher: &mut R,
    budget: Option<u64>,
) -> Result<(), ReadStop>
    requires few { length groups.now < 2 ^ 32 }
    requires budget { IfSome budget (λ budget. budget ≤ 2 ^ 40) }
    requires counts { B.count blocks.old ≡ tx.now.kept }
    ensures read { HasRead B.told B.count B.loans_of B.faults B.damages blocks.old blocks.new (stop_of result) }
{
    let mut left = budget;
    'groups: for i in 0..groups.len() {
        let group = &groups[i];
        match watcher.begin(i as u32, group) {
            Ok(()) => {}
            Err(_) => return Err(ReadStop::NoMemory),
        }
        let end = match watch_group(alloc, tx, codes, group, blocks, watcher, left) {
            Ok(end) => end,
            Err(stop) => return Err(stop),
        };
        left = left_after(left, &end);
        match watcher.end(group, end) {
            Ok(()) => {}
            Err(_) => return Err(ReadStop::NoMemory),
        }
    }
    Ok(())
}

/// The cycles that a group leaves to the next: none is to run after one that fails.
fn left_after(left: Option<u64>, end: &GroupEnd) -> Option<u64>
    requires { IfSome left (λ left. left ≤ 2 ^ 40) }
    ensures { IfSome result (λ left. left ≤ 2 ^ 40) }
{
    match left {
        Some(left) if end.is_good() => Some(left.saturating_sub(end.cycles())),
        _ => None,
    }
}

/// Runs the script groups of a transaction by a watcher, in the order of `run_groups`, up to the first that fails. Each group is
/// told to the watcher, also those that do not run: where the code of one is not found, none does.
pub fn watch_groups<B: Blocks, R: Watcher>(
    alloc: Global,
    terms: &Terms<'_>,
    tx: &ResolvedTx<'_>,
    blocks: &mut B,
    watcher: &mut R,
) -> Result<(), ReadStop>
    requires budget { terms.now.budget ≤ 2 ^ 40 }
    requires counts { B.count blocks.old ≡ length terms.now.tree.now.entries }
    ensures read { HasRead B.told B.count B.loans_of B.faults B.damages blocks.old blocks.new (stop_of result) }
{
    let spec = terms.spec;
    let shown = match ShownTx::of(alloc, tx, terms.tree, spec.epoch_length, terms.second) {
        Ok(shown) => shown,
        Err(stop) => {
            blocks.report(stop);
            return Err(stop);
        }
    };
    let codes = match Codes::of(alloc, &tx.deps, terms.second) {
        Ok(codes) => codes,
        Err(NoMemory) => return Err(ReadStop::NoMemory),
    };
    watch_shown(alloc, &shown, &codes, blocks, watcher, terms.budget)
}

/// The same of a transaction as its scripts are shown it.
fn watch_shown<'a, B: Blocks, R: Watcher>(
    alloc: Global,
    tx: &'a ShownTx<'a>,
    codes: &Codes<'_>,
    blocks: &mut B,
    watcher: &mut R,
    budget: u64,
) -> Result<(), ReadStop>
    requires budget { budget ≤ 2 ^ 40 }
    requires counts { B.count blocks.old ≡ tx.now.kept }
    ensures read { HasRead B.told B.count B.loans_of B.faults B.damages blocks.old blocks.new (stop_of result) }
{
    let groups = match groups_of(alloc, tx) {
        Ok(groups) => groups,
        Err(NoMemory) => return Err(ReadStop::NoMemory),
    };
    let left = match first_without_code(codes, &groups) {
        Some(_) => None,
        None => Some(budget),
    };
    watch_each(alloc, tx, codes, &groups, blocks, watcher, left)
}
