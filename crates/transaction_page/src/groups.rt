// J28 to J30: the script groups, and the run of each.
ghost use Rattle.std.specs.Prelude.{◌≡◌, ◌^◌, ◌<◌, ◌≤◌, Err, length, true};
ghost use Rattle.outside.specs.Causes.{CountsFault};
ghost use Rattle.outside.specs.declared.disk.Area.TheVariants.{Log};
ghost use Rattle.outside.specs.declared.disk.Damage.{Damage};
ghost use Rattle.outside.specs.declared.disk.ReadStop.TheVariants.{DiskFault, Damaged};
ghost use Rattle.vm_sys.specs.Finding.{Finds};
ghost use Rattle.chain_tree.specs.Reading.{HasRead, stop_of};

use crate::page::Page;
use crate::site::{Site, hash_from};
use cell_state::{Cells, Resolved, ResolvedTx};
use chain_tree::Blocks;
use machine_defs::Outcome;
use machine_trace::{
    Ended, Listener, Notes, Symbols, TraceStop, Unheard, bad_elf, page_of, push_calls,
    spent_loading, trace,
};
use mol_schema::ScriptView;
use outside::{NoMemory, ReadStop};
use program_run::{Execution, Started, start};
use script_run::{Group, GroupEnd, Terms, Watcher, watch_groups};
use std::alloc::{AllocError, Global};
use vm_step::Machine;
use vm_sys::World;

/// The most bytes of texts that are shown of all groups.
const TEXTS: usize = 65_536;

/// The texts that a group prints, as far as there is room.
#[derive(Drop)]
struct Texts {
    page: Page,
    left: usize,
    cut: bool,
}

impl Listener for Texts {
    fn hear(&mut self, line: &str) -> Result<(), Unheard> {
        if line.len() <= self.left {
            self.left -= line.len();
            self.page.add("  ");
            self.page.add(line);
        } else if !self.cut {
            self.cut = true;
            self.page.add("  further texts are left out\n");
        }
        Ok(())
    }
}

/// Watches the groups: a part of the page for each, and the page of how it ended for the one that fails and for the one that
/// is asked for.
#[derive(Drop)]
struct Watch<'p, 'r> {
    alloc: Global,
    page: &'p mut Page,
    resolved: &'r ResolvedTx<'r>,
    /// The group whose page is asked for, whatever it ends with.
    asked: Option<u32>,
    /// How many groups are of locks; they are the first.
    locks: u32,
    place: u32,
    left: usize,
    cut: bool,
    /// How the code that was run last came to its end.
    last: Option<String>,
    /// The pages that are shown after the groups.
    details: Page,
}

/// Whether one of the first inputs has the lock of a cell.
fn has_lock(inputs: &[Resolved], first: usize, cell: &Resolved) -> bool {
    let lock = cell.meta.lock_hash;
    'inputs: for j in 0..inputs.len() {
        if j >= first {
            break;
        }
        let input = &inputs[j];
        let meta = &input.meta;
        if meta.lock_hash == lock {
            return true;
        }
    }
    false
}

/// How many lock scripts the cells of the inputs have.
fn count_locks(inputs: &[Resolved]) -> u32 {
    let mut count = 0u32;
    'inputs: for i in 0..inputs.len() {
        if !has_lock(inputs, i, &inputs[i]) {
            count = count.saturating_add(1);
        }
    }
    count
}

fn push_places(page: &mut Page, name: &str, places: &[u32]) {
    if places.is_empty() {
        return;
    }
    page.add(name);
    'places: for i in 0..places.len() {
        page.add(" ");
        page.number(u64::from(places[i]));
    }
}

/// Whether a dep may be the code of a script, by its hashes.
fn is_code(script: &ScriptView<'_>, dep: &Resolved) -> bool {
    let hash = hash_from(script.code_hash());
    let meta = &dep.meta;
    match script.hash_type() {
        0 => meta.data_hash == hash,
        1 => meta.type_hash == Some(hash),
        _ => false,
    }
}

/// Appends the cell in which the code of a script lies: the first that is named so.
fn push_code(page: &mut Page, script: &ScriptView<'_>, deps: &[Resolved]) {
    'deps: for i in 0..deps.len() {
        let dep = &deps[i];
        if is_code(script, dep) {
            page.add("  code resolved dep ");
            page.count(i);
            page.add(", cell ");
            page.out_point(&dep.out_point);
            page.add("\n");
            return;
        }
    }
}

/// Appends what the script asks for, and the hashes of all deps that it could mean.
fn push_candidates(page: &mut Page, script: &ScriptView<'_>, deps: &[Resolved]) {
    page.add("  code hash ");
    page.bytes(script.code_hash());
    page.add(", hash type ");
    page.number(u64::from(script.hash_type()));
    page.add("\n");
    'deps: for i in 0..deps.len() {
        let dep = &deps[i];
        let meta = &dep.meta;
        page.add("  resolved dep ");
        page.count(i);
        page.add(", cell ");
        page.out_point(&dep.out_point);
        page.add(", data hash ");
        page.bytes(&meta.data_hash);
        if let Some(hash) = meta.type_hash {
            page.add(", type hash ");
            page.hash(&hash);
        }
        page.add("\n");
    }
}

/// Appends why no dep is the code of a script of this hash type.
fn push_no_code(page: &mut Page, hash_type: u8) {
    page.add("  no code: ");
    match hash_type {
        0 => page.add("no dep has this data hash\n"),
        1 => page.add("no dep has this type hash\n"),
        _ => page.add(
            "this hash type finds none; 0 goes by the data hash, and 1 by the type hash\n",
        ),
    }
}

/// Appends how a group ended.
fn push_end(page: &mut Page, script: &ScriptView<'_>, end: &GroupEnd) {
    match end {
        GroupEnd::NoCode => push_no_code(page, script.hash_type()),
        GroupEnd::ManyCodes => {
            page.add("  no code: several deps have this type hash, and they are not one code\n")
        }
        GroupEnd::TypeId(code) => {
            page.add("  TYPE_ID exit ");
            page.signed(*code);
            page.add("\n");
        }
        GroupEnd::TypeIdSpent => page.add("  TYPE_ID spent: fewer than 1000000 cycles are left\n"),
        GroupEnd::NotRun => page.add("  not run\n"),
        GroupEnd::Ran(Execution::BadElf(condition)) => {
            page.add("  bad elf ");
            page.number(u64::from(*condition));
            page.add("\n");
        }
        GroupEnd::Ran(Execution::Ended { outcome, cycles }) => push_outcome(
            page, *outcome, *cycles,
        ),
    }
}

fn push_outcome(page: &mut Page, outcome: Outcome, cycles: u64) {
    match outcome {
        Outcome::Exit(code) => {
            page.add("  exit ");
            page.signed(code);
        }
        Outcome::Fault(number) => {
            page.add("  fault ");
            page.number(u64::from(number));
        }
        Outcome::Spent => page.add("  spent"),
    }
    page.add(" after ");
    page.number(cycles);
    page.add(" cycles\n");
}

/// The page of a machine that ran to its end, with its syscalls.
fn ended_page(
    alloc: Global,
    machine: &mut Machine,
    noted: &Notes,
    ended: &Ended,
    file: &[u8],
    budget: u64,
) -> Result<String, AllocError> {
    let mut page = page_of(alloc, machine, noted, ended, &Symbols::of(file), budget)?;
    push_calls(&mut page, noted)?;
    Ok(page)
}

impl<'p, 'r> Watch<'p, 'r> {
    /// Runs a program, and keeps the page of its end.
    fn run_machine<W: World>(
        &mut self,
        alloc: Global,
        machine: Machine,
        code: &[u8],
        budget: u64,
        world: &mut W,
    ) -> Result<Execution, ReadStop>
        requires { machine.goes_on ≡ true }
        ensures loans { W.loans_of world.new ≡ W.loans_of world.old }
        ensures cause { CountsFault (W.faults world.old) (W.faults world.new) (result ≡ Err DiskFault) }
        ensures answered { Finds (W.damages world.old) (W.damages world.new) (λ damage. result ≡ Err (Damaged damage)) }
        ensures damage { (damage : Damage) → result ≡ Err (Damaged damage) → damage.area ≡ Log }
    {
        let mut machine = machine;
        let mut noted = Notes::new();
        let mut texts = Texts {
            page: Page::new(alloc),
            left: self.left,
            cut: self.cut,
        };
        let came = trace(alloc, &mut machine, world, &mut noted, &mut texts);
        self.take(texts);
        let ended = match came {
            Ok(ended) => ended,
            Err(TraceStop::Unheard) => return Err(ReadStop::NoMemory),
            Err(TraceStop::Read(stop)) => return Err(stop),
        };
        let cycles = machine.cycles();
        self.keep(ended_page(alloc, &mut machine, &noted, &ended, code, budget));
        Ok(Execution::Ended {
            outcome: ended.outcome,
            cycles,
        })
    }

    /// Takes the texts that a group has printed.
    fn take(&mut self, texts: Texts) {
        let Texts { page, left, cut } = texts;
        self.left = left;
        self.cut = cut;
        match page.into_text() {
            Some(text) => self.page.add(&text),
            None => self.page.run_short(),
        }
    }

    /// Keeps the page of an end.
    fn keep(&mut self, made: Result<String, AllocError>) {
        self.last = made.ok();
    }
}

impl<'p, 'r> Watcher for Watch<'p, 'r> {
    fn begin(&mut self, place: u32, group: &Group<'_>) -> Result<(), NoMemory> {
        self.place = place;
        self.last = None;
        let page = &mut *self.page;
        page.add("group ");
        page.number(u64::from(place));
        page.add(if place < self.locks {
            " lock "
        } else {
            " type "
        });
        page.bytes(&group.hash);
        push_places(page, ", inputs", &group.inputs);
        push_places(page, ", outputs", &group.outputs);
        page.add("\n");
        let it = self.resolved;
        push_code(page, &group.script, &it.deps);
        Ok(())
    }

    fn run<W: World>(
        &mut self,
        alloc: Global,
        code: &[u8],
        budget: u64,
        world: &mut W,
    ) -> Result<Execution, ReadStop> {
        match start(alloc, code, budget) {
            Ok(Started::Ready(machine)) => self.run_machine(alloc, machine, code, budget, world),
            Ok(Started::Spent { cycles }) => {
                self.keep(spent_loading(alloc, cycles, budget));
                Ok(Execution::Ended {
                    outcome: Outcome::Spent,
                    cycles,
                })
            }
            Ok(Started::BadElf(condition)) => {
                self.keep(bad_elf(alloc, condition));
                Ok(Execution::BadElf(condition))
            }
            Err(_) => Err(ReadStop::NoMemory),
        }
    }

    fn end(&mut self, group: &Group<'_>, end: GroupEnd) -> Result<(), NoMemory> {
        push_end(self.page, &group.script, &end);
        let it = self.resolved;
        if is_without_code(&end) {
            push_candidates(self.page, &group.script, &it.deps);
        }
        if is_failed(&end) || self.asked == Some(self.place) {
            if let Some(last) = &self.last {
                self.details.add("page of group ");
                self.details.number(u64::from(self.place));
                self.details.add("\n");
                self.details.add(last);
            }
        }
        Ok(())
    }
}

fn is_without_code(end: &GroupEnd) -> bool {
    match end {
        GroupEnd::NoCode => true,
        GroupEnd::ManyCodes => true,
        _ => false,
    }
}

/// Whether a group was run, and did not end with 0.
fn is_failed(end: &GroupEnd) -> bool {
    match end {
        GroupEnd::NotRun => false,
        other => !other.is_good(),
    }
}

/// The groups of a transaction that was resolved, each with how it ended.
pub(crate) fn explain_groups<C: Cells, B: Blocks>(
    alloc: Global,
    page: &mut Page,
    site: &Site<'_, '_, '_, '_, '_, C>,
    blocks: &mut B,
    resolved: &ResolvedTx<'_>,
    asked: Option<u32>,
) -> Result<(), ReadStop>
    requires left { site.now.left ≤ 2 ^ 40 }
    requires counts { B.count blocks.old ≡ length site.now.tree.now.entries }
    ensures read { HasRead B.told B.count B.loans_of B.faults B.damages blocks.old blocks.new (stop_of result) }
{
    let terms = Terms {
        spec: site.spec,
        tree: site.tree,
        budget: site.left,
        second: site.is_second(),
    };
    let mut watch = Watch {
        alloc,
        page,
        resolved,
        asked,
        locks: count_locks(&resolved.inputs),
        place: 0,
        left: TEXTS,
        cut: false,
        last: None,
        details: Page::new(alloc),
    };
    let came = watch_groups(alloc, &terms, resolved, blocks, &mut watch);
    let Watch { page, details, .. } = watch;
    if let Some(text) = details.into_text() {
        page.add(&text);
    }
    came
}
