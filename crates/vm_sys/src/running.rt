// A machine's run to its end.
ghost use Rattle.std.specs.Prelude.{◌≡◌, ◌⊎◌, ℕ, ◌≤◌, Some, Err, true, IfOk, OnOk};
ghost use Rattle.outside.specs.Causes.{CountsFault};
ghost use Rattle.outside.specs.declared.disk.Area.TheVariants.{Log};
ghost use Rattle.outside.specs.declared.disk.Damage.{Damage};
ghost use Rattle.outside.specs.declared.disk.ReadStop.TheVariants.{DiskFault, Damaged, NoMemory};
ghost use Rattle.machine_defs.specs.Program as programs;
ghost use Rattle.vm_mem.specs.Pages.{IsAllocated};
ghost use Rattle.vm_step.specs.Running.{LeavesRoom, WantsPage};
ghost use Rattle.machine_defs.specs.World.{Items};
ghost use Rattle.machine_defs.specs.Answer.{syscall};
ghost use Rattle.vm_sys.specs.Finding.{Finds};
ghost use Rattle.vm_sys.specs.Running.{Advances, AdvancesBySome, IsWithin, RunWants, StopLoadsItem, outcome_of};

use super::syscall::{Sys, handle};
use super::world::World;
use machine_defs::{Outcome, Step};
use outside::ReadStop;
use vm_step::Machine;

/// Runs the machine to its end: its steps, and the answers to its ECALLs over what surrounds the script.
///
/// Over a world that tells what it shows, the end and the cycles are those of the definitions. Over any world no cycles
/// are taken back, and a program that exits did so within the budget. It ends with an error only where memory is wanted,
/// by a step that stores to a page without memory or by a syscall that loads an item, or where the world cannot be read.
pub fn run<W: World>(machine: &mut Machine, world: &mut W) -> Result<Outcome, ReadStop>
    requires { machine.old.goes_on ≡ true }
    ensures told { W.told world.new ≡ W.told world.old }
    ensures loans { W.loans_of world.new ≡ W.loans_of world.old }
    ensures exact { (items : Items) → W.told world.old ≡ Some items → IfOk result (λ outcome. (outcome, machine.new.machine.cycles) ≡ programs.run (syscall items) machine.old.machine) }
    ensures within { IfOk result (λ outcome. IsWithin machine.old.machine.budget outcome machine.new.machine.cycles) }
    ensures later { machine.old.machine.cycles ≤ machine.new.machine.cycles }
    ensures wants { (items : Items) → W.told world.old ≡ Some items → result ≡ Err NoMemory → RunWants items (IsAllocated machine.old.allocated) machine.old.machine }
    ensures cause { CountsFault (W.faults world.old) (W.faults world.new) (result ≡ Err DiskFault) }
    ensures answered { Finds (W.damages world.old) (W.damages world.new) (λ damage. result ≡ Err (Damaged damage)) }
    ensures undamaged { W.IsSound (W.loans_of world.old) → (damage : Damage) → result ≡ Err (Damaged damage) → ⊥ }
    ensures damage { (damage : Damage) → result ≡ Err (Damaged damage) → damage.area ≡ Log }
{
    'steps: loop {
        match advance(machine, world) {
            Ok(Some(outcome)) => return Ok(outcome),
            Ok(None) => {}
            Err(stop) => return Err(stop),
        }
    }
}

/// Runs the machine to the first step that does not go by itself, and answers how that ended the program, if it did.
#[inline(always)]
fn advance<W: World>(machine: &mut Machine, world: &mut W) -> Result<Option<Outcome>, ReadStop>
    requires { machine.old.goes_on ≡ true }
    ensures told { W.told world.new ≡ W.told world.old }
    ensures loans { W.loans_of world.new ≡ W.loans_of world.old }
    ensures some { IfOk result (AdvancesBySome machine.old machine.new) }
    ensures exact { (items : Items) → W.told world.old ≡ Some items → IfOk result (Advances (syscall items) machine.old machine.new) }
    ensures later { machine.old.machine.cycles ≤ machine.new.machine.cycles }
    ensures wants { (items : Items) → W.told world.old ≡ Some items → result ≡ Err NoMemory → WantsPage machine.old machine.new.machine ⊎ StopLoadsItem items machine.old.machine }
    ensures cause { CountsFault (W.faults world.old) (W.faults world.new) (result ≡ Err DiskFault) }
    ensures answered { Finds (W.damages world.old) (W.damages world.new) (λ damage. result ≡ Err (Damaged damage)) }
    ensures undamaged { W.IsSound (W.loans_of world.old) → (damage : Damage) → result ≡ Err (Damaged damage) → ⊥ }
    ensures damage { (damage : Damage) → result ≡ Err (Damaged damage) → damage.area ≡ Log }
    ensures room { OnOk result (LeavesRoom machine.old.machine machine.new.allocated) }
    ensures pages_kept { (page : ℕ) → IsAllocated machine.old.allocated page → IsAllocated machine.new.allocated page }
{
    match machine.run() {
        Step::Went => unreachable!(),
        Step::Ecall => outcome_of(handle(machine, world)),
        Step::Fault(number) => Ok(Some(Outcome::Fault(number))),
        Step::Spent => Ok(Some(Outcome::Spent)),
        Step::NoMemory => Err(ReadStop::NoMemory),
    }
}

// How the answer to a syscall ends the program, if it does.
fn outcome_of(answer: Sys) -> Result<Option<Outcome>, ReadStop>
    ensures { result ≡ outcome_of answer }
{
    match answer {
        Sys::Done => Ok(None),
        Sys::Exit(code) => Ok(Some(Outcome::Exit(code))),
        Sys::Fault(number) => Ok(Some(Outcome::Fault(number))),
        Sys::Spent => Ok(Some(Outcome::Spent)),
        Sys::Stop(stop) => Err(stop),
    }
}
