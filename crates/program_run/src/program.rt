// A program's run: what alone touches the machine.
ghost use Rattle.std.specs.Prelude.{◌≡◌, ℕ, ◌^◌, ◌≤◌, Some, Ok, Err, true, IfOk, OnErr};
ghost use Rattle.outside.specs.Causes.{CountsFault};
ghost use Rattle.outside.specs.declared.disk.Area.TheVariants.{Log};
ghost use Rattle.outside.specs.declared.disk.Damage.{Damage};
ghost use Rattle.outside.specs.declared.disk.ReadStop.TheVariants as read_stop;
ghost use Rattle.machine_defs.specs.Elf.{Program, load_elf, segments};
ghost use Rattle.machine_defs.specs.Alone as alone;
ghost use Rattle.machine_defs.specs.Program as programs;
ghost use Rattle.machine_defs.specs.Program.{execution};
ghost use Rattle.vm_mem.specs.Pages.{IsAllocated};
ghost use Rattle.vm_sys.specs.Finding.{Finds};
ghost use Rattle.vm_sys.specs.Running.{RunWants};
ghost use Rattle.machine_defs.specs.World.{Items};
ghost use Rattle.machine_defs.specs.Answer.{syscall};
ghost use Rattle.elf_load.specs.Placing.{HoldsBytes};
ghost use Rattle.program_run.specs.Program.{IsJudged, IsStarted, KeepsBudget, PaysForLoading, ProgramWants, ProgramWantsPage, execution_of};

use elf_load::{ValidElf, judge};
use machine_defs::Outcome;
use outside::{NoMemory, ReadStop};
use std::alloc::Global;
use std::error::Error;
use std::fmt;
use vm_mem::Memory;
use vm_step::Machine;
use vm_sys::{Alone, World, run};

/// What came of a file that was to be run.
#[derive(Clone, Copy, Debug, PartialEq, Eq)]
pub enum Execution {
    /// Its program ended, after so many cycles.
    Ended { outcome: Outcome, cycles: u64 },
    /// It is no program: the number of the first condition that it meets.
    BadElf(u8),
}

/// A program before its first step.
#[derive(Drop)]
pub enum Started {
    /// Its machine, with the program in memory, and its loading paid for.
    Ready(Machine),
    /// Its loading alone passes the budget, and costs so many cycles.
    Spent { cycles: u64 },
    /// The file is no program: the number of the first condition that it meets.
    BadElf(u8),
}

/// Where memory ran out.
#[derive(Clone, Copy, Debug, PartialEq, Eq)]
pub enum OutOfMemory {
    /// Before the first step.
    Loading,
    /// At a step that stores to a page without memory.
    Running,
}

impl fmt::Display for OutOfMemory {
    fn fmt<W: fmt::Write>(&self, f: &mut fmt::Formatter<W>) -> fmt::Result {
        match self {
            OutOfMemory::Loading => write!(f, "out of memory before the first step"),
            OutOfMemory::Running => write!(f, "out of memory at a step"),
        }
    }
}

impl Error for OutOfMemory {}

/// Why a file was not run to its end.
#[derive(Clone, Copy, Debug, PartialEq, Eq)]
pub enum Stopped {
    /// Memory was wanted before the first step.
    Loading,
    /// Memory was wanted at a step or by a syscall, or what surrounds the script could not be read.
    Running(ReadStop),
}

impl fmt::Display for Stopped {
    fn fmt<W: fmt::Write>(&self, f: &mut fmt::Formatter<W>) -> fmt::Result {
        match self {
            Stopped::Loading => write!(f, "out of memory before the first step"),
            Stopped::Running(stop) => write!(f, "at a step: {stop}"),
        }
    }
}

impl Error for Stopped {}

/// Runs the program of a file to its end, within a budget in cycles.
///
/// The file is judged, then its loading is paid for, and only then is memory taken and its bytes are copied. So a file
/// that is no program, or whose loading spends the budget, costs a look at its headers. A run is out of memory only
/// where it comes to a step that stores to a page without memory: no bytes of the file went there, and no step before
/// stored to it.
pub fn execute(alloc: Global, file: &[u8], budget: u64) -> Result<Execution, OutOfMemory>
    requires { budget ≤ 2 ^ 40 }
    ensures came { IfOk result (λ came. execution_of came ≡ execution alone.answer_ecall budget file.now) }
    ensures paid { OnErr result (PaysForLoading budget (load_elf file.now)) }
    ensures running { result ≡ Err OutOfMemory.Running → ProgramWantsPage budget (segments file.now) (load_elf file.now) }
{
    let mut alone = Alone;
    match execute_in(alloc, file, budget, &mut alone) {
        Ok(came) => Ok(came),
        Err(Stopped::Loading) => Err(OutOfMemory::Loading),
        Err(Stopped::Running(_)) => Err(OutOfMemory::Running),
    }
}

/// Runs the program of a file to its end, within a budget in cycles, with the syscalls over what surrounds it.
///
/// The file is judged, paid for and placed as by [`execute`], before the world is asked for anything. Over any world a
/// file is no program where it meets a condition, and a program that exits did so within the budget.
pub fn execute_in<W: World>(
    alloc: Global,
    file: &[u8],
    budget: u64,
    world: &mut W,
) -> Result<Execution, Stopped>
    requires { budget ≤ 2 ^ 40 }
    ensures told { W.told world.new ≡ W.told world.old }
    ensures loans { W.loans_of world.new ≡ W.loans_of world.old }
    ensures came { (items : Items) → W.told world.old ≡ Some items → IfOk result (λ came. execution_of came ≡ execution (syscall items) budget file.now) }
    ensures elf { IfOk result (IsJudged (load_elf file.now)) }
    ensures within { IfOk result (KeepsBudget budget) }
    ensures paid { OnErr result (PaysForLoading budget (load_elf file.now)) }
    ensures loading { result ≡ Err Stopped.Loading → world.new ≡ world.old }
    ensures running { (items : Items) → W.told world.old ≡ Some items → result ≡ Err (Stopped.Running read_stop.NoMemory) → ProgramWants items budget (segments file.now) (load_elf file.now) }
    ensures cause { CountsFault (W.faults world.old) (W.faults world.new) (result ≡ Err (Stopped.Running read_stop.DiskFault)) }
    ensures answered { Finds (W.damages world.old) (W.damages world.new) (λ damage. result ≡ Err (Stopped.Running (read_stop.Damaged damage))) }
    ensures undamaged { W.IsSound (W.loans_of world.old) → (damage : Damage) → result ≡ Err (Stopped.Running (read_stop.Damaged damage)) → ⊥ }
    ensures damage { (damage : Damage) → result ≡ Err (Stopped.Running (read_stop.Damaged damage)) → damage.area ≡ Log }
{
    match start(alloc, file, budget) {
        Ok(Started::Ready(machine)) => run_started(machine, world),
        Ok(Started::Spent { cycles }) => Ok(Execution::Ended {
            outcome: Outcome::Spent,
            cycles,
        }),
        Ok(Started::BadElf(condition)) => Ok(Execution::BadElf(condition)),
        Err(_) => Err(Stopped::Loading),
    }
}

/// The program of a file before its first step: the file is judged, its loading is paid for, and only then is memory
/// taken and the program placed there.
pub fn start(alloc: Global, file: &[u8], budget: u64) -> Result<Started, NoMemory>
    requires { budget ≤ 2 ^ 40 }
    ensures started { IfOk result (IsStarted budget (segments file.now) (load_elf file.now)) }
    ensures paid { OnErr result (PaysForLoading budget (load_elf file.now)) }
{
    let judged = match judge(file) {
        Ok(judged) => judged,
        Err(condition) => return Ok(Started::BadElf(condition)),
    };
    let cost = loading_cycles(judged.file_bytes());
    if cost > budget {
        return Ok(Started::Spent { cycles: cost });
    }
    let memory = match loaded(alloc, &judged) {
        Ok(memory) => memory,
        Err(stop) => return Err(stop),
    };
    let machine = Machine::new(memory, judged.pc(), cost, budget);
    Ok(Started::Ready(machine))
}

/// Runs a program from its first step to its end.
fn run_started<W: World>(mut machine: Machine, world: &mut W) -> Result<Execution, Stopped>
    requires { machine.goes_on ≡ true }
    ensures told { W.told world.new ≡ W.told world.old }
    ensures loans { W.loans_of world.new ≡ W.loans_of world.old }
    ensures came { (items : Items) → W.told world.old ≡ Some items → IfOk result (λ came. execution_of came ≡ Ok (programs.run (syscall items) machine.machine)) }
    ensures elf { (program : Program) → IfOk result (IsJudged (Ok program)) }
    ensures within { IfOk result (KeepsBudget machine.machine.budget) }
    ensures loading { result ≡ Err Stopped.Loading → ⊥ }
    ensures running { (items : Items) → W.told world.old ≡ Some items → result ≡ Err (Stopped.Running read_stop.NoMemory) → RunWants items (IsAllocated machine.allocated) machine.machine }
    ensures cause { CountsFault (W.faults world.old) (W.faults world.new) (result ≡ Err (Stopped.Running read_stop.DiskFault)) }
    ensures answered { Finds (W.damages world.old) (W.damages world.new) (λ damage. result ≡ Err (Stopped.Running (read_stop.Damaged damage))) }
    ensures undamaged { W.IsSound (W.loans_of world.old) → (damage : Damage) → result ≡ Err (Stopped.Running (read_stop.Damaged damage)) → ⊥ }
    ensures damage { (damage : Damage) → result ≡ Err (Stopped.Running (read_stop.Damaged damage)) → damage.area ≡ Log }
{
    match run(&mut machine, world) {
        Ok(outcome) => Ok(Execution::Ended {
            outcome,
            cycles: machine.cycles(),
        }),
        Err(stop) => Err(Stopped::Running(stop)),
    }
}

/// The memory that the program of a file begins with.
fn loaded(alloc: Global, judged: &ValidElf) -> Result<Memory, NoMemory>
    ensures memory { IfOk result (λ memory. memory.memory ≡ judged.now.program.memory) }
    ensures allocated { IfOk result (λ memory. (page : ℕ) → HoldsBytes page judged.now.segments → IsAllocated memory.allocated page) }
{
    let mut memory = Memory::new(alloc)?;
    judged.place(&mut memory)?;
    Ok(memory)
}

/// What bytes cost that are loaded.
fn loading_cycles(count: u64) -> u64
    requires { count ≤ 2 ^ 38 }
    ensures cycles { result ≡ programs.loading_cycles count }
    ensures bound { result ≤ 2 ^ 40 }
{
    (count + 3) / 4
}
