// The steps of a program, each looked at.
ghost use Rattle.std.specs.Prelude.{◌≡◌, true, Ok, None, Err};
ghost use Rattle.outside.specs.Causes.{CountsFault};
ghost use Rattle.outside.specs.declared.disk.Area.TheVariants.{Log};
ghost use Rattle.outside.specs.declared.disk.Damage.{Damage};
ghost use Rattle.outside.specs.declared.disk.ReadStop.TheVariants as read_stop;
ghost use Rattle.vm_sys.specs.Finding.{Finds};
ghost use Rattle.machine_trace.specs.declared.tracing.TraceStop.TheVariants as stops;

use crate::calls::{Answer, Call, Calls, call_of};
use crate::jumps::Jumps;
use crate::text::text_line;
use machine_defs::{Outcome, Step};
use outside::ReadStop;
use std::alloc::Global;
use vm_mem::Width;
use vm_step::Machine;
use vm_sys::{Sys, World, handle};

/// The registers of a syscall's number and of its first argument, which is its result too.
const A7: u8 = 17;

const A0: u8 = 10;

/// The syscall by which a program prints a text.
const PRINTS: u64 = 2177;

/// A text could not be taken.
#[derive(Clone, Copy)]
pub struct Unheard;

/// Takes the texts that a program prints.
pub trait Listener {
    /// The line of a text, as it is printed.
    fn hear(&mut self, line: &str) -> Result<(), Unheard>;
}

/// Why a program was not run to its end.
#[derive(Clone, Copy)]
pub enum TraceStop {
    /// A text could not be taken.
    Unheard,
    /// Memory was wanted, or what surrounds the script could not be read.
    Read(ReadStop),
}

/// How a program ended, and where the step was that ended it.
#[derive(Clone, Copy)]
pub struct Ended {
    pub outcome: Outcome,
    pub pc: u64,
}

/// What was noted of a run: its last jumps, and its last syscalls.
#[derive(Drop)]
pub struct Notes {
    pub(crate) jumps: Jumps,
    pub(crate) calls: Calls,
}

impl Notes {
    pub fn new() -> Notes {
        Notes {
            jumps: Jumps::new(),
            calls: Calls::new(),
        }
    }
}

/// Runs a machine to its end over what surrounds the script. Each step costs a cycle at least, so the budget ends it.
pub fn trace<W: World, H: Listener>(
    alloc: Global,
    machine: &mut Machine,
    world: &mut W,
    noted: &mut Notes,
    listener: &mut H,
) -> Result<Ended, TraceStop>
    requires { machine.old.goes_on ≡ true }
    ensures loans { W.loans_of world.new ≡ W.loans_of world.old }
    ensures cause { CountsFault (W.faults world.old) (W.faults world.new) (result ≡ Err (stops.Read read_stop.DiskFault)) }
    ensures answered { Finds (W.damages world.old) (W.damages world.new) (λ damage. result ≡ Err (stops.Read (read_stop.Damaged damage))) }
    ensures damage { (damage : Damage) → result ≡ Err (stops.Read (read_stop.Damaged damage)) → damage.area ≡ Log }
{
    'steps: for _ in 0..u64::MAX {
        let pc = machine.pc();
        match step(alloc, machine, world, noted, listener) {
            Ok(None) => {}
            Ok(Some(outcome)) => return Ok(Ended { outcome, pc }),
            Err(stop) => return Err(stop),
        }
    }
    Err(TraceStop::Read(ReadStop::NoMemory))
}

/// One step, with the answer to an ECALL: how that ended the program, if it did.
fn step<W: World, H: Listener>(
    alloc: Global,
    machine: &mut Machine,
    world: &mut W,
    noted: &mut Notes,
    listener: &mut H,
) -> Result<Option<Outcome>, TraceStop>
    requires { machine.old.goes_on ≡ true }
    ensures goes_on { result ≡ Ok None → machine.new.goes_on ≡ true }
    ensures loans { W.loans_of world.new ≡ W.loans_of world.old }
    ensures cause { CountsFault (W.faults world.old) (W.faults world.new) (result ≡ Err (stops.Read read_stop.DiskFault)) }
    ensures answered { Finds (W.damages world.old) (W.damages world.new) (λ damage. result ≡ Err (stops.Read (read_stop.Damaged damage))) }
    ensures damage { (damage : Damage) → result ≡ Err (stops.Read (read_stop.Damaged damage)) → damage.area ≡ Log }
{
    let pc = machine.pc();
    match machine.step() {
        Step::Went => {
            noted.jumps.note_step(pc, machine.pc());
            Ok(None)
        }
        Step::Ecall => {
            match print(alloc, machine, listener) {
                Ok(()) => {}
                Err(stop) => return Err(stop),
            }
            answer(machine, world, noted, pc)
        }
        Step::Fault(number) => Ok(Some(Outcome::Fault(number))),
        Step::Spent => Ok(Some(Outcome::Spent)),
        Step::NoMemory => Err(TraceStop::Read(ReadStop::NoMemory)),
    }
}

/// The answer to an ECALL, which is noted.
fn answer<W: World>(
    machine: &mut Machine,
    world: &mut W,
    noted: &mut Notes,
    pc: u64,
) -> Result<Option<Outcome>, TraceStop>
    requires { machine.old.goes_on ≡ true }
    ensures goes_on { result ≡ Ok None → machine.new.goes_on ≡ true }
    ensures loans { W.loans_of world.new ≡ W.loans_of world.old }
    ensures cause { CountsFault (W.faults world.old) (W.faults world.new) (result ≡ Err (stops.Read read_stop.DiskFault)) }
    ensures answered { Finds (W.damages world.old) (W.damages world.new) (λ damage. result ≡ Err (stops.Read (read_stop.Damaged damage))) }
    ensures damage { (damage : Damage) → result ≡ Err (stops.Read (read_stop.Damaged damage)) → damage.area ≡ Log }
{
    let call = call_of(machine, pc);
    match handle(machine, world) {
        Sys::Done => {
            let went = answered(machine, &call);
            noted.calls.note(call, went);
            Ok(None)
        }
        Sys::Exit(code) => {
            noted.calls.note(call, Answer::Ended);
            Ok(Some(Outcome::Exit(code)))
        }
        Sys::Fault(number) => {
            noted.calls.note(call, Answer::Ended);
            Ok(Some(Outcome::Fault(number)))
        }
        Sys::Spent => {
            noted.calls.note(call, Answer::Ended);
            Ok(Some(Outcome::Spent))
        }
        Sys::Stop(stop) => Err(TraceStop::Read(stop)),
    }
}

/// What was answered where the program goes on: a0, and the length word.
fn answered(machine: &mut Machine, call: &Call) -> Answer
    ensures { machine.new.goes_on ≡ machine.old.goes_on }
{
    let value = machine.reg(A0);
    let length = machine.memory_mut().load(call.length_at, Width::B8).ok();
    Answer::Went { value, length }
}

/// Hands the text to the listener that a printing syscall is about to print.
fn print<H: Listener>(
    alloc: Global,
    machine: &mut Machine,
    listener: &mut H,
) -> Result<(), TraceStop>
    ensures kept { machine.new.goes_on ≡ machine.old.goes_on }
    ensures fault { result ≡ Err (stops.Read read_stop.DiskFault) → ⊥ }
    ensures damage { (damage : Damage) → result ≡ Err (stops.Read (read_stop.Damaged damage)) → ⊥ }
{
    if machine.reg(A7) != PRINTS {
        return Ok(());
    }
    let address = machine.reg(A0);
    let Ok(line) = text_line(alloc, machine.memory_mut(), address) else {
        return Err(TraceStop::Read(ReadStop::NoMemory));
    };
    match listener.hear(&line) {
        Ok(()) => Ok(()),
        Err(_) => Err(TraceStop::Unheard),
    }
}
