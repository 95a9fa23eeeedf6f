// Rows of a machine.
ghost use Rattle.std.specs.Prelude.{◌≡◌, ◌<◌, ◌≤◌, ◌^◌, IfSome, true};

use crate::{elf, memory};
use row_table::Row;
use std::alloc::Global;
use std::marker::Model;
use vm_mem::Memory;
use vm_step::{Machine, Step};

const CYCLES_LIMIT: u64 = 1 << 40;

/// A machine, and whether it can make a step.
#[derive(Drop)]
struct Running {
    machine: Machine,
    goes_on: bool,
}

impl Model for Running {
    ghost use Rattle.std.specs.Prelude.{◌≡◌};
    ghost use Rattle.vm_step.specs.Running.{RunningMachine};

    ghost Value = { RunningMachine };

    ghost view = { λ running. running.machine };

    ghost invariant = { λ running. running.goes_on ≡ running.machine.goes_on };
}

/// What the rows act on: a machine, or memory alone.
#[derive(Drop)]
pub(crate) struct Held {
    memory: Option<Memory>,
    running: Option<Running>,
}

fn register_of(row: &mut Row) -> Option<u8>
    ensures { IfSome result (λ register. register < 32) }
{
    let number = row.digits()?;
    if number < 32 {
        Some(number as u8)
    } else {
        None
    }
}

/// Whether the machine or its memory answers what the row says; None where it is no row.
fn looked_at(alloc: Global, machine: &mut Machine, call: &str, row: &mut Row) -> Option<bool>
    ensures { machine.new.goes_on ≡ machine.old.goes_on }
{
    match call {
        "reg" => {
            let register = register_of(row)?;
            Some(machine.reg(register) == row.digits()?)
        }
        "set" => {
            let register = register_of(row)?;
            machine.set_reg(register, row.digits()?);
            Some(true)
        }
        "cycles" => Some(machine.cycles() == row.digits()?),
        call => memory::agrees(alloc, machine.memory_mut(), call, row),
    }
}

fn name_of(answer: Step) -> &'static str {
    match answer {
        Step::Went => "Went",
        Step::Ecall => "Ecall",
        Step::Fault(1) => "Fault(1)",
        Step::Fault(2) => "Fault(2)",
        Step::Fault(3) => "Fault(3)",
        Step::Fault(4) => "Fault(4)",
        Step::Fault(_) => "Fault",
        Step::Spent => "Spent",
        Step::NoMemory => "NoMemory",
    }
}

/// Where the program begins, the cycles that were taken, and the most.
fn start_of(row: &mut Row) -> Option<(u64, u64, u64)>
    ensures { IfSome result (λ start. (start.1 ≤ start.2) × (start.2 ≤ 2 ^ 40)) }
{
    let pc = row.digits()?;
    let cycles = row.digits()?;
    let budget = row.digits()?;
    if budget <= CYCLES_LIMIT && cycles <= budget {
        Some((pc, cycles, budget))
    } else {
        None
    }
}

fn cycles_of(row: &mut Row) -> Option<u64>
    ensures { IfSome result (λ cycles. cycles ≤ 2 ^ 40) }
{
    let cycles = row.digits()?;
    if cycles <= CYCLES_LIMIT {
        Some(cycles)
    } else {
        None
    }
}

impl Running {
    /// One step, or a run: the answer, and the cycles then.
    fn stepped(&mut self, call: &str, row: &mut Row) -> Option<bool> {
        if !self.goes_on {
            return None;
        }
        let answer = if call == "step" {
            self.machine.step()
        } else {
            self.machine.run()
        };
        self.goes_on = match answer {
            Step::Went => true,
            Step::Ecall => true,
            _ => false,
        };
        let is_named = name_of(answer) == row.word();
        Some(is_named && row.digits() == Some(self.machine.cycles()))
    }

    /// Cycles that are charged: `within` or `spent`.
    fn charged(&mut self, row: &mut Row) -> Option<bool> {
        let cycles = cycles_of(row)?;
        if !self.goes_on {
            return None;
        }
        self.goes_on = self.machine.charge(cycles);
        let wanted = if self.goes_on { "within" } else { "spent" };
        Some(row.word() == wanted)
    }
}

impl Held {
    pub(crate) fn new() -> Held {
        Held {
            memory: None,
            running: None,
        }
    }

    /// New memory.
    fn begun(&mut self, alloc: Global) -> Option<bool> {
        self.running = None;
        self.memory = Some(Memory::new(alloc).ok()?);
        Some(true)
    }

    fn loaded(&mut self, alloc: Global, row: &mut Row) -> Option<bool> {
        self.running = None;
        elf::agrees(alloc, &mut self.memory, row)
    }

    /// A machine of the memory.
    fn started(&mut self, row: &mut Row) -> Option<bool> {
        let (pc, cycles, budget) = start_of(row)?;
        let memory = self.memory.take()?;
        self.running = Some(Running {
            machine: Machine::new(memory, pc, cycles, budget),
            goes_on: true,
        });
        Some(true)
    }

    fn looked_at(&mut self, alloc: Global, call: &str, row: &mut Row) -> Option<bool> {
        match &mut self.running {
            Some(running) => looked_at(alloc, &mut running.machine, call, row),
            None => memory::agrees(alloc, self.memory.as_mut()?, call, row),
        }
    }

    /// Whether what is held answers what the row says; None where it is no row.
    pub(crate) fn answers(&mut self, alloc: Global, call: &str, row: &mut Row) -> Option<bool> {
        match call {
            "memory" => self.begun(alloc),
            "elf" => self.loaded(alloc, row),
            "machine" => self.started(row),
            "step" => self.running.as_mut()?.stepped(call, row),
            "run" => self.running.as_mut()?.stepped(call, row),
            "charge" => self.running.as_mut()?.charged(row),
            call => self.looked_at(alloc, call, row),
        }
    }
}
