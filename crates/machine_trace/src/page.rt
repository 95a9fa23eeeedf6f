// The page of how a program ended.
ghost use Rattle.std.specs.Prelude.{◌<◌};

use crate::jumps::Jumps;
use crate::symbols::Symbols;
use crate::tracing::{Ended, Notes};
use machine_defs::Outcome;
use std::alloc::{AllocError, Global};
use std::fmt::Write;
use vm_mem::Memory;
use vm_step::Machine;

/// The names of the registers x0 to x31 in the calling convention.
const NAMES: [&str; 32] = [
    "zero", "ra", "sp", "gp", "tp", "t0", "t1", "t2", "s0", "s1", "a0", "a1", "a2", "a3", "a4",
    "a5", "a6", "a7", "s2", "s3", "s4", "s5", "s6", "s7", "s8", "s9", "s10", "s11", "t3", "t4",
    "t5", "t6",
];

/// The line of a file that is no program.
pub fn bad_elf(alloc: Global, condition: u8) -> Result<String, AllocError> {
    format!(in alloc; "bad elf {condition}\n")
}

/// The page of a program whose loading alone passes the budget.
pub fn spent_loading(alloc: Global, cycles: u64, budget: u64) -> Result<String, AllocError> {
    format!(in alloc; "spent\ncycles {cycles} of {budget}, for loading alone\n")
}

/// The page of a program that ended so: the line of `exec`, and then how it came there.
pub fn page_of(
    alloc: Global,
    machine: &mut Machine,
    noted: &Notes,
    ended: &Ended,
    symbols: &Symbols<'_>,
    budget: u64,
) -> Result<String, AllocError> {
    let mut page = String::new(alloc);
    let cycles = machine.cycles();
    push_outcome(&mut page, ended.outcome, cycles)?;
    writeln!(page, "cycles {cycles} of {budget}")?;
    let pc = ended.pc;
    write!(page, "pc {pc:#x}")?;
    symbols.push_name(&mut page, pc)?;
    page.push_str(" ")?;
    push_instruction(alloc, &mut page, machine.memory_mut(), pc)?;
    page.push_str("\n")?;
    push_jumps(
        alloc,
        &mut page,
        machine.memory_mut(),
        &noted.jumps,
        symbols,
    )?;
    push_registers(&mut page, machine)?;
    Ok(page)
}

/// Appends the last syscalls of a run.
pub fn push_calls(page: &mut String, noted: &Notes) -> Result<(), AllocError> {
    noted.calls.push(page)
}

/// Appends the line of `exec`.
fn push_outcome(page: &mut String, outcome: Outcome, cycles: u64) -> Result<(), AllocError> {
    match outcome {
        Outcome::Exit(code) => writeln!(page, "exit {code} {cycles}"),
        Outcome::Fault(number) => writeln!(page, "fault {number} {cycles}"),
        Outcome::Spent => page.push_str("spent\n"),
    }
}

/// Appends the text of the instruction at an address, or why there is none.
fn push_instruction(
    alloc: Global,
    page: &mut String,
    memory: &mut Memory,
    pc: u64,
) -> Result<(), AllocError> {
    if pc % 2 == 1 {
        return page.push_str("odd address");
    }
    match memory.instruction(pc) {
        Ok(Some((ins, _))) => {
            let text = rv_text::show(alloc, &ins)?;
            push_ascii(page, &text)
        }
        Ok(None) => page.push_str("no instruction"),
        Err(_) => page.push_str("no code"),
    }
}

fn push_ascii(page: &mut String, text: &[u8]) -> Result<(), AllocError> {
    for byte in text {
        page.push(char::from(*byte))?;
    }
    Ok(())
}

/// Appends a line for each of the last jumps, the oldest first.
fn push_jumps(
    alloc: Global,
    page: &mut String,
    memory: &mut Memory,
    jumps: &Jumps,
    symbols: &Symbols<'_>,
) -> Result<(), AllocError> {
    page.push_str("last jumps\n")?;
    for i in 0..jumps.len() {
        let jump = jumps.at(i);
        let from = jump.from;
        write!(page, "  {from:#x}")?;
        symbols.push_name(page, from)?;
        page.push_str(" ")?;
        push_instruction(alloc, page, memory, from)?;
        let to = jump.to;
        write!(page, " to {to:#x}")?;
        symbols.push_name(page, to)?;
        let times = jump.times;
        if times > 1 {
            write!(page, ", {times} times")?;
        }
        page.push_str("\n")?;
    }
    Ok(())
}

/// Appends the registers, two a line.
fn push_registers(page: &mut String, machine: &Machine) -> Result<(), AllocError> {
    page.push_str("registers\n")?;
    for i in 0u8..16 {
        push_register(page, machine, 2 * i)?;
        push_register(page, machine, 2 * i + 1)?;
        page.push_str("\n")?;
    }
    Ok(())
}

fn push_register(page: &mut String, machine: &Machine, i: u8) -> Result<(), AllocError>
    requires { i < 32 }
{
    let name = NAMES[i as usize];
    let value = machine.reg(i);
    write!(page, "  x{i:<2} {name:<4} {value:#018x}")
}
