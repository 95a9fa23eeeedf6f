// Rows of syscalls: the call, what surrounds it, and the answer.
ghost use Rattle.std.specs.Prelude.{◌≡◌, true};

use crate::shown::Shown;
use machine_defs::{PAGE_COUNT, PAGE_SIZE};
use row_table::Row;
use std::alloc::Global;
use vm_mem::{MemFault, Memory, Width};
use vm_step::Machine;
use vm_sys::{Sys, handle};

const BUDGET_LIMIT: u64 = 1 << 40;

/// The numbers of a column in hex, with commas between two; what is not there is 0.
#[derive(Drop)]
struct Numbers<'a> {
    rest: &'a str,
}

impl<'a> Numbers<'a> {
    fn next(&mut self) -> u64 {
        let (word, rest) = self.rest.split_once(',').unwrap_or((self.rest, ""));
        self.rest = rest;
        u64::from_str_radix(word, 16).unwrap_or(0)
    }
}

/// Writes a run of bytes, which stand after their address.
fn write_run(alloc: Global, memory: &mut Memory, run: &str) -> Option<()> {
    let (at, digits) = run.split_once(':')?;
    let at = u64::from_str_radix(at, 16).ok()?;
    let bytes = hex::decode(alloc, digits).ok()?;
    memory.copy_in(at, &bytes).ok()
}

/// Writes the runs of bytes of a column.
fn write_runs(alloc: Global, memory: &mut Memory, column: &str) -> Option<()> {
    if column == "-" {
        return Some(());
    }
    for run in column.split(';') {
        write_run(alloc, memory, run)?;
    }
    Some(())
}

fn make_page_code(memory: &mut Memory, page: &str) -> Option<()> {
    let page = page.parse::<u64>().ok()?;
    if page >= PAGE_COUNT {
        return None;
    }
    memory.set_code(page * PAGE_SIZE, 1).ok()
}

/// Makes the pages of a column code.
fn make_code(memory: &mut Memory, column: &str) -> Option<()> {
    for page in column.split(',') {
        make_page_code(memory, page)?;
    }
    Some(())
}

/// Writes the arguments and the number of a call.
fn set_call(machine: &mut Machine, column: &str)
    ensures { machine.new.goes_on ≡ machine.old.goes_on }
{
    let mut numbers = Numbers { rest: column };
    machine.set_reg(10, numbers.next());
    machine.set_reg(11, numbers.next());
    machine.set_reg(12, numbers.next());
    machine.set_reg(13, numbers.next());
    machine.set_reg(14, numbers.next());
    machine.set_reg(15, numbers.next());
    machine.set_reg(17, numbers.next());
}

fn is_same_word(memory: &Memory, other: &Memory, at: u64) -> bool {
    memory.load(at, Width::B8) == other.load(at, Width::B8)
}

fn is_data(memory: &Memory, at: u64) -> bool {
    memory.fetch(at) == Err(MemFault::RunData)
}

fn have_same_bytes(memory: &Memory, other: &Memory) -> bool {
    for word in 0..PAGE_COUNT * PAGE_SIZE / 8 {
        if !is_same_word(memory, other, 8 * word) {
            return false;
        }
    }
    true
}

fn have_same_code(memory: &Memory, other: &Memory) -> bool {
    for page in 0..PAGE_COUNT {
        if is_data(memory, PAGE_SIZE * page) != is_data(other, PAGE_SIZE * page) {
            return false;
        }
    }
    true
}

/// Whether two memories have the same bytes, and the same pages of code.
fn are_alike(memory: &Memory, other: &Memory) -> bool {
    have_same_bytes(memory, other) && have_same_code(memory, other)
}

fn write(memory: &mut Memory, alloc: Global, runs: &str, changes: &str, code: &str) -> Option<()> {
    write_runs(alloc, memory, runs)?;
    write_runs(alloc, memory, changes)?;
    make_code(memory, code)
}

/// Memory with runs of bytes, and over them what a call changes, and its pages of code.
fn memory_of(alloc: Global, runs: &str, changes: &str, code: &str) -> Option<Memory> {
    let mut memory = Memory::new(alloc).ok()?;
    let is_written = write(&mut memory, alloc, runs, changes, code);
    is_written.map(|()| memory)
}

fn agrees_on_done(
    alloc: Global,
    machine: &mut Machine,
    before: &str,
    row: &mut Row,
) -> Option<bool> {
    let result = u64::from_str_radix(row.word(), 16).ok()?;
    let cycles = row.number()?;
    let changes = row.word();
    let wanted = memory_of(alloc, before, changes, row.word())?;
    let is_paid = machine.reg(10) == result && machine.cycles() == cycles;
    Some(is_paid && are_alike(machine.memory_mut(), &wanted))
}

fn is_named(answer: Sys, wanted: &str) -> Option<bool> {
    match answer {
        Sys::Exit(code) => Some(wanted.strip_prefix("exit ")?.parse() == Ok(code)),
        Sys::Fault(number) => Some(wanted.strip_prefix("fault ")?.parse() == Ok(number)),
        Sys::Spent => Some(wanted == "spent"),
        _ => Some(wanted == "stop"),
    }
}

/// The answer of the call that a machine is at, over a world that shows an item.
fn answer_of(alloc: Global, machine: &mut Machine, item: &str) -> Option<Sys>
    requires { machine.old.goes_on ≡ true }
{
    let mut world = Shown::new(alloc, item)?;
    Some(handle(machine, &mut world))
}

fn agrees_on(
    alloc: Global,
    machine: &mut Machine,
    item: &str,
    before: &str,
    row: &mut Row,
) -> Option<bool>
    requires { machine.old.goes_on ≡ true }
{
    let wanted = row.word();
    match answer_of(alloc, machine, item)? {
        Sys::Done => {
            if wanted == "done" {
                agrees_on_done(alloc, machine, before, row)
            } else {
                Some(false)
            }
        }
        answer => is_named(answer, wanted),
    }
}

/// Whether the call of a row is answered as the row says; None where it is no row.
pub(crate) fn agrees(alloc: Global, row: &mut Row) -> Option<bool> {
    let registers = row.word();
    let budget = row.number()?;
    if budget > BUDGET_LIMIT {
        return None;
    }
    let item = row.word();
    let before = row.word();
    let memory = memory_of(alloc, before, "-", row.word())?;
    let mut machine = Machine::new(memory, 0, 0, budget);
    set_call(&mut machine, registers);
    agrees_on(alloc, &mut machine, item, before, row)
}
