// A program that runs alone.
ghost use Rattle.std.specs.Prelude.{◌≡◌, ◌≤◌, ◌^◌, true};

use machine_trace::{
    Listener, Notes, Symbols, TraceStop, Unheard, bad_elf, page_of, spent_loading, trace,
};
use outside::Sink;
use program_io::{Status, write_answer};
use program_run::{Started, start};
use std::alloc::Global;
use vm_step::Machine;
use vm_sys::Alone;

/// Writes each text at once.
#[derive(Drop)]
struct Writer<'k, K: Sink> {
    out: &'k mut K,
}

impl<'k, K: Sink> Listener for Writer<'k, K> {
    fn hear(&mut self, line: &str) -> Result<(), Unheard> {
        match write_answer(line.as_bytes(), self.out) {
            Ok(()) => Ok(()),
            Err(_) => Err(Unheard),
        }
    }
}

/// Runs a file, and writes its page.
pub(crate) fn trace_file<K: Sink>(
    alloc: Global,
    budget: u64,
    file: &[u8],
    out: &mut K,
) -> Result<(), Status>
    requires { budget ≤ 2 ^ 40 }
{
    match start(alloc, file, budget) {
        Ok(Started::Ready(machine)) => run_to_page(alloc, machine, file, budget, out),
        Ok(Started::Spent { cycles }) => {
            let page = spent_loading(alloc, cycles, budget)?;
            write_answer(page.as_bytes(), out)
        }
        Ok(Started::BadElf(condition)) => {
            let page = bad_elf(alloc, condition)?;
            write_answer(page.as_bytes(), out)
        }
        Err(_) => Err(Status::NoMemory),
    }
}

/// Runs the program of a machine to its end. Each text that it prints is written at once, and then the page of its end.
fn run_to_page<K: Sink>(
    alloc: Global,
    mut machine: Machine,
    file: &[u8],
    budget: u64,
    out: &mut K,
) -> Result<(), Status>
    requires { machine.goes_on ≡ true }
{
    let mut noted = Notes::new();
    let mut alone = Alone;
    let mut writer = Writer { out };
    let ended = match trace(alloc, &mut machine, &mut alone, &mut noted, &mut writer) {
        Ok(ended) => ended,
        Err(TraceStop::Unheard) => return Err(Status::OutputFault),
        Err(TraceStop::Read(_)) => return Err(Status::NoMemory),
    };
    let page = page_of(
        alloc,
        &mut machine,
        &noted,
        &ended,
        &Symbols::of(file),
        budget,
    )?;
    write_answer(page.as_bytes(), out)
}
