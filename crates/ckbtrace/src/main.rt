//! `ckbtrace` explains. Of an ELF file, which it runs as `exec` of `ckbdev` does, it prints on one page how it ended: the line
//! of `exec`, the cycles, the instruction that ended it, the last jumps and the registers. Each text that the program prints by
//! syscall 2177 comes before that, as it is printed. Of a transaction or a block it prints the line of `check` or `import`, and
//! below it why that is the answer.
//!
//! What a page says no clause says: that the program is safe is proved, and tests compare its pages with those of models. What
//! is proved of the line and of the store stands in `run_explanation`.
#![tactic(auto)]

ghost use Rattle.std.specs.Prelude.{◌≡◌, ◌<◌, ◌≤◌, ◌^◌};

mod program;
mod words;

use outside::{Sink, Source, Steps};
use outside_os::{FolderDisk, StdinSource, StdoutSink};
use program::trace_file;
use program_io::{Status, read_input, words_of, write_answer};
use run_explanation::{Wanted, explain};
use std::alloc::Global;
use std::marker::Brand;
use std::process::ExitCode;
use std::sync::ledger::{Blank, Ledger};
use words::{budget_of, wanted_by};

/// The most bytes of a file, as of `exec`.
const FILE_LIMIT: usize = 1_048_576;

/// Reads a file, runs it, and writes its page.
fn trace_input<S: Source, K: Sink>(
    alloc: Global,
    budget: u64,
    input: &mut S,
    out: &mut K,
) -> Result<(), Status>
    requires { budget ≤ 2 ^ 40 }
{
    match read_input(alloc, FILE_LIMIT, input) {
        Ok(file) => trace_file(alloc, budget, &file, out),
        Err(Status::ExtraInput) => {
            write_answer(b"extra 1048576\n", out)?;
            Err(Status::ExtraInput)
        }
        Err(status) => Err(status),
    }
}

/// Runs a program over the standard streams, within so many cycles.
fn run_trace(rt: HostRuntime, word: &str) -> u8 {
    let Some(budget) = budget_of(word) else {
        return Status::BadWords.number();
    };
    let mut input = StdinSource::new(rt);
    let mut out = StdoutSink::new(rt);
    match trace_input(rt.alloc(), budget, &mut input, &mut out) {
        Ok(()) => Status::Done.number(),
        Err(status) => status.number(),
    }
}

/// Explains an item over the standard streams and a store's folder.
fn run_explain<L: Ledger>(rt: HostRuntime, folder: &String, wanted: Wanted, blank: Blank) -> u8
    requires name { blank.name ≡ L.name }
    requires parts { blank.parts ≡ L.parts }
    requires some { 0 < L.parts }
{
    let mut steps = Steps::<L>::new(blank);
    let mut input = StdinSource::new(rt);
    let mut out = StdoutSink::new(rt);
    let Ok(folder) = folder.clone() else {
        return Status::NoMemory.number();
    };
    let mut disk = FolderDisk::new(rt, folder);
    explain(
        rt.alloc(),
        &mut input,
        &mut out,
        &mut disk,
        wanted,
        &mut steps,
    )
    .number()
}

/// Runs as the words ask.
fn run(rt: HostRuntime, words: &[String]) -> u8 {
    match words {
        [] => Status::BadWords.number(),
        [word] => run_trace(rt, word),
        [folder, rest @ ..] => match wanted_by(rest) {
            Some(wanted) => run_explain::<Brand>(rt, folder, wanted, Blank::new(1)),
            None => Status::BadWords.number(),
        },
    }
}

fn main(rt: HostRuntime) -> ExitCode {
    let number = match words_of(&rt) {
        Ok(words) => run(rt, &words),
        Err(status) => status.number(),
    };
    ExitCode::from(number)
}
