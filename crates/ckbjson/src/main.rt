//! `ckbjson` makes the bytes of a transaction, a block, a script, a specification or of what the first witness of a cellbase
//! holds from JSON, and JSON from such bytes; seals a block; and prints the hashes of transactions and blocks.
//!
//! What it writes of an input is what `answer_to` gives, by its clause. No clause says what it prints of an input that is refused,
//! which is named on standard error. What the system gives and takes is beyond any contract.
#![tactic(auto)]

mod answers;
mod faults;
mod ids;
mod items;
mod walk;
mod wanted;
mod words;

use answers::{Answer, answer_to};
use outside_os::{StdinSource, StdoutSink};
use program_io::{Status, read_input, words_of, write_answer};
use std::alloc::{AllocError, Global};
use std::io::Write;
use std::process::ExitCode;
use walk::first_fault;
use words::{Command, Kind, command_of, name_of};

/// The most bytes of an input, as of `unjson`.
const INPUT_LIMIT: usize = 16_777_216;

/// What is said of a text that is read as nothing.
fn text_refusal(alloc: Global, kind: Kind, text: &[u8]) -> Result<String, AllocError> {
    let fault = first_fault(alloc, kind, text)?;
    format!(in alloc; "ckbjson: no text of a {}: {fault}\n", name_of(kind))
}

/// What is said of an input that is refused.
fn refusal(alloc: Global, command: Command, input: &[u8]) -> Result<String, AllocError> {
    match command {
        Command::Read(kind) => text_refusal(alloc, kind, input),
        Command::Seal => text_refusal(alloc, Kind::Block, input),
        Command::Show(kind) => format!(in alloc; "ckbjson: no bytes of a {}\n", name_of(kind)),
        Command::Id => {
            String::from_str(alloc, "ckbjson: no bytes of a transaction or of a block\n")
        }
    }
}

/// Says on standard error what is wrong with an input. Where that cannot be written, the status says it alone.
fn complain(rt: HostRuntime, line: &str) -> Status {
    let _ = rt.stderr().write_all(line.as_bytes());
    Status::Refused
}

/// Runs over the standard streams.
fn run(rt: HostRuntime) -> Result<(), Status> {
    let words = words_of(&rt)?;
    let Some(command) = command_of(&words) else {
        return Err(Status::BadWords);
    };
    let bytes = read_input(rt.alloc(), INPUT_LIMIT, &mut StdinSource::new(rt))?;
    match answer_to(rt.alloc(), command, &bytes) {
        Ok(Answer::Bytes(answer)) => write_answer(&answer, &mut StdoutSink::new(rt)),
        Ok(Answer::Refused) => {
            let line = refusal(rt.alloc(), command, &bytes)?;
            Err(complain(rt, &line))
        }
        Ok(Answer::TooMuch) => Err(complain(
            rt,
            "ckbjson: the block is not sealed: its cells hold or occupy more than 2^64 - 1 shannons\n",
        )),
        Err(_) => Err(Status::NoMemory),
    }
}

fn main(rt: HostRuntime) -> ExitCode {
    let status = match run(rt) {
        Ok(()) => Status::Done,
        Err(status) => status,
    };
    ExitCode::from(status.number())
}
