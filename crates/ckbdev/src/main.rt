//! The program: one run over the streams of the machine. It prints nothing itself.
#![tactic(auto)]

ghost use Rattle.std.specs.Prelude.{◌≡◌, ◌<◌};

use node_run::{Status, run};
use outside::Steps;
use outside_os::{FolderDisk, StdinSource, StdoutSink};
use std::alloc::AllocError;
use std::env;
use std::io::ErrorKind;
use std::marker::Brand;
use std::process::ExitCode;
use std::sync::ledger::{Blank, Ledger};

/// The words after the program's name. One that is no text is in no grammar.
fn words_of(rt: &HostRuntime) -> Result<Vec<String>, Status> {
    let mut args = match env::args(rt) {
        Ok(args) => args,
        Err(error) if error.kind() == ErrorKind::OutOfMemory => return Err(Status::NoMemory),
        Err(_) => return Err(Status::BadWords),
    };
    let _ = args.next();
    let mut words = Vec::new(rt.alloc());
    for word in args {
        if words.push(word).is_err() {
            return Err(Status::NoMemory);
        }
    }
    Ok(words)
}

/// The folder of the store, which is the first word. Where there is none, nothing is opened: such words are bad.
fn folder_of(rt: &HostRuntime, words: &[String]) -> Result<String, AllocError> {
    match words.first() {
        Some(word) => word.clone(),
        None => Ok(String::new(rt.alloc())),
    }
}

/// Runs with these words over the standard streams, the store's folder, and a count of steps from 0.
fn run_with<L: Ledger>(rt: HostRuntime, words: &[String], blank: Blank) -> Status
    requires name { blank.name ≡ L.name }
    requires parts { blank.parts ≡ L.parts }
    requires some { 0 < L.parts }
{
    let mut steps = Steps::<L>::new(blank);
    let mut input = StdinSource::new(rt);
    let mut out = StdoutSink::new(rt);
    let Ok(folder) = folder_of(&rt, words) else {
        return Status::NoMemory;
    };
    let mut disk = FolderDisk::new(rt, folder);
    run(
        rt.alloc(),
        words,
        &mut input,
        &mut out,
        &mut disk,
        &mut steps,
    )
}

fn main(rt: HostRuntime) -> ExitCode {
    let status = match words_of(&rt) {
        Ok(words) => run_with::<Brand>(rt, &words, Blank::new(1)),
        Err(status) => status,
    };
    ExitCode::from(status.number())
}
