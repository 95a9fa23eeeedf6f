//! `ckbask`: many questions over one opening of a store, line by line. It prints nothing itself: its one word is the folder, and
//! what it reads, writes and leaves of the folder is `ask` of run_ask.
#![tactic(auto)]

ghost use Rattle.std.specs.Prelude.{◌≡◌, ◌<◌};

mod ahead;

use ahead::Ahead;
use outside::Steps;
use outside_os::{FolderDisk, StdinSource, StdoutSink};
use program_io::words_of;
use report_defs::Status;
use run_ask::ask;
use std::marker::Brand;
use std::process::ExitCode;
use std::sync::ledger::{Blank, Ledger};

/// The folder: the one word after the program's name, which is not empty.
fn folder_of(words: &[String]) -> Result<String, Status> {
    let [folder] = words else {
        return Err(Status::BadWords);
    };
    if folder.is_empty() {
        return Err(Status::BadWords);
    }
    match folder.clone() {
        Ok(folder) => Ok(folder),
        Err(_) => Err(Status::NoMemory),
    }
}

/// Asks over the standard streams, the store's folder, and a count of steps from 0.
fn ask_with<L: Ledger>(rt: HostRuntime, folder: String, blank: Blank) -> Status
    requires name { blank.name ≡ L.name }
    requires parts { blank.parts ≡ L.parts }
    requires some { 0 < L.parts }
{
    let mut steps = Steps::<L>::new(blank);
    let mut input = Ahead::new(StdinSource::new(rt));
    let mut out = StdoutSink::new(rt);
    let mut disk = FolderDisk::new(rt, folder);
    ask(rt.alloc(), &mut input, &mut out, &mut disk, &mut steps)
}

fn main(rt: HostRuntime) -> ExitCode {
    let words = match words_of(&rt) {
        Ok(words) => words,
        Err(status) => return ExitCode::from(status.number()),
    };
    let status = match folder_of(&words) {
        Ok(folder) => ask_with::<Brand>(rt, folder, Blank::new(1)),
        Err(status) => status,
    };
    ExitCode::from(status.number())
}
