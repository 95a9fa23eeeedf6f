//! The adapters of `outside_os` over a system that is a fake, call by call, and what the disk of `outside_mem` leaves: makes the
//! call of each row of its standard input, and prints the rows that differ.
//!
//! A row begins with what it calls, has a column for each argument and ends with the answer, with a tab between two, `ok` or
//! `failed` where there is no other; bytes are in hex, `-` for none. A line that begins with `#` tells what follows. The
//! answers were worked by hand.
//!
//! `failing_writes` and `crashes` count what is left of a disk in memory, which no clause says.
//!
//! The other rows are about the adapters: which bytes they move, what they answer, and which calls they make. Clauses tell the
//! bytes of a file; that the system's own files are such files, which calls are made and what the streams move they do not tell.
//! `system` makes a new fake, with what its calls do in order and the bytes that each of its files begins with and its input
//! gives, and after the list they succeed: `N` moves at most so many bytes, `interrupted`, `broken` and `pipe` fail, `torn` and
//! `torn_interrupted` write half and fail. `holds` has the bytes of the file that was changed last, or all that standard output
//! took. `noted` has the calls that were made since the last `noted`.
#![tactic(auto)]

mod area;
mod disk;
mod fake_file;
mod left;
mod streams;
mod system;

use outside_os::{FolderDisk, StdinSource, StdoutSink};
use row_table::{Row, Subject, all_agree};
use std::alloc::{AllocError, Global};
use std::io;
use std::io::ErrorKind;
use std::process::ExitCode;
use system::{Runtime, System, Turn};

/// What the rows act on.
#[derive(Drop)]
struct Adapters<'a> {
    system: &'a System,
    source: StdinSource<Runtime<'a>>,
    sink: StdoutSink<Runtime<'a>>,
    disk: FolderDisk<Runtime<'a>>,
}

fn turn_of(word: &str) -> Option<Turn> {
    match word {
        "interrupted" => Some(Turn::Errs(ErrorKind::Interrupted)),
        "broken" => Some(Turn::Errs(ErrorKind::Other)),
        "pipe" => Some(Turn::Errs(ErrorKind::BrokenPipe)),
        "torn" => Some(Turn::Tears(ErrorKind::Other)),
        "torn_interrupted" => Some(Turn::Tears(ErrorKind::Interrupted)),
        digits => Some(Turn::Moves(digits.parse().ok()?)),
    }
}

fn turns_of(alloc: Global, column: &str) -> Option<Vec<Turn>> {
    let mut turns = Vec::new(alloc);
    if column == "-" {
        return Some(turns);
    }
    for word in column.split(',') {
        turns.push(turn_of(word)?).ok()?;
    }
    Some(turns)
}

fn begin_system(alloc: Global, system: &System, row: &mut Row) -> Option<()> {
    let turns = turns_of(alloc, row.word())?;
    let bytes = row.bytes(alloc)?;
    system.begin(&turns, &bytes).ok()
}

fn holds(alloc: Global, system: &System, row: &mut Row) -> Option<bool> {
    Some(system.holds(&row.bytes(alloc)?))
}

fn new_disk<'a>(alloc: Global, system: &'a System) -> Result<FolderDisk<Runtime<'a>>, AllocError> {
    Ok(FolderDisk::new(Runtime(system), String::from_str(alloc, "d")?))
}

impl<'a> Adapters<'a> {
    fn new(alloc: Global, system: &'a System) -> Result<Adapters<'a>, AllocError> {
        Ok(Adapters {
            system,
            source: StdinSource::new(Runtime(system)),
            sink: StdoutSink::new(Runtime(system)),
            disk: new_disk(alloc, system)?,
        })
    }

    /// A new fake, and new adapters over it.
    fn begin(&mut self, alloc: Global, row: &mut Row) -> Option<bool> {
        begin_system(alloc, self.system, row)?;
        self.source = StdinSource::new(Runtime(self.system));
        self.sink = StdoutSink::new(Runtime(self.system));
        self.disk = new_disk(alloc, self.system).ok()?;
        Some(true)
    }

    fn agrees_on_streams(&mut self, alloc: Global, call: &str, row: &mut Row) -> Option<bool> {
        match call {
            "source" => streams::agrees_on_read(alloc, &mut self.source, row),
            "sink" => streams::agrees_on_write(alloc, &mut self.sink, row),
            call => disk::agrees(alloc, &mut self.disk, call, row),
        }
    }
}

impl<'a> Subject for Adapters<'a> {
    fn agrees(&mut self, alloc: Global, row: &mut Row<'_>) -> Option<bool> {
        match row.word() {
            "failing_writes" => left::agrees_on_failures(alloc, row),
            "crashes" => left::agrees_on_crashes(alloc, row),
            "system" => self.begin(alloc, row),
            "noted" => Some(self.system.has_noted(row.word())),
            "holds" => holds(alloc, self.system, row),
            call => self.agrees_on_streams(alloc, call, row),
        }
    }
}

fn all_rows_agree(rt: HostRuntime, system: &System) -> io::Result<bool> {
    let mut adapters = Adapters::new(rt.alloc(), system)?;
    let all = all_agree(rt, &mut adapters);
    drop(adapters);
    all
}

fn main(rt: HostRuntime) -> io::Result<ExitCode> {
    let system = System::new(rt.alloc());
    let all = all_rows_agree(rt, &system)?;
    Ok(ExitCode::from(u8::from(!all)))
}
