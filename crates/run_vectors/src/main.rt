//! Runs of the program over streams and a disk in memory that fail.
//!
//! A row of a run has seven columns, with a tab between two: a name, the words after the folder, the number of the status that is
//! wanted, the input and the text that is wanted, both in hex (`-` for no bytes; after the input `+N` for N zero bytes more), and
//! which reads and which writes of its streams fail, by their numbers with a comma between two, `-` for none. A row `list` makes the
//! runs above it, up to the last such row, in one call over a new disk, with streams that move a byte a call; it has the numbers of
//! the calls of the disk that fail. A row `faults` makes them over one new disk after the other, and has a status, the number of a call
//! and a least count: that call fails, of each run's source (status 3) or sink (4) but the first run's, or of the disk (5), then the
//! next one and so on. The run in which it does has that status and a beginning of its text, and answers as it must once more; at
//! least so many calls fail before there is no such call. A row `more` makes them over a new disk, and has a count: the last makes
//! at least so many calls of the disk more than `tip` does in its place.
//!
//! What is wanted was made by programs that were written from the rules of docs/ alone, or by hand from the same rules;
//! tests/README.md says which rows scripts of tests/rows/ make. Runs in which nothing fails are made by the built program
//! (tests/runs.py). The blocks of a generated chain are also imported by a node that holds one block in memory; a row `chain` is about
//! a piece of one (made.rt).
//!
//! The program prints each row that differs, and how many agree; its status is 1 where one differs, or a list has no end.
#![tactic(auto)]

mod caches;
mod calls;
mod faulty;
mod list;
mod made;
mod row;
mod trickle;

ghost use Rattle.std.specs.Prelude.{◌≡◌, ◌<◌};

use outside::Steps;
use row::{Run, run_of};
use row_table::{Row, Subject, all_agree};
use std::alloc::Global;
use std::io;
use std::marker::Brand;
use std::process::ExitCode;
use std::sync::ledger::{Blank, Ledger};

/// Runs that are still to be made, and their ledger.
#[derive(Drop)]
struct Runs<'s, L: Ledger> {
    steps: &'s mut Steps<L>,
    runs: Vec<Run>,
}

impl<'s, L: Ledger> Runs<'s, L> {
    fn agree_in_a_list(&mut self, alloc: Global, row: &mut Row) -> Option<bool> {
        let failing = row.numbers(alloc)?;
        let agree = list::agrees(alloc, self.steps, &self.runs, failing);
        self.runs.clear();
        agree.ok()
    }

    fn agree_with_faults(&mut self, alloc: Global, row: &mut Row) -> Option<bool> {
        let status: u8 = row.word().parse().ok()?;
        let first = row.number()?;
        let least = row.number()?;
        let agree = faulty::agrees(alloc, self.steps, &self.runs, status, first, least);
        self.runs.clear();
        agree.ok()
    }

    fn agree_with_more(&mut self, alloc: Global, row: &mut Row) -> Option<bool> {
        let least = row.number()?;
        let agree = calls::makes_more(alloc, self.steps, &mut self.runs, least);
        self.runs.clear();
        agree.ok()
    }

    fn take(&mut self, alloc: Global, row: &mut Row) -> Option<bool> {
        self.runs.push(run_of(alloc, row)?).ok()?;
        Some(true)
    }
}

impl<'s, L: Ledger> Subject for Runs<'s, L> {
    fn agrees(&mut self, alloc: Global, row: &mut Row<'_>) -> Option<bool> {
        match row.word() {
            "chain" => made::agrees(alloc, row),
            "list" => self.agree_in_a_list(alloc, row),
            "faults" => self.agree_with_faults(alloc, row),
            "more" => self.agree_with_more(alloc, row),
            _ => self.take(alloc, row),
        }
    }
}

fn all_rows_agree<L: Ledger>(rt: HostRuntime, steps: &mut Steps<L>) -> io::Result<bool> {
    let mut runs = Runs {
        steps,
        runs: Vec::new(rt.alloc()),
    };
    let all = all_agree(rt, &mut runs);
    let ended = runs.runs.is_empty();
    drop(runs);
    Ok(all? && ended)
}

fn run_rows<L: Ledger>(rt: HostRuntime, blank: Blank) -> io::Result<ExitCode>
    requires name { blank.name ≡ L.name }
    requires parts { blank.parts ≡ L.parts }
    requires some { 0 < L.parts }
{
    let mut steps = Steps::<L>::new(blank);
    let (joined, cells) = caches::agreed(rt.alloc(), &mut steps).unwrap_or((0, 0));
    println!(rt;
        "{joined} of 2000 generated blocks join a node that holds one, which has {cells} live cells then"
    )?;
    let all = all_rows_agree(rt, &mut steps)?;
    // as many cells as the row of tests/rows/runs.txt that makes this chain has
    Ok(ExitCode::from(u8::from(!all || joined != 2000 || cells != 1705)))
}

fn main(rt: HostRuntime) -> io::Result<ExitCode> {
    run_rows::<Brand>(rt, Blank::new(1))
}
