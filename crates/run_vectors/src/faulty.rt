// A list of runs that is made again and again, each time with another call of a disk, a source or a sink that fails.

use crate::list::{Made, answers_as, made_of, status_of};
use crate::row::Run;
use crashing::Armed;
use node_run::run_all;
use outside::Steps;
use outside_mem::MemDisk;
use std::alloc::{AllocError, Global};
use std::sync::ledger::Ledger;
use std::{slice, str};

/// The most calls that such a list may make.
const MOST_CALLS: u64 = 10_000;

/// The statuses of a run that set an edition, and of one that found it set.
const DONE: u8 = 0;

const ALREADY_MIGRATED: u8 = 14;

/// How a run ended: as it must, with the status of a fault and a beginning of its text, or in another way.
#[derive(Clone, Copy, PartialEq, Eq)]
enum End {
    Whole,
    CutOff,
    Other,
}

/// Whether a line says of the item of another line, which joined, that it is known.
fn says_known(line: &str, wanted: &str) -> bool {
    match line.strip_prefix("known ") {
        None => false,
        Some(hash) => wanted.starts_with("joined ") && wanted.ends_with(hash),
    }
}

/// Whether a run that is made once more has the status that is wanted: an edition may have been set before.
fn ends_again(status: u8, wanted: u8) -> bool {
    status == wanted || wanted == DONE && status == ALREADY_MIGRATED
}

/// Whether each line is the one that is wanted, or says of an item that has joined before that it is known.
fn are_lines(text: &[u8], wanted: &[u8]) -> bool {
    let (Ok(text), Ok(wanted)) = (str::from_utf8(text), str::from_utf8(wanted)) else {
        return false;
    };
    if text.lines().count() != wanted.lines().count() {
        return false;
    }
    text.lines()
        .zip(wanted.lines())
        .all(|(line, other)| line == other || says_known(line, other))
}

fn end_of(made: &Made, run: &Run, status: u8) -> End {
    if answers_as(made, run) {
        End::Whole
    } else if status_of(made) == status && run.text.starts_with(made.out.inner.taken()) {
        End::CutOff
    } else {
        End::Other
    }
}

/// The number of the call, where it fails.
fn failing(alloc: Global, call: u64, fails: bool) -> Result<Vec<u64>, AllocError> {
    let mut calls = Vec::new(alloc);
    if fails {
        calls.push(call)?;
    }
    Ok(calls)
}

/// A new disk, and which call fails: of the disk where the status of that fault is 5, of the source of each run where it is 3, of
/// the sink where it is 4.
#[derive(Drop)]
struct Trial {
    disk: Armed<MemDisk>,
    status: u8,
    call: u64,
    has_failed: bool,
}

impl Trial {
    fn new(alloc: Global, status: u8, call: u64) -> Result<Trial, AllocError> {
        Ok(Trial {
            disk: Armed::new(MemDisk::new(alloc, failing(alloc, call, status == 5)?)),
            status,
            call,
            has_failed: false,
        })
    }

    /// Makes a run; the call of its streams fails where that may be.
    fn make<L: Ledger>(
        &mut self,
        alloc: Global,
        steps: &mut Steps<L>,
        run: &Run,
        may_fail: bool,
    ) -> Result<Made, AllocError> {
        let reads = failing(alloc, self.call, may_fail && self.status == 3)?;
        let writes = failing(alloc, self.call, may_fail && self.status == 4)?;
        let mut made = made_of(alloc, run, &reads, &writes, usize::MAX)?;
        run_all(alloc, slice::from_mut(&mut made), &mut self.disk, steps);
        Ok(made)
    }

    fn ends<L: Ledger>(
        &mut self,
        alloc: Global,
        steps: &mut Steps<L>,
        run: &Run,
        may_fail: bool,
    ) -> Result<End, AllocError> {
        let made = self.make(alloc, steps, run, may_fail)?;
        let end = end_of(&made, run, self.status);
        drop(made);
        Ok(end)
    }

    /// Whether a run answers as it must once more: of an item it may say that it is known, and of an edition that it is set.
    fn agrees_again<L: Ledger>(
        &mut self,
        alloc: Global,
        steps: &mut Steps<L>,
        run: &Run,
    ) -> Result<bool, AllocError> {
        let made = self.make(alloc, steps, run, false)?;
        let agrees = ends_again(status_of(&made), run.status)
            && are_lines(made.out.inner.taken(), &run.text);
        drop(made);
        Ok(agrees)
    }

    /// Whether a run answers as it must. The first in which the call fails has the status of that and a beginning of its text,
    /// and once more over the same disk it has all of it.
    fn agrees<L: Ledger>(
        &mut self,
        alloc: Global,
        steps: &mut Steps<L>,
        run: &Run,
        may_fail: bool,
    ) -> Result<bool, AllocError> {
        match self.ends(alloc, steps, run, may_fail && !self.has_failed)? {
            End::Whole => Ok(true),
            End::CutOff if !self.has_failed => {
                self.has_failed = true;
                self.agrees_again(alloc, steps, run)
            }
            _ => Ok(false),
        }
    }

    /// Whether all runs do; the streams of the first, which makes the store, do not fail.
    fn all_agree<L: Ledger>(
        &mut self,
        alloc: Global,
        steps: &mut Steps<L>,
        runs: &[Run],
    ) -> Result<bool, AllocError> {
        for (at, run) in runs.iter().enumerate() {
            if !self.agrees(alloc, steps, run, at > 0)? {
                return Ok(false);
            }
        }
        Ok(true)
    }
}

/// Whether all runs agree where a call fails, and whether that call was made.
fn pass<L: Ledger>(
    alloc: Global,
    steps: &mut Steps<L>,
    runs: &[Run],
    status: u8,
    call: u64,
) -> Result<(bool, bool), AllocError> {
    let mut trial = Trial::new(alloc, status, call)?;
    let agree = trial.all_agree(alloc, steps, runs);
    let has_failed = trial.has_failed;
    drop(trial);
    Ok((agree?, has_failed))
}

/// Whether all agree with each call that fails with this status, from a first one up to the first that is not made; at least so
/// many are.
pub fn agrees<L: Ledger>(
    alloc: Global,
    steps: &mut Steps<L>,
    runs: &[Run],
    status: u8,
    first: u64,
    least: u64,
) -> Result<bool, AllocError> {
    for turn in 0..MOST_CALLS {
        let (agree, has_failed) = pass(alloc, steps, runs, status, first.saturating_add(turn))?;
        if !agree || !has_failed {
            return Ok(agree && turn >= least);
        }
    }
    Ok(false)
}
