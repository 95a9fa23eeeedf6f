// A list of runs over one disk, in one call.

use crate::row::{Run, words_of};
use crate::trickle::Trickle;
use crashing::Armed;
use node_run::{Call, run_all};
use outside::Steps;
use outside_mem::{MemDisk, MemSink, MemSource};
use std::alloc::{AllocError, Global};
use std::sync::ledger::Ledger;

pub type Made = Call<Trickle<MemSource>, Trickle<MemSink>>;

/// A run that is still to be made, of which these reads and writes fail, and whose streams move at most so many bytes a call.
pub fn made_of(
    alloc: Global,
    run: &Run,
    reads: &[u64],
    writes: &[u64],
    most: usize,
) -> Result<Made, AllocError> {
    let words = words_of(alloc, run.words.as_str())?;
    let inner = MemSource::new(run.input.to_vec(alloc)?, reads.to_vec(alloc)?);
    let input = Trickle { inner, most };
    let inner = MemSink::new(alloc, writes.to_vec(alloc)?);
    Ok(Call {
        words,
        input,
        out: Trickle { inner, most },
        stop: None,
        status: None,
    })
}

/// The number of the status that a run ended with, 255 where it was not made.
pub fn status_of(made: &Made) -> u8 {
    match made.status {
        Some(status) => status.number(),
        None => 255,
    }
}

/// Whether status and text of a run are as they must be.
pub fn answers_as(made: &Made, run: &Run) -> bool {
    status_of(made) == run.status && made.out.inner.taken() == run.text.as_slice()
}

fn all_made(alloc: Global, runs: &[Run]) -> Result<Vec<Made>, AllocError> {
    let mut made = Vec::new(alloc);
    for run in runs {
        made.push(made_of(alloc, run, &run.reads, &run.writes, 1)?)?;
    }
    Ok(made)
}

/// Makes all runs over a new disk, of which these calls fail, and tells whether each answers as it must.
pub fn agrees<L: Ledger>(
    alloc: Global,
    steps: &mut Steps<L>,
    runs: &[Run],
    failing: Vec<u64>,
) -> Result<bool, AllocError> {
    let mut made = all_made(alloc, runs)?;
    let mut disk = Armed::new(MemDisk::new(alloc, failing));
    run_all(alloc, &mut made, &mut disk, steps);
    let agree = made
        .iter()
        .zip(runs)
        .all(|(made, run)| answers_as(made, run));
    drop(made);
    Ok(agree)
}
