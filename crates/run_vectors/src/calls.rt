// How many calls of the disk a list of runs makes.

use crate::list::{Made, agrees, made_of, status_of};
use crate::row::Run;
use crashing::Armed;
use node_run::run_all;
use outside::Steps;
use outside_mem::MemDisk;
use std::alloc::{AllocError, Global};
use std::sync::ledger::Ledger;

/// Fewer than 2 to this power are counted.
const BITS: u32 = 14;

/// The status of a run of which a call of the disk failed.
const DISK_FAULT: u8 = 5;

fn all_made(alloc: Global, runs: &[Run]) -> Result<Vec<Made>, AllocError> {
    let mut made = Vec::new(alloc);
    for run in runs {
        made.push(made_of(alloc, run, &run.reads, &run.writes, usize::MAX)?)?;
    }
    Ok(made)
}

/// Whether the runs make a call of a new disk with this number: it fails, and one of them says so.
fn is_made<L: Ledger>(
    alloc: Global,
    steps: &mut Steps<L>,
    runs: &[Run],
    call: u64,
) -> Result<bool, AllocError> {
    let mut failing = Vec::new(alloc);
    failing.push(call)?;
    let mut made = all_made(alloc, runs)?;
    let mut disk = Armed::new(MemDisk::new(alloc, failing));
    run_all(alloc, &mut made, &mut disk, steps);
    let met = made.iter().any(|it| status_of(it) == DISK_FAULT);
    drop(made);
    Ok(met)
}

/// The greatest number of a call that the runs make.
fn calls_of<L: Ledger>(
    alloc: Global,
    steps: &mut Steps<L>,
    runs: &[Run],
) -> Result<u64, AllocError> {
    let mut made = 0u64;
    'bits: for turn in 0..BITS {
        let next = made | (1u64 << (BITS - 1 - turn));
        if is_made(alloc, steps, runs, next)? {
            made = next;
        }
    }
    Ok(made)
}

/// Whether all runs answer as they must, and the last makes at least so many calls of the disk more than `tip` does in its place.
pub fn makes_more<L: Ledger>(
    alloc: Global,
    steps: &mut Steps<L>,
    runs: &mut [Run],
    least: u64,
) -> Result<bool, AllocError> {
    let agree = agrees(alloc, steps, runs, Vec::new(alloc))?;
    let whole = calls_of(alloc, steps, runs)?;
    let tip = String::from_str(alloc, "tip")?;
    if let Some(last) = runs.last_mut() {
        last.words = tip;
    }
    let opened = calls_of(alloc, steps, runs)?;
    Ok(agree && opened.saturating_add(least) <= whole)
}
