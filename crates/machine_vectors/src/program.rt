// Rows of whole programs.

use machine_defs::Outcome;
use program_run::{Execution, execute};
use row_table::Row;
use std::alloc::Global;

const BUDGET: u64 = 1 << 40;

/// The cycles of a run that exits with 0.
fn cycles_of(alloc: Global, file: &[u8]) -> Option<u64> {
    match execute(alloc, file, BUDGET) {
        Ok(
            Execution::Ended {
                outcome: Outcome::Exit(0),
                cycles,
            },
        ) => Some(cycles),
        _ => None,
    }
}

/// Whether each of so many runs takes these cycles.
fn agree(alloc: Global, file: &[u8], rounds: u64, cycles: u64) -> bool {
    for _ in 0..rounds {
        if cycles_of(alloc, file) != Some(cycles) {
            return false;
        }
    }
    true
}

/// A file, how many times it is run, each time from a new machine, and the cycles of each run, which exits with 0.
pub(crate) fn agrees(alloc: Global, row: &mut Row) -> Option<bool> {
    let file = row.bytes(alloc)?;
    let rounds = row.number()?;
    Some(agree(alloc, &file, rounds, row.number()?))
}
