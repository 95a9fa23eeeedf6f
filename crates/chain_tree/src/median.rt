// The median time of a branch, without memory: over an array of its own.
ghost use Rattle.std.specs.Prelude.{◌≡◌, ◌<◌, ◌≤◌, List, length, take};
ghost use Rattle.chain_defs.specs.Schema.{Block};
ghost use Rattle.chain_defs.specs.Branch.{branch};
ghost use Rattle.chain_defs.specs.Median as median;
ghost use Rattle.chain_tree.specs.Entries.{IsTree};
ghost use Rattle.chain_tree.specs.Timestamps.{timestamps_up};
ghost use Rattle.chain_tree.specs.Blocks.{IndexesBlocks};

use crate::entry::Entry;

/// The median is of so many timestamps at most.
const MOST: usize = 37;

/// Writes the timestamps of a place and of those above it, the latest first, and answers how many they are.
fn take_timestamps(entries: &[Entry], place: u32, timestamps: &mut [u64; MOST]) -> usize
    requires tree { IsTree entries.now }
    requires within { place < length entries.now }
    ensures taken { take result timestamps.new ≡ timestamps_up entries.now 37 place }
    ensures some { 0 < result }
    ensures few { result ≤ 37 }
{
    let mut at = place;
    'up: for count in 0..MOST {
        let entry = &entries[at as usize];
        timestamps[count] = entry.timestamp;
        if at == 0 {
            return count + 1;
        }
        at = entry.parent;
    }
    MOST
}

/// The median of timestamps, which it sorts.
fn median_of(timestamps: &mut [u64]) -> u64
    requires { 0 < length timestamps.old }
    ensures { result ≡ median.median_of timestamps.old }
{
    timestamps.sort_unstable();
    timestamps[timestamps.len() / 2]
}

/// The median time at a place.
pub fn median_at(entries: &[Entry], place: u32) -> u64
    requires tree { IsTree entries.now }
    requires within { place < length entries.now }
    ensures of_blocks { (kept : List Block) → IndexesBlocks kept entries.now → result ≡ median.median_time (branch kept place) }
{
    let mut timestamps = [0; MOST];
    let count = take_timestamps(entries, place, &mut timestamps);
    median_of(&mut timestamps[..count])
}
