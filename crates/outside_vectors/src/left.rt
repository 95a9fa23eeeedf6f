// What failed writes and crashes leave of a disk in memory, over many of them.

use crate::area::is_number;
use crashing::Crashing;
use outside::{Area, Disk, Failed};
use outside_mem::MemDisk;
use row_table::Row;
use std::alloc::Global;

const BEFORE: &[u8] = b"abcdefgh";

const PIECE: &[u8] = b"12345678";

/// The calls of a turn of `write_one`, and which of them fails.
const CALLS: u64 = 5;

const FAILING: u64 = 3;

/// What an area reads as.
#[derive(Clone, Copy)]
struct Bytes {
    bytes: [u8; 32],
    len: usize,
}

impl Bytes {
    fn of<D: Disk>(disk: &mut D) -> Result<Bytes, Failed> {
        let mut bytes = [0; 32];
        let len = disk.read(Area::SnapA, 0, &mut bytes)?;
        Ok(Bytes { bytes, len })
    }

    fn slice(&self) -> &[u8] {
        self.bytes.get(..self.len).unwrap_or(b"")
    }
}

/// How many areas are left with a byte that was never written, of a length between, as was asked for, and as before.
#[derive(Clone, Copy)]
struct Left {
    torn: u64,
    in_part: u64,
    whole: u64,
    before: u64,
}

fn count(place: &mut u64, is: bool) {
    if is {
        *place = place.saturating_add(1);
    }
}

fn is_torn(bytes: &[u8]) -> bool {
    bytes
        .iter()
        .any(|byte| !BEFORE.contains(byte) && !PIECE.contains(byte))
}

fn is_between(n: usize, one: usize, other: usize) -> bool {
    n > one.min(other) && n < one.max(other)
}

impl Left {
    fn none() -> Left {
        Left {
            torn: 0,
            in_part: 0,
            whole: 0,
            before: 0,
        }
    }

    /// Counts an area that was BEFORE, and that reads as `left` where it was to read as `wanted`.
    fn count(&mut self, left: &[u8], wanted: &[u8]) {
        count(&mut self.torn, is_torn(left));
        count(
            &mut self.in_part,
            is_between(left.len(), BEFORE.len(), wanted.len()),
        );
        count(&mut self.whole, left == wanted);
        count(&mut self.before, left == BEFORE);
    }

    /// Whether each is at least the number of the row.
    fn are_many(&self, row: &mut Row) -> Option<bool> {
        let torn = self.torn >= row.number()?;
        let in_part = self.in_part >= row.number()?;
        let whole = self.whole >= row.number()?;
        Some(torn && in_part && whole && self.before >= row.number()?)
    }

    /// Whether each is the number of the row.
    fn are(&self, row: &mut Row) -> Option<bool> {
        let torn = is_number(self.torn, row)?;
        let in_part = is_number(self.in_part, row)?;
        let whole = is_number(self.whole, row)?;
        Some(torn && in_part && whole && is_number(self.before, row)?)
    }
}

/// The area holds BEFORE.
fn begin<D: Disk>(disk: &mut D) -> Result<(), Failed> {
    disk.cut(Area::SnapA, 0)?;
    disk.write(Area::SnapA, 0, BEFORE)
}

/// Writes PIECE at a place of BEFORE.
fn write<D: Disk>(disk: &mut D, at: u64) -> Result<(), Failed> {
    if at > 8 || disk.len(Area::SnapA)? < at {
        return Err(Failed);
    }
    disk.write(Area::SnapA, at, PIECE)
}

/// Cuts BEFORE to a length.
fn cut<D: Disk>(disk: &mut D, len: u64) -> Result<(), Failed> {
    if disk.len(Area::SnapA)? < len {
        return Err(Failed);
    }
    disk.cut(Area::SnapA, len)
}

fn change<D: Disk>(disk: &mut D, at: u64, is_cut: bool) -> Result<(), Failed> {
    if is_cut {
        cut(disk, at)
    } else {
        write(disk, at)
    }
}

fn crash_once<D: Crashing>(
    disk: &mut D,
    left: &mut Left,
    pick: u64,
    at: u64,
    is_cut: bool,
) -> Result<(), Failed> {
    begin(disk)?;
    disk.sync(Area::SnapA)?;
    change(disk, at, is_cut)?;
    let wanted = Bytes::of(disk)?;
    disk.crash(pick);
    let found = Bytes::of(disk)?;
    left.count(found.slice(), wanted.slice());
    Ok(())
}

/// How many crashes come while a write at a place, or a cut to it, is not durable, and of how many at least what is left has another
/// byte, is of a length between, is as it read, and is as it was before.
pub(crate) fn agrees_on_crashes(alloc: Global, row: &mut Row) -> Option<bool> {
    let is_cut = row.is("cut", "write")?;
    let at = row.number()?;
    let mut disk = MemDisk::new(alloc, Vec::new(alloc));
    let mut left = Left::none();
    for pick in 0..row.number()? {
        crash_once(&mut disk, &mut left, pick, at, is_cut).ok()?;
    }
    left.are_many(row)
}

/// A turn: its write at a place fails.
fn write_one<D: Disk>(disk: &mut D, left: &mut Left) -> Result<(), Failed> {
    begin(disk)?;
    if write(disk, 4).is_ok() {
        return Err(Failed);
    }
    let found = Bytes::of(disk)?;
    left.count(found.slice(), b"abcd12345678");
    Ok(())
}

fn failing(alloc: Global, turns: u64) -> Option<Vec<u64>> {
    let mut numbers = Vec::new(alloc);
    for turn in 0..turns {
        numbers
            .push(turn.checked_mul(CALLS)?.checked_add(FAILING)?)
            .ok()?;
    }
    Some(numbers)
}

/// How many writes fail, and of how many what is left has another byte, is of a length between, is whole, and is as before.
pub(crate) fn agrees_on_failures(alloc: Global, row: &mut Row) -> Option<bool> {
    let turns = row.number()?;
    let mut disk = MemDisk::new(alloc, failing(alloc, turns)?);
    let mut left = Left::none();
    for _ in 0..turns {
        write_one(&mut disk, &mut left).ok()?;
    }
    left.are(row)
}
