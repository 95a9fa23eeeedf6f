// Rows of snapshots.
ghost use Rattle.std.specs.Prelude.{◌≡◌, ◌<◌, ◌≤◌, length};

use crate::forms::are_bytes;
use cell_state::{CellMeta, Cells, OutPoint, ROW_SIZE, State, put_row, read_row};
use chain_tree::Tree;
use outside::{Area, Disk, Failed, ReadStop, Steps, WriteStop};
use outside_mem::MemDisk;
use row_table::Row;
use snapshots::{area_of, close, number, read, write};
use std::alloc::Global;
use std::marker::Brand;
use std::sync::ledger::{Blank, Ledger};

const LIMIT: usize = 10_000_000;

/// What is done to an area, `a` or `b`, and its columns.
pub(crate) fn agrees(
    alloc: Global,
    disk: &mut MemDisk,
    tree: &Tree,
    row: &mut Row,
) -> Option<bool> {
    let call = row.word();
    let area = match row.word() {
        "a" => Area::SnapA,
        "b" => Area::SnapB,
        _ => return None,
    };
    match call {
        "put" => put(alloc, disk, area, row),
        "bytes" => agrees_on_bytes(alloc, disk, area, row),
        "of" => Some(area_of(row.short()?) == area),
        "number" => agrees_on_number(disk, area, row),
        "read" => agrees_on_read(alloc, disk, area, tree, row),
        "close" => Some(is_done(close(disk, area), row.word())),
        "write" => agrees_on_write(alloc, disk, area, row),
        _ => None,
    }
}

/// Bytes of an area, at its start.
fn put(alloc: Global, disk: &mut MemDisk, area: Area, row: &mut Row) -> Option<bool> {
    let bytes = row.bytes(alloc)?;
    if bytes.len() >= LIMIT {
        return None;
    }
    disk.write(area, 0, &bytes).ok()?;
    Some(true)
}

/// All bytes of an area.
fn agrees_on_bytes(alloc: Global, disk: &mut MemDisk, area: Area, row: &mut Row) -> Option<bool> {
    let mut into = [0; 2000];
    let n = disk.read(area, 0, &mut into).ok()?;
    are_bytes(alloc, into.get(..n)?, row)
}

/// `damaged` at the start of the area, or `disk_fault`. None out of memory.
fn is_stopped(stop: ReadStop, area: Area, wanted: &str) -> Option<bool> {
    match stop {
        ReadStop::Damaged(damage) => {
            Some(wanted == "damaged" && damage.area == area && damage.at == 0)
        }
        ReadStop::DiskFault => Some(wanted == "disk_fault"),
        ReadStop::NoMemory => None,
    }
}

/// `ok` or `disk_fault`.
fn is_done(done: Result<(), Failed>, wanted: &str) -> bool {
    match done {
        Ok(()) => wanted == "ok",
        Err(Failed) => wanted == "disk_fault",
    }
}

/// The number, `none`, or why it is not answered.
fn agrees_on_number(disk: &mut MemDisk, area: Area, row: &mut Row) -> Option<bool> {
    match number(disk, area) {
        Ok(Some(number)) => Some(row.short()? == number),
        Ok(None) => Some(row.word() == "none"),
        Err(stop) => is_stopped(stop, area, row.word()),
    }
}

fn load<L: Ledger>(
    blank: Blank,
    alloc: Global,
    disk: &mut MemDisk,
    area: Area,
    tree: &Tree,
) -> Result<Option<(u32, u32, State)>, ReadStop>
    requires name { blank.name ≡ L.name }
    requires parts { blank.parts ≡ L.parts }
    requires some { 0 < L.parts }
{
    let mut steps = Steps::<L>::new(blank);
    read(alloc, disk, area, tree, &mut steps)
}

/// The number, the place of the tip, and the bytes of all rows in order, `none`, or why it is not read.
fn agrees_on_read(
    alloc: Global,
    disk: &mut MemDisk,
    area: Area,
    tree: &Tree,
    row: &mut Row,
) -> Option<bool> {
    match load::<Brand>(Blank::new(1), alloc, disk, area, tree) {
        Ok(Some((number, tip, state))) => {
            let same = has_rows(alloc, &state, row);
            drop(state);
            Some(same? && row.short()? == number && row.short()? == tip)
        }
        Ok(None) => Some(row.word() == "none"),
        Err(stop) => is_stopped(stop, area, row.word()),
    }
}

/// Whether a state has just these rows, of which the bytes stand side by side.
fn has_rows(alloc: Global, state: &State, row: &mut Row) -> Option<bool> {
    let rows = state.sorted(alloc).ok()?;
    let mut bytes = Vec::new(alloc);
    put_rows(&mut bytes, &rows)?;
    are_bytes(alloc, &bytes, row)
}

fn put_rows(bytes: &mut Vec<u8>, rows: &[(OutPoint, CellMeta)]) -> Option<()> {
    for (o, meta) in rows {
        put_row(bytes, o, meta).ok()?;
    }
    Some(())
}

/// Puts a row into a state that does not have it.
fn add<L: Ledger>(state: &mut State, bytes: &[u8], steps: &mut Steps<L>) -> Option<()> {
    if bytes.len() != ROW_SIZE {
        return None;
    }
    let (o, meta) = read_row(bytes)?;
    state.reserve(1).ok()?;
    if state.get(&o).is_some() {
        return None;
    }
    state.load_row(o, meta, steps);
    Some(())
}

/// Puts rows, of which the bytes stand side by side, into a state.
fn fill<L: Ledger>(state: &mut State, rows: &[u8], steps: &mut Steps<L>) -> Option<()> {
    for bytes in rows.chunks(ROW_SIZE) {
        add(state, bytes, steps)?;
    }
    Some(())
}

fn filled<L: Ledger>(blank: Blank, state: &mut State, rows: &[u8]) -> Option<()>
    requires name { blank.name ≡ L.name }
    requires parts { blank.parts ≡ L.parts }
    requires some { 0 < L.parts }
{
    let mut steps = Steps::<L>::new(blank);
    fill(state, rows, &mut steps)
}

/// A number, whose area it is, the place and the hash of the tip, and rows in any order: their snapshot is written.
fn agrees_on_write(alloc: Global, disk: &mut MemDisk, area: Area, row: &mut Row) -> Option<bool> {
    let (number, tip) = (row.short()?, row.short()?);
    if area_of(number) != area {
        return None;
    }
    let mut hash = [0; 32];
    let given = row.bytes(alloc)?;
    if given.len() != 32 {
        return None;
    }
    hash.copy_from_slice(&given);
    let rows = row.bytes(alloc)?;
    let mut state = State::new(alloc);
    let there = filled::<Brand>(Blank::new(1), &mut state, &rows);
    let written = write(alloc, disk, number, tip, &hash, &state);
    drop(state);
    there?;
    match written {
        Ok(()) => Some(row.word() == "ok"),
        Err(WriteStop::DiskFault) => Some(row.word() == "disk_fault"),
        Err(WriteStop::NoMemory) => None,
    }
}
