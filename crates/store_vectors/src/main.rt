//! Kept blocks that are read by their places, over caches of several sizes, and snapshots, each over a disk of which a call fails:
//! makes the call of each row of its standard input, and prints the rows that differ. Logs that are made, cut and changed the
//! built program is run over (tests/runs.py).
//!
//! A row begins with what it calls, has a column for each argument and ends with the answer, with a tab between two; bytes are
//! in hex, `-` for none. `disk` makes a new disk in memory, with the numbers of the calls that fail, and `tree` a new tree; the
//! rows below use them. `bytes` has bytes of a log, which `put`, `prefix` and `brings` are about. A line that begins with `#`
//! tells what follows. The records are by docs/STORE.md, and tests/README.md says which rows scripts make.
#![tactic(auto)]

mod brought;
mod forms;
mod logs;
mod snaps;
mod trees;

use chain_tree::Tree;
use outside_mem::MemDisk;
use row_table::{Row, Subject, all_agree};
use std::alloc::Global;
use std::io;
use std::process::ExitCode;

/// What the rows act on.
#[derive(Drop)]
struct Store {
    disk: MemDisk,
    bytes: Vec<u8>,
    tree: Tree,
}

impl Store {
    fn new(alloc: Global) -> Option<Store> {
        let tree = trees::new_tree(alloc)?;
        Some(Store {
            disk: MemDisk::new(alloc, Vec::new(alloc)),
            bytes: Vec::new(alloc),
            tree,
        })
    }

    fn begin_disk(&mut self, alloc: Global, row: &mut Row) -> Option<bool> {
        self.disk = MemDisk::new(alloc, row.numbers(alloc)?);
        Some(true)
    }

    fn begin_tree(&mut self, alloc: Global) -> Option<bool> {
        self.tree = trees::new_tree(alloc)?;
        Some(true)
    }

    fn take_bytes(&mut self, alloc: Global, row: &mut Row) -> Option<bool> {
        self.bytes = row.bytes(alloc)?;
        Some(true)
    }

    fn agrees_on_log(&mut self, alloc: Global, call: &str, row: &mut Row) -> Option<bool> {
        match call {
            "put" => logs::put(&mut self.disk, &self.bytes),
            "prefix" => logs::put_prefix(&mut self.disk, &self.bytes, row),
            "write" => logs::put_at(alloc, &mut self.disk, row),
            "brings" => brought::agrees_on_brings(alloc, &mut self.disk, &self.bytes, row),
            "parts" => forms::agrees_on_parts(alloc, row),
            "ext_form" => forms::agrees_on_ext(alloc, row),
            _ => None,
        }
    }
}

impl Subject for Store {
    fn agrees(&mut self, alloc: Global, row: &mut Row<'_>) -> Option<bool> {
        match row.word() {
            "disk" => self.begin_disk(alloc, row),
            "bytes" => self.take_bytes(alloc, row),
            "tree" => self.begin_tree(alloc),
            "branch" => trees::agrees_on_branch(&mut self.tree, row),
            "snapshot" => snaps::agrees(alloc, &mut self.disk, &self.tree, row),
            call => self.agrees_on_log(alloc, call, row),
        }
    }
}

fn try_rows(rt: HostRuntime) -> io::Result<bool> {
    let Some(mut store) = Store::new(rt.alloc()) else {
        return Ok(false);
    };
    let all = all_agree(rt, &mut store);
    drop(store);
    all
}

fn main(rt: HostRuntime) -> io::Result<ExitCode> {
    let all = try_rows(rt)?;
    Ok(ExitCode::from(u8::from(!all)))
}
