// Bytes that are put in place of a log, and what it shows as it is opened.
ghost use Rattle.std.specs.Prelude.{◌≡◌, []};

use chain_tree::Entry;
use log_file::Visitor;
use mol_schema::BlockView;
use outside::{Area, Disk, NoMemory};
use outside_mem::MemDisk;
use row_table::Row;
use std::alloc::Global;

const LIMIT: usize = 10_000_000;

/// Puts these bytes at the start of a log, in one call. None where it fails.
pub(crate) fn put(disk: &mut MemDisk, bytes: &[u8]) -> Option<bool> {
    if bytes.len() >= LIMIT {
        return None;
    }
    disk.write(Area::Log, 0, bytes).ok()?;
    Some(true)
}

/// How many of these bytes are put at the start of a log.
pub(crate) fn put_prefix(disk: &mut MemDisk, bytes: &[u8], row: &mut Row) -> Option<bool> {
    let len: usize = row.word().parse().ok()?;
    put(disk, bytes.get(..len)?)
}

/// An offset within a log, and the bytes that are put there.
pub(crate) fn put_at(alloc: Global, disk: &mut MemDisk, row: &mut Row) -> Option<bool> {
    let at = row.number()?;
    let bytes = row.bytes(alloc)?;
    if bytes.len() >= LIMIT || at >= LIMIT as u64 || at > disk.len(Area::Log).ok()? {
        return None;
    }
    disk.write(Area::Log, at, &bytes).ok()?;
    Some(true)
}

/// The blocks that a log showed, each with its ext.
#[derive(Drop)]
pub(crate) struct Shown {
    blocks: Vec<(Vec<u8>, Vec<u8>)>,
}

impl Shown {
    /// Of no block.
    pub(crate) fn none(alloc: Global) -> Shown
        ensures { result.blocks.items ≡ [] }
    {
        Shown {
            blocks: Vec::new(alloc),
        }
    }
}

impl Visitor for Shown {
    ghost use Rattle.std.specs.Prelude.{map};
    ghost use Rattle.chain_defs.specs.Schema as schema;

    ghost visited = { λ shown. map (λ pair. record { block = schema.block.decoding pair.0.items; ext = pair.1.items }) shown.blocks.items };

    fn visit(
        &mut self,
        alloc: Global,
        block: &BlockView<'_>,
        ext: &[u8],
        entry: &Entry,
    ) -> Result<(), NoMemory> {
        let bytes = block.bytes().to_vec(alloc)?;
        let ext = ext.to_vec(alloc)?;
        self.blocks.push((bytes, ext))?;
        Ok(())
    }
}
