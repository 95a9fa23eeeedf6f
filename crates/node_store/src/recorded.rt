// The kept blocks for clauses alone: their bytes lie on the disk.
ghost use Rattle.std.specs.Prelude.{◌≡◌, ◌++◌, ◌∷◌, [], OnOk, OnErr};

use mol_schema::BlockView;
use outside::NoMemory;
use std::alloc::Global;
use std::marker::Model;
use std::snapshot::Snapshot;

/// The kept blocks with their exts, as clauses see them. No byte of one is in memory: a snapshot has none.
#[derive(Drop)]
pub struct Recorded {
    blocks: Vec<Snapshot<Vec<u8>>>,
    exts: Vec<Snapshot<Vec<u8>>>,
}

impl Model for Recorded {
    ghost use Rattle.std.specs.Prelude.{◌≡◌, length, map};
    ghost use Rattle.cell_state.specs.ListBlocks.{stored_from};
    ghost use Rattle.node_store.specs.Kept.{RecordedValue};

    ghost Value = { RecordedValue };

    ghost view = { λ it. record { stored = stored_from (map (λ s. s.value.items) it.blocks.items) (map (λ s. s.value.items) it.exts.items) } };

    ghost invariant = { λ it. length it.exts.items ≡ length it.blocks.items };
}

impl Recorded {
    /// Of no block.
    pub fn new(alloc: Global) -> Recorded
        ensures { result.stored ≡ [] }
    {
        Recorded {
            blocks: Vec::new(alloc),
            exts: Vec::new(alloc),
        }
    }

    /// Remembers a block with its ext after the others. Out of memory, nothing has changed.
    pub fn push(&mut self, alloc: Global, block: &BlockView<'_>, ext: &[u8]) -> Result<(), NoMemory>
        ensures pushed { OnOk result (self.new.stored ≡ self.old.stored ++ record { block = block.now; ext = ext.now } ∷ []) }
        ensures err { OnErr result (self.new.stored ≡ self.old.stored) }
    {
        let block = block.bytes().to_vec(alloc)?;
        let ext = ext.to_vec(alloc)?;
        self.blocks.reserve(1)?;
        self.exts.reserve(1)?;
        self.blocks.push_reserved(Snapshot::of(&block));
        self.exts.push_reserved(Snapshot::of(&ext));
        Ok(())
    }
}
