// The cells that a transaction of a block sees.
ghost use Rattle.std.specs.Prelude.{◌≡◌, ◌<◌, ℕ, OnOk};
ghost use Rattle.chain_defs.specs.Schema as schema;
ghost use Rattle.chain_defs.specs.Events.{events_of};
ghost use Rattle.chain_defs.specs.Row.{row_after};
ghost use Rattle.chain_defs.specs.Hashes.{transaction_hash};
ghost use Rattle.block_judge.specs.BlockCells.{rows_in};

use crate::changes::Changes;
use cell_state::{CellMeta, Cells, OutPoint};
use mol_schema::TxView;
use outside::NoMemory;
use std::alloc::Global;

/// The cells of a branch, and beside them what the transactions of a block made and spent so far. Their rows are
/// `rows_in` of the definitions: those of the branch with what was changed.
#[derive(Drop)]
pub struct BlockCells<'a, C: Cells> {
    base: &'a C,
    changed: Changes,
}

impl<'a, C: Cells> BlockCells<'a, C> {
    /// Those of the branch.
    pub fn of(alloc: Global, base: &'a C) -> BlockCells<'a, C>
        ensures rows { (o : schema.OutPoint) → rows_in C.rows result o ≡ C.rows base.now o }
    {
        BlockCells {
            base,
            changed: Changes::new(alloc),
        }
    }

    /// Takes what the transaction at a place of the block does: it spends, but for a cellbase, and then makes. Its rows have
    /// the block's place `e`. Out of memory, a part of it may have been taken.
    pub fn take(
        &mut self,
        tx: &TxView<'_>,
        hash: &[u8; 32],
        place: u32,
        e: u32,
    ) -> Result<(), NoMemory>
        requires hash { hash.now ≡ transaction_hash tx.now }
        ensures rows { OnOk result ((height : ℕ) (o : schema.OutPoint) → 0 < height
            → rows_in C.rows self.new o ≡ row_after e (events_of tx.now height place) (rows_in C.rows self.old) o) }
    {
        let is_cellbase = place == 0;
        if !is_cellbase {
            self.changed.spend(tx)?;
        }
        self.changed.make(tx, hash, place, e)
    }
}

impl<'a, C: Cells> Cells for BlockCells<'a, C> {
    ghost rows = { rows_in C.rows };

    fn get(&self, o: &OutPoint) -> Option<CellMeta> {
        match self.changed.get(o) {
            Some(row) => row,
            None => self.base.get(o),
        }
    }
}
