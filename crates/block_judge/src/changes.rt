// What transactions make and spend, beside the cells that were there before.
ghost use Rattle.std.specs.Prelude.{◌≡◌, ◌<◌, ◌^◌, ℕ, length, Option, Some, None, OnOk, if◌then◌else◌};
ghost use Rattle.chain_defs.specs.Schema as schema;
ghost use Rattle.chain_defs.specs.Hashes.{transaction_hash};
ghost use Rattle.chain_defs.specs.Events.{same_out_point, spends_of, makes_of};
ghost use Rattle.chain_defs.specs.Row.{Row, row_of, row_after};
ghost use Rattle.block_judge.specs.Changes.{change_at, with_changes};

use cell_state::{CellMeta, LastScript, OutPoint, data_at, meta_with, out_point_of};
use chain_tree::ByDigest;
use mol_schema::{OutputView, TxView};
use outside::NoMemory;
use std::alloc::Global;
use std::collections::HashMap;
use std::marker::Model;

/// What was changed beside some rows: at each of some out-points the row since, or that there is none. Clauses see a
/// `Changed` of the definitions.
#[derive(Drop)]
pub(crate) struct Changes {
    map: HashMap<([u8; 32], u32), Option<CellMeta>, ByDigest>,
    last: LastScript,
}

impl Model for Changes {
    ghost use Rattle.block_judge.specs.Changes.{Changed};

    ghost Value = { Changed };

    ghost view = { λ changes. changes.map.entries };
}

impl Changes {
    /// Where nothing was changed yet.
    pub(crate) fn new(alloc: Global) -> Changes
        ensures { (o : schema.OutPoint) → change_at result o ≡ None }
    {
        Changes {
            map: HashMap::with_hasher(alloc, ByDigest),
            last: LastScript::new(),
        }
    }

    /// What was changed at an out-point.
    pub(crate) fn get(&self, o: &OutPoint) -> Option<Option<CellMeta>>
        ensures { result ≡ change_at self.now o.now }
    {
        self.map.get(&(o.tx_hash, o.index)).copied()
    }

    /// Changes the row of an out-point.
    fn put(&mut self, o: &OutPoint, row: Option<CellMeta>) -> Result<(), NoMemory>
        ensures at { OnOk result ((other : schema.OutPoint) → change_at self.new other ≡ (if same_out_point o.now other then Some row else change_at self.old other)) }
    {
        self.map.insert((o.tx_hash, o.index), row)?;
        Ok(())
    }

    /// Takes the spends of a transaction.
    pub(crate) fn spend(&mut self, tx: &TxView<'_>) -> Result<(), NoMemory>
        ensures rows { OnOk result ((e : ℕ) (rows : schema.OutPoint → Option Row) (o : schema.OutPoint)
            → with_changes self.new rows o ≡ row_after e (spends_of tx.now) (with_changes self.old rows) o) }
    {
        let raw = tx.raw();
        'inputs: for i in 0..raw.inputs_count() {
            let o = out_point_of(&raw.inputs_item(i).previous_output());
            self.put(&o, None)?;
        }
        Ok(())
    }

    /// The row of an output of the transaction at a place of the block, which has the place `e`.
    fn row(&mut self, output: &OutputView<'_>, content: &[u8], place: u32, e: u32) -> CellMeta
        requires fits { length content.now < 2 ^ 32 }
        ensures same { self.new ≡ self.old }
        ensures row { (height : ℕ) → result ≡ row_of e (record { output = output.now; content = content.now; height = height; transaction = place }) }
    {
        let lock_hash = self.last.hash_of(&output.lock());
        meta_with(e, place, output, content, lock_hash)
    }

    /// Takes the makes of the transaction at a place of the block. Their rows have the block's place `e`.
    pub(crate) fn make(
        &mut self,
        tx: &TxView<'_>,
        hash: &[u8; 32],
        place: u32,
        e: u32,
    ) -> Result<(), NoMemory>
        requires hash { hash.now ≡ transaction_hash tx.now }
        ensures rows { OnOk result ((height : ℕ) (rows : schema.OutPoint → Option Row) (o : schema.OutPoint)
            → with_changes self.new rows o ≡ row_after e (makes_of tx.now height place) (with_changes self.old rows) o) }
    {
        let raw = tx.raw();
        'outputs: for i in 0..raw.outputs_count() {
            let o = OutPoint {
                tx_hash: *hash,
                index: i as u32,
            };
            let row = self.row(&raw.outputs_item(i), data_at(tx, i), place, e);
            self.put(&o, Some(row))?;
        }
        Ok(())
    }
}
