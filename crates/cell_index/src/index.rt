// The cells by lock, and one cell more or less.
ghost use Rattle.std.specs.Prelude.{◌≡◌, ◌<◌, ◌^◌, ℕ, List, Option, Some, None, Err, length, slice_index, IfOk, IsSome};
ghost use Rattle.chain_defs.specs.Schema as schema;
ghost use Rattle.chain_defs.specs.Schema.{Block};
ghost use Rattle.chain_defs.specs.Row.{Row, ListsRows};
ghost use Rattle.chain_defs.specs.Undo.{without, with_row, with_rows, first_live};
ghost use Rattle.chain_defs.specs.ByLock.{of_lock, capacity_of, IsByLock};
ghost use Rattle.cell_state.specs.State.{rows};
ghost use Rattle.cell_state.specs.Moves.{AreRowsOfBranch};
ghost use Rattle.cell_index.specs.declared.stop.Stop.TheVariants.{Odd};
ghost use Rattle.cell_index.specs.Index.{IndexValue, Holds, IndexesBranch, without_all, AreThere, key_of, total_of};

use crate::stop::Stop;
use cell_state::{CellMeta, OutPoint, State};
use outside::NoMemory;
use std::alloc::Global;
use std::collections::BTreeMap;
use std::marker::Model;

/// The live cells of a branch by the hash of their lock. Clauses see an `IndexValue`: the rows by lock and out-point, and what is
/// kept of each lock.
#[derive(Drop)]
pub struct Index {
    /// The row at each lock hash with the out-point.
    rows: BTreeMap<([u8; 32], ([u8; 32], u32)), CellMeta>,
    /// Of each lock hash that has a cell: how many, and the shannons that they hold together.
    totals: BTreeMap<[u8; 32], (u64, u128)>,
}

impl Model for Index {
    ghost use Rattle.cell_index.specs.Index.{IndexValue, IsTotalled};

    ghost Value = { IndexValue };

    ghost view = { λ index. record { entries = index.rows.entries; totals = index.totals.entries } };

    ghost invariant = { λ index. IsTotalled index.rows.entries index.totals.entries };
}

/// The key of a lock and an out-point.
fn key_by(lock: [u8; 32], o: OutPoint) -> ([u8; 32], ([u8; 32], u32))
    ensures key { result ≡ key_of lock o }
    ensures hash { length o.tx_hash ≡ 32 }
    ensures bytes { (i : ℕ) → slice_index o.tx_hash i < 256 }
    ensures index { o.index < 2 ^ 32 }
{
    let tx_hash = o.tx_hash;
    (lock, (tx_hash, o.index))
}

impl Index {
    /// No cell.
    fn new(alloc: Global) -> Index
        ensures { Holds (λ _. None) result }
    {
        Index {
            rows: BTreeMap::new(alloc),
            totals: BTreeMap::new(alloc),
        }
    }

    /// The index of rows, of which no two have one out-point.
    fn of_rows(alloc: Global, list: &[(OutPoint, CellMeta)]) -> Result<Index, NoMemory>
        requires { (rows : schema.OutPoint → Option Row) × ListsRows rows list.now }
        ensures { (rows : schema.OutPoint → Option Row) → ListsRows rows list.now → IfOk result (Holds rows) }
    {
        match Index::new(alloc).with_all(list) {
            Ok(index) => Ok(index),
            Err(Stop::NoMemory) => Err(NoMemory),
            Err(Stop::Odd) => unreachable!(),
        }
    }

    /// The index of the live cells of a branch.
    pub fn of(alloc: Global, state: &State) -> Result<Index, NoMemory>
        ensures { (kept : List Block) (place : ℕ) → AreRowsOfBranch kept place (rows state.now) → IfOk result (IndexesBranch kept place) }
    {
        match state.sorted(alloc) {
            Ok(list) => Index::of_rows(alloc, &list),
            Err(_) => Err(NoMemory),
        }
    }

    /// The cells of a lock, by its hash, with their rows, in rising order of their out-points.
    pub fn cells(
        &self,
        alloc: Global,
        lock: &[u8; 32],
    ) -> Result<Vec<(OutPoint, CellMeta)>, NoMemory>
        ensures { (kept : List Block) (place : ℕ) → IndexesBranch kept place self.now → IfOk result (λ list. IsByLock kept place lock.now list.items) }
    {
        let first = (*lock, ([0; 32], 0));
        let last = (*lock, ([255; 32], u32::MAX));
        let mut list = Vec::new(alloc);
        'cells: for (key, row) in self.rows.range(first..=last) {
            let o = OutPoint {
                tx_hash: key.1.0,
                index: key.1.1,
            };
            list.push((o, *row))?;
        }
        Ok(list)
    }

    /// How many cells of a lock there are, by its hash, and what they hold together, in shannons. It takes no memory.
    pub fn total(&self, lock: &[u8; 32]) -> (u64, u128)
        ensures kept { result ≡ total_of lock.now self.now.entries }
        ensures of_branch { (kept : List Block) (place : ℕ) (list : List (schema.OutPoint × Row)) → IndexesBranch kept place self.now
            → IsByLock kept place lock.now list → result ≡ (length list, capacity_of list) }
    {
        match self.totals.get(lock) {
            Some(total) => *total,
            None => (0, 0),
        }
    }

    /// With one cell more. Odd where it has one with this out-point under this lock.
    fn with(self, o: OutPoint, row: CellMeta) -> Result<Index, Stop>
        ensures rows { (rows : schema.OutPoint → Option Row) → Holds rows self → rows o ≡ None → IfOk result (Holds (with_row (o, row) rows)) }
        ensures odd { (rows : schema.OutPoint → Option Row) → Holds rows self → rows o ≡ None → result ≡ Err Odd → ⊥ }
    {
        let lock = row.lock_hash;
        let key = key_by(lock, o);
        let (count, capacity) = self.total(&lock);
        let Index {
            mut rows,
            mut totals,
        } = self;
        let _few = rows.len();
        // (one search: keys are long, and those of one lock begin alike)
        let old = match rows.insert(key, row) {
            Ok(old) => old,
            Err(_) => return Err(Stop::NoMemory),
        };
        if old.is_some() {
            return Err(Stop::Odd);
        }
        match totals.insert(lock, (count + 1, capacity + u128::from(row.capacity))) {
            Ok(_) => {}
            Err(_) => return Err(Stop::NoMemory),
        }
        Ok(Index { rows, totals })
    }

    /// With one cell less, by its lock and its out-point. Odd where it has none.
    fn without(self, lock: [u8; 32], o: OutPoint) -> Result<Index, Stop>
        ensures rows { (rows : schema.OutPoint → Option Row) → Holds rows self → IsSome (of_lock lock (rows o)) → IfOk result (Holds (without o rows)) }
        ensures odd { (rows : schema.OutPoint → Option Row) → Holds rows self → IsSome (of_lock lock (rows o)) → result ≡ Err Odd → ⊥ }
    {
        let (count, capacity) = self.total(&lock);
        let Index {
            mut rows,
            mut totals,
        } = self;
        let key = key_by(lock, o);
        let Some(gone) = rows.remove(&key) else {
            return Err(Stop::Odd);
        };
        if count == 1 {
            totals.remove(&lock);
            return Ok(Index { rows, totals });
        }
        match totals.insert(lock, (count - 1, capacity - u128::from(gone.capacity))) {
            Ok(_) => {}
            Err(_) => return Err(Stop::NoMemory),
        }
        Ok(Index { rows, totals })
    }

    /// With more cells, one after the other.
    pub(crate) fn with_all(self, list: &[(OutPoint, CellMeta)]) -> Result<Index, Stop>
        ensures rows { (rows : schema.OutPoint → Option Row) → Holds rows self → first_live list.now rows ≡ None → IfOk result (Holds (with_rows list.now rows)) }
        ensures odd { (rows : schema.OutPoint → Option Row) → Holds rows self → first_live list.now rows ≡ None → result ≡ Err Odd → ⊥ }
    {
        let mut index = self;
        'come: for (o, row) in list {
            index = match index.with(*o, *row) {
                Ok(index) => index,
                Err(stop) => return Err(stop),
            };
        }
        Ok(index)
    }

    /// Without some cells, one after the other.
    pub(crate) fn without_all(self, list: &[(OutPoint, CellMeta)]) -> Result<Index, Stop>
        ensures rows { (rows : schema.OutPoint → Option Row) → Holds rows self → AreThere list.now rows → IfOk result (Holds (without_all list.now rows)) }
        ensures odd { (rows : schema.OutPoint → Option Row) → Holds rows self → AreThere list.now rows → result ≡ Err Odd → ⊥ }
    {
        let mut index = self;
        'go: for (o, row) in list {
            index = match index.without(row.lock_hash, *o) {
                Ok(index) => index,
                Err(stop) => return Err(stop),
            };
        }
        Ok(index)
    }
}
