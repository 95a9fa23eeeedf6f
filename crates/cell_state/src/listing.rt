// The rows as a list, in order.
ghost use Rattle.std.specs.Prelude.{◌≡◌, IfOk};
ghost use Rattle.chain_defs.specs.Row.{ListsRows};
ghost use Rattle.std.specs.List.{IsDistinct};
ghost use Rattle.std.specs.Map.{keys_of};
ghost use Rattle.cell_state.specs.Listing.{listed};
ghost use Rattle.cell_state.specs.Slots.{rows, same_key, AreSettled};

use crate::slots::{Slot, Slots};
use crate::{CellMeta, OutPoint};
use outside::NoMemory;
use std::alloc::Global;

impl Slots {
    /// The rows, in the order in which they lie.
    fn listed(&self, alloc: Global) -> Result<Vec<(OutPoint, CellMeta)>, NoMemory>
        ensures listed { IfOk result (λ list. list.items ≡ listed self.now.entries) }
        ensures distinct { IsDistinct same_key (keys_of self.now.entries) }
    {
        let mut rows = Vec::with_capacity(alloc, self.map.len())?;
        for (key, slot) in &self.map {
            let o = OutPoint {
                tx_hash: key.0,
                index: key.1,
            };
            match slot {
                Slot::Live(row) => rows.push((o, *row))?,
                Slot::Spent(_) => {}
                Slot::Added => {}
                Slot::Gone => {}
            }
        }
        Ok(rows)
    }

    /// The rows in rising order of their out-points.
    pub(crate) fn sorted(&self, alloc: Global) -> Result<Vec<(OutPoint, CellMeta)>, NoMemory>
        requires { AreSettled self.now }
        ensures { IfOk result (λ list. ListsRows (rows self.now) list.items) }
    {
        let mut rows = self.listed(alloc)?;
        rows.sort_unstable_by_key(|row| (row.0.tx_hash, row.0.index));
        Ok(rows)
    }
}
