// The passes that take a block back, over its events and the rows of its ext, each in linear time. As for a block that is
// applied, marks come first: what the block made is dropped, then the rows that it spent are put back. With them the
// slots say what is live by then, and keep the rows from before. Then the rows are written, or else every slot is given
// back as it was.
ghost use Rattle.std.specs.Prelude.{◌≡◌, ◌≤◌, ◌+◌, Option, Some, None, false, length, map, if◌then◌else◌, IfErr, OnOk, OnErr};
ghost use Rattle.std.specs.Option.{option_map};
ghost use Rattle.std.specs.List.{list_any};
ghost use Rattle.chain_defs.specs.Schema as schema;
ghost use Rattle.chain_defs.specs.Hashes.{transaction_hash};
ghost use Rattle.chain_defs.specs.Events.{events_of_block, same_out_point};
ghost use Rattle.chain_defs.specs.Row.{Row};
ghost use Rattle.chain_defs.specs.CellLaws.{makes};
ghost use Rattle.chain_defs.specs.Undo.{first_live, undone, first_clash};
ghost use Rattle.cell_state.specs.declared.odd.Odd.TheVariants.{Live};
ghost use Rattle.cell_state.specs.Slots.{at, rows, settled, AreSettled};
ghost use Rattle.cell_state.specs.Passes.{spent_mark, made_mark, unmarked, settled_spent};
ghost use Rattle.cell_state.specs.Undo.{passed, is_at, row_written, AreThere};

use crate::events::{Event, Events};
use crate::odd::Odd;
use crate::slots::{Slot, Slots};
use crate::{CellMeta, OutPoint};
use mol_schema::BlockView;

impl Slots {
    /// Marks a cell as dropped, where it is live.
    fn mark_dropped(&mut self, o: OutPoint)
        ensures at { (other : schema.OutPoint) → at self.new other ≡ (if same_out_point o other then spent_mark (at self.old o) else at self.old other) }
        ensures spare { self.new.spare ≡ self.old.spare }
    {
        let Some(slot) = self.get(&o) else {
            return;
        };
        match slot {
            Slot::Live(row) => self.set(&o, Slot::Spent(row)),
            Slot::Added => self.set(&o, Slot::Gone),
            Slot::Spent(_) => {}
            Slot::Gone => {}
        }
    }

    /// Marks what the events make as dropped, where it is live.
    pub(crate) fn mark_made_dropped(&mut self, mut events: Events<'_, '_>)
        ensures at { (o : schema.OutPoint) → at self.new o ≡ passed (makes o) (λ event. spent_mark) events.entry (at self.old o) }
        ensures spare { self.new.spare ≡ self.old.spare }
    {
        while let Some(event) = events.next() {
            match event {
                Event::Makes(o, _) => self.mark_dropped(o),
                Event::Spends(_) => {}
            }
        }
    }

    /// Marks rows as put back, up to the first whose out-point is live by then.
    pub(crate) fn mark_put_back(&mut self, spent: &[(OutPoint, CellMeta)]) -> Result<(), Odd>
        requires { length spent.now ≤ self.old.spare }
        ensures at { OnOk result ((o : schema.OutPoint) → at self.new o ≡ passed (is_at o) (λ one. made_mark) spent.now (at self.old o)) }
        ensures free { OnOk result ((found : schema.OutPoint → Option Row) → AreThere found self.old → first_live spent.now found ≡ None) }
        ensures odd { IfErr result (λ odd. (found : schema.OutPoint → Option Row) → AreThere found self.old → option_map Live (first_live spent.now found) ≡ Some odd) }
        ensures before { (o : schema.OutPoint) → rows self.new o ≡ rows self.old o }
        ensures unnamed { (o : schema.OutPoint) → list_any (is_at o) spent.now ≡ false → at self.new o ≡ at self.old o }
        ensures spare { self.old.spare ≤ self.new.spare + length spent.now }
    {
        'put: for (o, _) in spent {
            self.mark_made(*o)?;
        }
        Ok(())
    }

    /// Takes away the slots of what the events make that are not live in the end.
    pub(crate) fn settle_dropped(&mut self, mut events: Events<'_, '_>)
        ensures at { (o : schema.OutPoint) → at self.new o ≡ passed (makes o) (λ event. settled_spent) events.entry (at self.old o) }
        ensures spare { self.new.spare ≡ self.old.spare }
    {
        while let Some(event) = events.next() {
            match event {
                Event::Makes(o, _) => self.settle_spent(o),
                Event::Spends(_) => {}
            }
        }
    }

    /// Writes a row, where there is a slot.
    fn write_row(&mut self, o: OutPoint, row: CellMeta)
        ensures at { (other : schema.OutPoint) → at self.new other ≡ (if same_out_point o other then row_written (o, row) (at self.old o) else at self.old other) }
        ensures spare { self.new.spare ≡ self.old.spare }
    {
        let Some(_) = self.get(&o) else {
            return;
        };
        self.set(&o, Slot::Live(row));
    }

    /// Writes the rows that are put back.
    pub(crate) fn write_rows(&mut self, spent: &[(OutPoint, CellMeta)])
        ensures at { (o : schema.OutPoint) → at self.new o ≡ passed (is_at o) row_written spent.now (at self.old o) }
        ensures spare { self.new.spare ≡ self.old.spare }
    {
        'written: for (o, row) in spent {
            self.write_row(*o, *row);
        }
    }

    /// Takes the marks of rows back.
    pub(crate) fn unmark_rows(&mut self, spent: &[(OutPoint, CellMeta)])
        ensures at { (o : schema.OutPoint) → at self.new o ≡ passed (is_at o) (λ one. unmarked) spent.now (at self.old o) }
        ensures spare { self.new.spare ≡ self.old.spare }
    {
        'unmarked: for (o, _) in spent {
            self.unmark(*o);
        }
    }

    /// Takes a block back that is no genesis, with the rows that it spent. The hashes are those of its transactions.
    pub(crate) fn undo(
        &mut self,
        block: &BlockView<'_>,
        hashes: &[[u8; 32]],
        spent: &[(OutPoint, CellMeta)],
    ) -> Result<(), Odd>
        requires hashes { hashes.now ≡ map transaction_hash block.now.transactions }
        requires settled { AreSettled self.old }
        requires spare { length spent.now ≤ self.old.spare }
        ensures at { OnOk result ((o : schema.OutPoint) → at self.new o ≡ settled (undone (events_of_block 1 block.now) spent.now (rows self.old) o)) }
        ensures free { OnOk result (first_clash (events_of_block 1 block.now) spent.now (rows self.old) ≡ None) }
        ensures odd { IfErr result (λ odd. option_map Live (first_clash (events_of_block 1 block.now) spent.now (rows self.old)) ≡ Some odd) }
        ensures unchanged { OnErr result ((o : schema.OutPoint) → at self.new o ≡ at self.old o) }
        ensures spare { self.old.spare ≤ self.new.spare + length spent.now }
    {
        self.mark_made_dropped(Events::of(block, hashes, false));
        match self.mark_put_back(spent) {
            Ok(()) => {
                self.settle_dropped(Events::of(block, hashes, false));
                self.write_rows(spent);
                Ok(())
            }
            Err(odd) => {
                self.unmark_all(Events::of(block, hashes, false));
                self.unmark_rows(spent);
                Err(odd)
            }
        }
    }
}
