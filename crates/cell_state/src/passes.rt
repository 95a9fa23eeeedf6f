// The passes over a block's events, each in linear time. `mark` takes them in order, and changes only marks: what is
// live by then stands in the slots, and so do the rows from before the block. `settle` writes the rows of the cells that
// are live in the end, or else `unmark` gives every slot back as it was.
ghost use Rattle.std.specs.Prelude.{◌≡◌, ◌≤◌, ◌+◌, ◌<◌, ℕ, Some, false, IfErr, OnOk, OnErr, IsTrue, if◌then◌else◌};
ghost use Rattle.chain_defs.specs.Schema as schema;
ghost use Rattle.chain_defs.specs.Events.{same_out_point, last_naming};
ghost use Rattle.chain_defs.specs.Row.{Row, row_of};
ghost use Rattle.cell_state.specs.Fit.{IsFirstOdd};
ghost use Rattle.chain_defs.specs.Fit.{are_live, AllFit};
ghost use Rattle.cell_state.specs.declared.odd.Odd.TheVariants.{NotLive, Live};
ghost use Rattle.cell_state.specs.Slots.{at, rows, is_live, AreSettled};
ghost use Rattle.cell_state.specs.Walk.{made_cell};
ghost use Rattle.cell_state.specs.Passes.{spent_mark, made_mark, unmarked, unmarked_by, makes_in, settled_made, settled_spent, Settles, AreMarked, HaveRowsAfter};

use crate::events::{Event, Events};
use crate::made::Made;
use crate::odd::Odd;
use crate::slots::{Slot, Slots};
use crate::{LastScript, OutPoint};
use outside::NoMemory;

impl Slots {
    /// Marks a cell as spent, where it is live.
    fn mark_spent(&mut self, o: OutPoint) -> Result<(), Odd>
        ensures ok { OnOk result (IsTrue (is_live (at self.old o))) }
        ensures at { OnOk result ((other : schema.OutPoint) → at self.new other ≡ (if same_out_point o other then spent_mark (at self.old o) else at self.old other)) }
        ensures err { OnErr result (is_live (at self.old o) ≡ false) }
        ensures odd { IfErr result (λ odd. odd ≡ NotLive o) }
        ensures same { OnErr result ((other : schema.OutPoint) → at self.new other ≡ at self.old other) }
        ensures spare { self.new.spare ≡ self.old.spare }
    {
        let Some(slot) = self.get(&o) else {
            return Err(Odd::NotLive(o));
        };
        match slot {
            Slot::Live(row) => self.set(&o, Slot::Spent(row)),
            Slot::Added => self.set(&o, Slot::Gone),
            Slot::Spent(_) => return Err(Odd::NotLive(o)),
            Slot::Gone => return Err(Odd::NotLive(o)),
        }
        Ok(())
    }

    /// Marks a cell as made, where none with its out-point is live.
    pub(crate) fn mark_made(&mut self, o: OutPoint) -> Result<(), Odd>
        requires { 0 < self.old.spare }
        ensures ok { OnOk result (is_live (at self.old o) ≡ false) }
        ensures at { OnOk result ((other : schema.OutPoint) → at self.new other ≡ (if same_out_point o other then made_mark (at self.old o) else at self.old other)) }
        ensures err { OnErr result (IsTrue (is_live (at self.old o))) }
        ensures odd { IfErr result (λ odd. odd ≡ Live o) }
        ensures same { OnErr result ((other : schema.OutPoint) → at self.new other ≡ at self.old other) }
        ensures spare { self.old.spare ≤ self.new.spare + 1 }
    {
        let Some(slot) = self.get(&o) else {
            self.add(o, Slot::Added);
            return Ok(());
        };
        match slot {
            Slot::Spent(row) => self.set(&o, Slot::Live(row)),
            Slot::Gone => self.set(&o, Slot::Added),
            Slot::Live(_) => return Err(Odd::Live(o)),
            Slot::Added => return Err(Odd::Live(o)),
        }
        Ok(())
    }

    /// Marks what the events make and spend, up to the first that does not fit.
    pub(crate) fn mark(&mut self, mut events: Events<'_, '_>) -> Result<(), Odd>
        requires settled { AreSettled self.old }
        requires spare { makes_in events ≤ self.old.spare }
        ensures fit { OnOk result (AllFit events.entry (are_live (rows self.old))) }
        ensures marked { OnOk result (AreMarked events.entry self.old self.new) }
        ensures odd { IfErr result (IsFirstOdd events.entry (are_live (rows self.old))) }
        ensures before { (o : schema.OutPoint) → rows self.new o ≡ rows self.old o }
        ensures unnamed { (o : schema.OutPoint) → last_naming o events.entry ≡ None → at self.new o ≡ at self.old o }
        ensures spare { self.old.spare ≤ self.new.spare + makes_in events.entry }
    {
        while let Some(event) = events.next() {
            match event {
                Event::Makes(o, _) => self.mark_made(o)?,
                Event::Spends(o) => self.mark_spent(o)?,
            }
        }
        Ok(())
    }

    /// Takes the mark of a slot back.
    pub(crate) fn unmark(&mut self, o: OutPoint)
        ensures at { (other : schema.OutPoint) → at self.new other ≡ (if same_out_point o other then unmarked (at self.old o) else at self.old other) }
        ensures spare { self.new.spare ≡ self.old.spare }
    {
        let Some(slot) = self.get(&o) else {
            return;
        };
        match slot {
            Slot::Live(_) => {}
            Slot::Spent(row) => self.set(&o, Slot::Live(row)),
            Slot::Added => self.remove(&o),
            Slot::Gone => self.remove(&o),
        }
    }

    /// Takes the marks of the events back.
    pub(crate) fn unmark_all(&mut self, mut events: Events<'_, '_>)
        ensures at { (o : schema.OutPoint) → at self.new o ≡ unmarked_by (last_naming o events.entry) (at self.old o) }
        ensures spare { self.new.spare ≡ self.old.spare }
    {
        while let Some(event) = events.next() {
            self.unmark(event.out_point());
        }
    }

    /// Writes the row of a made cell that is live in the end, and takes the slot of any other away.
    fn settle_made(&mut self, o: OutPoint, made: &Made<'_>, block: u32, last: &mut LastScript)
        ensures at { (height : ℕ) (other : schema.OutPoint) → at self.new other
            ≡ (if same_out_point o other then settled_made (row_of block (made_cell height made.now)) (at self.old o) else at self.old other) }
        ensures spare { self.new.spare ≡ self.old.spare }
    {
        let Some(slot) = self.get(&o) else {
            return;
        };
        match slot {
            Slot::Live(_) => self.set(&o, Slot::Live(made.row(block, last))),
            Slot::Added => self.set(&o, Slot::Live(made.row(block, last))),
            Slot::Spent(_) => self.remove(&o),
            Slot::Gone => self.remove(&o),
        }
    }

    /// Takes the slot of a spent cell away that is not live in the end.
    pub(crate) fn settle_spent(&mut self, o: OutPoint)
        ensures at { (other : schema.OutPoint) → at self.new other ≡ (if same_out_point o other then settled_spent (at self.old o) else at self.old other) }
        ensures spare { self.new.spare ≡ self.old.spare }
    {
        let Some(slot) = self.get(&o) else {
            return;
        };
        match slot {
            Slot::Live(_) => {}
            Slot::Added => {}
            Slot::Spent(_) => self.remove(&o),
            Slot::Gone => self.remove(&o),
        }
    }

    /// Writes the rows of the cells that the marks call live, which the block at a place makes, and takes those away
    /// that it spends.
    pub(crate) fn settle(&mut self, mut events: Events<'_, '_>, block: u32, last: &mut LastScript)
        ensures at { (o : schema.OutPoint) → Settles block (last_naming o events.entry) (at self.old o) (at self.new o) }
        ensures spare { self.new.spare ≡ self.old.spare }
    {
        while let Some(event) = events.next() {
            match event {
                Event::Makes(o, made) => self.settle_made(o, &made, block, last),
                Event::Spends(o) => self.settle_spent(o),
            }
        }
    }

    /// Writes a slot, whether there is one or not.
    fn write(&mut self, o: OutPoint, slot: Slot) -> Result<(), NoMemory>
        ensures at { OnOk result ((other : schema.OutPoint) → at self.new other ≡ (if same_out_point o other then Some slot else at self.old other)) }
    {
        if let Some(_) = self.get(&o) {
            self.set(&o, slot);
            return Ok(());
        }
        self.reserve(1)?;
        self.add(o, slot);
        Ok(())
    }

    /// Writes what the events of the block at a place leave, whatever is live before them.
    pub(crate) fn replay(
        &mut self,
        mut events: Events<'_, '_>,
        block: u32,
        last: &mut LastScript,
    ) -> Result<(), NoMemory>
        ensures at { OnOk result (HaveRowsAfter block events.entry self.old self.new) }
    {
        while let Some(event) = events.next() {
            match event {
                Event::Makes(o, made) => {
                    self.write(o, Slot::Live(made.row(block, last)))?;
                }
                Event::Spends(o) => self.remove(&o),
            }
        }
        Ok(())
    }
}
