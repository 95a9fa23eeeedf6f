// The slots of a state: what stands at each out-point.
ghost use Rattle.std.specs.Prelude.{◌≡◌, ◌≤◌, ◌<◌, ◌+◌, ◌^◌, ◌↔◌, List, Option, None, Some, length, if◌then◌else◌, IsOk, OnOk, OnErr, IsSome};
ghost use Rattle.std.specs.List.{IsDistinct};
ghost use Rattle.std.specs.Map.{keys_of};
ghost use Rattle.chain_defs.specs.Schema as schema;
ghost use Rattle.chain_defs.specs.Events.{same_out_point};
ghost use Rattle.cell_state.specs.Slots.{at, count, same_key};

use crate::{CellMeta, OutPoint};
use chain_tree::ByDigest;
use outside::NoMemory;
use std::alloc::Global;
use std::collections::HashMap;
use std::marker::Model;

/// The most rows and spare places together.
const MOST: u64 = 1 << 50;

/// What stands at an out-point. Where no block is being applied each slot is `Live`.
#[derive(Clone, Copy)]
pub(crate) enum Slot {
    /// Live, with its row from before the block.
    Live(CellMeta),
    /// The block spends it. The row is still that from before.
    Spent(CellMeta),
    /// The block makes it, and its row is not written yet.
    Added,
    /// The block makes it and spends it again.
    Gone,
}

/// A slot at each of some out-points. Clauses see them as a function, and beside it how many there are, and how many
/// more fit without an allocation.
#[derive(Drop)]
pub(crate) struct Slots {
    pub(crate) map: HashMap<([u8; 32], u32), Slot, ByDigest>,
    spare: u64,
}

impl Model for Slots {
    ghost use Rattle.std.specs.Prelude.{◌≤◌, ◌+◌, length};
    ghost use Rattle.std.specs.HashMap as hashed;
    ghost use Rattle.cell_state.specs.Slots.{StateValue, most};

    ghost Value = { StateValue };

    ghost view = { λ slots. record { entries = slots.map.entries; spare = slots.spare } };

    ghost invariant = { λ slots. (slots.spare ≤ hashed.spare slots.map) × (length slots.map.entries + slots.spare ≤ most) };
}

impl Slots {
    pub(crate) fn new(alloc: Global) -> Slots
        ensures at { (o : schema.OutPoint) → at result o ≡ None }
        ensures spare { result.spare ≡ 0 }
    {
        Slots {
            map: HashMap::with_hasher(alloc, ByDigest),
            spare: 0,
        }
    }

    /// How many slots there are.
    pub(crate) fn len(&self) -> u64
        ensures count { result ≡ count self.now }
        ensures distinct { IsDistinct same_key (keys_of self.now.entries) }
        ensures most { count self.now + self.now.spare ≤ 2 ^ 50 }
    {
        self.map.len() as u64
    }

    /// Allocates what so many more slots take.
    pub(crate) fn reserve(&mut self, more: u64) -> Result<(), NoMemory>
        ensures at { (o : schema.OutPoint) → at self.new o ≡ at self.old o }
        ensures count { count self.new ≡ count self.old }
        ensures spare { OnOk result (more ≤ self.new.spare) }
        ensures grows { self.old.spare ≤ self.new.spare }
        ensures enough { more ≤ self.old.spare → IsOk result }
        ensures most { count self.new + self.new.spare ≤ 2 ^ 50 }
    {
        if more <= self.spare {
            return Ok(());
        }
        if more > MOST - self.len() {
            return Err(NoMemory);
        }
        self.map.reserve(more as usize)?;
        self.spare = more;
        Ok(())
    }

    pub(crate) fn get(&self, o: &OutPoint) -> Option<Slot>
        ensures { result ≡ at self.now o.now }
    {
        self.map.get(&(o.tx_hash, o.index)).copied()
    }

    /// Writes another slot where one is.
    pub(crate) fn set(&mut self, o: &OutPoint, slot: Slot)
        requires { IsSome (at self.old o.now) }
        ensures at { (other : schema.OutPoint) → at self.new other ≡ (if same_out_point o.now other then Some slot else at self.old other) }
        ensures spare { self.new.spare ≡ self.old.spare }
    {
        *self.map.get_mut(&(o.tx_hash, o.index)).unwrap() = slot;
    }

    /// Adds a slot where none is. It takes no memory.
    pub(crate) fn add(&mut self, o: OutPoint, slot: Slot)
        requires new { at self.old o ≡ None }
        requires spare { 0 < self.old.spare }
        ensures at { (other : schema.OutPoint) → at self.new other ≡ (if same_out_point o other then Some slot else at self.old other) }
        ensures spare { self.new.spare + 1 ≡ self.old.spare }
    {
        let tx_hash = o.tx_hash;
        let added: Result<_, _> = self.map.insert((tx_hash, o.index), slot);
        added.unwrap();
        self.spare -= 1;
    }

    /// Takes a slot away.
    pub(crate) fn remove(&mut self, o: &OutPoint)
        ensures at { (other : schema.OutPoint) → at self.new other ≡ (if same_out_point o.now other then None else at self.old other) }
        ensures spare { self.new.spare ≡ self.old.spare }
    {
        self.map.remove(&(o.tx_hash, o.index));
    }
}
