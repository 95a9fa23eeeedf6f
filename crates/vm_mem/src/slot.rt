// Instructions that were decoded, in slots by their addresses.
ghost use Rattle.std.specs.Prelude.{◌≡◌, ◌-◌, ◌%◌, ◌≤◌, IfOk};
ghost use Rattle.machine_defs.specs.Memory.{Memory};
ghost use Rattle.vm_mem.specs.Slots.{AreEmpty, Holding, IsKept, slot_of};

use super::kept::Kept;
use outside::NoMemory;
use std::alloc::Global;
use std::marker::Model;

const FEWEST: usize = 64;

const MOST: usize = 32_768;

/// An instruction of so many bytes, and its address.
#[derive(Clone, Copy)]
pub struct Slot {
    pub at: u32,
    pub length: u8,
    pub kept: Kept,
}

/// As many slots as a program was found to need: a power of two, from 64 on, and eight times as many each time, up to 32,768.
#[derive(Drop)]
pub(crate) struct Slots {
    slots: Vec<Slot>,
    // One less than there are.
    mask: usize,
    // How many instructions were filled in since there are so many slots.
    filled: usize,
    alloc: Global,
}

impl Model for Slots {
    ghost use Rattle.std.specs.Prelude.{◌≡◌, ◌+◌, length};
    ghost use Rattle.vm_mem.specs.Slots.{Table};

    ghost Value = { Table };

    ghost view = { λ s. record { slots = s.slots.items; mask = s.mask } };

    ghost invariant = { λ s. length s.slots.items ≡ s.mask + 1 };
}

/// Slots that are all empty: each has an address that falls to another.
fn empty_slots(alloc: Global, count: usize) -> Result<Vec<Slot>, NoMemory>
    requires some { 1 ≤ count }
    requires even { count % 2 ≡ 0 }
    ensures { IfOk result (λ slots. AreEmpty (record { slots = slots.items; mask = count - 1 })) }
{
    let empty = Slot {
        at: 0,
        length: 2,
        kept: Kept::Ecall,
    };
    let mut slots = vec![in alloc; empty; count]?;
    slots[0].at = 2;
    Ok(slots)
}

impl Slots {
    /// The fewest slots, all empty.
    pub(crate) fn new(alloc: Global) -> Result<Slots, NoMemory>
        ensures { IfOk result (λ slots. AreEmpty slots) }
    {
        let slots = empty_slots(alloc, FEWEST)?;
        Ok(Slots {
            slots,
            mask: FEWEST - 1,
            filled: 0,
            alloc,
        })
    }

    /// The slot that an address falls to.
    #[inline(always)]
    pub(crate) fn slot(&self, at: u64) -> Slot
        ensures { result.at ≡ at → (memory : Memory) → Holding memory self.now → IsKept memory result }
    {
        self.slots[slot_of(self.mask, at)]
    }

    /// Keeps an instruction in the slot of its address. Where as many were filled in as there are slots, there are more
    /// from then on, which begin empty; where there is no memory for them, it stays with those that there are.
    pub(crate) fn keep(&mut self, slot: Slot)
        ensures { (memory : Memory) → IsKept memory slot → Holding memory self.old → Holding memory self.new }
    {
        if self.filled > self.mask {
            self.grow();
        }
        self.filled = self.filled.saturating_add(1);
        let place = slot_of(self.mask, u64::from(slot.at));
        self.slots[place] = slot;
    }

    // Makes the slots eight times as many, all of them empty.
    fn grow(&mut self)
        ensures { (memory : Memory) → Holding memory self.old → Holding memory self.new }
    {
        self.filled = 0;
        let count = self.slots.len() * 8;
        if count > MOST {
            return;
        }
        if let Ok(slots) = empty_slots(self.alloc, count) {
            self.slots = slots;
            self.mask = count - 1;
        }
    }
}

/// The slot that an address falls to, of slots of which the last is at `mask`.
#[inline(always)]
fn slot_of(mask: usize, at: u64) -> usize
    ensures slot { result ≡ slot_of mask at }
{
    (at / 2) as usize & mask
}
