// The machine's memory, with the instructions of its code that were decoded.
ghost use Rattle.std.specs.Prelude.{◌≡◌, ◌≢◌, ℕ, ◌%◌, length, false, replicate, Ok, Err, OnOk, OnErr, IfOk, IfSome, ◌↔◌, ◌⊎◌};
ghost use Rattle.machine_defs.specs.Instruction.{FitsFormat, HasRegisters};
ghost use Rattle.machine_defs.specs.Memory.{byte_count, bytes_of, fetch, load, new_memory, page_size, page_count, set_code, store};
ghost use Rattle.machine_defs.specs.Code.{instruction_at};
ghost use Rattle.vm_mem.specs.Pages.{AreAllocated, IsAllocated, ReachesPage};
ghost use Rattle.vm_mem.specs.Paged.{Stores};
ghost use Rattle.vm_mem.specs.Slots.{IsKept};

use super::kept::kept_form;
use super::paged::Paged;
use super::slot::{Slot, Slots};
use super::stop::MemStop;
use machine_defs::{MemFault, Width};
use outside::NoMemory;
use rv_decode::{Ins, decode};
use std::alloc::Global;
use std::marker::Model;

/// 4,194,304 bytes in 1,024 pages, each of data or of code.
///
/// An instruction is decoded once for some time: code is never written again. What was decoded is not seen.
#[derive(Drop)]
pub struct Memory {
    paged: Paged,
    slots: Slots,
}

impl Model for Memory {
    ghost use Rattle.vm_mem.specs.Paged.{PagedMemory};
    ghost use Rattle.vm_mem.specs.Slots.{Holding};

    ghost Value = { PagedMemory };

    ghost view = { λ m. m.paged };

    ghost invariant = { λ m. Holding m.paged.memory m.slots };
}

impl Memory {
    /// Memory that is zero, with all its pages of data.
    pub fn new(alloc: Global) -> Result<Memory, NoMemory>
        ensures memory { IfOk result (λ memory. memory.memory ≡ new_memory) }
        ensures allocated { IfOk result (λ memory. memory.allocated ≡ replicate page_count false) }
    {
        let paged = Paged::new(alloc)?;
        let slots = Slots::new(alloc)?;
        Ok(Memory { paged, slots })
    }

    /// The number at an address, of the lowest byte first. A page of code may be read.
    #[inline(always)]
    pub fn load(&self, at: u64, width: Width) -> Result<u64, MemFault>
        ensures { result ≡ load self.now.memory at (byte_count width) }
    {
        self.paged.load(at, width)
    }

    /// Writes the low bytes of a number at an address, the lowest first.
    #[inline(always)]
    pub fn store(&mut self, at: u64, width: Width, value: u64) -> Result<(), MemStop>
        ensures stores { Stores (store self.old.memory at (bytes_of (byte_count width) value)) self.old.memory self.new.memory result }
        ensures needs_no_memory { AreAllocated self.old.allocated at (byte_count width) → result ≢ Err MemStop.NoMemory }
        ensures allocated { OnOk result (AreAllocated self.new.allocated at (byte_count width)) }
        ensures pages_kept { (page : ℕ) → IsAllocated self.old.allocated page → IsAllocated self.new.allocated page }
        ensures pages_added { (page : ℕ) → IsAllocated self.new.allocated page → IsAllocated self.old.allocated page ⊎ ReachesPage page at (byte_count width) }
        ensures refused { (fault : MemFault) → result ≡ Err (MemStop.Fault fault) → self.new ≡ self.old }
    {
        self.paged.store(at, width, value)
    }

    /// Writes bytes at an address, all or none.
    #[inline]
    pub fn copy_in(&mut self, at: u64, bytes: &[u8]) -> Result<(), MemStop>
        ensures stores { Stores (store self.old.memory at bytes.now) self.old.memory self.new.memory result }
        ensures needs_no_memory { AreAllocated self.old.allocated at (length bytes.now) → result ≢ Err MemStop.NoMemory }
        ensures allocated { OnOk result (AreAllocated self.new.allocated at (length bytes.now)) }
        ensures pages_kept { (page : ℕ) → IsAllocated self.old.allocated page → IsAllocated self.new.allocated page }
        ensures pages_added { (page : ℕ) → IsAllocated self.new.allocated page → IsAllocated self.old.allocated page ⊎ ReachesPage page at (length bytes.now) }
        ensures refused { (fault : MemFault) → result ≡ Err (MemStop.Fault fault) → self.new ≡ self.old }
    {
        self.paged.copy_in(at, bytes)
    }

    /// Makes a range of bytes zero, all or none, and takes no memory: a page that is not allocated is zero.
    #[inline]
    pub fn clear(&mut self, at: u64, count: u64) -> Result<(), MemFault>
        ensures cleared { OnOk result (Ok self.new.memory ≡ store self.old.memory at (replicate count 0)) }
        ensures fault { (fault : MemFault) → (result ≡ Err fault) ↔ (store self.old.memory at (replicate count 0) ≡ Err fault) }
        ensures kept { OnErr result (self.new ≡ self.old) }
        ensures allocated { self.new.allocated ≡ self.old.allocated }
    {
        self.paged.clear(at, count)
    }

    /// The four bytes at an address where the low two bits are 11, and else the two bytes there.
    #[inline]
    pub fn fetch(&self, at: u64) -> Result<u32, MemFault>
        ensures { result ≡ fetch self.now.memory at }
    {
        self.paged.fetch(at)
    }

    /// The instruction at an address, with its length, or none where the word there encodes none.
    #[cold]
    #[inline(never)]
    pub fn instruction(&mut self, at: u64) -> Result<Option<(Ins, u8)>, MemFault>
        ensures exact { result ≡ instruction_at self.old.memory at }
        ensures unchanged { self.new ≡ self.old }
        ensures registers { IfOk result (λ found. IfSome found (λ decoded. HasRegisters decoded.0)) }
        ensures fits { IfOk result (λ found. IfSome found (λ decoded. FitsFormat decoded.0)) }
    {
        let word = match self.paged.fetch(at) {
            Ok(word) => word,
            Err(fault) => return Err(fault),
        };
        let (ins, length) = match decode(word) {
            Some(decoded) => decoded,
            None => return Ok(None),
        };
        if at % 2 == 0 {
            self.slots.keep(Slot {
                at: at as u32,
                length,
                kept: kept_form(ins),
            });
        }
        Ok(Some((ins, length)))
    }

    /// The slot that an address falls to. Where its address is that one, it has the instruction there.
    #[inline(always)]
    pub fn slot(&self, at: u64) -> Slot
        ensures { result.at ≡ at → IsKept self.now.memory result }
    {
        self.slots.slot(at)
    }

    /// Makes whole pages code that are data.
    #[inline]
    pub fn set_code(&mut self, at: u64, pages: u32) -> Result<(), MemFault>
        requires { at % page_size ≡ 0 }
        ensures code { OnOk result (Ok self.new.memory ≡ set_code self.old.memory at pages) }
        ensures fault { (fault : MemFault) → (result ≡ Err fault) ↔ (set_code self.old.memory at pages ≡ Err fault) }
        ensures kept { OnErr result (self.new ≡ self.old) }
        ensures allocated { self.new.allocated ≡ self.old.allocated }
    {
        self.paged.set_code(at, pages)
    }
}
