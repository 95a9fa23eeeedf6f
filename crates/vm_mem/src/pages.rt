// Bytes in pages that take memory at their first store.
ghost use Rattle.std.specs.Prelude.{◌≡◌, ℕ, ◌+◌, ◌*◌, ◌/◌, ◌%◌, ◌^◌, ◌<◌, ◌≤◌, ◌⊎◌, length, false, replicate, slice_index_or, slice_range, IsOk, OnOk, IfOk};
ghost use Rattle.machine_defs.specs.Memory.{number_of, memory_size, page_size, page_count};
ghost use Rattle.vm_mem.specs.Pages.{AreAllocated, IsAllocated, ReachesPage, written};

use super::buffer;
use outside::NoMemory;
use std::alloc::Global;
use std::marker::Model;

pub(crate) const PAGE_SIZE: usize = machine_defs::PAGE_SIZE as usize;

pub(crate) const PAGE_COUNT: usize = machine_defs::PAGE_COUNT as usize;

/// All bytes of memory, and which pages are allocated.
#[derive(Drop)]
pub(crate) struct Pages {
    // The zeros of each page that is not allocated, and after them the bytes of those that are, in the order in which they were.
    bytes: Vec<u8>,
    // Where the bytes of each page begin: at 0 if it is not allocated.
    starts: Vec<usize>,
    // Whether a page's bytes may be other than zero.
    dirty: Vec<bool>,
}

impl Model for Pages {
    ghost use Rattle.std.specs.Prelude.{map};
    ghost use Rattle.vm_mem.specs.Pages as spec;

    ghost Value = { spec.Pages };

    ghost view = { λ p. spec.pages_of (map (spec.page_at p.bytes.items) p.starts.items) };

    ghost invariant = { λ p. spec.ArePlaced p.bytes.items p.starts.items p.dirty.items };
}

impl Pages {
    /// Pages that are all zero.
    #[tactic(auto, unfolding(machine_defs::specs::Memory::page_count))]
    pub(crate) fn new(alloc: Global) -> Result<Pages, NoMemory>
        ensures bytes { IfOk result (λ pages. pages.bytes ≡ replicate memory_size 0) }
        ensures allocated { IfOk result (λ pages. pages.allocated ≡ replicate page_count false) }
    {
        let bytes = vec![in alloc; 0u8; PAGE_SIZE]?;
        let starts = vec![in alloc; 0usize; PAGE_COUNT]?;
        let dirty = vec![in alloc; false; PAGE_COUNT]?;
        Ok(Pages {
            bytes,
            starts,
            dirty,
        })
    }

    #[tactic(auto, unfolding(machine_defs::specs::Memory::memory_size, machine_defs::specs::Memory::page_count))]
    #[inline(always)]
    pub(crate) fn read_u8(&self, at: usize) -> u8
        requires { at + 1 ≤ memory_size }
        ensures { result ≡ number_of (slice_range self.now.bytes at (at + 1)) }
    {
        buffer::read_u8(&self.bytes, self.starts[at / PAGE_SIZE] + at % PAGE_SIZE)
    }

    #[tactic(auto, unfolding(machine_defs::specs::Memory::memory_size, machine_defs::specs::Memory::page_count))]
    #[inline(always)]
    pub(crate) fn read_u16(&self, at: usize) -> u16
        requires { at + 2 ≤ memory_size }
        ensures { result ≡ number_of (slice_range self.now.bytes at (at + 2)) }
    {
        if at % PAGE_SIZE > PAGE_SIZE - 2 {
            return self.read_u16_over_pages(at);
        }
        buffer::read_u16(&self.bytes, self.starts[at / PAGE_SIZE] + at % PAGE_SIZE)
    }

    // A number over two pages is rare, and stays out of the code that reads one.
    #[tactic(auto, unfolding(machine_defs::specs::Memory::memory_size))]
    #[cold]
    #[inline(never)]
    fn read_u16_over_pages(&self, at: usize) -> u16
        requires { at + 2 ≤ memory_size }
        ensures { result ≡ number_of (slice_range self.now.bytes at (at + 2)) }
    {
        u16::from(self.read_u8(at)) + (u16::from(self.read_u8(at + 1)) << 8)
    }

    #[tactic(auto, unfolding(machine_defs::specs::Memory::memory_size, machine_defs::specs::Memory::page_count))]
    #[inline(always)]
    pub(crate) fn read_u32(&self, at: usize) -> u32
        requires { at + 4 ≤ memory_size }
        ensures number { result ≡ number_of (slice_range self.now.bytes at (at + 4)) }
        ensures low_half { result % 2 ^ 16 ≡ number_of (slice_range self.now.bytes at (at + 2)) }
    {
        if at % PAGE_SIZE > PAGE_SIZE - 4 {
            return self.read_u32_over_pages(at);
        }
        buffer::read_u32(&self.bytes, self.starts[at / PAGE_SIZE] + at % PAGE_SIZE)
    }

    // As for two bytes.
    #[tactic(auto, unfolding(machine_defs::specs::Memory::memory_size))]
    #[cold]
    #[inline(never)]
    fn read_u32_over_pages(&self, at: usize) -> u32
        requires { at + 4 ≤ memory_size }
        ensures number { result ≡ number_of (slice_range self.now.bytes at (at + 4)) }
        ensures low_half { result % 2 ^ 16 ≡ number_of (slice_range self.now.bytes at (at + 2)) }
    {
        u32::from(self.read_u16(at)) + (u32::from(self.read_u16(at + 2)) << 16)
    }

    #[tactic(auto, unfolding(machine_defs::specs::Memory::memory_size, machine_defs::specs::Memory::page_count))]
    #[inline(always)]
    pub(crate) fn read_u64(&self, at: usize) -> u64
        requires { at + 8 ≤ memory_size }
        ensures { result ≡ number_of (slice_range self.now.bytes at (at + 8)) }
    {
        if at % PAGE_SIZE > PAGE_SIZE - 8 {
            return self.read_u64_over_pages(at);
        }
        buffer::read_u64(&self.bytes, self.starts[at / PAGE_SIZE] + at % PAGE_SIZE)
    }

    // As for two bytes.
    #[tactic(auto, unfolding(machine_defs::specs::Memory::memory_size))]
    #[cold]
    #[inline(never)]
    fn read_u64_over_pages(&self, at: usize) -> u64
        requires { at + 8 ≤ memory_size }
        ensures { result ≡ number_of (slice_range self.now.bytes at (at + 8)) }
    {
        u64::from(self.read_u32(at)) + (u64::from(self.read_u32(at + 4)) << 32)
    }

    /// Whether a page is allocated.
    #[tactic(auto, unfolding(machine_defs::specs::Memory::page_count))]
    #[inline(always)]
    pub(crate) fn is_allocated(&self, page: usize) -> bool
        requires { page < page_count }
        ensures { result ≡ slice_index_or self.now.allocated page false }
    {
        self.starts[page] != 0
    }

    // Allocates one page, if it is not.
    #[tactic(auto, unfolding(machine_defs::specs::Memory::memory_size, machine_defs::specs::Memory::page_count))]
    #[inline]
    fn allocate_page(&mut self, page: usize) -> Result<(), NoMemory>
        requires { page < page_count }
        ensures bytes { self.new.bytes ≡ self.old.bytes }
        ensures allocated { OnOk result (IsAllocated self.new.allocated page) }
        ensures pages_kept { (other : ℕ) → IsAllocated self.old.allocated other → IsAllocated self.new.allocated other }
        ensures pages_added { (other : ℕ) → IsAllocated self.new.allocated other → IsAllocated self.old.allocated other ⊎ (other ≡ page) }
        ensures needs_no_memory { IsAllocated self.old.allocated page → IsOk result }
    {
        if self.starts[page] == 0 {
            let start = self.bytes.len();
            self.bytes.resize(start + PAGE_SIZE, 0)?;
            self.starts[page] = start;
        }
        Ok(())
    }

    /// Allocates the pages of a range of bytes that are not.
    #[tactic(auto, unfolding(machine_defs::specs::Memory::memory_size, machine_defs::specs::Memory::page_count))]
    #[inline]
    pub(crate) fn allocate(&mut self, at: usize, count: usize) -> Result<(), NoMemory>
        requires { at + count ≤ memory_size }
        ensures bytes { self.new.bytes ≡ self.old.bytes }
        ensures allocated { OnOk result (AreAllocated self.new.allocated at count) }
        ensures pages_kept { (page : ℕ) → IsAllocated self.old.allocated page → IsAllocated self.new.allocated page }
        ensures pages_added { (page : ℕ) → IsAllocated self.new.allocated page → IsAllocated self.old.allocated page ⊎ ReachesPage page at count }
        ensures needs_no_memory { AreAllocated self.old.allocated at count → IsOk result }
    {
        if count == 0 {
            return Ok(());
        }
        let first = at / PAGE_SIZE;
        let last = (at + count - 1) / PAGE_SIZE;
        for page in first..last + 1 {
            self.allocate_page(page)?;
        }
        Ok(())
    }

    /// Writes bytes within one page.
    #[tactic(auto, unfolding(machine_defs::specs::Memory::memory_size, machine_defs::specs::Memory::page_count))]
    #[inline(always)]
    pub(crate) fn write_page(&mut self, at: usize, bytes: &[u8])
        requires allocated { IsAllocated self.old.allocated (at / page_size) }
        requires memory { at < memory_size }
        requires within { at % page_size + length bytes.now ≤ page_size }
        ensures { self.new ≡ written self.old at bytes.now }
    {
        let page = at / PAGE_SIZE;
        let place = self.starts[page] + at % PAGE_SIZE;
        buffer::overwrite(&mut self.bytes, place, bytes);
        self.dirty[page] = true;
    }

    /// Writes bytes to pages that are allocated.
    #[tactic(auto, unfolding(machine_defs::specs::Memory::memory_size, machine_defs::specs::Memory::page_count))]
    #[inline]
    pub(crate) fn write(&mut self, at: usize, bytes: &[u8])
        requires memory { at + length bytes.now ≤ memory_size }
        requires allocated { AreAllocated self.old.allocated at (length bytes.now) }
        ensures { self.new ≡ written self.old at bytes.now }
    {
        let mut done = 0;
        while done < bytes.len() {
            let start = at + done;
            let size = (PAGE_SIZE - start % PAGE_SIZE).min(bytes.len() - done);
            self.write_page(start, &bytes[done..done + size]);
            done += size;
        }
    }

    // Makes bytes within one page zero. A page that is not dirty has no other, and one is clean after it was cleared whole.
    #[tactic(auto, unfolding(machine_defs::specs::Memory::memory_size, machine_defs::specs::Memory::page_count))]
    #[inline]
    fn clear_page(&mut self, at: usize, count: usize)
        requires memory { at < memory_size }
        requires within { at % page_size + count ≤ page_size }
        ensures { self.new ≡ written self.old at (replicate count 0) }
    {
        let page = at / PAGE_SIZE;
        if self.dirty[page] {
            let place = self.starts[page] + at % PAGE_SIZE;
            buffer::overwrite_with_zeros(&mut self.bytes, place, count);
            self.dirty[page] = count < PAGE_SIZE;
        }
    }

    /// Makes bytes zero, and takes no memory. The cost is that of the dirty pages, and one look at each other page.
    #[tactic(auto, unfolding(machine_defs::specs::Memory::memory_size, machine_defs::specs::Memory::page_count))]
    #[inline]
    pub(crate) fn clear(&mut self, at: usize, count: usize)
        requires { at + count ≤ memory_size }
        ensures { self.new ≡ written self.old at (replicate count 0) }
    {
        let mut cleared = 0;
        while cleared < count {
            let start = at + cleared;
            let size = (PAGE_SIZE - start % PAGE_SIZE).min(count - cleared);
            self.clear_page(start, size);
            cleared += size;
        }
    }
}
