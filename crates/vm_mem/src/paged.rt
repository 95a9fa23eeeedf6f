// Memory in pages of data and of code.
ghost use Rattle.std.specs.Prelude.{◌≡◌, ◌≢◌, ℕ, ◌+◌, ◌*◌, ◌%◌, ◌<◌, ◌≤◌, length, false, replicate, Ok, Err, true, OnOk, OnErr, IfOk, IfErr, IsTrue, ◌↔◌, ◌⊎◌};
ghost use Rattle.std.specs.List.{list_all, list_any};
ghost use Rattle.machine_defs.specs.Memory.{byte_count, bytes_of, fetch, fetch_pair, is_code, is_out_of_range, kinds_under, load, memory_size, new_memory, overwritten, page_size, page_count, set_code, store};
ghost use Rattle.vm_mem.specs.Pages.{AreAllocated, IsAllocated, ReachesPage};
ghost use Rattle.vm_mem.specs.Paged.{IsReady, Stores};

use super::pages::{PAGE_COUNT, PAGE_SIZE, Pages};
use super::stop::MemStop;
use machine_defs::{MEMORY_SIZE, MemFault, PageKind, Width};
use outside::NoMemory;
use std::alloc::Global;
use std::marker::Model;

// The bytes of a page, as addresses count them.
const PAGE: u64 = machine_defs::PAGE_SIZE;

/// 4,194,304 bytes in 1,024 pages, each of data or of code.
#[derive(Drop)]
pub(crate) struct Paged {
    pages: Pages,
    kinds: Vec<PageKind>,
}

impl Model for Paged {
    ghost use Rattle.std.specs.Prelude.{◌≡◌, length};
    ghost use Rattle.machine_defs.specs.Memory.{page_count};
    ghost use Rattle.vm_mem.specs.Paged.{PagedMemory};

    ghost Value = { PagedMemory };

    ghost view = { λ m. record { memory = record { bytes = m.pages.bytes; kinds = m.kinds.items }; allocated = m.pages.allocated } };

    ghost invariant = { λ m. length m.kinds.items ≡ page_count };
}

impl Paged {
    /// Memory that is zero, with all its pages of data.
    #[tactic(auto, unfolding(machine_defs::specs::Memory::new_memory))]
    pub(crate) fn new(alloc: Global) -> Result<Paged, NoMemory>
        ensures memory { IfOk result (λ memory. memory.memory ≡ new_memory) }
        ensures allocated { IfOk result (λ memory. memory.allocated ≡ replicate page_count false) }
    {
        let pages = Pages::new(alloc)?;
        let kinds = vec![in alloc; PageKind::Data; PAGE_COUNT]?;
        Ok(Paged { pages, kinds })
    }

    /// The number at an address, of the lowest byte first. A page of code may be read.
    #[tactic(auto, unfolding(machine_defs::specs::Memory::load))]
    #[inline(always)]
    pub(crate) fn load(&self, at: u64, width: Width) -> Result<u64, MemFault>
        ensures { result ≡ load self.now.memory at (byte_count width) }
    {
        Ok(match width {
            Width::B1 => u64::from(self.pages.read_u8(place(at, 1)?)),
            Width::B2 => u64::from(self.pages.read_u16(place(at, 2)?)),
            Width::B4 => u64::from(self.pages.read_u32(place(at, 4)?)),
            Width::B8 => self.pages.read_u64(place(at, 8)?),
        })
    }

    /// Writes the low bytes of a number at an address, the lowest first.
    #[tactic(auto, unfolding(machine_defs::specs::Memory::memory_size))]
    #[inline(always)]
    pub(crate) fn store(&mut self, at: u64, width: Width, value: u64) -> Result<(), MemStop>
        ensures stores { Stores (store self.old.memory at (bytes_of (byte_count width) value)) self.old.memory self.new.memory result }
        ensures needs_no_memory { AreAllocated self.old.allocated at (byte_count width) → result ≢ Err MemStop.NoMemory }
        ensures allocated { OnOk result (AreAllocated self.new.allocated at (byte_count width)) }
        ensures pages_kept { (page : ℕ) → IsAllocated self.old.allocated page → IsAllocated self.new.allocated page }
        ensures pages_added { (page : ℕ) → IsAllocated self.new.allocated page → IsAllocated self.old.allocated page ⊎ ReachesPage page at (byte_count width) }
        ensures refused { (fault : MemFault) → result ≡ Err (MemStop.Fault fault) → self.new ≡ self.old }
    {
        if !self.is_ready(at, size(width)) {
            return self.store_slow(at, width, value);
        }
        let at = at as usize;
        let bytes = value.to_le_bytes();
        match width {
            Width::B1 => self.write_ready(at, &bytes[..1]),
            Width::B2 => self.write_ready(at, &bytes[..2]),
            Width::B4 => self.write_ready(at, &bytes[..4]),
            Width::B8 => self.write_ready(at, &bytes),
        }
        Ok(())
    }

    /// Writes bytes at an address, all or none.
    #[tactic(auto, unfolding(machine_defs::specs::Memory::store))]
    #[inline]
    pub(crate) fn copy_in(&mut self, at: u64, bytes: &[u8]) -> Result<(), MemStop>
        ensures stores { Stores (store self.old.memory at bytes.now) self.old.memory self.new.memory result }
        ensures needs_no_memory { AreAllocated self.old.allocated at (length bytes.now) → result ≢ Err MemStop.NoMemory }
        ensures allocated { OnOk result (AreAllocated self.new.allocated at (length bytes.now)) }
        ensures pages_kept { (page : ℕ) → IsAllocated self.old.allocated page → IsAllocated self.new.allocated page }
        ensures pages_added { (page : ℕ) → IsAllocated self.new.allocated page → IsAllocated self.old.allocated page ⊎ ReachesPage page at (length bytes.now) }
        ensures refused { (fault : MemFault) → result ≡ Err (MemStop.Fault fault) → self.new ≡ self.old }
    {
        let at = match place(at, bytes.len() as u64) {
            Ok(at) => at,
            Err(fault) => return Err(MemStop::Fault(fault)),
        };
        if self.has_code(at, bytes.len()) {
            return Err(MemStop::Fault(MemFault::WriteCode));
        }
        if self.pages.allocate(at, bytes.len()).is_err() {
            return Err(MemStop::NoMemory);
        }
        self.pages.write(at, bytes);
        Ok(())
    }

    /// Makes a range of bytes zero, all or none, and takes no memory: a page that is not allocated is zero.
    #[tactic(auto, unfolding(machine_defs::specs::Memory::store))]
    pub(crate) fn clear(&mut self, at: u64, count: u64) -> Result<(), MemFault>
        ensures cleared { OnOk result (Ok self.new.memory ≡ store self.old.memory at (replicate count 0)) }
        ensures fault { (fault : MemFault) → (result ≡ Err fault) ↔ (store self.old.memory at (replicate count 0) ≡ Err fault) }
        ensures kept { OnErr result (self.new ≡ self.old) }
        ensures allocated { self.new.allocated ≡ self.old.allocated }
    {
        let at = place(at, count)?;
        let count = count as usize;
        if self.has_code(at, count) {
            Err(MemFault::WriteCode)
        } else {
            self.pages.clear(at, count);
            Ok(())
        }
    }

    /// The four bytes at an address where the low two bits are 11, and else the two bytes there.
    #[tactic(auto, unfolding(machine_defs::specs::Memory::memory_size))]
    #[inline(always)]
    pub(crate) fn fetch(&self, at: u64) -> Result<u32, MemFault>
        ensures { result ≡ fetch self.now.memory at }
    {
        if at >= MEMORY_SIZE || at % PAGE > PAGE - 4 {
            return self.fetch_pairs(at);
        }
        self.fetch_in_page(at as usize)
    }

    /// Makes whole pages code that are data.
    #[tactic(auto, unfolding(machine_defs::specs::Memory::set_code, machine_defs::specs::Memory::memory_size, machine_defs::specs::Memory::page_count))]
    pub(crate) fn set_code(&mut self, at: u64, pages: u32) -> Result<(), MemFault>
        requires { at % page_size ≡ 0 }
        ensures code { OnOk result (Ok self.new.memory ≡ set_code self.old.memory at pages) }
        ensures fault { (fault : MemFault) → (result ≡ Err fault) ↔ (set_code self.old.memory at pages ≡ Err fault) }
        ensures kept { OnErr result (self.new ≡ self.old) }
        ensures allocated { self.new.allocated ≡ self.old.allocated }
    {
        let size = 4096 * u64::from(pages);
        let at = place(at, size)?;
        if self.has_code(at, size as usize) {
            return Err(MemFault::WriteCode);
        }
        mark_code(&mut self.kinds, at / PAGE_SIZE, pages as usize);
        Ok(())
    }

    // A store over two pages, to a page that is not allocated, or one that is refused. It is rare, and takes
    // the number by value so that the common store keeps it in a register.
    #[cold]
    #[inline(never)]
    fn store_slow(&mut self, at: u64, width: Width, value: u64) -> Result<(), MemStop>
        ensures stores { Stores (store self.old.memory at (bytes_of (byte_count width) value)) self.old.memory self.new.memory result }
        ensures needs_no_memory { AreAllocated self.old.allocated at (byte_count width) → result ≢ Err MemStop.NoMemory }
        ensures allocated { OnOk result (AreAllocated self.new.allocated at (byte_count width)) }
        ensures pages_kept { (page : ℕ) → IsAllocated self.old.allocated page → IsAllocated self.new.allocated page }
        ensures pages_added { (page : ℕ) → IsAllocated self.new.allocated page → IsAllocated self.old.allocated page ⊎ ReachesPage page at (byte_count width) }
        ensures refused { (fault : MemFault) → result ≡ Err (MemStop.Fault fault) → self.new ≡ self.old }
    {
        let bytes = value.to_le_bytes();
        self.copy_in(at, &bytes[..size(width) as usize])
    }

    // Whether bytes lie in one page of data that is allocated.
    #[tactic(auto, unfolding(machine_defs::specs::Memory::memory_size, machine_defs::specs::Memory::page_count))]
    #[inline(always)]
    fn is_ready(&self, at: u64, count: u64) -> bool
        requires { count ≤ page_size }
        ensures { IsTrue result ↔ IsReady self.now at count }
    {
        if at >= MEMORY_SIZE || at % PAGE + count > PAGE {
            return false;
        }
        let page = at as usize / PAGE_SIZE;
        self.kinds[page] == PageKind::Data && self.pages.is_allocated(page)
    }

    // Writes some bytes in one page of data that is allocated.
    #[inline(always)]
    fn write_ready(&mut self, at: usize, bytes: &[u8])
        requires some { 0 < length bytes.now }
        requires ready { IsReady self.old at (length bytes.now) }
        ensures store { store self.old.memory at bytes.now ≡ Ok self.new.memory }
        ensures allocated { AreAllocated self.new.allocated at (length bytes.now) }
        ensures kept { self.new.allocated ≡ self.old.allocated }
    {
        self.pages.write_page(at, bytes);
    }

    // A word whose four bytes lie in one page. They are read at once, and the high half is cut off where it
    // is no part of the word.
    #[tactic(auto, unfolding(machine_defs::specs::Memory::memory_size, machine_defs::specs::Memory::page_count))]
    #[inline(always)]
    fn fetch_in_page(&self, at: usize) -> Result<u32, MemFault>
        requires memory { at < memory_size }
        requires within { at % page_size + 4 ≤ page_size }
        ensures { result ≡ fetch self.now.memory at }
    {
        match self.kinds[at / PAGE_SIZE] {
            PageKind::Data => return Err(MemFault::RunData),
            PageKind::Code => {}
        }
        let word = self.pages.read_u32(at);
        Ok(if word % 4 == 3 { word } else { word % 0x1_0000 })
    }

    // A word pair by pair, each with its own fault: at the end of a page, or past memory.
    #[tactic(auto, unfolding(machine_defs::specs::Memory::fetch, machine_defs::specs::Memory::memory_size))]
    #[cold]
    #[inline(never)]
    fn fetch_pairs(&self, at: u64) -> Result<u32, MemFault>
        ensures { result ≡ fetch self.now.memory at }
    {
        let low = self.fetch_pair(at)?;
        if low % 4 != 3 {
            return Ok(u32::from(low));
        }
        let high = self.fetch_pair(at + 2)?;
        Ok(u32::from(low) + (u32::from(high) << 16))
    }

    // Two bytes of code.
    #[tactic(auto, unfolding(machine_defs::specs::Memory::fetch_pair))]
    #[inline]
    fn fetch_pair(&self, at: u64) -> Result<u16, MemFault>
        ensures pair { result ≡ fetch_pair self.now.memory at }
        ensures bound { OnOk result (at + 2 ≤ memory_size) }
    {
        let at = place(at, 2)?;
        if !self.is_code(at) {
            return Err(MemFault::RunData);
        }
        Ok(self.pages.read_u16(at))
    }

    // Whether two bytes lie in pages of code.
    #[tactic(auto, unfolding(machine_defs::specs::Memory::kinds_under, machine_defs::specs::Memory::memory_size, machine_defs::specs::Memory::page_count))]
    #[inline]
    fn is_code(&self, at: usize) -> bool
        requires { at + 2 ≤ memory_size }
        ensures { result ≡ list_all is_code (kinds_under self.now.memory at 2) }
    {
        let first = at / PAGE_SIZE;
        let last = (at + 1) / PAGE_SIZE;
        self.kinds[first..last + 1]
            .iter()
            .all(|kind| *kind == PageKind::Code)
    }

    // Whether a byte of the range lies in a page of code.
    #[tactic(auto, unfolding(machine_defs::specs::Memory::kinds_under, machine_defs::specs::Memory::memory_size, machine_defs::specs::Memory::page_count))]
    #[inline]
    fn has_code(&self, at: usize, count: usize) -> bool
        requires { at + count ≤ memory_size }
        ensures { result ≡ list_any is_code (kinds_under self.now.memory at count) }
    {
        if count == 0 {
            return false;
        }
        let first = at / PAGE_SIZE;
        let last = (at + count - 1) / PAGE_SIZE;
        self.kinds[first..last + 1]
            .iter()
            .any(|kind| *kind == PageKind::Code)
    }
}

// How many bytes a load or a store moves.
#[inline(always)]
fn size(width: Width) -> u64
    ensures count { result ≡ byte_count width }
    ensures bound { result ≤ 8 }
{
    match width {
        Width::B1 => 1,
        Width::B2 => 2,
        Width::B4 => 4,
        Width::B8 => 8,
    }
}

// Where a range of bytes begins, if it lies in memory.
#[tactic(auto, unfolding(machine_defs::specs::Memory::is_out_of_range, machine_defs::specs::Memory::memory_size))]
#[inline(always)]
fn place(at: u64, count: u64) -> Result<usize, MemFault>
    ensures inside { IfOk result (λ place. (place ≡ at) × (is_out_of_range at count ≡ false)) }
    ensures outside { IfErr result (λ fault. (fault ≡ MemFault.Range) × (is_out_of_range at count ≡ true)) }
    ensures bound { OnOk result (at + count ≤ memory_size) }
{
    if at > MEMORY_SIZE || count > MEMORY_SIZE - at {
        return Err(MemFault::Range);
    }
    Ok(at as usize)
}

// So many pages from one on become code.
fn mark_code(kinds: &mut [PageKind], first: usize, count: usize)
    requires { first + count ≤ length kinds.old }
    ensures { kinds.new ≡ overwritten kinds.old first (replicate count PageKind.Code) }
{
    kinds[first..first + count].fill(PageKind::Code);
}
