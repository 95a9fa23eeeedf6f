// How an item that is there is loaded into the machine's memory.
ghost use Rattle.std.specs.Prelude.{◌≡◌, ◌+◌, ◌-◌, ◌^◌, ◌%◌, ◌/◌, ◌==◌, ◌||◌, ◌≤◌, ◌++◌, ◌⊎◌, ℕ, true, not, nat_lt, length, take, drop, replicate, OnErr, OnOk};
ghost use Rattle.outside.specs.declared.disk.ReadStop.{ReadStop};
ghost use Rattle.outside.specs.declared.disk.ReadStop.TheVariants as read_stop;
ghost use Rattle.machine_defs.specs.Memory.{page_size, bytes_of, load, store};
ghost use Rattle.vm_mem.specs.Paged.{Stores};
ghost use Rattle.vm_mem.specs.Pages.{IsAllocated, ReachesPage};
ghost use Rattle.machine_defs.specs.Answer.{loads_code, loads_part, paid_for, stored};
ghost use Rattle.vm_sys.specs.Answering.{AddsPages, ContentTouches, HasBytes, HoldsPart, IsAnswer, WhereCutOff, IsStopped, IsCodePlaced, PartTouches, goes_on_of, with_memory};

use super::call::{A0, A1, A2, A3};
use super::syscall::Sys;
use machine_defs::{MEMORY_SIZE, MemFault, PAGE_SIZE, Width};
use outside::ReadStop;
use vm_mem::{MemStop, Memory};
use vm_step::Machine;

/// The code asked for does not lie in the item, or does not fit its pages.
const SLICE_OUT_OF_BOUND: u64 = 3;

/// Memory is not made code but in whole pages.
const UNALIGNED_CODE: u8 = 6;

/// Loads an item in part: from the offset in a2 to the address in a0, as many bytes as the word at a1 says, which
/// becomes the count of bytes from the offset on.
pub(crate) fn load_part(machine: &mut Machine, item: &[u8]) -> Sys
    requires goes_on { machine.old.goes_on ≡ true }
    ensures answer { IsAnswer (loads_part machine.old.machine item.now) machine.new.machine result }
    ensures goes_on { machine.new.goes_on ≡ goes_on_of result }
    ensures stops { (stop : ReadStop) → result ≡ Sys.Stop stop → stop ≡ read_stop.NoMemory }
    ensures unpaid { (stop : ReadStop) → result ≡ Sys.Stop stop → machine.new.machine.cycles ≡ machine.old.machine.cycles }
    ensures in_part { WhereCutOff result (HoldsPart machine.old.machine machine.new.machine) }
    ensures pages_kept { (page : ℕ) → IsAllocated machine.old.allocated page → IsAllocated machine.new.allocated page }
    ensures pages_added { AddsPages machine.old.allocated machine.new.allocated (PartTouches machine.old.machine item.now) }
{
    let to = machine.reg(A0);
    let length_at = machine.reg(A1);
    let rest = from(item, machine.reg(A2));
    let word = match load_word(machine, length_at) {
        Ok(word) => word,
        Err(fault) => return stopped(MemStop::Fault(fault)),
    };
    let part = first(rest, word);
    match store_word(machine, length_at, rest.len() as u64) {
        Ok(()) => {}
        Err(stop) => return stopped(stop),
    }
    match store_bytes(machine, to, part) {
        Ok(()) => {}
        Err(stop) => return stopped(stop),
    }
    pay(machine, part.len() as u64)
}

// The bytes of an item from an offset on.
fn from(item: &[u8], offset: u64) -> &[u8]
    ensures { result.now ≡ drop offset item.now }
{
    if offset >= item.len() as u64 {
        return &[];
    }
    &item[offset as usize..]
}

// So many of the first bytes, or all.
fn first(bytes: &[u8], count: u64) -> &[u8]
    ensures { result.now ≡ take count bytes.now }
{
    if count >= bytes.len() as u64 {
        return bytes;
    }
    &bytes[..count as usize]
}

fn load_word(machine: &mut Machine, at: u64) -> Result<u64, MemFault>
    ensures word { result ≡ load machine.old.machine.memory at 8 }
    ensures unchanged { machine.new ≡ machine.old }
{
    machine.memory_mut().load(at, Width::B8)
}

fn store_word(machine: &mut Machine, at: u64, word: u64) -> Result<(), MemStop>
    ensures stores { Stores (store machine.old.machine.memory at (bytes_of 8 word)) machine.old.machine.memory machine.new.machine.memory result }
    ensures rest { machine.new ≡ with_memory machine.old machine.new.machine.memory machine.new.allocated }
    ensures pages_kept { (page : ℕ) → IsAllocated machine.old.allocated page → IsAllocated machine.new.allocated page }
    ensures pages_added { AddsPages machine.old.allocated machine.new.allocated (λ page. ReachesPage page at 8) }
{
    machine.memory_mut().store(at, Width::B8, word)
}

// Bytes that are stored; none touch nothing.
fn store_bytes(machine: &mut Machine, at: u64, bytes: &[u8]) -> Result<(), MemStop>
    ensures stores { Stores (stored machine.old.machine.memory at bytes.now) machine.old.machine.memory machine.new.machine.memory result }
    ensures rest { machine.new ≡ with_memory machine.old machine.new.machine.memory machine.new.allocated }
    ensures pages_kept { (page : ℕ) → IsAllocated machine.old.allocated page → IsAllocated machine.new.allocated page }
    ensures pages_added { AddsPages machine.old.allocated machine.new.allocated (λ page. ReachesPage page at (length bytes.now)) }
    ensures bound { OnOk result (length bytes.now ≤ 2 ^ 38) }
{
    if bytes.is_empty() {
        return Ok(());
    }
    machine.memory_mut().copy_in(at, bytes)
}

// Loaded bytes are paid for, and the result is 0 where the budget allows it.
fn pay(machine: &mut Machine, count: u64) -> Sys
    requires goes_on { machine.old.goes_on ≡ true }
    requires bound { count ≤ 2 ^ 38 }
    ensures answer { IsAnswer (paid_for count machine.old.machine) machine.new.machine result }
    ensures goes_on { machine.new.goes_on ≡ goes_on_of result }
    ensures stops { (stop : ReadStop) → result ≡ Sys.Stop stop → ⊥ }
    ensures ends { (result ≡ Sys.Done) ⊎ (result ≡ Sys.Spent) }
    ensures allocated { machine.new.allocated ≡ machine.old.allocated }
{
    if !machine.charge((count + 3) / 4) {
        return Sys::Spent;
    }
    machine.set_reg(A0, 0);
    Sys::Done
}

// A store that was not made.
fn stopped(stop: MemStop) -> Sys
    ensures { IsStopped stop result }
{
    match stop {
        MemStop::Fault(MemFault::Range) => Sys::Fault(1),
        MemStop::Fault(MemFault::WriteCode) => Sys::Fault(2),
        MemStop::Fault(MemFault::RunData) => Sys::Fault(3),
        MemStop::NoMemory => Sys::Stop(ReadStop::NoMemory),
    }
}

/// Loads an item as code: content from the offset in a2 on, of so many bytes as a3 says, to whole pages at the address in
/// a0, of so many bytes as a1 says.
pub(crate) fn load_code(machine: &mut Machine, item: &[u8]) -> Sys
    requires goes_on { machine.old.goes_on ≡ true }
    ensures answer { IsAnswer (loads_code machine.old.machine item.now) machine.new.machine result }
    ensures goes_on { machine.new.goes_on ≡ goes_on_of result }
    ensures stops { (stop : ReadStop) → result ≡ Sys.Stop stop → stop ≡ read_stop.NoMemory }
    ensures unpaid { (stop : ReadStop) → result ≡ Sys.Stop stop → machine.new.machine.cycles ≡ machine.old.machine.cycles }
    ensures in_part { WhereCutOff result (HoldsPart machine.old.machine machine.new.machine) }
    ensures pages_kept { (page : ℕ) → IsAllocated machine.old.allocated page → IsAllocated machine.new.allocated page }
    ensures pages_added { AddsPages machine.old.allocated machine.new.allocated (ContentTouches machine.old.machine) }
{
    let to = machine.reg(A0);
    let size = machine.reg(A1);
    let offset = machine.reg(A2);
    let count = machine.reg(A3);
    if lies_outside(item, offset, count, size) {
        machine.set_reg(A0, SLICE_OUT_OF_BOUND);
        return Sys::Done;
    }
    if is_unaligned(to, size) {
        return Sys::Fault(UNALIGNED_CODE);
    }
    let content = first(from(item, offset), count);
    match place_code(machine.memory_mut(), to, content, size) {
        Ok(()) => {}
        Err(stop) => return stopped(stop),
    }
    pay(machine, size)
}

// Content does not lie within the item, or has more bytes than its pages.
fn lies_outside(item: &[u8], offset: u64, count: u64, size: u64) -> bool
    ensures { result ≡ (nat_lt (length item.now) (offset + count) || nat_lt size count) }
{
    let length = item.len() as u64;
    offset > length || count > length - offset || count > size
}

fn is_unaligned(at: u64, size: u64) -> bool
    ensures { result ≡ (not (at % page_size == 0) || not (size % page_size == 0)) }
{
    at % PAGE_SIZE != 0 || size % PAGE_SIZE != 0
}

// Writes content, and zeros after it up to the size, to pages of data, which become code.
#[tactic(auto, unfolding(machine_defs::specs::Memory::is_out_of_range, machine_defs::specs::Memory::memory_size))]
fn place_code(memory: &mut Memory, at: u64, content: &[u8], size: u64) -> Result<(), MemStop>
    requires aligned { at % page_size ≡ 0 }
    requires fits { length content.now ≤ size }
    ensures placed { IsCodePlaced result (store memory.old.memory at (content.now ++ replicate (size - length content.now) 0)) at (size / page_size) memory.new.memory }
    ensures bound { OnOk result (size ≤ 2 ^ 38) }
    ensures in_part { OnErr result ((memory.new.memory ≡ memory.old.memory) ⊎ HasBytes memory.old.memory at size memory.new.memory) }
    ensures pages_kept { (page : ℕ) → IsAllocated memory.old.allocated page → IsAllocated memory.new.allocated page }
    ensures pages_added { AddsPages memory.old.allocated memory.new.allocated (λ page. ReachesPage page at (length content.now)) }
{
    if size > MEMORY_SIZE || at > MEMORY_SIZE - size {
        return Err(MemStop::Fault(MemFault::Range));
    }
    match memory.copy_in(at, content) {
        Ok(()) => {}
        Err(stop) => return Err(stop),
    }
    let count = content.len() as u64;
    match memory.clear(at + count, size - count) {
        Ok(()) => {}
        Err(fault) => return Err(MemStop::Fault(fault)),
    }
    match memory.set_code(at, (size / PAGE_SIZE) as u32) {
        Ok(()) => Ok(()),
        Err(fault) => Err(MemStop::Fault(fault)),
    }
}
