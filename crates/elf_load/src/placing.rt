// The segments of a judged file are placed in memory.
ghost use Rattle.std.specs.Prelude.{◌≡◌, ◌+◌, ◌<◌, ◌≤◌, [], ◌∷◌, false, slice_range, sum_by, true, fold, None, IsOk, OnErr, OnOk};
ghost use Rattle.std.specs.List.{list_any};
ghost use Rattle.machine_defs.specs.Memory.{is_code, is_out_of_range, kinds_under, new_memory};
ghost use Rattle.machine_defs.specs.Elf.{broken_elf, is_inside, segments, with_segment};
ghost use Rattle.elf_load.specs.Placing.{Allocates, with_code, with_contents};
ghost use Rattle.elf_load.specs.Loads.{AllAllocated};

use super::header::Header;
use super::segment::Segment;
use machine_defs::PAGE_SIZE;
use outside::NoMemory;
use vm_mem::{MemStop, Memory};

/// Places the segments of a file that meets none of the conditions.
pub(crate) fn place_segments(file: &[u8], memory: &mut Memory) -> Result<(), NoMemory>
    requires sound { broken_elf file.now ≡ None }
    requires new { memory.old.memory ≡ new_memory }
    ensures placed { OnOk result (memory.new.memory ≡ fold (with_segment file.now) new_memory (segments file.now)) }
    ensures allocated { OnOk result (Allocates (segments file.now) memory.old.allocated memory.new.allocated) }
    ensures some { OnErr result (0 < sum_by (λ segment. segment.file_size) (segments file.now)) }
    ensures needs_no_memory { AllAllocated memory.old.allocated → IsOk result }
{
    let header = Header::of(file);
    let count = header.e_phnum();
    for index in 0..count {
        if let Some(segment) = header.segment(index) {
            match place(file, &segment, memory) {
                Ok(()) => {}
                Err(NoMemory) => return Err(NoMemory),
            }
        }
    }
    Ok(())
}

// Places a segment on pages of data, which become code where it can run.
fn place(file: &[u8], segment: &Segment, memory: &mut Memory) -> Result<(), NoMemory>
    requires in_file { is_inside file.now segment.now.offset segment.now.file_size ≡ true }
    requires sizes { segment.now.file_size ≤ segment.now.memory_size }
    requires in_memory { is_out_of_range segment.now.address segment.now.memory_size ≡ false }
    requires no_code { list_any is_code (kinds_under memory.old.memory segment.now.address segment.now.memory_size) ≡ false }
    ensures placed { OnOk result (memory.new.memory ≡ with_segment file.now memory.old.memory segment.now) }
    ensures allocated { OnOk result (Allocates (segment.now ∷ []) memory.old.allocated memory.new.allocated) }
    ensures some { OnErr result (0 < segment.now.file_size) }
    ensures needs_no_memory { AllAllocated memory.old.allocated → IsOk result }
    ensures pages_kept { AllAllocated memory.old.allocated → AllAllocated memory.new.allocated }
{
    write_contents(file, segment, memory)?;
    make_code(segment, memory);
    Ok(())
}

// Writes the bytes of a segment, and zeros after them.
#[tactic(auto, unfolding(machine_defs::specs::Memory::is_out_of_range, machine_defs::specs::Memory::memory_size))]
fn write_contents(file: &[u8], segment: &Segment, memory: &mut Memory) -> Result<(), NoMemory>
    requires in_file { is_inside file.now segment.now.offset segment.now.file_size ≡ true }
    requires sizes { segment.now.file_size ≤ segment.now.memory_size }
    requires in_memory { is_out_of_range segment.now.address segment.now.memory_size ≡ false }
    requires no_code { list_any is_code (kinds_under memory.old.memory segment.now.address segment.now.memory_size) ≡ false }
    ensures written { OnOk result (memory.new.memory ≡ with_contents file.now memory.old.memory segment.now) }
    ensures allocated { OnOk result (Allocates (segment.now ∷ []) memory.old.allocated memory.new.allocated) }
    ensures some { OnErr result (0 < segment.now.file_size) }
    ensures needs_no_memory { AllAllocated memory.old.allocated → IsOk result }
    ensures pages_kept { AllAllocated memory.old.allocated → AllAllocated memory.new.allocated }
{
    let address = segment.address();
    let file_size = segment.file_size();
    match memory.copy_in(address, bytes_in_file(file, segment)) {
        Ok(()) => {}
        Err(MemStop::NoMemory) => return Err(NoMemory),
        Err(MemStop::Fault(_)) => unreachable!(),
    }
    let zeros = segment.memory_size() - file_size;
    memory.clear(address + file_size, zeros).unwrap();
    Ok(())
}

#[tactic(auto, unfolding(machine_defs::specs::Elf::is_inside))]
fn bytes_in_file<'a>(file: &'a [u8], segment: &Segment) -> &'a [u8]
    requires { is_inside file.now segment.now.offset segment.now.file_size ≡ true }
    ensures { result.now ≡ slice_range file.now segment.now.offset (segment.now.offset + segment.now.file_size) }
{
    let start = segment.offset() as usize;
    let end = start + segment.file_size() as usize;
    &file[start..end]
}

// Makes the pages of a segment code where it can run.
#[tactic(auto, unfolding(machine_defs::specs::Memory::page_count))]
fn make_code(segment: &Segment, memory: &mut Memory)
    requires in_memory { is_out_of_range segment.now.address segment.now.memory_size ≡ false }
    requires no_code { list_any is_code (kinds_under memory.old.memory segment.now.address segment.now.memory_size) ≡ false }
    ensures code { memory.new.memory ≡ with_code memory.old.memory segment.now }
    ensures allocated { memory.new.allocated ≡ memory.old.allocated }
{
    if segment.can_run() {
        let pages = segment.page_span() as u32;
        let at = PAGE_SIZE * segment.first_page() as u64;
        memory.set_code(at, pages).unwrap();
    }
}
