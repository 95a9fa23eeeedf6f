// A file is judged by its headers alone.
ghost use Rattle.std.specs.Prelude.{◌≡◌, ◌^◌, ◌≤◌, List, None, IfOk, IsOk, OnErr, OnOk, ◌<◌};
ghost use Rattle.machine_defs.specs.Memory.{new_memory};
ghost use Rattle.machine_defs.specs.Elf as elf;
ghost use Rattle.machine_defs.specs.Elf.{broken_header, broken_segment, load_elf, segments};
ghost use Rattle.elf_load.specs.Judging.{JudgesSegment, JudgesSegments, Marks, program_in};
ghost use Rattle.elf_load.specs.Loads.{AllAllocated};
ghost use Rattle.elf_load.specs.Placing.{Allocates};

use super::field::is_inside;
use super::header::{Header, broken_header};
use super::placing::place_segments;
use super::segment::Segment;
use super::touched::Touched;
use outside::NoMemory;
use std::marker::Model;
use vm_mem::Memory;

/// A file that meets none of the conditions. Contracts see the program that it holds, and its segments.
#[derive(Drop)]
pub struct ValidElf<'a> {
    file: &'a [u8],
    file_bytes: u64,
}

impl<'a> Model for ValidElf<'a> {
    ghost use Rattle.machine_defs.specs.Elf.{program_of, segments};
    ghost use Rattle.elf_load.specs.Judging.{IsJudged, JudgedFile};

    ghost Value = { JudgedFile };

    ghost view = { λ j. record { program = program_of j.file.now; segments = segments j.file.now } };

    ghost invariant = { λ j. IsJudged j.file.now j.file_bytes };
}

/// Judges a file by its headers, without touching memory.
///
/// `Err` has the number of the first of the conditions E 1 to E 8 that the file meets (docs/MACHINE.md, "A program
/// as an ELF file"). The cost is one pass over the program headers, with at most 1,024 pages looked up for each.
pub fn judge<'a>(file: &'a [u8]) -> Result<ValidElf<'a>, u8>
    ensures program { program_in result ≡ load_elf file.now }
    ensures segments { IfOk result (λ judged. judged.segments ≡ segments file.now) }
{
    if let Some(condition) = broken_header(file) {
        return Err(condition);
    }
    let file_bytes = match judge_segments(file) {
        Ok(file_bytes) => file_bytes,
        Err(condition) => return Err(condition),
    };
    Ok(ValidElf { file, file_bytes })
}

impl<'a> ValidElf<'a> {
    /// The address of its first instruction. It is taken as it stands in the file.
    #[tactic(auto, unfolding(machine_defs::specs::Elf::program_of))]
    pub fn pc(&self) -> u64
        ensures { result ≡ self.now.program.pc }
    {
        Header::of(self.file).e_entry()
    }

    /// How many bytes its segments have in the file, all together. Loading costs a cycle for four of them.
    pub fn file_bytes(&self) -> u64
        ensures bytes { result ≡ self.now.program.file_bytes }
        // 65,535 segments have at most 2^22 bytes each.
        ensures bound { result ≤ 2 ^ 38 }
    {
        self.file_bytes
    }

    /// Places its segments in new memory.
    ///
    /// The pages that bytes of the file go to are allocated, and no other. Out of memory comes only where the file has
    /// bytes to be placed, and memory may then hold a part of them.
    pub fn place(&self, memory: &mut Memory) -> Result<(), NoMemory>
        requires { memory.old.memory ≡ new_memory }
        ensures placed { OnOk result (memory.new.memory ≡ self.now.program.memory) }
        ensures allocated { OnOk result (Allocates self.now.segments memory.old.allocated memory.new.allocated) }
        ensures some { OnErr result (0 < self.now.program.file_bytes) }
        ensures needs_no_memory { AllAllocated memory.old.allocated → IsOk result }
    {
        place_segments(self.file, memory)
    }
}

// Judges the segments of a file whose header is sound, and adds up their bytes in the file.
fn judge_segments(file: &[u8]) -> Result<u64, u8>
    requires { broken_header file.now ≡ None }
    ensures judges { JudgesSegments file.now result }
    ensures bound { IfOk result (λ file_bytes. file_bytes ≤ 2 ^ 38) }
{
    let header = Header::of(file);
    let count = header.e_phnum();
    let mut touched = Touched::new();
    let mut file_bytes = 0;
    for index in 0..count {
        if let Some(segment) = header.segment(index) {
            judge_segment(file, &segment, &mut touched)?;
            file_bytes += segment.file_size();
        }
    }
    Ok(file_bytes)
}

// Judges one segment after earlier ones.
fn judge_segment(file: &[u8], segment: &Segment, touched: &mut Touched) -> Result<(), u8>
    requires { (earlier : List elf.Segment) × Marks touched.old.kinds earlier }
    ensures { (earlier : List elf.Segment) → Marks touched.old.kinds earlier → JudgesSegment file.now earlier segment.now touched.new.kinds result }
{
    if let Some(condition) = broken_segment(file, segment, touched) {
        return Err(condition);
    }
    touched.mark(segment);
    Ok(())
}

// The first of E 5 to E 8 that a segment meets after earlier ones.
#[tactic(auto, unfolding(machine_defs::specs::Elf::broken_segment))]
fn broken_segment(file: &[u8], segment: &Segment, touched: &Touched) -> Option<u8>
    ensures { (earlier : List elf.Segment) → Marks touched.now.kinds earlier → result ≡ broken_segment file.now earlier segment.now }
{
    if !segment.can_be_read() || segment.can_run() && segment.can_be_written() {
        return Some(5);
    }
    if segment.memory_size() < segment.file_size()
        || !is_inside(file, segment.offset(), segment.file_size())
    {
        return Some(6);
    }
    if segment.leaves_memory() {
        return Some(7);
    }
    if touched.clashes(segment) {
        return Some(8);
    }
    None
}
