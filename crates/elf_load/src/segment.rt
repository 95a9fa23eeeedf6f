// A segment of the program: what a program header of type PT_LOAD says.
ghost use Rattle.std.specs.Prelude.{◌≡◌, ◌+◌, ◌≤◌, length, false};
ghost use Rattle.machine_defs.specs.Memory.{is_out_of_range, page_count};
ghost use Rattle.machine_defs.specs.Elf.{can_be_read, can_be_written, can_run, first_page, page_span, program_header_size};
ghost use Rattle.elf_load.specs.Judging.{kind_of, loaded_at};

use super::field::{u32_at, u64_at};
use machine_defs::{MEMORY_SIZE, PAGE_SIZE, PageKind};
use std::marker::Model;

const PT_LOAD: u32 = 1;

const PF_X: u32 = 1;

const PF_W: u32 = 2;

const PF_R: u32 = 4;

#[derive(Drop)]
pub(crate) struct Segment {
    flags: u32,
    offset: u64,
    file_size: u64,
    address: u64,
    memory_size: u64,
}

impl Model for Segment {
    ghost use Rattle.machine_defs.specs.Elf as elf;

    ghost Value = { elf.Segment };

    ghost view = { λ s. record { flags = s.flags; offset = s.offset; file_size = s.file_size; address = s.address; memory_size = s.memory_size } };
}

impl Segment {
    /// The segment of the program header at an offset, if it is one that is loaded.
    #[tactic(auto, unfolding(machine_defs::specs::Elf::segment_at))]
    pub(crate) fn loaded_at(file: &[u8], at: usize) -> Option<Segment>
        requires { at + program_header_size ≤ length file.now }
        ensures { result ≡ loaded_at file.now at }
    {
        if u32_at(file, at) != PT_LOAD {
            return None;
        }
        Some(Segment {
            flags: u32_at(file, at + 4),
            offset: u64_at(file, at + 8),
            file_size: u64_at(file, at + 32),
            address: u64_at(file, at + 16),
            memory_size: u64_at(file, at + 40),
        })
    }

    pub(crate) fn can_run(&self) -> bool
        ensures { result ≡ can_run self.now }
    {
        self.flags & PF_X != 0
    }

    pub(crate) fn can_be_written(&self) -> bool
        ensures { result ≡ can_be_written self.now }
    {
        self.flags & PF_W != 0
    }

    pub(crate) fn can_be_read(&self) -> bool
        ensures { result ≡ can_be_read self.now }
    {
        self.flags & PF_R != 0
    }

    /// Where its bytes begin in the file.
    pub(crate) fn offset(&self) -> u64
        ensures { result ≡ self.now.offset }
    {
        self.offset
    }

    pub(crate) fn file_size(&self) -> u64
        ensures { result ≡ self.now.file_size }
    {
        self.file_size
    }

    /// Where its bytes begin in memory.
    pub(crate) fn address(&self) -> u64
        ensures { result ≡ self.now.address }
    {
        self.address
    }

    pub(crate) fn memory_size(&self) -> u64
        ensures { result ≡ self.now.memory_size }
    {
        self.memory_size
    }

    /// What its pages become.
    pub(crate) fn kind(&self) -> PageKind
        ensures { result ≡ kind_of self.now }
    {
        if self.can_run() {
            PageKind::Code
        } else {
            PageKind::Data
        }
    }

    /// Whether its bytes leave memory. The sum does not wrap.
    #[tactic(auto, unfolding(machine_defs::specs::Memory::is_out_of_range, machine_defs::specs::Memory::memory_size))]
    pub(crate) fn leaves_memory(&self) -> bool
        ensures { result ≡ is_out_of_range self.now.address self.now.memory_size }
    {
        self.address > MEMORY_SIZE || self.memory_size > MEMORY_SIZE - self.address
    }

    /// The page of its first byte.
    #[tactic(auto, unfolding(machine_defs::specs::Elf::first_page))]
    pub(crate) fn first_page(&self) -> usize
        ensures { result ≡ first_page self.now }
    {
        (self.address / PAGE_SIZE) as usize
    }

    /// How many pages it touches, from that of its first byte on.
    #[tactic(auto, unfolding(machine_defs::specs::Elf::first_page, machine_defs::specs::Elf::last_page, machine_defs::specs::Elf::page_span, machine_defs::specs::Memory::is_out_of_range, machine_defs::specs::Memory::memory_size, machine_defs::specs::Memory::page_count))]
    pub(crate) fn page_span(&self) -> usize
        requires { is_out_of_range self.now.address self.now.memory_size ≡ false }
        ensures span { result ≡ page_span self.now }
        ensures within { first_page self.now + result ≤ page_count }
    {
        if self.memory_size == 0 {
            return 0;
        }
        let last = (self.address + self.memory_size - 1) / PAGE_SIZE;
        (last - self.address / PAGE_SIZE + 1) as usize
    }
}
