use std::error::Error;
use std::fmt;

/// How many bytes memory has, from address 0 on (RFC 0003).
pub const MEMORY_SIZE: u64 = 4_194_304;

/// How many bytes a page has.
pub const PAGE_SIZE: u64 = 4096;

/// How many pages memory has.
pub const PAGE_COUNT: u64 = MEMORY_SIZE / PAGE_SIZE;

/// What a page of memory is for.
#[derive(Clone, Copy, Debug, PartialEq, Eq)]
pub enum PageKind {
    /// It may be written, and not run.
    Data,
    /// It may be run, and not written.
    Code,
}

/// How many bytes a load or a store moves.
#[derive(Clone, Copy, Debug, PartialEq, Eq)]
pub enum Width {
    B1,
    B2,
    B4,
    B8,
}

/// Why an access to memory is refused.
#[derive(Clone, Copy, Debug, PartialEq, Eq)]
pub enum MemFault {
    /// The end of the range lies past memory, also where the range is empty.
    Range,
    /// A byte that would be written lies in a page of code.
    WriteCode,
    /// A byte that would be run lies in a page of data.
    RunData,
}

impl fmt::Display for MemFault {
    fn fmt<W: fmt::Write>(&self, f: &mut fmt::Formatter<W>) -> fmt::Result {
        match self {
            MemFault::Range => write!(f, "the range ends past memory"),
            MemFault::WriteCode => write!(f, "a write to a page of code"),
            MemFault::RunData => write!(f, "a run from a page of data"),
        }
    }
}

impl Error for MemFault {}
