use std::error::Error;
use std::fmt;

/// Why a file was not loaded.
#[derive(Clone, Copy, Debug, PartialEq, Eq)]
pub enum ElfStop {
    /// The file is no program for the machine: the number of the first condition that it meets, 1 to 8.
    Bad(u8),
    /// A page could not be allocated. The definitions never give it.
    NoMemory,
}

impl fmt::Display for ElfStop {
    fn fmt<W: fmt::Write>(&self, f: &mut fmt::Formatter<W>) -> fmt::Result {
        match self {
            ElfStop::Bad(number) => write!(f, "no program for the machine: condition {number}"),
            ElfStop::NoMemory => write!(f, "out of memory"),
        }
    }
}

impl Error for ElfStop {}
