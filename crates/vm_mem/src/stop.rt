use machine_defs::MemFault;
use std::error::Error;
use std::fmt;

/// Why a store was not made.
#[derive(Clone, Copy, Debug, PartialEq, Eq)]
pub enum MemStop {
    Fault(MemFault),
    NoMemory,
}

impl fmt::Display for MemStop {
    fn fmt<W: fmt::Write>(&self, f: &mut fmt::Formatter<W>) -> fmt::Result {
        match self {
            MemStop::Fault(fault) => write!(f, "{fault}"),
            MemStop::NoMemory => write!(f, "out of memory"),
        }
    }
}

impl Error for MemStop {}
