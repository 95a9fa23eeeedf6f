// Why a log was not opened.
ghost use Rattle.std.specs.Prelude.{◌≡◌};
ghost use Rattle.log_file.specs.declared.stop.LogStop.TheVariants.{DiskFault, NoMemory as no_memory};

use outside::{Damage, Failed, NoMemory};
use std::alloc::{AllocError, AllocFailed};
use std::error::Error;
use std::fmt;

/// Why a log was not opened.
#[derive(Clone, Copy, Debug, PartialEq, Eq)]
pub enum LogStop {
    DiskFault,
    /// LOG is no log, or with its snapshots none of a store, from this place on.
    NotAStore(Damage),
    NoMemory,
}

impl From<Failed> for LogStop {
    ghost from_gives = { λ _ stop. stop ≡ DiskFault };

    fn from(_: Failed) -> Self {
        LogStop::DiskFault
    }
}

impl From<NoMemory> for LogStop {
    ghost from_gives = { λ _ stop. stop ≡ no_memory };

    fn from(_: NoMemory) -> Self {
        LogStop::NoMemory
    }
}

impl From<AllocError> for LogStop {
    ghost from_gives = { λ _ stop. stop ≡ no_memory };

    fn from(_: AllocError) -> Self {
        LogStop::NoMemory
    }
}

impl<T: Drop> From<AllocFailed<T>> for LogStop {
    ghost from_gives = { λ _ stop. stop ≡ no_memory };

    fn from(_: AllocFailed<T>) -> Self {
        LogStop::NoMemory
    }
}

impl fmt::Display for LogStop {
    fn fmt<W: fmt::Write>(&self, f: &mut fmt::Formatter<W>) -> fmt::Result {
        match self {
            LogStop::DiskFault => write!(f, "the disk could not be read or written"),
            LogStop::NotAStore(damage) => write!(f, "no store: {damage}"),
            LogStop::NoMemory => write!(f, "out of memory"),
        }
    }
}

impl Error for LogStop {}
