// Why a text is not read.
ghost use Rattle.std.specs.Prelude.{◌≡◌};
ghost use Rattle.json_blocks.specs.declared.stop.JsonStop.TheVariants.{NoMemory as no_memory};

use outside::NoMemory;
use std::alloc::{AllocError, AllocFailed};
use std::error::Error;
use std::fmt;

/// Why a text is not read.
#[derive(Clone, Copy, PartialEq, Eq, Debug, Drop)]
pub enum JsonStop {
    /// It is no JSON, or it is read as no value.
    Bad,
    NoMemory,
}

impl From<NoMemory> for JsonStop {
    ghost from_gives = { λ _ stop. stop ≡ no_memory };

    fn from(_: NoMemory) -> JsonStop {
        JsonStop::NoMemory
    }
}

impl From<AllocError> for JsonStop {
    ghost from_gives = { λ _ stop. stop ≡ no_memory };

    fn from(_: AllocError) -> JsonStop {
        JsonStop::NoMemory
    }
}

impl<T: Drop> From<AllocFailed<T>> for JsonStop {
    ghost from_gives = { λ _ stop. stop ≡ no_memory };

    fn from(_: AllocFailed<T>) -> JsonStop {
        JsonStop::NoMemory
    }
}

impl fmt::Display for JsonStop {
    fn fmt<W: fmt::Write>(&self, f: &mut fmt::Formatter<W>) -> fmt::Result {
        match self {
            JsonStop::Bad => write!(f, "the text is read as no value"),
            JsonStop::NoMemory => write!(f, "out of memory"),
        }
    }
}

impl Error for JsonStop {}
