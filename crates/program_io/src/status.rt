// How a run ends, in the numbers of `ckbdev`.
ghost use Rattle.std.specs.Prelude.{◌≡◌};
ghost use Rattle.program_io.specs.declared.status.Status.TheVariants.{NoMemory as no_memory};

use std::alloc::{AllocError, AllocFailed};

/// How a run of a program ended.
#[derive(Clone, Copy, Debug, PartialEq, Eq)]
pub enum Status {
    /// What was asked for is written.
    Done,
    /// The input is none of what was named.
    Refused,
    /// The words are not in the grammar.
    BadWords,
    /// Reading the input failed.
    InputFault,
    /// Writing the output failed.
    OutputFault,
    /// Memory ran out.
    NoMemory,
    /// The input is longer than it may be.
    ExtraInput,
}

impl Status {
    /// The exit status of the program.
    pub fn number(self) -> u8 {
        match self {
            Status::Done => 0,
            Status::Refused => 1,
            Status::BadWords => 2,
            Status::InputFault => 3,
            Status::OutputFault => 4,
            Status::NoMemory => 6,
            Status::ExtraInput => 12,
        }
    }
}

impl From<AllocError> for Status {
    ghost from_gives = { λ _ status. status ≡ no_memory };

    fn from(_: AllocError) -> Self {
        Status::NoMemory
    }
}

impl<T: Drop> From<AllocFailed<T>> for Status {
    ghost from_gives = { λ _ status. status ≡ no_memory };

    fn from(_: AllocFailed<T>) -> Self {
        Status::NoMemory
    }
}
