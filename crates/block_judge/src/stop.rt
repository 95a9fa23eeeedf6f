// Why a block or a transaction is not taken.
ghost use Rattle.std.specs.Prelude.{◌≡◌};
ghost use Rattle.outside.specs.declared.disk.ReadStop.TheVariants.{NoMemory as no_memory};
ghost use Rattle.block_judge.specs.declared.stop.JudgeStop.TheVariants.{Read};

use outside::{Damage, NoMemory, ReadStop};
use rule_defs::Rule;
use std::error::Error;
use std::fmt;

/// Why a block or a transaction is not taken.
#[derive(Clone, Copy, Debug)]
pub enum JudgeStop {
    /// The first rule that it breaks.
    Broken(Rule),
    /// The kept blocks could not be read, or there was no memory.
    Read(ReadStop),
}

impl fmt::Display for JudgeStop {
    fn fmt<W: fmt::Write>(&self, f: &mut fmt::Formatter<W>) -> fmt::Result {
        match self {
            JudgeStop::Broken(rule) => write!(f, "{rule} is broken"),
            JudgeStop::Read(stop) => write!(f, "{stop}"),
        }
    }
}

impl Error for JudgeStop {}

impl From<ReadStop> for JudgeStop {
    ghost from_gives = { λ stop given. given ≡ Read stop };

    fn from(stop: ReadStop) -> Self {
        JudgeStop::Read(stop)
    }
}

impl From<NoMemory> for JudgeStop {
    ghost from_gives = { λ _ given. given ≡ Read no_memory };

    fn from(_: NoMemory) -> Self {
        JudgeStop::Read(ReadStop::NoMemory)
    }
}
