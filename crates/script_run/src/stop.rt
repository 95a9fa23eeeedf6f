// Why the scripts of a transaction were not run to a good end.
use outside::ReadStop;
use std::error::Error;
use std::fmt;
use verdict_defs::Failure;

/// Why the scripts of a transaction were not run to a good end.
#[derive(Clone, Copy, Debug)]
pub enum ScriptStop {
    /// A group fails the transaction.
    Failed(Failure),
    /// The kept blocks could not be read, or there was no memory.
    Read(ReadStop),
}

impl fmt::Display for ScriptStop {
    fn fmt<W: fmt::Write>(&self, f: &mut fmt::Formatter<W>) -> fmt::Result {
        match self {
            ScriptStop::Failed(failure) => write!(f, "{failure}"),
            ScriptStop::Read(stop) => write!(f, "{stop}"),
        }
    }
}

impl Error for ScriptStop {}
