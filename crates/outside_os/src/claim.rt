// A file that one run has for itself.
use std::fs::File;
use std::io;

/// A file that can be claimed: no other open of it can be, until this one and its clones are closed.
/// The bound `Files` of std has no call for it.
pub trait Claim {
    /// Fails where another open of the file is claimed. It does not wait.
    fn claim(&self) -> io::Result<()>;
}

impl Claim for File {
    fn claim(&self) -> io::Result<()> {
        self.try_lock()?;
        Ok(())
    }
}
