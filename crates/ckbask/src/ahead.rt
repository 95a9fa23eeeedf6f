// A source that takes as much as one read of another gives, and gives it in pieces.
ghost use Rattle.std.specs.Prelude.{◌≡◌, ◌≤◌, None, length, IfOk};

use outside::{Failed, Source};

/// The most bytes that are held.
const ROOM: usize = 4096;

/// Gives the bytes of a source, of which it holds what one read gave: so a reader that wants a byte at a time does not call the
/// system for each. It reads again once all that it holds was given. No clause says what is left of it.
#[derive(Drop)]
pub struct Ahead<S: Drop> {
    source: S,
    room: [u8; ROOM],
    /// Where in the room the bytes begin that were not given yet, and where they end.
    from: usize,
    to: usize,
}

impl<S: Drop> Ahead<S> {
    pub fn new(source: S) -> Ahead<S> {
        Ahead {
            source,
            room: [0u8; ROOM],
            from: 0,
            to: 0,
        }
    }
}

impl<S: Source + Drop> Source for Ahead<S> {
    ghost left = { λ _. None };

    ghost faults = { λ it. S.faults it.source };

    ghost last_fault = { λ it. S.last_fault it.source };

    fn read(&mut self, into: &mut [u8]) -> Result<usize, Failed> {
        if self.from >= self.to {
            self.from = 0;
            self.to = 0;
            match self.source.read(&mut self.room) {
                Ok(n) => self.to = n,
                Err(failed) => return Err(failed),
            }
        }
        let to = self.to.min(ROOM);
        let from = self.from.min(to);
        let n = into.len().min(to - from);
        into[..n].copy_from_slice(&self.room[from..from + n]);
        self.from = from + n;
        Ok(n)
    }
}
