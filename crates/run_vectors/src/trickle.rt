// Streams in memory that move few bytes a call.
ghost use Rattle.std.specs.Prelude.{◌≤◌};

use outside::{Failed, Sink, Source};

/// No stream moves nothing.
fn at_least_one(most: usize) -> usize
    ensures { 1 ≤ result }
{
    if most == 0 { 1 } else { most }
}

/// A source or a sink that moves at most `most` bytes a call, and one at least.
#[derive(Drop)]
pub struct Trickle<T> {
    pub inner: T,
    pub most: usize,
}

impl<S: Source> Source for Trickle<S> {
    ghost left = { λ trickle. S.left trickle.inner };

    ghost faults = { λ trickle. S.faults trickle.inner };

    ghost last_fault = { λ trickle. S.last_fault trickle.inner };

    fn read(&mut self, into: &mut [u8]) -> Result<usize, Failed> {
        let n = into.len().min(at_least_one(self.most));
        self.inner.read(&mut into[..n])
    }
}

impl<K: Sink> Sink for Trickle<K> {
    ghost taken = { λ trickle. K.taken trickle.inner };

    ghost faults = { λ trickle. K.faults trickle.inner };

    ghost last_fault = { λ trickle. K.last_fault trickle.inner };

    fn write(&mut self, piece: &[u8]) -> Result<usize, Failed> {
        let n = piece.len().min(at_least_one(self.most));
        self.inner.write(&piece[..n])
    }
}
