// Streams of bytes: where they come from and where they go.
ghost use Rattle.std.specs.Prelude.{◌≡◌, ◌-◌, ◌^◌, ◌<◌, ◌≤◌, List, Option, ℕ, length, take, IfOk, OnOk, OnErr};
ghost use Rattle.std.specs.Io.KnownBytes.{IsAtEnd};
ghost use Rattle.outside.specs.Causes.{HasCause};
ghost use Rattle.outside.specs.Streams.{Gives, Takes};

use crate::Failed;

/// Bytes that come in order, each once.
pub trait Source {
    /// The bytes that are left, where it tells them.
    ghost left: { Self → Option (List ℕ) };

    /// How often it has failed.
    ghost faults: { Self → ℕ };

    /// Gives the next bytes at the start of `into` and answers how many.
    /// The rest of `into` is left open, and all of it after `Failed`.
    fn read(&mut self, into: &mut [u8]) -> Result<usize, Failed>
        ensures fits { IfOk result (λ n. n ≤ length into.new) }
        ensures given { IfOk result (λ n. Gives (left self.old) (left self.new) (take n into.new)) }
        ensures end { IfOk result (λ n. n ≡ 0 → 0 < length into.new → IsAtEnd (left self.new)) }
        ensures kept { OnErr result (left self.new ≡ left self.old) }
        ensures cause { HasCause (faults self.old) (faults self.new) result };

    /// The last value of the count.
    ghost last_fault: { (source : Self) → faults source ≤ 2 ^ 64 - 1 };
}

/// Takes bytes in order. What it took is out: no call takes it back.
pub trait Sink {
    /// The bytes that it took, where it tells them.
    ghost taken: { Self → Option (List ℕ) };

    /// How often it has failed.
    ghost faults: { Self → ℕ };

    /// Takes the first bytes of `piece` and answers how many, at least one of a piece that is not empty.
    fn write(&mut self, piece: &[u8]) -> Result<usize, Failed>
        ensures fits { IfOk result (λ n. n ≤ length piece.now) }
        ensures taken { IfOk result (λ n. Takes (taken self.old) (taken self.new) (take n piece.now)) }
        ensures some { IfOk result (λ n. 0 < length piece.now → 1 ≤ n) }
        ensures kept { OnErr result (taken self.new ≡ taken self.old) }
        ensures cause { HasCause (faults self.old) (faults self.new) result };

    /// The last value of the count.
    ghost last_fault: { (sink : Self) → faults sink ≤ 2 ^ 64 - 1 };
}

/// Fills `into`, unless the source ends first, and answers how many bytes it gave.
/// After `Failed` it has given fewer than `into` holds.
pub fn read_full<S: Source>(source: &mut S, into: &mut [u8]) -> Result<usize, Failed>
    ensures fits { IfOk result (λ n. n ≤ length into.new) }
    ensures given { IfOk result (λ n. Gives (S.left source.old) (S.left source.new) (take n into.new)) }
    ensures end { IfOk result (λ n. n < length into.new → IsAtEnd (S.left source.new)) }
    ensures given_before { OnErr result ((bytes : List ℕ) × (length bytes < length into.new)
        × Gives (S.left source.old) (S.left source.new) bytes) }
    ensures cause { HasCause (S.faults source.old) (S.faults source.new) result }
{
    let mut given = 0;
    while given < into.len() {
        let n = source.read(&mut into[given..])?;
        if n == 0 {
            break;
        }
        given += n;
    }
    Ok(given)
}

/// Hands all of `bytes` to the sink. After `Failed` it has taken a prefix of them.
pub fn write_all<K: Sink>(sink: &mut K, bytes: &[u8]) -> Result<(), Failed>
    ensures taken { OnOk result (Takes (K.taken sink.old) (K.taken sink.new) bytes.now) }
    ensures taken_before { OnErr result ((n : ℕ) × (n < length bytes.now)
        × Takes (K.taken sink.old) (K.taken sink.new) (take n bytes.now)) }
    ensures cause { HasCause (K.faults sink.old) (K.faults sink.new) result }
{
    let mut done = 0;
    while done < bytes.len() {
        done += sink.write(&bytes[done..])?;
    }
    Ok(())
}
