// The standard streams.
ghost use Rattle.std.specs.Prelude.{◌≡◌, ◌≤◌, ◌<◌, ℕ, None, true, length, IsErr, IfOk, OnOk, OnErr};
ghost use Rattle.std.specs.Io.KnownBytes.{ReadConsumes};
ghost use Rattle.outside.specs.Causes.{counted, up_to_last, within_last};

use outside::{Failed, Sink, Source};
use std::io;
use std::io::{Error, ErrorKind, Read};
use std::marker::Model;

// How often a call is made again that the system interrupts: no run makes so many, and so each call returns.
pub(crate) const TRIES: u64 = u64::MAX;

fn is_interrupted(error: &Error) -> bool {
    error.kind() == ErrorKind::Interrupted
}

pub(crate) fn was_interrupted<T>(answer: &io::Result<T>) -> bool
    ensures { result ≡ true → IsErr answer.now }
{
    match answer {
        Ok(_) => false,
        Err(error) => is_interrupted(error),
    }
}

pub(crate) fn fail(failed: &mut u64) -> Failed
    ensures { failed.new ≡ counted failed.old }
{
    *failed = failed.saturating_add(1);
    Failed
}

/// One read of a reader. One that was interrupted gave nothing, and is made again.
fn read_some<B: Read>(reader: &mut B, into: &mut [u8]) -> io::Result<usize>
    ensures fits { IfOk result (λ n. n ≤ length into.new) }
    ensures bytes { ReadConsumes (B.remaining reader.old) (B.remaining reader.new) result into.new }
{
    let mut answer = reader.read(into);
    for _ in 0..TRIES {
        if !was_interrupted(&answer) {
            break;
        }
        answer = reader.read(into);
    }
    answer
}

/// Standard input. A clause sees how often it has failed.
#[derive(Drop)]
pub struct StdinSource<R: Drop> {
    rt: R,
    failed: u64,
}

impl<R: Drop> Model for StdinSource<R> {
    ghost Value = { ℕ };

    ghost view = { λ source. source.failed };
}

impl<R: Input + Drop> StdinSource<R> {
    pub fn new(rt: R) -> StdinSource<R>
        ensures { result ≡ 0 }
    {
        StdinSource { rt, failed: 0 }
    }
}

impl<R: Input + Drop> Source for StdinSource<R> {
    ghost left = { λ _. None };

    ghost faults = { up_to_last };

    ghost last_fault = { within_last };

    /// One read of the system, of a reader of its own: no clause of std's ties one reader to the next.
    fn read(&mut self, into: &mut [u8]) -> Result<usize, Failed>
        ensures fits { IfOk result (λ n. n ≤ length into.new) }
        ensures unchanged { OnOk result (self.new ≡ self.old) }
        ensures counted { OnErr result (self.new ≡ counted self.old) }
    {
        let mut reader = self.rt.reader();
        match read_some(&mut reader, into) {
            Ok(n) => Ok(n),
            Err(_) => Err(fail(&mut self.failed)),
        }
    }
}

/// Standard output. A clause sees how often it has failed.
#[derive(Drop)]
pub struct StdoutSink<R: Drop> {
    rt: R,
    failed: u64,
}

impl<R: Drop> Model for StdoutSink<R> {
    ghost Value = { ℕ };

    ghost view = { λ sink. sink.failed };
}

impl<R: Print + Drop> StdoutSink<R> {
    pub fn new(rt: R) -> StdoutSink<R>
        ensures { result ≡ 0 }
    {
        StdoutSink { rt, failed: 0 }
    }
}

impl<R: Print + Drop> Sink for StdoutSink<R> {
    ghost taken = { λ _. None };

    ghost faults = { up_to_last };

    ghost last_fault = { within_last };

    /// One write of the system. One that was interrupted took nothing, and is made again. One that takes
    /// nothing of a piece that is not empty is a fault.
    fn write(&mut self, piece: &[u8]) -> Result<usize, Failed>
        ensures fits { IfOk result (λ n. n ≤ length piece.now) }
        ensures some { IfOk result (λ n. 0 < length piece.now → 1 ≤ n) }
        ensures unchanged { OnOk result (self.new ≡ self.old) }
        ensures counted { OnErr result (self.new ≡ counted self.old) }
    {
        for _ in 0..TRIES {
            match self.rt.write_some(piece) {
                Ok(n) if n > 0 || piece.is_empty() => return Ok(n),
                Err(error) if is_interrupted(&error) => {}
                _ => break,
            }
        }
        Err(fail(&mut self.failed))
    }
}
