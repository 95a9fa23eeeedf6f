// Streams in memory, which fail at the calls that they are set to.
ghost use Rattle.std.specs.Prelude.{◌≡◌, ◌<◌, ◌≤◌, ◌||◌, ◌↔◌, ◌+◌, ◌++◌, [], ℕ, List, Some, length, take, drop, min, is_ok, IsTrue, IsErr, IfOk, OnOk, OnErr, if◌then◌else◌};
ghost use Rattle.std.specs.Io.KnownBytes.{IsAtEnd};
ghost use Rattle.outside.specs.Causes.{counted, within_last, HasCause};
ghost use Rattle.outside.specs.Streams.{Gives, Takes};
ghost use Rattle.outside_mem.specs.Memory.{Reading, Writing, fresh_plan, fails_next, after_call, reading_faults, writing_faults};

use crate::failure_plan::FailurePlan;
use outside::{Failed, Sink, Source};
use std::alloc::Global;
use std::marker::Model;

/// Gives the bytes of a `Vec`, and fails at the calls that it is set to.
#[derive(Drop)]
pub struct MemSource {
    bytes: Vec<u8>,
    given: usize,
    plan: FailurePlan,
}

impl Model for MemSource {
    ghost Value = { Reading };

    ghost view = { λ source. record { left = drop source.given source.bytes.items; plan = source.plan } };

    ghost invariant = { λ source. source.given ≤ length source.bytes.items };
}

impl MemSource {
    /// `failing` has the numbers, from 0, of the calls that fail.
    pub fn new(bytes: Vec<u8>, failing: Vec<u64>) -> MemSource
        ensures left { result.left ≡ bytes.items }
        ensures plan { result.plan ≡ fresh_plan failing.items }
    {
        MemSource {
            bytes,
            given: 0,
            plan: FailurePlan::new(failing),
        }
    }
}

impl Source for MemSource {
    ghost left = { λ source. Some source.left };

    ghost faults = { reading_faults };

    ghost last_fault = { λ source. within_last source.plan.failed };

    fn read(&mut self, into: &mut [u8]) -> Result<usize, Failed>
        // It fails exactly at the calls that are listed, and otherwise gives all that fits.
        ensures listed { IsErr result ↔ IsTrue (fails_next self.old.plan) }
        ensures counted { self.new.plan ≡ after_call self.old.plan }
        ensures all { IfOk result (λ n. n ≡ min (length into.new) (length self.old.left)) }
        ensures given { IfOk result (λ n. self.old.left ≡ take n into.new ++ self.new.left) }
        ensures kept { OnErr result (self.new.left ≡ self.old.left) }
    {
        self.plan.call()?;
        let left = &self.bytes[self.given..];
        let n = left.len().min(into.len());
        into[..n].copy_from_slice(&left[..n]);
        self.given += n;
        Ok(n)
    }
}

/// Keeps what it takes, and fails at the calls that it is set to.
#[derive(Drop)]
pub struct MemSink {
    taken: Vec<u8>,
    plan: FailurePlan,
    starved: u64,
}

impl Model for MemSink {
    ghost Value = { Writing };

    ghost view = { λ sink. record { taken = sink.taken.items; plan = sink.plan; starved = sink.starved } };
}

impl MemSink {
    /// `failing` has the numbers, from 0, of the calls that fail.
    pub fn new(alloc: Global, failing: Vec<u64>) -> MemSink
        ensures taken { result.taken ≡ [] }
        ensures plan { result.plan ≡ fresh_plan failing.items }
        ensures starved { result.starved ≡ 0 }
    {
        MemSink {
            taken: Vec::new(alloc),
            plan: FailurePlan::new(failing),
            starved: 0,
        }
    }

    /// The bytes that it took.
    pub fn taken(&self) -> &[u8]
        ensures { result.now ≡ self.now.taken }
    {
        &self.taken
    }

    /// How many of its calls ran out of memory, up to `u64::MAX`. They count among its faults.
    pub fn starved(&self) -> u64
        ensures { result ≡ self.now.starved }
    {
        self.starved
    }
}

impl Sink for MemSink {
    ghost taken = { λ sink. Some sink.taken };

    ghost faults = { writing_faults };

    ghost last_fault = { λ sink. within_last (sink.plan.failed + sink.starved) };

    fn write(&mut self, piece: &[u8]) -> Result<usize, Failed>
        // It fails exactly at the calls that are listed, or out of memory, and otherwise takes all.
        ensures listed { IsTrue (fails_next self.old.plan) → IsErr result }
        ensures counted { self.new.plan ≡ after_call self.old.plan }
        ensures starved { self.new.starved
            ≡ (if is_ok result || fails_next self.old.plan then self.old.starved else counted self.old.starved) }
        ensures all { IfOk result (λ n. n ≡ length piece.now) }
        ensures taken { OnOk result (self.new.taken ≡ self.old.taken ++ piece.now) }
        ensures kept { OnErr result (self.new.taken ≡ self.old.taken) }
    {
        self.plan.call()?;
        if self.taken.extend_from_slice(piece).is_err() {
            self.starved = self.starved.saturating_add(1);
            return Err(Failed);
        }
        Ok(piece.len())
    }
}
