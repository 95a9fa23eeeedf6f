// Which calls of a form in memory fail.
ghost use Rattle.std.specs.Prelude.{◌≡◌, ◌↔◌, ◌==◌, IsTrue, IsErr};
ghost use Rattle.std.specs.List.{list_any};
ghost use Rattle.outside.specs.Causes.{up_to_last, HasCause};
ghost use Rattle.outside_mem.specs.Memory.{Plan, fresh_plan, fails_next, after_call};

use outside::Failed;
use std::marker::Model;

/// What a write that fails leaves of its range.
#[derive(Clone, Copy)]
pub(crate) enum Tear {
    /// The first half, and nothing after it.
    FirstHalf,
    Whole,
    /// Other bytes in the first half, and all after it.
    OtherBytes,
}

/// Which calls fail: those that are listed. The numbers of calls and of failures stop at `u64::MAX`.
#[derive(Drop)]
pub(crate) struct FailurePlan {
    failing: Vec<u64>,
    calls: u64,
    failed: u64,
}

impl Model for FailurePlan {
    ghost Value = { Plan };

    ghost view = { λ plan. record { failing = plan.failing.items; calls = plan.calls; failed = plan.failed } };
}

impl FailurePlan {
    pub(crate) fn new(failing: Vec<u64>) -> FailurePlan
        ensures { result ≡ fresh_plan failing.items }
    {
        FailurePlan {
            failing,
            calls: 0,
            failed: 0,
        }
    }

    /// Counts a call, which fails if its number is listed.
    pub(crate) fn call(&mut self) -> Result<(), Failed>
        ensures listed { IsErr result ↔ IsTrue (fails_next self.old) }
        ensures counted { self.new ≡ after_call self.old }
        ensures cause { HasCause (up_to_last self.old.failed) (up_to_last self.new.failed) result }
    {
        let fails = is_listed(&self.failing, self.calls);
        self.calls = self.calls.saturating_add(1);
        if fails {
            self.failed = self.failed.saturating_add(1);
            return Err(Failed);
        }
        Ok(())
    }

    /// What the call that has failed now leaves, if it is a write: each kind in its turn.
    pub(crate) fn tear(&self) -> Tear {
        match self.failed % 3 {
            1 => Tear::FirstHalf,
            2 => Tear::Whole,
            _ => Tear::OtherBytes,
        }
    }
}

fn is_listed(numbers: &[u64], number: u64) -> bool
    ensures { result ≡ list_any (λ n. n == number) numbers.now }
{
    numbers.iter().any(|n| *n == number)
}
