// A disk in memory, which fails at the calls that it is set to, and knows what a crash may leave.
ghost use Rattle.std.specs.Prelude.{◌≡◌, ◌↔◌, ◌≤◌, ◌||◌, ◌+◌, [], ◌∷◌, ℕ, List, Some, None, length, take, drop, min, is_ok, IsTrue, IsErr, IfSome, IfOk, OnOk, OnErr, if◌then◌else◌, refl};
ghost use Rattle.std.specs.Option.{option_map};
ghost use Rattle.std.proofs.Common.{inl};
ghost use Rattle.outside.specs.Causes.{counted, within_last, HasCause};
ghost use Rattle.outside.specs.Image.{content, InArea};
ghost use Rattle.outside.specs.Disk.{write_area, cut_area, IsWithinLimit, BeginsWithin, Torn, Cut, Follows, SameImages, NoneNew, IsDurable, OthersRead, Elapses, HasOneImage};
ghost use Rattle.outside_mem.specs.Memory.{fresh_plan, fails_next, after_call};
ghost use Rattle.outside_mem.specs.MemoryDisk.{Wrote, Shortened, Synced, reads, MayLeave, LeftSince, LeavesExactly, LeavesSynced, FailsInPart, IsPick, BeginsAnew, disk_faults, counts_now, only_now, Step, rests};

use crate::failure_plan::FailurePlan;
use crate::history::History;
use crashing::Crashing;
use outside::{Area, Disk, Failed};
use std::alloc::Global;
use std::marker::Model;

/// Three areas in memory, empty at first. It fails at the calls that it is set to, and all that it holds is known.
/// It keeps a record of its calls of `write`, `cut` and `sync` since its last crash, so its images at each moment follow.
#[derive(Drop)]
pub struct MemDisk {
    history: History,
    plan: FailurePlan,
    starved: u64,
}

impl Model for MemDisk {
    ghost use Rattle.outside_mem.specs.MemoryDisk.{Recording};

    ghost Value = { Recording };

    ghost view = { λ disk. record { steps = disk.history; plan = disk.plan; starved = disk.starved } };
}

impl MemDisk {
    /// `failing` has the numbers, from 0, of the calls that fail.
    pub fn new(alloc: Global, failing: Vec<u64>) -> MemDisk
        ensures steps { result.steps ≡ [] }
        ensures plan { result.plan ≡ fresh_plan failing.items }
        ensures starved { result.starved ≡ 0 }
    {
        MemDisk {
            history: History::new(alloc),
            plan: FailurePlan::new(failing),
            starved: 0,
        }
    }

    /// How many of its calls ran out of memory, up to `u64::MAX`. They count among its faults.
    pub fn starved(&self) -> u64
        ensures { result ≡ self.now.starved }
    {
        self.starved
    }
}

impl Disk for MemDisk {
    ghost reads_as = { λ disk. Some (reads disk.steps) };

    ghost images = { λ disk. MayLeave disk.steps };

    ghost moment = { λ disk. length disk.steps };

    ghost left_since = { λ disk. LeftSince disk.steps };

    ghost faults = { disk_faults };

    ghost Content = { List Step };

    ghost content_of = { λ disk. disk.steps };

    ghost content_rests = { rests };

    ghost reads_image = { λ _. inl refl };

    ghost images_told = { λ _ _ _. refl };

    ghost last_fault = { λ disk. within_last (disk.plan.failed + disk.starved) };

    ghost counts_now = { λ disk since image le left. counts_now disk.steps since image le left };

    ghost only_now = { λ disk image left. only_now disk.steps image left };

    fn len(&mut self, area: Area) -> Result<u64, Failed>
        ensures listed { IsErr result ↔ IsTrue (fails_next self.old.plan) }
        ensures counted { self.new.plan ≡ after_call self.old.plan }
        ensures steps { self.new.steps ≡ self.old.steps }
        ensures starved { self.new.starved ≡ self.old.starved }
        ensures length { IfOk result (λ n. n ≡ length (content area (reads self.old.steps))) }
        ensures cause { HasCause (disk_faults self.old) (disk_faults self.new) result }
        ensures time { Elapses (length self.old.steps) (length self.new.steps) (LeftSince self.old.steps) (LeftSince self.new.steps) (MayLeave self.new.steps) }
    {
        self.plan.call()?;
        Ok(self.history.bytes(area).len() as u64)
    }

    fn read(&mut self, area: Area, at: u64, into: &mut [u8]) -> Result<usize, Failed>
        ensures listed { IsErr result ↔ IsTrue (fails_next self.old.plan) }
        ensures counted { self.new.plan ≡ after_call self.old.plan }
        ensures steps { self.new.steps ≡ self.old.steps }
        ensures starved { self.new.starved ≡ self.old.starved }
        ensures fits { IfOk result (λ n. n ≤ length into.new) }
        ensures bytes { IfOk result (λ n. take n into.new ≡ take (length into.new) (drop at (content area (reads self.old.steps)))) }
        ensures cause { HasCause (disk_faults self.old) (disk_faults self.new) result }
        ensures time { Elapses (length self.old.steps) (length self.new.steps) (LeftSince self.old.steps) (LeftSince self.new.steps) (MayLeave self.new.steps) }
    {
        self.plan.call()?;
        let bytes = self.history.bytes(area);
        let from = bytes.len().min(at as usize);
        let rest = &bytes[from..];
        let n = rest.len().min(into.len());
        into[..n].copy_from_slice(&rest[..n]);
        Ok(n)
    }

    fn write(&mut self, area: Area, at: u64, piece: &[u8]) -> Result<(), Failed>
        requires limit { IsWithinLimit at (length piece.now) }
        requires within { IfSome (Some (reads self.old.steps)) (BeginsWithin area at) }

        // It fails exactly at the calls that are listed, or out of memory.
        ensures listed { IsTrue (fails_next self.old.plan) → IsErr result }
        ensures counted { self.new.plan ≡ after_call self.old.plan }
        ensures starved { self.new.starved
            ≡ (if is_ok result || fails_next self.old.plan then self.old.starved else counted self.old.starved) }
        ensures recorded { OnOk result (self.new.steps ≡ Wrote area at piece.now 0 ∷ self.old.steps) }

        // What a crash may leave, from above and from below.
        ensures exact { OnOk result (LeavesExactly (InArea area (Torn at (length piece.now))) self.old.steps self.new.steps) }
        ensures in_part { OnErr result (FailsInPart (InArea area (Torn at (length piece.now))) self.old.steps self.new.steps) }

        ensures written { OnOk result (Some (reads self.new.steps) ≡ option_map (write_area area at piece.now) (Some (reads self.old.steps))) }
        ensures others { OnErr result (OthersRead area (Some (reads self.old.steps)) (Some (reads self.new.steps))) }
        ensures images { Follows (InArea area (Torn at (length piece.now))) (MayLeave self.old.steps) (MayLeave self.new.steps) }
        ensures time { Elapses (length self.old.steps) (length self.new.steps) (LeftSince self.old.steps) (LeftSince self.new.steps) (MayLeave self.new.steps) }
        ensures cause { HasCause (disk_faults self.old) (disk_faults self.new) result }
    {
        if self.plan.call().is_err() {
            let tear = self.plan.tear();
            let _ = self.history.write_in_part(tear, area, at, piece);
            return Err(Failed);
        }
        if self.history.write(area, at, piece, 0).is_err() {
            self.starved = self.starved.saturating_add(1);
            return Err(Failed);
        }
        Ok(())
    }

    fn cut(&mut self, area: Area, len: u64) -> Result<(), Failed>
        requires { IfSome (Some (reads self.old.steps)) (λ image. len ≤ length (content area image)) }
        ensures listed { IsTrue (fails_next self.old.plan) → IsErr result }
        ensures counted { self.new.plan ≡ after_call self.old.plan }
        ensures starved { self.new.starved
            ≡ (if is_ok result || fails_next self.old.plan then self.old.starved else counted self.old.starved) }
        ensures recorded { OnOk result (self.new.steps ≡ Shortened area len 0 ∷ self.old.steps) }
        ensures exact { OnOk result (LeavesExactly (InArea area (Cut len)) self.old.steps self.new.steps) }
        ensures in_part { OnErr result (FailsInPart (InArea area (Cut len)) self.old.steps self.new.steps) }
        ensures cut { OnOk result (Some (reads self.new.steps) ≡ option_map (cut_area area len) (Some (reads self.old.steps))) }
        ensures others { OnErr result (OthersRead area (Some (reads self.old.steps)) (Some (reads self.new.steps))) }
        ensures images { Follows (InArea area (Cut len)) (MayLeave self.old.steps) (MayLeave self.new.steps) }
        ensures time { Elapses (length self.old.steps) (length self.new.steps) (LeftSince self.old.steps) (LeftSince self.new.steps) (MayLeave self.new.steps) }
        ensures cause { HasCause (disk_faults self.old) (disk_faults self.new) result }
    {
        if self.plan.call().is_err() {
            let end = self.history.bytes(area).len() as u64 - len;
            let _ = self.history.cut(area, len, end / 2);
            return Err(Failed);
        }
        if self.history.cut(area, len, 0).is_err() {
            self.starved = self.starved.saturating_add(1);
            return Err(Failed);
        }
        Ok(())
    }

    fn sync(&mut self, area: Area) -> Result<(), Failed>
        ensures listed { IsTrue (fails_next self.old.plan) → IsErr result }
        ensures counted { self.new.plan ≡ after_call self.old.plan }
        ensures starved { self.new.starved
            ≡ (if is_ok result || fails_next self.old.plan then self.old.starved else counted self.old.starved) }
        ensures recorded { OnOk result (self.new.steps ≡ Synced area ∷ self.old.steps) }
        ensures exact { OnOk result (LeavesSynced area self.old.steps self.new.steps) }
        ensures same_steps { OnErr result (self.new.steps ≡ self.old.steps) }
        ensures durable { OnOk result (IfSome (Some (reads self.old.steps)) (IsDurable area (MayLeave self.new.steps))) }
        ensures same { Some (reads self.new.steps) ≡ Some (reads self.old.steps) }
        ensures images { NoneNew (MayLeave self.old.steps) (MayLeave self.new.steps) }
        ensures kept { OnErr result (SameImages (MayLeave self.old.steps) (MayLeave self.new.steps)) }
        ensures time { Elapses (length self.old.steps) (length self.new.steps) (LeftSince self.old.steps) (LeftSince self.new.steps) (MayLeave self.new.steps) }
        ensures cause { HasCause (disk_faults self.old) (disk_faults self.new) result }
    {
        self.plan.call()?;
        if self.history.sync(area).is_err() {
            self.starved = self.starved.saturating_add(1);
            return Err(Failed);
        }
        Ok(())
    }
}

impl Crashing for MemDisk {
    ghost picks = { λ disk. IsPick disk.steps };

    ghost picks_images = { λ _ _ _ is. is.among };

    fn crash(&mut self, pick: u64)
        ensures anew { BeginsAnew self.old.steps self.new.steps }
        ensures plan { self.new.plan ≡ self.old.plan }
        ensures starved { self.new.starved ≡ self.old.starved }
        ensures picked { IfSome (Some (reads self.new.steps)) (IsPick self.old.steps pick) }
        ensures one_image { HasOneImage (Some (reads self.new.steps)) (MayLeave self.new.steps) }
    {
        self.history.crash(pick);
    }
}
