// Three areas of bytes in memory, with what a crash may leave of them.
ghost use Rattle.std.specs.Prelude.{◌≡◌, ◌≤◌, ◌+◌, ◌<◌, ◌%◌, ◌^◌, List, ℕ, length, take, OnOk, OnErr};
ghost use Rattle.outside.specs.declared.disk.Area.{Area};
ghost use Rattle.outside.specs.Disk.{written};
ghost use Rattle.outside_mem.specs.Stored.{Stored, Parts, part, with_part, shown, nothing, after_write, after_cut, after_sync, IsSettled};
ghost use Rattle.outside_mem.specs.MemoryDisk.{steps_of};
ghost use Rattle.outside_mem.specs.Remains.{HoldsIn, Holds, LeavesIn};

use crate::choices::Choices;
use crate::history::Recorded;
use crate::tears::tear;
use outside::{Area, NoMemory};
use std::alloc::Global;
use std::marker::Model;

/// The bytes of the three areas.
#[derive(Drop)]
pub(crate) struct Areas {
    log: Part,
    snap_a: Part,
    snap_b: Part,
}

/// The bytes of one area. After the `len` that it reads as lies what was cut since the last sync. A crash leaves `least`
/// of them at least.
#[derive(Drop)]
pub(crate) struct Part {
    bytes: Vec<u8>,
    len: usize,
    least: usize,
}

impl Model for Areas {
    ghost use Rattle.outside_mem.specs.Stored.{Parts};

    ghost Value = { Parts };

    ghost view = { λ areas. record { log = areas.log; snap_a = areas.snap_a; snap_b = areas.snap_b } };
}

impl Model for Part {
    ghost use Rattle.outside_mem.specs.Stored.{Stored};

    ghost Value = { Stored };

    ghost view = { λ part. record { bytes = part.bytes.items; len = part.len; least = part.least } };
}

impl Areas {
    pub(crate) fn new(alloc: Global) -> Areas
        ensures { result ≡ record { log = nothing; snap_a = nothing; snap_b = nothing } }
    {
        Areas {
            log: Part::new(alloc),
            snap_a: Part::new(alloc),
            snap_b: Part::new(alloc),
        }
    }

    pub(crate) fn bytes(&self, area: Area) -> &[u8]
        requires { (part area self.now).len ≤ length (part area self.now).bytes }
        ensures { result.now ≡ shown (part area self.now) }
    {
        match area {
            Area::Log => self.log.shown(),
            Area::SnapA => self.snap_a.shown(),
            Area::SnapB => self.snap_b.shown(),
        }
    }

    /// Writes over what is there, and past the end. Without memory it changes nothing.
    pub(crate) fn write(&mut self, area: Area, at: usize, piece: &[u8]) -> Result<(), NoMemory>
        requires { at ≤ length (part area self.old).bytes }
        ensures written { OnOk result (self.new ≡ with_part area (after_write at piece.now (part area self.old)) self.old) }
        ensures kept { OnErr result (self.new ≡ self.old) }
    {
        match area {
            Area::Log => self.log.write(at, piece),
            Area::SnapA => self.snap_a.write(at, piece),
            Area::SnapB => self.snap_b.write(at, piece),
        }
    }

    /// Cuts to `len` and `left` more bytes.
    pub(crate) fn cut(&mut self, area: Area, len: usize, left: usize)
        requires { len + left < 2 ^ 64 }
        ensures { self.new ≡ with_part area (after_cut len left (part area self.old)) self.old }
    {
        match area {
            Area::Log => self.log.cut(len, left),
            Area::SnapA => self.snap_a.cut(len, left),
            Area::SnapB => self.snap_b.cut(len, left),
        }
    }

    pub(crate) fn sync(&mut self, area: Area)
        ensures { self.new ≡ with_part area (after_sync (part area self.old)) self.old }
    {
        match area {
            Area::Log => self.log.sync(),
            Area::SnapA => self.snap_a.sync(),
            Area::SnapB => self.snap_b.sync(),
        }
    }

    /// Leaves of each area what a crash may leave after these calls.
    pub(crate) fn crash(&mut self, recorded: &[Recorded], pick: u64, choices: &mut Choices)
        requires { Holds (steps_of recorded.now) self.old }
        ensures leaves { (area : Area) → LeavesIn area (steps_of recorded.now) (part area self.new).bytes }
        ensures settled { (area : Area) → IsSettled (part area self.new) }
        ensures as_read { (area : Area) → pick % 4 ≡ 0 → (part area self.new).bytes ≡ shown (part area self.old) }
        ensures least { (area : Area) → pick % 4 ≡ 1 → length (part area self.new).bytes ≡ (part area self.old).least }
    {
        self.log.crash(Area::Log, recorded, pick, choices);
        self.snap_a.crash(Area::SnapA, recorded, pick, choices);
        self.snap_b.crash(Area::SnapB, recorded, pick, choices);
    }
}

impl Part {
    fn new(alloc: Global) -> Part
        ensures { result ≡ nothing }
    {
        Part {
            bytes: Vec::new(alloc),
            len: 0,
            least: 0,
        }
    }

    fn shown(&self) -> &[u8]
        requires { self.now.len ≤ length self.now.bytes }
        ensures { result.now ≡ shown self.now }
    {
        &self.bytes[..self.len]
    }

    fn write(&mut self, at: usize, piece: &[u8]) -> Result<(), NoMemory>
        requires { at ≤ length self.old.bytes }
        ensures written { OnOk result (self.new ≡ after_write at piece.now self.old) }
        ensures kept { OnErr result (self.new ≡ self.old) }
    {
        write_over(&mut self.bytes, at, piece)?;
        self.len = self.len.max(at + piece.len());
        Ok(())
    }

    fn cut(&mut self, len: usize, left: usize)
        requires { len + left < 2 ^ 64 }
        ensures { self.new ≡ after_cut len left self.old }
    {
        self.len = self.len.min(len + left);
        self.least = self.least.min(len);
    }

    fn sync(&mut self)
        ensures { self.new ≡ after_sync self.old }
    {
        self.bytes.truncate(self.len);
        self.least = self.len;
    }

    /// As it reads for a pick of 0, the least that a crash may leave for 1, both modulo 4.
    fn crash(&mut self, area: Area, recorded: &[Recorded], pick: u64, choices: &mut Choices)
        requires { HoldsIn area (steps_of recorded.now) self.old }
        ensures leaves { LeavesIn area (steps_of recorded.now) self.new.bytes }
        ensures settled { IsSettled self.new }
        ensures as_read { pick % 4 ≡ 0 → self.new.bytes ≡ shown self.old }
        ensures least { pick % 4 ≡ 1 → length self.new.bytes ≡ self.old.least }
    {
        let (len, least) = (self.len, self.least);
        match pick % 4 {
            0 => self.keep(len),
            1 => self.keep(least),
            _ => self.tear(area, recorded, choices),
        }
    }

    /// Leaves the first bytes, so many.
    fn keep(&mut self, kept: usize)
        requires { kept ≤ length self.old.bytes }
        ensures bytes { self.new.bytes ≡ take kept self.old.bytes }
        ensures settled { IsSettled self.new }
    {
        self.bytes.truncate(kept);
        self.len = self.bytes.len();
        self.least = self.len;
    }

    /// As it reads; or of a length that a crash may leave, with other bytes in the writes that no sync has followed.
    fn tear(&mut self, area: Area, recorded: &[Recorded], choices: &mut Choices)
        requires { HoldsIn area (steps_of recorded.now) self.old }
        ensures leaves { LeavesIn area (steps_of recorded.now) self.new.bytes }
        ensures settled { IsSettled self.new }
    {
        let as_read = choices.below(4) == 0;
        let kept = if as_read {
            self.len
        } else {
            self.some_length(choices)
        };
        self.bytes.truncate(kept);
        if !as_read {
            tear(&mut self.bytes, area, recorded, choices);
        }
        self.len = self.bytes.len();
        self.least = self.len;
    }

    /// A length that a crash may leave: the least, all with the end that was cut, or one between.
    fn some_length(&self, choices: &mut Choices) -> usize
        requires { self.now.least ≤ length self.now.bytes }
        ensures { self.now.least ≤ result }
    {
        match choices.below(4) {
            0 => self.least,
            1 => self.bytes.len(),
            _ => self.least + choices.below(self.bytes.len() - self.least + 1),
        }
    }
}

fn write_over(bytes: &mut Vec<u8>, at: usize, piece: &[u8]) -> Result<(), NoMemory>
    requires { at ≤ length bytes.old.items }
    ensures written { OnOk result (bytes.new.items ≡ written at piece.now bytes.old.items) }
    ensures kept { OnErr result (bytes.new.items ≡ bytes.old.items) }
{
    let within = piece.len().min(bytes.len() - at);
    bytes.extend_from_slice(&piece[within..])?;
    bytes[at..at + within].copy_from_slice(&piece[..within]);
    Ok(())
}
