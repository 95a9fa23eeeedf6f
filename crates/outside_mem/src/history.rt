// Areas in memory, and the record of the calls that changed them.
ghost use Rattle.std.specs.Prelude.{◌≡◌, ◌+◌, ◌^◌, ◌<◌, ◌≤◌, [], ◌∷◌, length, OnOk, OnErr};
ghost use Rattle.outside.specs.Image.{content};
ghost use Rattle.outside_mem.specs.MemoryDisk.{Wrote, Shortened, Synced, WritesInPart, IsPick, BeginsAnew, reads};

use crate::areas::Areas;
use crate::choices::Choices;
use crate::failure_plan::Tear;
use outside::{Area, NoMemory};
use std::alloc::Global;
use std::marker::Model;
use std::snapshot::Snapshot;

/// A call that changed the areas. What it wrote lies in them, and here for clauses alone.
#[derive(Drop)]
pub(crate) enum Recorded {
    /// Where it wrote, what, and how many bytes it was to write.
    Write(Area, u64, Snapshot<Vec<u8>>, usize),
    /// The length that it cut to, and how many bytes after it that it left.
    Cut(Area, u64, u64),
    Sync(Area),
    /// What a crash left.
    Crash(Snapshot<Areas>),
}

/// Three areas, and all that changed them since they were empty or since the last crash. A clause sees the steps, the newest first.
#[derive(Drop)]
pub(crate) struct History {
    alloc: Global,
    areas: Areas,
    recorded: Vec<Recorded>,
}

impl Model for History {
    ghost use Rattle.std.specs.Prelude.{◌≡◌, List};
    ghost use Rattle.outside_mem.specs.MemoryDisk.{Step, steps_of};
    ghost use Rattle.outside_mem.specs.Remains.{Holds};

    ghost Value = { List Step };

    ghost view = { λ history. steps_of history.recorded.items };

    ghost invariant = { λ history. Holds (steps_of history.recorded.items) history.areas };
}

impl History {
    pub(crate) fn new(alloc: Global) -> History
        ensures { result ≡ [] }
    {
        History {
            alloc,
            areas: Areas::new(alloc),
            recorded: Vec::new(alloc),
        }
    }

    pub(crate) fn bytes(&self, area: Area) -> &[u8]
        ensures { result.now ≡ content area (reads self.now) }
    {
        self.areas.bytes(area)
    }

    /// Writes a piece, of which `lost` more bytes were to come. Without memory it changes nothing.
    pub(crate) fn write(
        &mut self,
        area: Area,
        at: u64,
        piece: &[u8],
        lost: usize,
    ) -> Result<(), NoMemory>
        requires within { at ≤ length (content area (reads self.old)) }
        requires limit { length piece.now + lost < 2 ^ 64 }
        ensures recorded { OnOk result (self.new ≡ Wrote area at piece.now lost ∷ self.old) }
        ensures kept { OnErr result (self.new ≡ self.old) }
    {
        self.recorded.reserve(1)?;
        let written = Snapshot::of(&piece.to_vec(self.alloc)?);
        self.areas.write(area, at as usize, piece)?;
        let size = piece.len() + lost;
        self.recorded
            .push_reserved(Recorded::Write(area, at, written, size));
        Ok(())
    }

    /// Does a write that fails, as far as it comes. Without memory it changes nothing.
    pub(crate) fn write_in_part(
        &mut self,
        tear: Tear,
        area: Area,
        at: u64,
        piece: &[u8],
    ) -> Result<(), NoMemory>
        requires { at ≤ length (content area (reads self.old)) }
        ensures in_part { OnOk result (WritesInPart area at (length piece.now) self.old self.new) }
        ensures kept { OnErr result (self.new ≡ self.old) }
    {
        let half = piece.len() / 2;
        match tear {
            Tear::FirstHalf => self.write(area, at, &piece[..half], piece.len() - half),
            Tear::Whole => self.write(area, at, piece, 0),
            Tear::OtherBytes => {
                let mut torn = piece.to_vec(self.alloc)?;
                torn[..piece.len() - half].fill(b'?');
                self.write(area, at, &torn, 0)
            }
        }
    }

    /// Cuts to `len` and `left` more bytes. Without memory it changes nothing.
    pub(crate) fn cut(&mut self, area: Area, len: u64, left: u64) -> Result<(), NoMemory>
        requires { len + left < 2 ^ 64 }
        ensures recorded { OnOk result (self.new ≡ Shortened area len left ∷ self.old) }
        ensures kept { OnErr result (self.new ≡ self.old) }
    {
        self.recorded.reserve(1)?;
        self.areas.cut(area, len as usize, left as usize);
        self.recorded.push_reserved(Recorded::Cut(area, len, left));
        Ok(())
    }

    /// Without memory it changes nothing.
    pub(crate) fn sync(&mut self, area: Area) -> Result<(), NoMemory>
        ensures recorded { OnOk result (self.new ≡ Synced area ∷ self.old) }
        ensures kept { OnErr result (self.new ≡ self.old) }
    {
        self.recorded.reserve(1)?;
        self.areas.sync(area);
        self.recorded.push_reserved(Recorded::Sync(area));
        Ok(())
    }

    /// Leaves one of the images that a crash now may leave. It needs no memory: the record becomes shorter.
    pub(crate) fn crash(&mut self, pick: u64)
        ensures anew { BeginsAnew self.old self.new }
        ensures picked { IsPick self.old pick (reads self.new) }
    {
        if self.recorded.is_empty() {
            return;
        }
        let mut choices = Choices::new(pick);
        self.areas.crash(&self.recorded, pick, &mut choices);
        self.recorded.clear();
        self.recorded
            .push_reserved(Recorded::Crash(Snapshot::of(&self.areas)));
    }
}
