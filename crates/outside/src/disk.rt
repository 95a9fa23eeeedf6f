// A disk of three areas: what each reads as, and what a crash may leave of them.
ghost use Rattle.std.specs.Prelude.{◌≡◌, ◌-◌, ◌^◌, ◌≤◌, ◌⊎◌, List, Option, ℕ, length, take, drop, IsSome, IfSome, IfOk, OnOk, OnErr};
ghost use Rattle.std.specs.Option.{option_map};
ghost use Rattle.outside.specs.Causes.{HasCause};
ghost use Rattle.outside.specs.Image.{Image, content, InArea};
ghost use Rattle.outside.specs.Disk.{write_area, cut_area, IsWithinLimit, BeginsWithin, Torn, Cut, Follows, SameImages, NoneNew, IsDurable, OthersRead, Elapses, IsAsBefore};

use crate::Failed;
use std::error::Error;
use std::fmt;

/// The parts of a disk, each a run of bytes with a length of its own.
#[derive(Clone, Copy, Debug, PartialEq, Eq)]
pub enum Area {
    Log,
    SnapA,
    SnapB,
}

impl fmt::Display for Area {
    fn fmt<W: fmt::Write>(&self, f: &mut fmt::Formatter<W>) -> fmt::Result {
        match self {
            Area::Log => write!(f, "LOG"),
            Area::SnapA => write!(f, "SNAP_A"),
            Area::SnapB => write!(f, "SNAP_B"),
        }
    }
}

/// Where the bytes of a disk are not what they should be: the area, and the offset in it.
#[derive(Clone, Copy, Debug, PartialEq, Eq)]
pub struct Damage {
    pub area: Area,
    pub at: u64,
}

impl fmt::Display for Damage {
    fn fmt<W: fmt::Write>(&self, f: &mut fmt::Formatter<W>) -> fmt::Result {
        let (area, at) = (self.area, self.at);
        write!(f, "{area} is damaged at {at}")
    }
}

/// Why something could not be read from a disk.
#[derive(Clone, Copy, Debug, PartialEq, Eq)]
pub enum ReadStop {
    DiskFault,
    NoMemory,
    Damaged(Damage),
}

impl fmt::Display for ReadStop {
    fn fmt<W: fmt::Write>(&self, f: &mut fmt::Formatter<W>) -> fmt::Result {
        match self {
            ReadStop::DiskFault => write!(f, "the disk could not be read"),
            ReadStop::NoMemory => write!(f, "out of memory"),
            ReadStop::Damaged(damage) => write!(f, "{damage}"),
        }
    }
}

impl Error for ReadStop {}

/// Why something could not be written to a disk.
#[derive(Clone, Copy, Debug, PartialEq, Eq)]
pub enum WriteStop {
    DiskFault,
    NoMemory,
}

impl fmt::Display for WriteStop {
    fn fmt<W: fmt::Write>(&self, f: &mut fmt::Formatter<W>) -> fmt::Result {
        match self {
            WriteStop::DiskFault => write!(f, "the disk could not be read or written"),
            WriteStop::NoMemory => write!(f, "out of memory"),
        }
    }
}

impl Error for WriteStop {}

/// Three areas of bytes, which a crash may leave otherwise than they read: what was not synced since it was
/// written may hold any bytes, and what was cut may still be there.
pub trait Disk {
    /// What the areas read as, where it tells them.
    ghost reads_as: { Self → Option Image };

    /// The images that a crash now may leave.
    ghost images: { Self → Image → Type 0 };

    /// The moment, as a number that does not fall.
    ghost moment: { Self → ℕ };

    /// The images that a crash at some moment since that one might have left, during a call or between two.
    ghost left_since: { Self → ℕ → Image → Type 0 };

    /// How often it has failed.
    ghost faults: { Self → ℕ };

    /// What a call that only reads leaves as it is, whatever it answers: what the disk reads as, and all that a crash may
    /// leave (`content_rests`). Who borrows a disk tells by it, in one fact, that it only read.
    ghost Content: { Type 0 };

    ghost content_of: { Self → Content };

    /// The length of an area, in bytes.
    fn len(&mut self, area: Area) -> Result<u64, Failed>
        ensures length { IfOk result (λ n. IfSome (reads_as self.old) (λ image. n ≡ length (content area image))) }
        ensures content { content_of self.new ≡ content_of self.old }
        ensures same { reads_as self.new ≡ reads_as self.old }
        ensures images { SameImages (images self.old) (images self.new) }
        ensures time { Elapses (moment self.old) (moment self.new) (left_since self.old) (left_since self.new) (images self.new) }
        ensures cause { HasCause (faults self.old) (faults self.new) result };

    /// Reads the bytes from `at` on into the start of `into`, and answers how many: as many as there are and fit.
    fn read(&mut self, area: Area, at: u64, into: &mut [u8]) -> Result<usize, Failed>
        ensures fits { IfOk result (λ n. n ≤ length into.new) }
        ensures bytes { IfOk result (λ n. IfSome (reads_as self.old)
            (λ image. take n into.new ≡ take (length into.new) (drop at (content area image)))) }
        ensures content { content_of self.new ≡ content_of self.old }
        ensures same { reads_as self.new ≡ reads_as self.old }
        ensures images { SameImages (images self.old) (images self.new) }
        ensures time { Elapses (moment self.old) (moment self.new) (left_since self.old) (left_since self.new) (images self.new) }
        ensures cause { HasCause (faults self.old) (faults self.new) result };

    /// Writes over what is there, and past the end. Until a sync a crash may leave any bytes in the range.
    /// After `Failed` the area reads as in one of the images that the call may leave.
    fn write(&mut self, area: Area, at: u64, piece: &[u8]) -> Result<(), Failed>
        requires limit { IsWithinLimit at (length piece.now) }
        requires within { IfSome (reads_as self.old) (BeginsWithin area at) }
        ensures written { OnOk result (reads_as self.new ≡ option_map (write_area area at piece.now) (reads_as self.old)) }
        ensures others { OnErr result (OthersRead area (reads_as self.old) (reads_as self.new)) }
        ensures images { Follows (InArea area (Torn at (length piece.now))) (images self.old) (images self.new) }
        ensures time { Elapses (moment self.old) (moment self.new) (left_since self.old) (left_since self.new) (images self.new) }
        ensures cause { HasCause (faults self.old) (faults self.new) result };

    /// Cuts an area to a length. Until a sync a crash may leave a part of the end that was cut.
    /// After `Failed` the area reads as in one of the images that the call may leave.
    fn cut(&mut self, area: Area, len: u64) -> Result<(), Failed>
        requires { IfSome (reads_as self.old) (λ image. len ≤ length (content area image)) }
        ensures cut { OnOk result (reads_as self.new ≡ option_map (cut_area area len) (reads_as self.old)) }
        ensures others { OnErr result (OthersRead area (reads_as self.old) (reads_as self.new)) }
        ensures images { Follows (InArea area (Cut len)) (images self.old) (images self.new) }
        ensures time { Elapses (moment self.old) (moment self.new) (left_since self.old) (left_since self.new) (images self.new) }
        ensures cause { HasCause (faults self.old) (faults self.new) result };

    /// After it a crash leaves the area as it reads. After `Failed` nothing has changed.
    fn sync(&mut self, area: Area) -> Result<(), Failed>
        ensures durable { OnOk result (IfSome (reads_as self.old) (IsDurable area (images self.new))) }
        ensures same { reads_as self.new ≡ reads_as self.old }
        ensures images { NoneNew (images self.old) (images self.new) }
        ensures kept { OnErr result (SameImages (images self.old) (images self.new)) }
        ensures time { Elapses (moment self.old) (moment self.new) (left_since self.old) (left_since self.new) (images self.new) }
        ensures cause { HasCause (faults self.old) (faults self.new) result };

    /// Where the content is the same, so is what the disk reads as and what a crash may leave, at each moment since.
    ghost content_rests: { (old new : Self) → content_of new ≡ content_of old → IsAsBefore reads_as images moment left_since old new };

    /// What it reads as is one of its images.
    ghost reads_image: { (disk : Self) → IfSome (reads_as disk) (images disk) };

    /// A disk that does not tell its content has no image, so what is said of each image says nothing of it.
    ghost images_told: { (disk : Self) (image : Image) → images disk image → IsSome (reads_as disk) };

    /// The last value of the count.
    ghost last_fault: { (disk : Self) → faults disk ≤ 2 ^ 64 - 1 };

    /// This moment is one of those since an earlier one.
    ghost counts_now: { (disk : Self) (t : ℕ) (image : Image) → t ≤ moment disk → images disk image → left_since disk t image };

    /// Since this moment there is no other.
    ghost only_now: { (disk : Self) (image : Image) → left_since disk (moment disk) image → images disk image };
}
