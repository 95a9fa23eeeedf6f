// A disk that is not there.
ghost use Rattle.std.specs.Prelude.{◌≡◌, ◌≤◌, ◌⊎◌, ℕ, List, length, take, drop, IsErr, IfSome, IfOk, OnOk, OnErr, None};
ghost use Rattle.std.specs.Option.{option_map};
ghost use Rattle.std.proofs.Common.{lit≤, refl};
ghost use Rattle.outside.specs.Causes.{counted, up_to_last, within_last, HasCause};
ghost use Rattle.outside.specs.Image.{Image, content, InArea};
ghost use Rattle.outside.specs.Disk.{IsWithinLimit, BeginsWithin, write_area, cut_area, Torn, Cut, Follows, SameImages, NoneNew, IsDurable, OthersRead, Elapses};

use outside::{Area, Disk, Failed};
use std::marker::Model;

/// No disk is there: it tells nothing, and each call fails and is counted. A clause sees the count.
#[derive(Drop)]
pub struct NoDisk {
    failed: u64,
}

impl Model for NoDisk {
    ghost Value = { ℕ };

    ghost view = { λ disk. disk.failed };
}

impl NoDisk {
    pub fn new() -> NoDisk
        ensures { result ≡ 0 }
    {
        NoDisk { failed: 0 }
    }

    fn refuse<T>(&mut self) -> Result<T, Failed>
        ensures refused { IsErr result }
        ensures counted { self.new ≡ counted self.old }
        ensures cause { HasCause (up_to_last self.old) (up_to_last self.new) result }
    {
        self.failed = self.failed.saturating_add(1);
        Err(Failed)
    }
}

impl Disk for NoDisk {
    ghost reads_as = { λ _. None };

    ghost images = { λ _ _. ⊥ };

    ghost moment = { λ _. 0 };

    ghost left_since = { λ _ _ _. ⊥ };

    ghost faults = { up_to_last };

    ghost Content = { Unit {0} };

    ghost content_of = { λ _. tt };

    ghost content_rests = { λ _ _ _. record {
      reads = refl;
      images = λ _. (λ left. left, λ left. left);
      moments = record { later = lit≤ tt; each = λ _ left. absurd left; before = λ _ _ _ left. absurd left };
    } };

    ghost reads_image = { λ _. tt };

    ghost images_told = { λ _ _ left. absurd left };

    ghost last_fault = { λ disk. within_last disk };

    ghost counts_now = { λ _ _ _ _ left. absurd left };

    ghost only_now = { λ _ _ left. absurd left };

    fn len(&mut self, area: Area) -> Result<u64, Failed>
        ensures refused { IsErr result }
        ensures counted { self.new ≡ counted self.old }
    {
        self.refuse()
    }

    fn read(&mut self, area: Area, at: u64, into: &mut [u8]) -> Result<usize, Failed>
        ensures refused { IsErr result }
        ensures counted { self.new ≡ counted self.old }
    {
        self.refuse()
    }

    fn write(&mut self, area: Area, at: u64, piece: &[u8]) -> Result<(), Failed>
        ensures refused { IsErr result }
        ensures counted { self.new ≡ counted self.old }
    {
        self.refuse()
    }

    fn cut(&mut self, area: Area, len: u64) -> Result<(), Failed>
        ensures refused { IsErr result }
        ensures counted { self.new ≡ counted self.old }
    {
        self.refuse()
    }

    fn sync(&mut self, area: Area) -> Result<(), Failed>
        ensures refused { IsErr result }
        ensures counted { self.new ≡ counted self.old }
    {
        self.refuse()
    }
}
