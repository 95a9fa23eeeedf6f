// A disk that fails from a call on.
ghost use Rattle.std.specs.Prelude.{◌≡◌, ◌+◌, ◌-◌, ◌^◌, ◌≤◌, ◌⊎◌, ℕ, List, Option, Some, None, length, take, drop, IsErr, IfSome, IfOk, OnOk, OnErr};
ghost use Rattle.std.specs.Option.{option_map};
ghost use Rattle.std.specs.Bool.{Decides};
ghost use Rattle.outside.specs.Causes.{counted, within_last, HasCause};
ghost use Rattle.outside.specs.Image.{Image, content, InArea};
ghost use Rattle.outside.specs.Disk.{write_area, cut_area, IsWithinLimit, BeginsWithin, Torn, Cut, Follows, SameImages, NoneNew, IsDurable, OthersRead, Elapses, HasOneImage, IsKnownAsBefore};
ghost use Rattle.crashing.specs.Arming.{IsSpent, one_less, IsAnswered, armed_faults, as_below};

use crate::Crashing;
use outside::{Area, Disk, Failed};

/// A disk whose calls can be made to fail from one on, over any disk. It tells what the disk below tells.
#[derive(Drop)]
pub struct Armed<D> {
    pub disk: D,
    /// How many calls of `write`, `cut` and `sync` it lets through before every call fails. None: it lets all through.
    pub pass: Option<u64>,
    /// How many calls it refused, up to `u64::MAX`. They count among its faults.
    pub refused: u64,
}

impl<D: Disk> Armed<D> {
    /// It lets all through.
    pub fn new(disk: D) -> Armed<D>
        ensures disk { result.disk ≡ disk }
        ensures pass { result.pass ≡ None }
        ensures refused { result.refused ≡ 0 }
    {
        Armed {
            disk,
            pass: None,
            refused: 0,
        }
    }

    /// With `Some(pass)` the next `pass` calls of `write`, `cut` and `sync` are made as ever, and after them every call fails.
    /// With `None` none fails for that any more.
    pub fn arm(&mut self, pass: Option<u64>)
        ensures disk { self.new.disk ≡ self.old.disk }
        ensures pass { self.new.pass ≡ pass }
        ensures refused { self.new.refused ≡ self.old.refused }
    {
        self.pass = pass;
    }

    fn is_spent(&self) -> bool
        ensures { Decides result (IsSpent self.now.pass) }
    {
        self.pass == Some(0)
    }

    fn refuse<T>(&mut self) -> Result<T, Failed>
        ensures refused { IsErr result }
        ensures counted { self.new.refused ≡ counted self.old.refused }
        ensures disk { self.new.disk ≡ self.old.disk }
        ensures pass { self.new.pass ≡ self.old.pass }
    {
        self.refused = self.refused.saturating_add(1);
        Err(Failed)
    }

    /// Counts a call that changes the disk below.
    fn let_one_through(&mut self)
        ensures pass { self.new.pass ≡ one_less self.old.pass }
        ensures disk { self.new.disk ≡ self.old.disk }
        ensures refused { self.new.refused ≡ self.old.refused }
    {
        match self.pass {
            Some(pass) => self.pass = Some(pass.saturating_sub(1)),
            None => {}
        }
    }
}

impl<D: Disk> Disk for Armed<D> {
    ghost reads_as = { λ armed. D.reads_as armed.disk };

    ghost images = { λ armed. D.images armed.disk };

    ghost moment = { λ armed. D.moment armed.disk };

    ghost left_since = { λ armed. D.left_since armed.disk };

    ghost faults = { armed_faults D.faults };

    ghost Content = { D.Content };

    ghost content_of = { λ armed. D.content_of armed.disk };

    ghost content_rests = { λ old new same. as_below D.reads_as D.images D.moment D.left_since old new (D.content_rests old.disk new.disk same) };

    ghost reads_image = { λ armed. D.reads_image armed.disk };

    ghost images_told = { λ armed. D.images_told armed.disk };

    ghost last_fault = { λ armed. within_last (D.faults armed.disk + armed.refused) };

    ghost counts_now = { λ armed. D.counts_now armed.disk };

    ghost only_now = { λ armed. D.only_now armed.disk };

    fn len(&mut self, area: Area) -> Result<u64, Failed>
        ensures answered { IsAnswered D.faults self.old self.new result }
        ensures uncounted { self.new.pass ≡ self.old.pass }
        ensures length { IfOk result (λ n. IfSome (D.reads_as self.old.disk) (λ image. n ≡ length (content area image))) }
        ensures content { D.content_of self.new.disk ≡ D.content_of self.old.disk }
        ensures same { D.reads_as self.new.disk ≡ D.reads_as self.old.disk }
        ensures images { SameImages (D.images self.old.disk) (D.images self.new.disk) }
        ensures time { Elapses (D.moment self.old.disk) (D.moment self.new.disk) (D.left_since self.old.disk) (D.left_since self.new.disk) (D.images self.new.disk) }
        ensures cause { HasCause (armed_faults D.faults self.old) (armed_faults D.faults self.new) result }
    {
        if self.is_spent() {
            return self.refuse();
        }
        self.disk.len(area)
    }

    fn read(&mut self, area: Area, at: u64, into: &mut [u8]) -> Result<usize, Failed>
        ensures answered { IsAnswered D.faults self.old self.new result }
        ensures uncounted { self.new.pass ≡ self.old.pass }
        ensures fits { IfOk result (λ n. n ≤ length into.new) }
        ensures bytes { IfOk result (λ n. IfSome (D.reads_as self.old.disk)
            (λ image. take n into.new ≡ take (length into.new) (drop at (content area image)))) }
        ensures content { D.content_of self.new.disk ≡ D.content_of self.old.disk }
        ensures same { D.reads_as self.new.disk ≡ D.reads_as self.old.disk }
        ensures images { SameImages (D.images self.old.disk) (D.images self.new.disk) }
        ensures time { Elapses (D.moment self.old.disk) (D.moment self.new.disk) (D.left_since self.old.disk) (D.left_since self.new.disk) (D.images self.new.disk) }
        ensures cause { HasCause (armed_faults D.faults self.old) (armed_faults D.faults self.new) result }
    {
        if self.is_spent() {
            return self.refuse();
        }
        self.disk.read(area, at, into)
    }

    fn write(&mut self, area: Area, at: u64, piece: &[u8]) -> Result<(), Failed>
        requires limit { IsWithinLimit at (length piece.now) }
        requires within { IfSome (D.reads_as self.old.disk) (BeginsWithin area at) }
        ensures answered { IsAnswered D.faults self.old self.new result }
        ensures counted { self.new.pass ≡ one_less self.old.pass }
        ensures written { OnOk result (D.reads_as self.new.disk ≡ option_map (write_area area at piece.now) (D.reads_as self.old.disk)) }
        ensures others { OnErr result (OthersRead area (D.reads_as self.old.disk) (D.reads_as self.new.disk)) }
        ensures images { Follows (InArea area (Torn at (length piece.now))) (D.images self.old.disk) (D.images self.new.disk) }
        ensures time { Elapses (D.moment self.old.disk) (D.moment self.new.disk) (D.left_since self.old.disk) (D.left_since self.new.disk) (D.images self.new.disk) }
        ensures cause { HasCause (armed_faults D.faults self.old) (armed_faults D.faults self.new) result }
    {
        if self.is_spent() {
            return self.refuse();
        }
        self.let_one_through();
        self.disk.write(area, at, piece)
    }

    fn cut(&mut self, area: Area, len: u64) -> Result<(), Failed>
        requires { IfSome (D.reads_as self.old.disk) (λ image. len ≤ length (content area image)) }
        ensures answered { IsAnswered D.faults self.old self.new result }
        ensures counted { self.new.pass ≡ one_less self.old.pass }
        ensures cut { OnOk result (D.reads_as self.new.disk ≡ option_map (cut_area area len) (D.reads_as self.old.disk)) }
        ensures others { OnErr result (OthersRead area (D.reads_as self.old.disk) (D.reads_as self.new.disk)) }
        ensures images { Follows (InArea area (Cut len)) (D.images self.old.disk) (D.images self.new.disk) }
        ensures time { Elapses (D.moment self.old.disk) (D.moment self.new.disk) (D.left_since self.old.disk) (D.left_since self.new.disk) (D.images self.new.disk) }
        ensures cause { HasCause (armed_faults D.faults self.old) (armed_faults D.faults self.new) result }
    {
        if self.is_spent() {
            return self.refuse();
        }
        self.let_one_through();
        self.disk.cut(area, len)
    }

    fn sync(&mut self, area: Area) -> Result<(), Failed>
        ensures answered { IsAnswered D.faults self.old self.new result }
        ensures counted { self.new.pass ≡ one_less self.old.pass }
        ensures durable { OnOk result (IfSome (D.reads_as self.old.disk) (IsDurable area (D.images self.new.disk))) }
        ensures same { D.reads_as self.new.disk ≡ D.reads_as self.old.disk }
        ensures images { NoneNew (D.images self.old.disk) (D.images self.new.disk) }
        ensures kept { OnErr result (SameImages (D.images self.old.disk) (D.images self.new.disk)) }
        ensures time { Elapses (D.moment self.old.disk) (D.moment self.new.disk) (D.left_since self.old.disk) (D.left_since self.new.disk) (D.images self.new.disk) }
        ensures cause { HasCause (armed_faults D.faults self.old) (armed_faults D.faults self.new) result }
    {
        if self.is_spent() {
            return self.refuse();
        }
        self.let_one_through();
        self.disk.sync(area)
    }
}

impl<D: Crashing> Crashing for Armed<D> {
    ghost picks = { λ armed. D.picks armed.disk };

    ghost picks_images = { λ armed. D.picks_images armed.disk };

    /// It lets all calls through again.
    fn crash(&mut self, pick: u64)
        ensures disarmed { self.new.pass ≡ None }
        ensures picked { IfSome (D.reads_as self.new.disk) (D.picks self.old.disk pick) }
        ensures one_image { HasOneImage (D.reads_as self.new.disk) (D.images self.new.disk) }
        ensures told { IsKnownAsBefore (D.reads_as self.old.disk) (D.reads_as self.new.disk) }
        ensures uncounted { armed_faults D.faults self.new ≡ armed_faults D.faults self.old }
    {
        self.disk.crash(pick);
        self.pass = None;
    }
}
