// A disk that can crash, as a machine that loses its power leaves one.
ghost use Rattle.std.specs.Prelude.{◌≡◌, ℕ, IfSome};
ghost use Rattle.outside.specs.Image.{Image};
ghost use Rattle.outside.specs.Disk.{HasOneImage, IsKnownAsBefore};

use outside::Disk;

/// A disk that can be left as a crash leaves it.
pub trait Crashing: Disk {
    /// The images of which a crash now leaves one, for each choice.
    ghost picks: { Self → ℕ → Image → Type 0 };

    /// Leaves what a crash now may leave: one of the images of this choice, and no other. It takes no memory. The moments begin
    /// anew.
    fn crash(&mut self, pick: u64)
        ensures picked { IfSome (Self.reads_as self.new) (picks self.old pick) }
        ensures one_image { HasOneImage (Self.reads_as self.new) (Self.images self.new) }
        ensures told { IsKnownAsBefore (Self.reads_as self.old) (Self.reads_as self.new) }
        ensures uncounted { Self.faults self.new ≡ Self.faults self.old };

    /// Whatever the choice, they are images that a crash may leave.
    ghost picks_images: { (disk : Self) (pick : ℕ) (image : Image) → picks disk pick image → Self.images disk image };
}
