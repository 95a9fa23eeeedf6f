// One file, by what its calls do.
ghost use Rattle.std.specs.Prelude.{◌≡◌, ◌+◌, ◌-◌, ◌^◌, ◌<◌, ◌≤◌, ℕ, length, take, drop, IfSome, IfOk, OnOk, OnErr};
ghost use Rattle.outside.specs.Causes.{HasCause};
ghost use Rattle.outside_os.specs.Files.{Held, Changes, Writes, Tears, Shortens, CutsInPart, after_sync};

use std::fs::File;
use std::io;
use std::io::ErrorKind;
use std::os::unix::fs::FileExt;

/// A file of bytes, which a call may do in part, or fail. A call that was interrupted has failed, and may be made again.
pub trait StoredFile {
    /// What it reads as, and what it read as when it was last synced.
    ghost held: { Self → Held };

    /// How often a call has failed.
    ghost failures: { Self → ℕ };

    /// How many bytes it has.
    fn len(&mut self) -> io::Result<u64>
        ensures length { IfOk result (λ n. IfSome (held self.old).reads_as (λ bytes. n ≡ length bytes)) }
        ensures same { held self.new ≡ held self.old }
        ensures cause { HasCause (failures self.old) (failures self.new) result };

    /// Reads bytes from `at` on into the start of `into`, and answers how many: it may be fewer than there are and fit,
    /// and none only where there are none, or nothing fits.
    fn read_at(&mut self, at: u64, into: &mut [u8]) -> io::Result<usize>
        ensures fits { IfOk result (λ n. n ≤ length into.new) }
        ensures given { IfOk result (λ n. IfSome (held self.old).reads_as (λ bytes. take n into.new ≡ take n (drop at bytes))) }
        ensures some { IfOk result (λ n. n ≡ 0 → 0 < length into.new → IfSome (held self.old).reads_as (λ bytes. length bytes ≤ at)) }
        ensures within_word { IfSome (held self.old).reads_as (λ bytes. length bytes ≤ 2 ^ 64 - 1) }
        ensures same { held self.new ≡ held self.old }
        ensures cause { HasCause (failures self.old) (failures self.new) result };

    /// Writes the first bytes of `piece` over what is there from `at` on, and past the end, and answers how many, at
    /// least one of a piece that is not empty. After an Err any part of its range may have other bytes.
    fn write_at(&mut self, at: u64, piece: &[u8]) -> io::Result<usize>
        ensures fits { IfOk result (λ n. n ≤ length piece.now) }
        ensures some { IfOk result (λ n. 0 < length piece.now → 1 ≤ n) }
        ensures written { IfOk result (λ n. Changes (Writes at (take n piece.now)) (held self.old) (held self.new)) }
        ensures torn { OnErr result (Changes (Tears at (length piece.now)) (held self.old) (held self.new)) }
        ensures cause { HasCause (failures self.old) (failures self.new) result };

    /// Cuts it to a length that it has. After an Err a part of the end may be cut.
    fn cut(&mut self, len: u64) -> io::Result<()>
        ensures cut { OnOk result (Changes (Shortens len) (held self.old) (held self.new)) }
        ensures in_part { OnErr result (Changes (CutsInPart len) (held self.old) (held self.new)) }
        ensures cause { HasCause (failures self.old) (failures self.new) result };

    /// After it a crash leaves the file as it reads.
    fn sync(&mut self) -> io::Result<()>
        ensures synced { OnOk result (held self.new ≡ after_sync (held self.old)) }
        ensures same { OnErr result (held self.new ≡ held self.old) }
        ensures cause { HasCause (failures self.old) (failures self.new) result };
}

/// What follows is trusted: no clause of std's tells what a `File` reads as, nor how often it has failed. Each call is one of the
/// system, and none depends on a position that another left.
impl StoredFile for File {
    ghost use Rattle.std.specs.Prelude.{None};

    ghost held = { λ _. record { reads_as = None; synced = None } };

    ghost failures = { λ _. 2 ^ 64 - 1 };

    fn len(&mut self) -> io::Result<u64> {
        Ok(self.metadata()?.len())
    }

    fn read_at(&mut self, at: u64, into: &mut [u8]) -> io::Result<usize> {
        FileExt::read_at(self, into, at)
    }

    fn write_at(&mut self, at: u64, piece: &[u8]) -> io::Result<usize> {
        match FileExt::write_at(self, piece, at)? {
            0 if !piece.is_empty() => Err(io::Error::from(ErrorKind::WriteZero)),
            n => Ok(n),
        }
    }

    fn cut(&mut self, len: u64) -> io::Result<()> {
        self.set_len(len)
    }

    fn sync(&mut self) -> io::Result<()> {
        self.sync_data()
    }
}
