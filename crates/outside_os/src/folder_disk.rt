// The disk as files of a folder.
ghost use Rattle.std.specs.Prelude.{◌≡◌, ◌≤◌, None, true, length, take, IsSome, IfOk, OnOk, OnErr};
ghost use Rattle.outside_os.specs.Files.{Changes, Writes, Tears, Shortens, CutsInPart, Same, HasLength, HasReadFile, IsSynced, Reaches, FailsAt, file_of, nothing_opened};
ghost use Rattle.std.proofs.Common.{lit≤, refl};
ghost use Rattle.outside.specs.Causes.{counted, up_to_last, within_last};
ghost use Rattle.outside.specs.Disk.{IsWithinLimit};

use crate::claim::Claim;
use crate::folder::Folder;
use crate::stored_file::StoredFile;
use crate::streams::fail;
use outside::{Area, Disk, Failed};
use std::marker::Model;
use std::rt::Files;

/// A folder that has the areas as files, `log.bin`, `snap_a.bin` and `snap_b.bin`. Each is opened at its first use,
/// and made where it is missing; the folder has to be there. From the first call on the folder is this disk's alone:
/// another one on it fails at each call, and changes nothing. After a failed `sync` each call fails.
/// A clause sees what its files hold, and how often it has failed.
#[derive(Drop)]
pub struct FolderDisk<R: Files + Drop>
where
    R::File: StoredFile,
{
    folder: Folder<R>,
    failed: u64,
}

impl<R: Files + Drop> Model for FolderDisk<R>
where
    R::File: StoredFile,
{
    ghost use Rattle.outside_os.specs.Files.{FolderState};

    ghost Value = { FolderState };

    ghost view = { λ disk. record { files = disk.folder; failed = disk.failed } };
}

impl<R: Files + Drop> FolderDisk<R>
where
    R::File: StoredFile,
{
    pub fn new(rt: R, folder: String) -> FolderDisk<R>
        ensures files { result.files ≡ nothing_opened }
        ensures failed { result.failed ≡ 0 }
    {
        FolderDisk {
            folder: Folder::new(rt, folder),
            failed: 0,
        }
    }
}

impl<R: Files + Drop> Disk for FolderDisk<R>
where
    R::File: Claim + StoredFile,
{
    ghost reads_as = { λ _. None };

    ghost images = { λ _ _. ⊥ };

    ghost moment = { λ _. 0 };

    ghost left_since = { λ _ _ _. ⊥ };

    ghost faults = { λ disk. up_to_last disk.failed };

    ghost Content = { Unit {0} };

    ghost content_of = { λ _. tt };

    ghost content_rests = { λ _ _ _. record {
      reads = refl;
      images = λ _. (λ left. left, λ left. left);
      moments = record { later = lit≤ tt; each = λ _ left. absurd left; before = λ _ _ _ left. absurd left };
    } };

    ghost reads_image = { λ _. tt };

    ghost images_told = { λ _ _ left. absurd left };

    ghost last_fault = { λ disk. within_last disk.failed };

    ghost counts_now = { λ _ _ _ _ left. absurd left };

    ghost only_now = { λ _ _ left. absurd left };

    fn len(&mut self, area: Area) -> Result<u64, Failed>
        ensures length { IfOk result (λ n. Reaches area (HasLength n) self.old.files self.new.files) }
        ensures kept { OnErr result (FailsAt area Same self.old.files self.new.files) }
        ensures doubt { self.new.files.is_doubtful ≡ self.old.files.is_doubtful }
        ensures unchanged { OnOk result (self.new.failed ≡ self.old.failed) }
        ensures counted { OnErr result (self.new.failed ≡ counted self.old.failed) }
    {
        match self.folder.len(area) {
            Ok(n) => Ok(n),
            Err(_) => Err(fail(&mut self.failed)),
        }
    }

    fn read(&mut self, area: Area, at: u64, into: &mut [u8]) -> Result<usize, Failed>
        ensures fits { IfOk result (λ n. n ≤ length into.new) }
        ensures given { IfOk result (λ n. Reaches area (HasReadFile at (length into.new) (take n into.new)) self.old.files self.new.files) }
        ensures kept { OnErr result (FailsAt area Same self.old.files self.new.files) }
        ensures doubt { self.new.files.is_doubtful ≡ self.old.files.is_doubtful }
        ensures unchanged { OnOk result (self.new.failed ≡ self.old.failed) }
        ensures counted { OnErr result (self.new.failed ≡ counted self.old.failed) }
    {
        match self.folder.read(area, at, into) {
            Ok(n) => Ok(n),
            Err(_) => Err(fail(&mut self.failed)),
        }
    }

    fn write(&mut self, area: Area, at: u64, piece: &[u8]) -> Result<(), Failed>
        requires limit { IsWithinLimit at (length piece.now) }
        ensures written_in_file { OnOk result (Reaches area (Changes (Writes at piece.now)) self.old.files self.new.files) }
        ensures torn { OnErr result (FailsAt area (Changes (Tears at (length piece.now))) self.old.files self.new.files) }
        ensures doubt { self.new.files.is_doubtful ≡ self.old.files.is_doubtful }
        ensures unchanged { OnOk result (self.new.failed ≡ self.old.failed) }
        ensures counted { OnErr result (self.new.failed ≡ counted self.old.failed) }
    {
        match self.folder.write(area, at, piece) {
            Ok(()) => Ok(()),
            Err(_) => Err(fail(&mut self.failed)),
        }
    }

    fn cut(&mut self, area: Area, len: u64) -> Result<(), Failed>
        ensures cut_in_file { OnOk result (Reaches area (Changes (Shortens len)) self.old.files self.new.files) }
        ensures in_part { OnErr result (FailsAt area (Changes (CutsInPart len)) self.old.files self.new.files) }
        ensures doubt { self.new.files.is_doubtful ≡ self.old.files.is_doubtful }
        ensures unchanged { OnOk result (self.new.failed ≡ self.old.failed) }
        ensures counted { OnErr result (self.new.failed ≡ counted self.old.failed) }
    {
        match self.folder.cut(area, len) {
            Ok(()) => Ok(()),
            Err(_) => Err(fail(&mut self.failed)),
        }
    }

    fn sync(&mut self, area: Area) -> Result<(), Failed>
        ensures synced { OnOk result (Reaches area IsSynced self.old.files self.new.files) }
        ensures kept_file { OnErr result (FailsAt area Same self.old.files self.new.files) }
        ensures doubt { OnErr result (IsSome self.old.files.log → IsSome (file_of area self.old.files) → self.new.files.is_doubtful ≡ true) }
        ensures unchanged { OnOk result (self.new.failed ≡ self.old.failed) }
        ensures counted { OnErr result (self.new.failed ≡ counted self.old.failed) }
    {
        match self.folder.sync(area) {
            Ok(()) => Ok(()),
            Err(_) => Err(fail(&mut self.failed)),
        }
    }
}
