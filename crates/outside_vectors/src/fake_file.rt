// A file that is a fake: it tells what it holds, and its calls go by the list of the system.
ghost use Rattle.std.specs.Prelude.{◌≡◌, ◌<◌, ◌≤◌, None, Some, length, OnOk, OnErr};
ghost use Rattle.outside.specs.Causes.{counted, up_to_last, HasCause};
ghost use Rattle.outside.specs.Disk.{written};

use crate::system::{Runtime, System, Turn};
use outside::NoMemory;
use outside_os::{Claim, StoredFile};
use std::alloc::Allocator;
use std::fs::{Metadata, OpenFile, OpenOptions};
use std::io;
use std::io::{ErrorKind, Read, Seek, SeekFrom, Write};
use std::rt::Files;

/// A file with bytes of its own.
#[derive(Drop)]
pub(crate) struct FakeFile<'a> {
    system: &'a System,
    bytes: Vec<u8>,
    synced: Vec<u8>,
    failed: u64,
}

fn not_asked_for<T>() -> io::Result<T> {
    Err(io::Error::other("not asked for"))
}

fn fail(failed: &mut u64, kind: ErrorKind) -> io::Error
    ensures { failed.new ≡ counted failed.old }
{
    *failed = failed.saturating_add(1);
    io::Error::from(kind)
}

/// What a call does, which is counted where it fails.
fn turn_of(system: &System, failed: &mut u64, call: &str) -> io::Result<Turn>
    ensures { HasCause (up_to_last failed.old) (up_to_last failed.new) result }
{
    match system.begin_call(call) {
        Ok(Turn::Errs(kind)) => Err(fail(failed, kind)),
        Ok(turn) => Ok(turn),
        Err(error) => Err(fail(failed, error.kind())),
    }
}

/// How many of `most` bytes a read gives.
fn given_of(turn: Turn, most: usize) -> usize
    ensures fits { result ≤ most }
    ensures some { 0 < most → 1 ≤ result }
{
    match turn {
        Turn::Moves(n) if n > 0 => n.min(most),
        _ => most,
    }
}

/// How many of `most` bytes a write takes.
fn taken_of(turn: Turn, most: usize) -> usize
    ensures { result ≤ most }
{
    match turn {
        Turn::Moves(n) => n.min(most),
        _ => most / 2,
    }
}

/// Why a write fails that has taken `n` bytes of `len`.
fn stop_of(turn: Turn, n: usize, len: usize) -> Option<ErrorKind>
    ensures { result ≡ None → 0 < len → 1 ≤ n }
{
    match turn {
        Turn::Moves(_) if n > 0 || len == 0 => None,
        Turn::Moves(_) => Some(ErrorKind::WriteZero),
        Turn::Errs(kind) | Turn::Tears(kind) => Some(kind),
    }
}

fn write_over(bytes: &mut Vec<u8>, at: usize, piece: &[u8]) -> Result<(), NoMemory>
    requires { at ≤ length bytes.old.items }
    ensures written { OnOk result (bytes.new.items ≡ written at piece.now bytes.old.items) }
    ensures kept { OnErr result (bytes.new.items ≡ bytes.old.items) }
{
    let within = piece.len().min(bytes.len() - at);
    bytes.extend_from_slice(&piece[within..])?;
    bytes[at..at + within].copy_from_slice(&piece[..within]);
    Ok(())
}

impl StoredFile for FakeFile<'_> {
    ghost held = { λ file. record { reads_as = Some file.bytes.items; synced = Some file.synced.items } };

    ghost failures = { λ file. up_to_last file.failed };

    fn len(&mut self) -> io::Result<u64> {
        match turn_of(self.system, &mut self.failed, "len") {
            Ok(_) => {}
            Err(error) => return Err(error),
        }
        Ok(self.bytes.len() as u64)
    }

    fn read_at(&mut self, at: u64, into: &mut [u8]) -> io::Result<usize> {
        let turn = match turn_of(self.system, &mut self.failed, "read_at") {
            Ok(turn) => turn,
            Err(error) => return Err(error),
        };
        let from = self.bytes.len().min(at as usize);
        let rest = &self.bytes[from..];
        let n = given_of(turn, rest.len().min(into.len()));
        into[..n].copy_from_slice(&rest[..n]);
        Ok(n)
    }

    /// It does not leave a gap: a write that begins past the end fails.
    fn write_at(&mut self, at: u64, piece: &[u8]) -> io::Result<usize> {
        let turn = match turn_of(self.system, &mut self.failed, "write_at") {
            Ok(turn) => turn,
            Err(error) => return Err(error),
        };
        if at > self.bytes.len() as u64 {
            return Err(fail(&mut self.failed, ErrorKind::InvalidInput));
        }
        let n = taken_of(turn, piece.len());
        match write_over(&mut self.bytes, at as usize, &piece[..n]) {
            Ok(()) => {}
            Err(NoMemory) => return Err(fail(&mut self.failed, ErrorKind::OutOfMemory)),
        }
        self.system.show(&self.bytes);
        match stop_of(turn, n, piece.len()) {
            None => Ok(n),
            Some(kind) => Err(fail(&mut self.failed, kind)),
        }
    }

    fn cut(&mut self, len: u64) -> io::Result<()> {
        match turn_of(self.system, &mut self.failed, "cut") {
            Ok(_) => {}
            Err(error) => return Err(error),
        }
        self.bytes.truncate(len as usize);
        self.system.show(&self.bytes);
        Ok(())
    }

    fn sync(&mut self) -> io::Result<()> {
        match turn_of(self.system, &mut self.failed, "sync") {
            Ok(_) => {}
            Err(error) => return Err(error),
        }
        match self.bytes.clone() {
            Ok(bytes) => {
                self.synced = bytes;
                Ok(())
            }
            Err(_) => Err(fail(&mut self.failed, ErrorKind::OutOfMemory)),
        }
    }
}

impl Claim for FakeFile<'_> {
    fn claim(&self) -> io::Result<()> {
        self.system.next("claim", 0)?;
        Ok(())
    }
}

impl OpenFile for FakeFile<'_> {
    fn metadata(&self) -> io::Result<Metadata> {
        not_asked_for()
    }

    fn set_len(&self, size: u64) -> io::Result<()> {
        not_asked_for()
    }

    fn sync_all(&self) -> io::Result<()> {
        self.system.next("sync_all", 0)?;
        Ok(())
    }

    fn sync_data(&self) -> io::Result<()> {
        not_asked_for()
    }

    fn try_clone(&self) -> io::Result<Self> {
        self.system.next("clone", 0)?;
        Ok(FakeFile {
            system: self.system,
            bytes: self.bytes.clone()?,
            synced: self.synced.clone()?,
            failed: self.failed,
        })
    }
}

impl Seek for FakeFile<'_> {
    fn seek(&mut self, to: SeekFrom) -> io::Result<u64> {
        not_asked_for()
    }
}

impl Read for FakeFile<'_> {
    fn read(&mut self, buf: &mut [u8]) -> io::Result<usize> {
        Err(io::Error::other("not asked for"))
    }
}

impl Write for FakeFile<'_> {
    fn write(&mut self, buf: &[u8]) -> io::Result<usize> {
        Err(io::Error::other("not asked for"))
    }

    fn flush(&mut self) -> io::Result<()> {
        not_asked_for()
    }
}

#[derive(Drop)]
pub(crate) struct NoNames;

impl Read for NoNames {
    fn read(&mut self, buf: &mut [u8]) -> io::Result<usize> {
        Ok(0)
    }
}

impl<'a> Files for Runtime<'a> {
    type File = FakeFile<'a>;

    type Dir = NoNames;

    fn open_file(&self, how: &OpenOptions, path: &str) -> io::Result<FakeFile<'a>> {
        self.0.next(path, 0)?;
        Ok(FakeFile {
            system: self.0,
            bytes: self.0.first_bytes()?,
            synced: self.0.first_bytes()?,
            failed: 0,
        })
    }

    fn open_dir(&self, path: &str) -> io::Result<NoNames> {
        not_asked_for()
    }

    fn metadata(&self, path: &str) -> io::Result<Metadata> {
        not_asked_for()
    }

    fn symlink_metadata(&self, path: &str) -> io::Result<Metadata> {
        not_asked_for()
    }

    fn copy(&self, from: &str, to: &str) -> io::Result<u64> {
        not_asked_for()
    }

    fn rename(&self, from: &str, to: &str) -> io::Result<()> {
        not_asked_for()
    }

    fn remove_file(&self, path: &str) -> io::Result<()> {
        not_asked_for()
    }

    fn create_dir(&self, path: &str) -> io::Result<()> {
        not_asked_for()
    }

    fn remove_dir(&self, path: &str) -> io::Result<()> {
        not_asked_for()
    }

    fn remove_dir_all<B: Allocator>(&self, alloc: B, path: &str) -> io::Result<()> {
        not_asked_for()
    }
}
