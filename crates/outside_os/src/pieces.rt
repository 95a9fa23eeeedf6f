// A piece read or written whole, whatever the file does in part.
ghost use Rattle.std.specs.Prelude.{◌≡◌, ◌-◌, ◌^◌, ◌<◌, ◌≤◌, true, IsErr, length, take, drop, IfSome, IfOk, OnOk, OnErr};
ghost use Rattle.outside.specs.Causes.{Rose};
ghost use Rattle.outside.specs.Disk.{IsWithinLimit};
ghost use Rattle.outside_os.specs.Files.{Changes, Writes, WritesInPart, Tears, GivesAll};

use crate::stored_file::StoredFile;
use crate::streams::{TRIES, was_interrupted};
use std::io;

/// One read, made again where it was interrupted.
fn read_some<F: StoredFile>(file: &mut F, at: u64, into: &mut [u8]) -> io::Result<usize>
    ensures fits { IfOk result (λ n. n ≤ length into.new) }
    ensures given { IfOk result (λ n. IfSome (F.held file.old).reads_as (λ bytes. take n into.new ≡ take n (drop at bytes))) }
    ensures some { IfOk result (λ n. n ≡ 0 → 0 < length into.new → IfSome (F.held file.old).reads_as (λ bytes. length bytes ≤ at)) }
    ensures within_word { IfSome (F.held file.old).reads_as (λ bytes. length bytes ≤ 2 ^ 64 - 1) }
    ensures same { F.held file.new ≡ F.held file.old }
    ensures later { F.failures file.old ≤ F.failures file.new }
    ensures rose { OnErr result (Rose (F.failures file.old) (F.failures file.new)) }
{
    let mut answer = file.read_at(at, into);
    for _ in 0..TRIES {
        if !was_interrupted(&answer) {
            break;
        }
        answer = file.read_at(at, into);
    }
    answer
}

/// One write, made again where it was interrupted.
fn write_some<F: StoredFile>(file: &mut F, at: u64, piece: &[u8]) -> io::Result<usize>
    ensures fits { IfOk result (λ n. n ≤ length piece.now) }
    ensures some { IfOk result (λ n. 0 < length piece.now → 1 ≤ n) }
    ensures written { IfOk result (λ n. Changes (WritesInPart at piece.now n) (F.held file.old) (F.held file.new)) }
    ensures torn { OnErr result (Changes (Tears at (length piece.now)) (F.held file.old) (F.held file.new)) }
    ensures later { F.failures file.old ≤ F.failures file.new }
    ensures rose { OnErr result (Rose (F.failures file.old) (F.failures file.new)) }
{
    let mut answer = file.write_at(at, piece);
    for _ in 0..TRIES {
        if !was_interrupted(&answer) {
            break;
        }
        answer = file.write_at(at, piece);
    }
    answer
}

/// Reads the bytes from `at` on into the start of `into`, and answers how many: as many as there are and fit.
pub(crate) fn read_full<F: StoredFile>(file: &mut F, at: u64, into: &mut [u8]) -> io::Result<usize>
    ensures fits { IfOk result (λ n. n ≤ length into.new) }
    ensures given { IfOk result (λ n. IfSome (F.held file.old).reads_as (GivesAll at (length into.new) (take n into.new))) }
    ensures same { F.held file.new ≡ F.held file.old }
    ensures later { F.failures file.old ≤ F.failures file.new }
    ensures rose { OnErr result (Rose (F.failures file.old) (F.failures file.new)) }
{
    let mut given = 0;
    while given < into.len() {
        let place = at.saturating_add(given as u64);
        let n = match read_some(file, place, &mut into[given..]) {
            Ok(n) => n,
            Err(failure) => return Err(failure),
        };
        if n == 0 {
            break;
        }
        given += n;
    }
    Ok(given)
}

/// Writes all of `piece` over what is there, and past the end. After an Err any part of its range may have other bytes.
pub(crate) fn write_all<F: StoredFile>(file: &mut F, at: u64, piece: &[u8]) -> io::Result<()>
    requires { IsWithinLimit at (length piece.now) }
    ensures written { OnOk result (Changes (Writes at piece.now) (F.held file.old) (F.held file.new)) }
    ensures torn { OnErr result (Changes (Tears at (length piece.now)) (F.held file.old) (F.held file.new)) }
    ensures later { F.failures file.old ≤ F.failures file.new }
    ensures rose { OnErr result (Rose (F.failures file.old) (F.failures file.new)) }
{
    let mut done = 0;
    while done < piece.len() {
        let n = match write_some(file, at + done as u64, &piece[done..]) {
            Ok(n) => n,
            Err(error) => return Err(error),
        };
        done += n;
    }
    Ok(())
}
