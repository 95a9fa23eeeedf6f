// The log from start to end.

ghost use Rattle.std.specs.Prelude.{◌≡◌, ◌+◌, ◌<◌, ◌≤◌, ◌^◌, List, ℕ, Err, length, take, drop, slice_index, IfSome, IfOk, OnOk, IfErr};
ghost use Rattle.outside.specs.Causes.{HasCause, CountsFault};
ghost use Rattle.outside.specs.Disk.{IsAsBefore};
ghost use Rattle.chain_defs.specs.Ext.{count_at};
ghost use Rattle.disk_defs.specs.Log.{record_at};
ghost use Rattle.log_file.specs.Reading.{IsReading, IsAt};
ghost use Rattle.log_file.specs.Stops.{IfDamage};

use crate::number::read_count;
use crate::stop::LogStop;
use outside::{Area, Disk, Failed};
use std::alloc::Global;
use std::marker::Model;

/// Bytes that are read at once; a record that is larger takes more.
const PIECE: u64 = 1 << 18;

/// Reads LOG from `at` on into a buffer, where these first bytes were read before. Answers how many there are with
/// those.
fn read_after<D: Disk>(
    disk: &mut D,
    at: u64,
    prefix: &[u8],
    into: &mut [u8],
) -> Result<usize, Failed>
    requires within { length prefix.now ≤ length into.old }
    requires limit { at + length into.old < 2 ^ 64 }
    ensures fits { IfOk result (λ n. n ≤ length into.new) }
    ensures bytes { IfSome (D.reads_as disk.old) (λ image. prefix.now ≡ take (length prefix.now) (drop at image.log)
        → IfOk result (λ n. take n into.new ≡ take (length into.new) (drop at image.log))) }
    ensures as_before { IsAsBefore D.reads_as D.images D.moment D.left_since disk.old disk.new }
    ensures cause { HasCause (D.faults disk.old) (D.faults disk.new) result }
{
    let there = prefix.len();
    into[..there].copy_from_slice(prefix);
    let n = disk.read(Area::Log, at + there as u64, &mut into[there..])?;
    Ok(there + n)
}

/// The bytes of LOG from `at` on, `size` of them or as many as there are, where these first were read before.
fn read_piece<D: Disk>(
    alloc: Global,
    disk: &mut D,
    at: u64,
    prefix: &[u8],
    size: usize,
) -> Result<Vec<u8>, LogStop>
    requires within { length prefix.now ≤ size }
    requires limit { at + size < 2 ^ 64 }
    ensures fits { IfOk result (λ bytes. length bytes.items ≤ size) }
    ensures bytes { IfSome (D.reads_as disk.old) (λ image. prefix.now ≡ take (length prefix.now) (drop at image.log)
        → IfOk result (λ bytes. bytes.items ≡ take size (drop at image.log))) }
    ensures as_before { IsAsBefore D.reads_as D.images D.moment D.left_since disk.old disk.new }
    ensures reads { IfErr result (IfDamage (λ _. ⊥)) }
    ensures cause { CountsFault (D.faults disk.old) (D.faults disk.new) (result ≡ Err LogStop.DiskFault) }
{
    let mut bytes = match vec![in alloc; 0u8; size] {
        Ok(bytes) => bytes,
        Err(_) => return Err(LogStop::NoMemory),
    };
    match read_after(disk, at, prefix, &mut bytes) {
        Ok(n) => {
            bytes.truncate(n);
            Ok(bytes)
        }
        Err(_) => Err(LogStop::DiskFault),
    }
}

/// The bytes that the record at the start says to have, or none where no open gate stands there.
fn record_size(bytes: &[u8]) -> u64
    ensures size { 7 ≤ length bytes.now → slice_index bytes.now 0 ≡ 1 → result ≡ 6 + count_at bytes.now 2 }
    ensures fits { result < 2 ^ 33 }
{
    if bytes.len() < 6 || bytes[0] != 1 {
        return 0;
    }
    6 + u64::from(read_count(bytes, 2))
}

/// Reads LOG from start to end, in pieces. Clauses see a `ReaderValue`.
#[derive(Drop)]
pub(crate) struct Reader {
    len: u64,
    at: u64,
    /// From `from` on these are the bytes at `at`.
    bytes: Vec<u8>,
    from: usize,
}

impl Model for Reader {
    ghost use Rattle.std.specs.Prelude.{◌+◌, ◌<◌, ◌≤◌, ◌^◌, length, drop};
    ghost use Rattle.log_file.specs.Reading.{ReaderValue};

    ghost Value = { ReaderValue };

    ghost view = { λ reader. record { len = reader.len; at = reader.at; ahead = drop reader.from reader.bytes.items } };

    ghost invariant = { λ reader. (reader.from ≤ length reader.bytes.items) × (reader.at + length (drop reader.from reader.bytes.items) ≤ reader.len)
        × (reader.len < 2 ^ 64) };
}

impl Reader {
    /// At the start of a log of this length.
    pub(crate) fn new(alloc: Global, len: u64) -> Reader
        ensures at { IsAt len 0 result }
        ensures reading { (log : List ℕ) → len ≡ length log → IsReading log result }
    {
        Reader {
            len,
            at: 0,
            bytes: Vec::new(alloc),
            from: 0,
        }
    }

    /// The place that it has come to.
    pub(crate) fn at(&self) -> u64
        ensures value { result ≡ self.now.at }
        ensures room { result + length self.now.ahead < 2 ^ 64 }
    {
        self.at
    }

    /// How many bytes are left of the log.
    pub(crate) fn left(&self) -> u64
        ensures { self.now.at + result ≡ self.now.len }
    {
        self.len - self.at
    }

    /// The bytes from there on that are in memory.
    pub(crate) fn ahead(&self) -> &[u8]
        ensures { result.now ≡ self.now.ahead }
    {
        &self.bytes[self.from..]
    }

    /// Goes over bytes that are in memory.
    pub(crate) fn skip(&mut self, count: usize)
        requires { count ≤ length self.old.ahead }
        ensures at { IsAt self.old.len (self.old.at + count) self.new }
        ensures ahead { self.new.ahead ≡ drop count self.old.ahead }
        ensures reading { (log : List ℕ) → IsReading log self.old → IsReading log self.new }
    {
        self.from += count;
        self.at += count as u64;
    }

    /// Reads on, so that as many bytes are in memory.
    pub(crate) fn fill<D: Disk>(
        &mut self,
        alloc: Global,
        disk: &mut D,
        need: u64,
    ) -> Result<(), LogStop>
        requires { self.old.at + need ≤ self.old.len }
        ensures at { IsAt self.old.len self.old.at self.new }
        ensures reading { IfSome (D.reads_as disk.old) (λ image. IsReading image.log self.old
            → IsReading image.log self.new × OnOk result (need ≤ length self.new.ahead)) }
        ensures as_before { IsAsBefore D.reads_as D.images D.moment D.left_since disk.old disk.new }
        ensures reads { IfErr result (IfDamage (λ _. ⊥)) }
        ensures cause { CountsFault (D.faults disk.old) (D.faults disk.new) (result ≡ Err LogStop.DiskFault) }
    {
        if need <= self.ahead().len() as u64 {
            return Ok(());
        }
        let size = self.left().min(need.max(PIECE));
        match read_piece(
            alloc,
            disk,
            self.at,
            &self.bytes[self.from..],
            size as usize,
        ) {
            Ok(bytes) => {
                self.bytes = bytes;
                self.from = 0;
                Ok(())
            }
            Err(stop) => Err(stop),
        }
    }

    /// Reads on, so that the record that stands here is in memory, if one does, and a byte in any case.
    pub(crate) fn fill_record<D: Disk>(
        &mut self,
        alloc: Global,
        disk: &mut D,
    ) -> Result<(), LogStop>
        ensures at { IsAt self.old.len self.old.at self.new }
        ensures reading { IfSome (D.reads_as disk.old) (λ image. IsReading image.log self.old → IsReading image.log self.new) }
        ensures found { IfSome (D.reads_as disk.old) (λ image. IsReading image.log self.old
            → OnOk result (record_at self.new.ahead ≡ record_at (drop self.old.at image.log))) }
        ensures byte { IfSome (D.reads_as disk.old) (λ image. IsReading image.log self.old → self.old.at < self.old.len
            → OnOk result (0 < length self.new.ahead)) }
        ensures as_before { IsAsBefore D.reads_as D.images D.moment D.left_since disk.old disk.new }
        ensures reads { IfErr result (IfDamage (λ _. ⊥)) }
        ensures cause { CountsFault (D.faults disk.old) (D.faults disk.new) (result ≡ Err LogStop.DiskFault) }
    {
        let left = self.left();
        match self.fill(alloc, disk, left.min(7)) {
            Ok(()) => {}
            Err(stop) => return Err(stop),
        }
        let size = record_size(self.ahead());
        if size < left {
            match self.fill(alloc, disk, size + 1) {
                Ok(()) => {}
                Err(stop) => return Err(stop),
            }
        }
        Ok(())
    }
}
