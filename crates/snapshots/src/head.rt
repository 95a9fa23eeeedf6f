// What a snapshot begins with: gate, number, tip, the tip's hash and the count of rows.
ghost use Rattle.std.specs.Prelude.{◌≡◌, ◌+◌, ◌<◌, ◌≤◌, ◌^◌, List, ℕ, Err, length, take, IfSome, IfOk};
ghost use Rattle.std.specs.List.{slice_range};
ghost use Rattle.std.specs.Int.{w32, w64, to_le_bytes, from_le_bytes};
ghost use Rattle.chain_defs.specs.Ext.{count_at};
ghost use Rattle.outside.specs.Causes.{CountsFault};
ghost use Rattle.outside.specs.Image.{content};
ghost use Rattle.outside.specs.declared.disk.ReadStop.TheVariants.{DiskFault, NoMemory as no_memory};
ghost use Rattle.disk_defs.specs.Snapshot.{has_open_gate};
ghost use Rattle.snapshots.specs.Reading.{AnswersNumber, AnswersHead};

use crate::area::damaged;
use outside::{Area, Disk, ReadStop};

/// How many bytes stand before the rows.
pub(crate) const HEAD_SIZE: usize = 49;

/// What a snapshot says of itself before its rows.
#[derive(Clone, Copy)]
pub(crate) struct Head {
    pub(crate) number: u32,
    /// The place of the tip among the kept blocks.
    pub(crate) tip: u32,
    pub(crate) hash: [u8; 32],
    /// How many rows follow.
    pub(crate) count: u64,
}

/// The number that the four bytes from `at` on are.
fn u32_at(bytes: &[u8], at: usize) -> u32
    requires { at + 4 ≤ length bytes.now }
    ensures value { result ≡ count_at bytes.now at }
    ensures bytes { to_le_bytes w32 result ≡ slice_range bytes.now at (at + 4) }
{
    let four = &bytes[at..at + 4];
    u32::from_le_bytes([four[0], four[1], four[2], four[3]])
}

/// The number that the eight bytes from `at` on are.
fn u64_at(bytes: &[u8], at: usize) -> u64
    requires { at + 8 ≤ length bytes.now }
    ensures value { result ≡ from_le_bytes w64 (slice_range bytes.now at (at + 8)) }
    ensures bytes { to_le_bytes w64 result ≡ slice_range bytes.now at (at + 8) }
{
    let eight = &bytes[at..at + 8];
    u64::from_le_bytes([
        eight[0], eight[1], eight[2], eight[3], eight[4], eight[5], eight[6], eight[7],
    ])
}

/// The hash that the 32 bytes from `at` on are.
fn hash_at(bytes: &[u8], at: usize) -> [u8; 32]
    requires { at + 32 ≤ length bytes.now }
    ensures { result ≡ slice_range bytes.now at (at + 32) }
{
    let mut hash = [0u8; 32];
    hash.copy_from_slice(&bytes[at..at + 32]);
    hash
}

/// Whether the gate of an area is open, by its first two bytes or more.
pub(crate) fn is_open(first: &[u8]) -> bool
    ensures { result ≡ has_open_gate first.now }
{
    first.len() > 1 && first[0] == 1
}

/// The number after an open gate, by the first 5 bytes of an area or as many as it has.
fn number_in(area: Area, first: &[u8]) -> Result<Option<u32>, ReadStop>
    ensures number { (bytes : List ℕ) → first.now ≡ take 5 bytes → AnswersNumber area bytes result }
    ensures no_memory { result ≡ Err no_memory → ⊥ }
    ensures no_fault { result ≡ Err DiskFault → ⊥ }
{
    if !is_open(first) {
        return Ok(None);
    }
    if first.len() < 5 {
        return Err(damaged(area));
    }
    Ok(Some(u32_at(first, 1)))
}

/// The number of the snapshot in an area, or None where its gate is not open. It takes no memory, and makes one call of the
/// disk.
pub fn number<D: Disk>(disk: &mut D, area: Area) -> Result<Option<u32>, ReadStop>
    ensures number { IfSome (D.reads_as disk.old) (λ image. AnswersNumber area (content area image) result) }
    ensures no_memory { result ≡ Err no_memory → ⊥ }
    ensures content { D.content_of disk.new ≡ D.content_of disk.old }
    ensures cause { CountsFault (D.faults disk.old) (D.faults disk.new) (result ≡ Err DiskFault) }
{
    let mut first = [0; 5];
    match disk.read(area, 0, &mut first) {
        Ok(n) => number_in(area, &first[..n]),
        Err(_) => Err(ReadStop::DiskFault),
    }
}

/// What stands before the rows, by the first 49 bytes of an area or as many as it has. None where its gate is not open.
fn head_in(area: Area, first: &[u8]) -> Result<Option<Head>, ReadStop>
    ensures head { (bytes : List ℕ) → first.now ≡ take 49 bytes → AnswersHead area bytes result }
    ensures no_fault { result ≡ Err DiskFault → ⊥ }
{
    if !is_open(first) {
        return Ok(None);
    }
    if first.len() < HEAD_SIZE {
        return Err(damaged(area));
    }
    Ok(Some(Head {
        number: u32_at(first, 1),
        tip: u32_at(first, 5),
        hash: hash_at(first, 9),
        count: u64_at(first, 41),
    }))
}

/// Reads what stands before the rows. None where the gate is not open.
pub(crate) fn read_head<D: Disk>(disk: &mut D, area: Area) -> Result<Option<Head>, ReadStop>
    ensures head { IfSome (D.reads_as disk.old) (λ image. AnswersHead area (content area image) result) }
    ensures content { D.content_of disk.new ≡ D.content_of disk.old }
    ensures cause { CountsFault (D.faults disk.old) (D.faults disk.new) (result ≡ Err DiskFault) }
{
    let mut first = [0; HEAD_SIZE];
    match disk.read(area, 0, &mut first) {
        Ok(n) => head_in(area, &first[..n]),
        Err(_) => Err(ReadStop::DiskFault),
    }
}
