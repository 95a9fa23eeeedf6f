// A snapshot is read.
ghost use Rattle.std.specs.Prelude.{◌≡◌, ◌+◌, ◌*◌, ◌<◌, ◌≤◌, ◌^◌, Err, length, take, drop, IfSome, IfOk, IfErr};
ghost use Rattle.outside.specs.Causes.{CountsFault};
ghost use Rattle.outside.specs.Image.{content};
ghost use Rattle.outside.specs.declared.disk.ReadStop.TheVariants.{DiskFault};
ghost use Rattle.snapshots.specs.Reading.{AreRowBytes, AnswersShort, AnswersSnapshot, row_count, has_tip, AreWithin};

use crate::area::damaged;
use crate::head::{HEAD_SIZE, Head, read_head};
use crate::loading::state_of;
use cell_state::{ROW_SIZE, State};
use chain_tree::Tree;
use outside::{Area, Disk, NoMemory, ReadStop, Steps};
use std::alloc::Global;
use std::sync::ledger::Ledger;

/// Whether the tip that a snapshot names is that block of the tree.
fn is_kept(tree: &Tree, head: &Head) -> bool
    ensures { result ≡ has_tip tree.now.entries head.now.tip head.now.hash }
{
    head.tip < tree.len() && tree.entry(head.tip).hash == head.hash
}

/// How many bytes so many rows take, where an area of this length has them.
fn rows_within(len: u64, count: u64) -> Option<usize>
    ensures found { IfSome result (λ size. (size ≡ 161 * count) × (49 + size ≤ len)) }
    ensures none { result ≡ None → len < 49 + 161 * count }
{
    if len < HEAD_SIZE as u64 || count > (len - HEAD_SIZE as u64) / ROW_SIZE as u64 {
        return None;
    }
    Some(ROW_SIZE * count as usize)
}

/// Reads the bytes of so many rows. No memory is taken where the area is shorter than they are.
fn read_rows<D: Disk>(
    alloc: Global,
    disk: &mut D,
    area: Area,
    count: u64,
) -> Result<Vec<u8>, ReadStop>
    ensures rows { IfSome (D.reads_as disk.old) (λ image. IfOk result (λ bytes. AreRowBytes count (content area image) bytes.items)) }
    ensures short { IfSome (D.reads_as disk.old) (λ image. IfErr result (AnswersShort area count (content area image))) }
    ensures size { IfOk result (λ bytes. length bytes.items ≡ 161 * count) }
    ensures content { D.content_of disk.new ≡ D.content_of disk.old }
    ensures cause { CountsFault (D.faults disk.old) (D.faults disk.new) (result ≡ Err DiskFault) }
{
    let len = match disk.len(area) {
        Ok(len) => len,
        Err(_) => return Err(ReadStop::DiskFault),
    };
    let Some(size) = rows_within(len, count) else {
        return Err(damaged(area));
    };
    let mut bytes = match vec![in alloc; 0u8; size] {
        Ok(bytes) => bytes,
        Err(_) => return Err(ReadStop::NoMemory),
    };
    match disk.read(area, HEAD_SIZE as u64, &mut bytes) {
        Ok(n) => {
            if n < size {
                return Err(damaged(area));
            }
            Ok(bytes)
        }
        Err(_) => Err(ReadStop::DiskFault),
    }
}

/// Reads the snapshot in an area: its number, the place of its tip in the tree, and the state with its rows, each in one step.
/// None where the gate of the area is not open, and Damaged where it is, and no snapshot stands there that is one of the
/// tree. It takes memory only where the area is as long as the count of rows says.
pub fn read<D: Disk, L: Ledger>(
    alloc: Global,
    disk: &mut D,
    area: Area,
    tree: &Tree,
    steps: &mut Steps<L>,
) -> Result<Option<(u32, u32, State)>, ReadStop>
    ensures snapshot { IfSome (D.reads_as disk.old) (λ image. AnswersSnapshot area tree.now.entries (content area image) steps.old steps.new result) }
    ensures within { IfOk result (λ found. IfSome found (λ it. AreWithin tree.now.entries it.1 it.2)) }
    // Whatever is answered, it takes no more steps than the area counts rows.
    ensures most { IfSome (D.reads_as disk.old) (λ image. steps.new ≤ steps.old + row_count (content area image)) }
    ensures content { D.content_of disk.new ≡ D.content_of disk.old }
    ensures cause { CountsFault (D.faults disk.old) (D.faults disk.new) (result ≡ Err DiskFault) }
{
    let head = match read_head(disk, area) {
        Ok(Some(head)) => head,
        Ok(None) => return Ok(None),
        Err(stop) => return Err(stop),
    };
    if !is_kept(tree, &head) {
        return Err(damaged(area));
    }
    let bytes = match read_rows(alloc, disk, area, head.count) {
        Ok(bytes) => bytes,
        Err(stop) => return Err(stop),
    };
    match state_of(alloc, &bytes, head.count as usize, tree.len(), steps) {
        Ok(Some(state)) => Ok(Some((head.number, head.tip, state))),
        Ok(None) => Err(damaged(area)),
        Err(NoMemory) => Err(ReadStop::NoMemory),
    }
}
