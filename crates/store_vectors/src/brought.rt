// Rows of kept blocks that are read by their places.
ghost use Rattle.std.specs.Prelude.{◌≡◌, ◌<◌, Some};

use crate::logs::{Shown, put};
use chain_tree::{Blocks, Tree};
use log_file::{Opened, open};
use node_store::{Cache, Store};
use outside::{Area, ReadStop};
use outside_mem::MemDisk;
use row_table::Row;
use std::alloc::Global;

/// The tree of a log with these bytes.
fn tree_of(alloc: Global, bytes: &[u8]) -> Option<Tree> {
    let mut disk = MemDisk::new(alloc, Vec::new(alloc));
    let placed = put(&mut disk, bytes);
    let mut shown = Shown::none(alloc);
    let found = open(alloc, &mut disk, &mut shown);
    drop(disk);
    placed?;
    let Opened {
        log: _,
        spec: _,
        tree,
    } = found.ok()?;
    Some(tree)
}

/// Of the current entry: the height, the length of the block, that of its ext and the count of its proposal ids.
fn is_current<B: Blocks>(alloc: Global, blocks: &mut B, place: u32, row: &mut Row) -> Option<bool>
    requires { B.in_hand blocks.old ≡ Some place }
    ensures { B.count blocks.new ≡ B.count blocks.old }
{
    let wanted = row.numbers(alloc)?;
    let ids = match blocks.ids() {
        Ok(ids) => ids.len(),
        Err(_) => return None,
    };
    let ext = if place == 0 { 0 } else { blocks.spent().len() };
    let block = blocks.block();
    Some(
        *wanted.first()? == block.header().number()
            && *wanted.get(1)? == block.bytes().len() as u64
            && *wanted.get(2)? == ext as u64
            && *wanted.get(3)? == ids as u64,
    )
}

/// What is found at a place, or why nothing is: `fault`, or `damaged` and the offset.
fn is_brought<B: Blocks>(alloc: Global, blocks: &mut B, place: u32, row: &mut Row) -> Option<bool>
    requires { place < B.count blocks.old }
    ensures { B.count blocks.new ≡ B.count blocks.old }
{
    match blocks.bring(place) {
        Ok(()) => is_current(alloc, blocks, place, row),
        Err(ReadStop::DiskFault) => Some(row.word() == "fault"),
        Err(ReadStop::Damaged(damage)) => Some(
            damage.area == Area::Log && row.word() == "damaged" && row.number()? == damage.at,
        ),
        Err(ReadStop::NoMemory) => None,
    }
}

/// The same, where a block has this place.
fn is_brought_within<B: Blocks>(
    alloc: Global,
    blocks: &mut B,
    count: u32,
    place: u64,
    row: &mut Row,
) -> Option<bool>
    requires { count ≡ B.count blocks.old }
    ensures { B.count blocks.new ≡ B.count blocks.old }
{
    if place >= u64::from(count) {
        return None;
    }
    is_brought(alloc, blocks, place as u32, row)
}

/// The same for one place after the other.
fn are_brought<B: Blocks>(
    alloc: Global,
    blocks: &mut B,
    count: u32,
    places: &[u64],
    row: &mut Row,
) -> Option<bool>
    requires { count ≡ B.count blocks.old }
{
    'places: for place in places {
        if !is_brought_within(alloc, blocks, count, *place, row)? {
            return Some(false);
        }
    }
    Some(true)
}

/// The most bodies of a cache, and places of blocks of the log of `bytes`, which are read from the disk: what is found at each.
pub(crate) fn agrees_on_brings(
    alloc: Global,
    disk: &mut MemDisk,
    bytes: &[u8],
    row: &mut Row,
) -> Option<bool> {
    let size: usize = row.word().parse().ok()?;
    if size == 0 {
        return None;
    }
    let places = row.numbers(alloc)?;
    let tree = tree_of(alloc, bytes)?;
    let mut cache = Cache::new(alloc, size).ok()?;
    let mut store = Store::new(alloc, disk, &tree, &mut cache);
    are_brought(alloc, &mut store, tree.len(), &places, row)
}
