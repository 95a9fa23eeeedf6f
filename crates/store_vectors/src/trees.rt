// A tree of kept blocks.
ghost use Rattle.std.specs.Prelude.{◌≡◌};

use chain_tree::{Entry, Tree};
use row_table::Row;
use std::alloc::Global;

/// A block on a parent. The hashes of all blocks begin alike.
fn entry_on(branch: u8, number: u64, parent: u32) -> Entry
    ensures number { result.number ≡ number }
    ensures parent { result.parent ≡ parent }
{
    let mut hash = [branch; 32];
    hash[0] = 7;
    hash[24..].copy_from_slice(&number.to_le_bytes());
    Entry {
        hash,
        parent,
        number,
        timestamp: number,
        dao: [branch; 32],
        at: number,
        len: 240,
    }
}

/// Adds a block on a parent that is there, and answers its place. It is found by its hash then, and not before.
fn join(tree: &mut Tree, branch: u8, parent: u32) -> Option<u32> {
    if parent >= tree.len() || tree.len() >= 1_000_000 {
        return None;
    }
    let entry = entry_on(branch, tree.entry(parent).number + 1, parent);
    if tree.find(&entry.hash).is_some() {
        return None;
    }
    tree.reserve().ok()?;
    let place = tree.len();
    tree.add(entry);
    if tree.find(&entry.hash) == Some(place) {
        Some(place)
    } else {
        None
    }
}

/// Adds so many blocks, each on the one before, and answers the place of the last.
fn grow(tree: &mut Tree, branch: u8, parent: u32, count: u64) -> Option<u32> {
    let mut last = parent;
    for _ in 0..count {
        last = join(tree, branch, last)?;
    }
    Some(last)
}

/// A branch, the place of its parent and a count: the places of the last block and of the tip.
pub(crate) fn agrees_on_branch(tree: &mut Tree, row: &mut Row) -> Option<bool> {
    let branch: u8 = row.word().parse().ok()?;
    let parent: u32 = row.word().parse().ok()?;
    let last = grow(tree, branch, parent, row.number()?)?;
    Some(row.number()? == u64::from(last) && row.number()? == u64::from(tree.tip()))
}

/// The tree of a genesis alone.
pub(crate) fn new_tree(alloc: Global) -> Option<Tree> {
    Tree::new(alloc, entry_on(1, 0, 0)).ok()
}
