//! A chain in memory: its tree, its blocks with their exts, and the uncles that they embed.

ghost use Rattle.std.specs.Prelude.{◌≡◌, ◌<◌, true, false, length, IfSome};
ghost use Rattle.cell_state.specs.ListBlocks.{IsCanonical, IsExtFor};

use blake2b_ckb::ckbhash;
use cell_state::{Ext, ListBlocks};
use chain_tree::{Entry, Tree};
use epochs::Spec;
use mol_schema::{BlockView, HeaderView};
use std::alloc::Global;
use uncle_rules::Uncles;

const BLOCK_LIMIT: u32 = 1_000_000;

#[derive(Drop)]
pub(crate) struct Chain {
    pub(crate) spec: Spec,
    pub(crate) tree: Tree,
    pub(crate) blocks: ListBlocks,
    pub(crate) uncles: Uncles,
}

fn entry_of(header: &HeaderView<'_>, parent: u32) -> Entry {
    Entry::of_header(header, ckbhash(header.bytes()), parent, 0, 0)
}

/// Whether the bytes are a block, and what stands beside a later one is an ext with a fee for each of its transactions
/// after the first.
fn may_be_kept(alloc: Global, is_first: bool, block: &[u8], ext: &[u8]) -> Option<bool>
    ensures { IfSome result (λ may. may ≡ true → IsCanonical block.now × (is_first ≡ false → IsExtFor block.now ext.now)) }
{
    let Some(view) = BlockView::read(block) else {
        return Some(false);
    };
    if is_first {
        return Some(true);
    }
    match Ext::read(alloc, ext) {
        Ok(Some(ext)) => Some(ext.fees.len() == view.transactions_count().saturating_sub(1)),
        Ok(None) => Some(false),
        Err(_) => None,
    }
}

/// An ext with no rows, whose fees are 0.
pub(crate) fn ext_of(alloc: Global, block: &BlockView<'_>) -> Option<Vec<u8>> {
    let fees = block.transactions_count().saturating_sub(1);
    if fees > u32::MAX as usize {
        return None;
    }
    let mut ext = Vec::new(alloc);
    ext.extend_from_slice(&(fees as u32).to_le_bytes()).ok()?;
    for _ in 0..fees {
        ext.extend_from_slice(&[0; 8]).ok()?;
    }
    ext.extend_from_slice(&[0; 4]).ok()?;
    Some(ext)
}

/// Puts a block with its ext after the others. None where it may not stand there, or there is no memory.
fn keep(alloc: Global, blocks: &mut ListBlocks, block: &BlockView<'_>, ext: Vec<u8>) -> Option<()> {
    let block = block.bytes().to_vec(alloc).ok()?;
    let kept = blocks.len();
    if kept >= BLOCK_LIMIT || !may_be_kept(alloc, kept == 0, &block, &ext)? {
        return None;
    }
    blocks.push(alloc, block, ext).ok()
}

/// Takes a block whose entry stands at a place: its bytes, its ext and its uncles.
pub(crate) fn take(
    alloc: Global,
    chain: &mut Chain,
    block: &BlockView<'_>,
    ext: Vec<u8>,
    place: u32,
) -> Option<()> {
    chain.uncles.reserve(block.uncles_count()).ok()?;
    chain.uncles.add(block, place);
    keep(alloc, &mut chain.blocks, block, ext)
}

/// The chain of a specification and the entry of a genesis, which is still to be taken.
pub(crate) fn chain_of(alloc: Global, spec: Spec, genesis: &BlockView<'_>) -> Option<Chain> {
    let entry = entry_of(&genesis.header(), 0);
    if entry.number != 0 {
        return None;
    }
    Some(Chain {
        spec,
        tree: Tree::new(alloc, entry).ok()?,
        blocks: ListBlocks::new(alloc, Vec::new(alloc), Vec::new(alloc)).ok()?,
        uncles: Uncles::new(alloc),
    })
}

/// Adds an entry on its parent; None where it does not follow this.
fn add(tree: &mut Tree, entry: Entry) -> Option<()> {
    if tree.len() >= BLOCK_LIMIT || entry.parent >= tree.len() {
        return None;
    }
    if tree.entry(entry.parent).number + 1 != entry.number || tree.find(&entry.hash).is_some() {
        return None;
    }
    tree.reserve().ok()?;
    tree.add(entry);
    Some(())
}

/// The place of the block that a header names as its parent.
pub(crate) fn parent_of(tree: &Tree, header: &HeaderView<'_>) -> Option<u32>
    ensures { IfSome result (λ place. place < length tree.now.entries) }
{
    tree.find(&<[u8; 32]>::try_from(header.parent_hash()).ok()?)
}

/// Joins a block with its ext to its parent, whatever rules it breaks. None where it does not follow this.
pub(crate) fn join(
    alloc: Global,
    chain: &mut Chain,
    block: &BlockView<'_>,
    ext: Vec<u8>,
) -> Option<()> {
    let header = block.header();
    let parent = parent_of(&chain.tree, &header)?;
    let place = chain.tree.len();
    add(&mut chain.tree, entry_of(&header, parent))?;
    take(alloc, chain, block, ext, place)
}
