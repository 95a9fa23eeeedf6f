//! A chain in memory: its tree, its blocks with their exts, and the live cells after the last.

ghost use Rattle.std.specs.Prelude.{◌≡◌, ◌<◌, true, false};
ghost use Rattle.cell_state.specs.ListBlocks.{IsCanonical, IsExtFor};
ghost use Rattle.tx_rules.specs.At.{IsAtParent};
ghost use Rattle.chain_tree.specs.Blocks.{AreRated};

use blake2b_ckb::ckbhash;
use cell_state::{
    CellMeta, Cells, Ext, ListBlocks, Odd, OutPoint, State, out_point_of, outputs_in,
};
use chain_tree::{Entry, Tree};
use dao_math::is_rated;
use epochs::Spec;
use mol_schema::{BlockView, HeaderView, OutPointView};
use outside::Steps;
use std::alloc::Global;
use std::sync::ledger::Ledger;
use tx_rules::TxAt;
use view_hashes::transaction_hashes;

/// The most blocks of a chain.
const MOST: u32 = 1_000_000;

/// A chain, the bytes of its blocks, and the live cells after them, where they stand in a row.
#[derive(Drop)]
pub(crate) struct Chain {
    pub(crate) spec: Spec,
    pub(crate) tree: Tree,
    pub(crate) blocks: ListBlocks,
    pub(crate) state: State,
    items: Vec<Vec<u8>>,
}

/// Where the tree has the record of the block at a place; no two places share one.
pub(crate) fn record_at(place: u32) -> u64 {
    1_000 * (u64::from(place) + 1)
}

fn entry_of(header: &HeaderView<'_>, place: u32, parent: u32) -> Entry {
    let hash = ckbhash(header.bytes());
    Entry::of_header(header, hash, parent, record_at(place), 0)
}

/// Whether the DAO field of each entry is rated.
fn are_rated(tree: &Tree) -> bool
    ensures { result ≡ true → AreRated tree.now.entries }
{
    'entries: for place in 0..tree.len() {
        if !is_rated(&tree.entry(place).dao) {
            return false;
        }
    }
    true
}

/// Whether a transaction may be judged there.
pub(crate) fn is_placed(at: &TxAt<'_, '_, '_>) -> bool
    ensures { result ≡ true → IsAtParent at.now }
{
    at.tree.len() <= MOST && at.parent < at.tree.len() && are_rated(at.tree)
}

/// Whether the bytes are a block, and what stands beside a later one is an ext with a fee for each of its transactions
/// after the first.
fn may_be_kept(alloc: Global, is_first: bool, block: &[u8], ext: &[u8]) -> bool
    ensures { result ≡ true → IsCanonical block.now × (is_first ≡ false → IsExtFor block.now ext.now) }
{
    let Some(view) = BlockView::read(block) else {
        return false;
    };
    if is_first {
        return true;
    }
    match Ext::read(alloc, ext) {
        Ok(Some(ext)) => ext.fees.len() == view.transactions_count().saturating_sub(1),
        _ => false,
    }
}

/// Puts a block with its ext after the others; None where they may not stand there.
pub(crate) fn put(alloc: Global, blocks: &mut ListBlocks, block: &[u8], ext: &[u8]) -> Option<()> {
    let block = block.to_vec(alloc).ok()?;
    let ext = ext.to_vec(alloc).ok()?;
    let kept = blocks.len();
    if kept >= MOST || !may_be_kept(alloc, kept == 0, &block, &ext) {
        return None;
    }
    blocks.push(alloc, block, ext).ok()
}

/// Adds an entry; None where it does not follow a kept one.
fn join(tree: &mut Tree, entry: Entry) -> Option<()> {
    if tree.len() >= MOST || entry.parent >= tree.len() {
        return None;
    }
    if tree.entry(entry.parent).number + 1 != entry.number {
        return None;
    }
    if tree.find(&entry.hash).is_some() {
        return None;
    }
    tree.reserve().ok()?;
    tree.add(entry);
    Some(())
}

/// Puts a block's entry on the block that it names, and gives its place; None where that is not kept.
pub(crate) fn grow(tree: &mut Tree, bytes: &[u8]) -> Option<u32> {
    let header = BlockView::read(bytes)?.header();
    let mut parent_hash = [0; 32];
    parent_hash.copy_from_slice(header.parent_hash());
    let parent = tree.find(&parent_hash)?;
    let place = tree.len();
    join(tree, entry_of(&header, place, parent))?;
    Some(place)
}

/// What a block at a place is answered that is applied to live cells.
pub(crate) fn applied<L: Ledger>(
    alloc: Global,
    state: &mut State,
    steps: &mut Steps<L>,
    bytes: &[u8],
    place: u32,
) -> Option<Result<(), Odd>> {
    let block = BlockView::read(bytes)?;
    state.reserve(outputs_in(&block)).ok()?;
    let hashes = transaction_hashes(alloc, &block).ok()?;
    Some(state.apply(&block, &hashes, place, steps))
}

/// Applies a block at a place to live cells; None where it does not fit.
fn apply<L: Ledger>(
    alloc: Global,
    state: &mut State,
    steps: &mut Steps<L>,
    bytes: &[u8],
    place: u32,
) -> Option<()> {
    applied(alloc, state, steps, bytes, place)?.ok()
}

pub(crate) fn out_point_in(bytes: &[u8]) -> Option<OutPoint> {
    let view = OutPointView::read(bytes)?;
    Some(out_point_of(&view))
}

/// The live cells of a genesis.
pub(crate) fn state_of(alloc: Global, genesis: &[u8]) -> Option<State> {
    let genesis = BlockView::read(genesis)?;
    let hashes = transaction_hashes(alloc, &genesis).ok()?;
    State::genesis(alloc, &genesis, &hashes).ok()
}

/// The tree of a genesis alone; None where it is none.
pub(crate) fn tree_of(alloc: Global, genesis: &[u8]) -> Option<Tree> {
    let entry = entry_of(&BlockView::read(genesis)?.header(), 0, 0);
    if entry.number != 0 {
        return None;
    }
    Tree::new(alloc, entry).ok()
}

/// The chain of a genesis, whose bytes are still to be kept. None where it is none.
pub(crate) fn of_genesis(alloc: Global, spec: Spec, bytes: &[u8]) -> Option<Chain> {
    let tree = tree_of(alloc, bytes)?;
    let state = state_of(alloc, bytes)?;
    Some(Chain {
        spec,
        tree,
        blocks: ListBlocks::new(alloc, Vec::new(alloc), Vec::new(alloc)).ok()?,
        state,
        items: Vec::new(alloc),
    })
}

impl Chain {
    /// Keeps the bytes of a block, and its ext.
    pub(crate) fn keep(&mut self, alloc: Global, block: &[u8], ext: &[u8]) -> Option<()> {
        put(alloc, &mut self.blocks, block, ext)?;
        self.items.push(block.to_vec(alloc).ok()?).ok()
    }

    /// Puts a block with its ext on the one that it names; None where that is not kept, or the cells do not fit.
    pub(crate) fn add<L: Ledger>(
        &mut self,
        alloc: Global,
        steps: &mut Steps<L>,
        bytes: &[u8],
        ext: &[u8],
    ) -> Option<()> {
        let place = grow(&mut self.tree, bytes)?;
        self.keep(alloc, bytes, ext)?;
        apply(alloc, &mut self.state, steps, bytes, place)
    }

    /// Gives an out-point that has no row the row of another; None where there is none.
    pub(crate) fn shadow<L: Ledger>(
        &mut self,
        steps: &mut Steps<L>,
        new: &[u8],
        old: &[u8],
    ) -> Option<()> {
        let new = out_point_in(new)?;
        let row = self.state.get(&out_point_in(old)?)?;
        load_row(&mut self.state, steps, new, row)
    }

    /// The live cells after the genesis.
    pub(crate) fn first_state(&self, alloc: Global) -> Option<State> {
        state_of(alloc, self.items.first()?)
    }

    /// Applies the blocks after the genesis, which stand in a row, and one more.
    pub(crate) fn apply_all<L: Ledger>(
        &self,
        alloc: Global,
        state: &mut State,
        steps: &mut Steps<L>,
        last: &[u8],
    ) -> Option<()> {
        apply_all(alloc, state, steps, self.items.get(1..)?, last)
    }
}

/// Gives an out-point that has no row this one.
fn load_row<L: Ledger>(
    state: &mut State,
    steps: &mut Steps<L>,
    o: OutPoint,
    row: CellMeta,
) -> Option<()> {
    if state.get(&o).is_some() {
        return None;
    }
    state.reserve(1).ok()?;
    state.load_row(o, row, steps);
    Some(())
}

/// Applies blocks from the first place on, and one more.
fn apply_all<L: Ledger>(
    alloc: Global,
    state: &mut State,
    steps: &mut Steps<L>,
    items: &[Vec<u8>],
    last: &[u8],
) -> Option<()> {
    let mut place = 1u32;
    for item in items {
        apply(alloc, state, steps, item, place)?;
        place = place.saturating_add(1);
    }
    apply(alloc, state, steps, last, place)
}
