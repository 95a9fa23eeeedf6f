// Where a transaction is looked at.
ghost use Rattle.std.specs.Prelude.{◌<◌, IfSome, length};

use cell_state::{CellMeta, Cells, OutPoint};
use chain_tree::{Entry, Tree};
use epochs::Spec;
use mol_schema::TxView;

/// The block in which the transaction stands: its timestamp in milliseconds, its transactions before this one, and all.
#[derive(Clone, Copy)]
pub struct OwnBlock<'o, 'w, 'b> {
    pub timestamp: u64,
    pub before: &'o [TxView<'b>],
    pub all: &'w [TxView<'b>],
}

/// Where a transaction is looked at: on a parent in the tree, over the live cells that it sees, in a block or alone, within so
/// many cycles.
#[derive(Drop)]
pub struct Site<'s, 't, 'o, 'w, 'b, C> {
    pub spec: &'s Spec,
    pub tree: &'s Tree,
    pub parent: u32,
    pub cells: &'t C,
    pub own: Option<OwnBlock<'o, 'w, 'b>>,
    pub left: u64,
}

/// A field of 32 bytes.
pub fn hash_from(field: &[u8]) -> [u8; 32] {
    let mut bytes = [0u8; 32];
    if field.len() == 32 {
        bytes.copy_from_slice(field);
    }
    bytes
}

/// The entry at a place, where there is one.
pub fn entry_at(tree: &Tree, place: u32) -> Option<Entry>
    ensures { IfSome result (λ _. place < length tree.now.entries) }
{
    if place < tree.len() {
        Some(*tree.entry(place))
    } else {
        None
    }
}

/// The height of a kept block.
pub(crate) fn height_of(tree: &Tree, place: u32) -> u64 {
    match entry_at(tree, place) {
        Some(entry) => entry.number,
        None => 0,
    }
}

/// Whether a kept block is on the branch of a parent.
pub fn is_on_branch(tree: &Tree, parent: u32, place: u32) -> bool {
    if place >= tree.len() || parent >= tree.len() {
        return false;
    }
    let number = tree.entry(place).number;
    if tree.entry(parent).number < number {
        return false;
    }
    tree.ancestor(parent, number) == place
}

/// The median time at a kept block, in milliseconds.
pub fn median_of(tree: &Tree, place: u32) -> u64 {
    if place < tree.len() {
        tree.median(place)
    } else {
        0
    }
}

impl<'s, 't, 'o, 'w, 'b, C: Cells> Site<'s, 't, 'o, 'w, 'b, C> {
    /// The height of the block that the transaction stands in.
    pub(crate) fn height(&self) -> u64 {
        height_of(self.tree, self.parent).saturating_add(1)
    }

    /// Whether that block stands under the second edition of the rules.
    pub(crate) fn is_second(&self) -> bool {
        self.spec.is_second_at(self.height())
    }

    pub(crate) fn row(&self, o: &OutPoint) -> Option<CellMeta> {
        self.cells.get(o)
    }

    /// The height of the block that made a cell.
    pub(crate) fn made_at(&self, meta: &CellMeta) -> u64 {
        match entry_at(self.tree, meta.block) {
            Some(entry) => entry.number,
            None => self.height(),
        }
    }

    /// The time from which a relative since counts for a cell, in milliseconds.
    pub(crate) fn start_of(&self, meta: &CellMeta) -> u64 {
        match entry_at(self.tree, meta.block) {
            None => self.own_start(),
            Some(entry) => {
                if self.is_second() || meta.block == 0 {
                    entry.timestamp
                } else {
                    median_of(self.tree, entry.parent)
                }
            }
        }
    }

    /// The same for a cell of the block itself.
    fn own_start(&self) -> u64 {
        match self.own {
            Some(own) if self.is_second() => own.timestamp,
            _ => median_of(self.tree, self.parent),
        }
    }
}
