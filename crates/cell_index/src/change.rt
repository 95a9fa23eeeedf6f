// What one kept block changes, and an index that takes it.
ghost use Rattle.std.specs.Prelude.{◌≡◌, ◌<◌, ℕ, List, Option, Some, None, Err, length, IfOk, OnOk, IsSome, slice_get};
ghost use Rattle.chain_defs.specs.Schema.{OutPoint as out_point};
ghost use Rattle.outside.specs.declared.disk.Damage.{Damage};
ghost use Rattle.outside.specs.declared.disk.ReadStop.TheVariants.{Damaged};
ghost use Rattle.chain_tree.specs.Damages.{IsAtRecord};
ghost use Rattle.chain_tree.specs.Told.{Stored, blocks_of};
ghost use Rattle.chain_tree.specs.Reading.{HasRead, stop_of};
ghost use Rattle.chain_defs.specs.Events.{events_of_block};
ghost use Rattle.chain_defs.specs.Ext as exts;
ghost use Rattle.chain_defs.specs.Fits.{FitsExt};
ghost use Rattle.chain_defs.specs.Row.{Row, row_after, ListsRows};
ghost use Rattle.chain_defs.specs.Undo.{with_rows, first_live};
ghost use Rattle.chain_defs.specs.Schema.{Block};
ghost use Rattle.chain_tree.specs.Blocks.{IndexesBlocks};
ghost use Rattle.cell_state.specs.Moves.{IsOnTheWay};
ghost use Rattle.cell_index.specs.declared.stop.Stop.TheVariants.{Odd};
ghost use Rattle.cell_index.specs.Index.{Holds, IndexesBranch, without_all, AreThere};
ghost use Rattle.cell_index.specs.Follow.{CanBeFollowed};

use crate::Index;
use crate::following::{Follows, moved};
use crate::stop::Stop;
use cell_state::{CellMeta, Ext, OutPoint, State};
use chain_tree::{Blocks, Tree, damaged_at};
use mol_schema::BlockView;
use outside::{NoMemory, ReadStop};
use std::alloc::Global;
use view_hashes::transaction_hashes;

/// What a block changes: the rows of cells that were live before it and that it spends, and those of the cells that it makes and
/// does not spend itself.
#[derive(Drop)]
struct Change {
    spent: Vec<(OutPoint, CellMeta)>,
    left: Vec<(OutPoint, CellMeta)>,
}

/// The rows of the cells that a block at a place makes and does not spend itself.
pub(crate) fn left_by(
    alloc: Global,
    block: &BlockView<'_>,
    place: u32,
) -> Result<Vec<(OutPoint, CellMeta)>, NoMemory>
    ensures { (height : ℕ) → 0 < height → IfOk result (λ list. ListsRows (row_after place (events_of_block height block.now) (λ _. None)) list.items) }
{
    let hashes = transaction_hashes(alloc, block)?;
    let state = State::left_by(alloc, block, &hashes, place)?;
    state.sorted(alloc)
}

/// The rows that the kept block at a place spends, which is not the genesis. It is then the current one.
pub(crate) fn spent_at<B: Blocks>(
    alloc: Global,
    blocks: &mut B,
    place: u32,
) -> Result<Vec<(OutPoint, CellMeta)>, ReadStop>
    requires later { 0 < place }
    requires within { place < B.count blocks.old }
    ensures read { HasRead B.told B.count B.loans_of B.faults B.damages blocks.old blocks.new (stop_of result) }
    ensures taken { OnOk result (B.in_hand blocks.new ≡ Some place) }
    ensures spent { (stored : List Stored) (it : Stored) (ext : exts.Ext) → B.told blocks.old ≡ Some stored → slice_get stored place ≡ Some it
        → FitsExt ext → exts.ext_bytes ext ≡ it.ext → IfOk result (λ spent. spent.items ≡ ext.spent) }
    ensures undamaged { IsSome (B.told blocks.old) → (damage : Damage) → result ≡ Err (Damaged damage) → ⊥ }
{
    match blocks.bring(place) {
        Ok(()) => {}
        Err(stop) => return Err(stop),
    }
    match Ext::read(alloc, blocks.spent()) {
        Ok(Some(ext)) => Ok(ext.spent),
        Ok(None) => unreachable!(),
        Err(_) => Err(ReadStop::NoMemory),
    }
}

/// What the kept block at a place changes, which is not the genesis.
fn change_at<B: Blocks>(alloc: Global, blocks: &mut B, place: u32) -> Result<Change, ReadStop>
    requires later { 0 < place }
    requires within { place < B.count blocks.old }
    ensures read { HasRead B.told B.count B.loans_of B.faults B.damages blocks.old blocks.new (stop_of result) }
    ensures spent { (stored : List Stored) (it : Stored) (ext : exts.Ext) → B.told blocks.old ≡ Some stored → slice_get stored place ≡ Some it
        → FitsExt ext → exts.ext_bytes ext ≡ it.ext → IfOk result (λ change. change.spent.items ≡ ext.spent) }
    ensures left { (stored : List Stored) (it : Stored) (height : ℕ) → B.told blocks.old ≡ Some stored → slice_get stored place ≡ Some it
        → 0 < height → IfOk result (λ change. ListsRows (row_after place (events_of_block height it.block) (λ _. None)) change.left.items) }
    ensures undamaged { IsSome (B.told blocks.old) → (damage : Damage) → result ≡ Err (Damaged damage) → ⊥ }
{
    let spent = match spent_at(alloc, blocks, place) {
        Ok(spent) => spent,
        Err(stop) => return Err(stop),
    };
    match left_by(alloc, &blocks.block(), place) {
        Ok(left) => Ok(Change { spent, left }),
        Err(_) => Err(ReadStop::NoMemory),
    }
}

impl Index {
    /// Without some cells, and then with others.
    fn exchanged(
        self,
        gone: &[(OutPoint, CellMeta)],
        come: &[(OutPoint, CellMeta)],
    ) -> Result<Index, Stop>
        ensures rows { (rows : out_point → Option Row) → Holds rows self → AreThere gone.now rows → first_live come.now (without_all gone.now rows) ≡ None
            → IfOk result (Holds (with_rows come.now (without_all gone.now rows))) }
        ensures odd { (rows : out_point → Option Row) → Holds rows self → AreThere gone.now rows → first_live come.now (without_all gone.now rows) ≡ None
            → result ≡ Err Odd → ⊥ }
    {
        match self.without_all(gone) {
            Ok(rest) => rest.with_all(come),
            Err(stop) => Err(stop),
        }
    }
}

impl Follows for Index {
    ghost use Rattle.cell_index.specs.Index.{stands_for_all};

    ghost What = { Unit {0} };

    ghost stands = { stands_for_all };

    fn taken<B: Blocks>(
        self,
        alloc: Global,
        tree: &Tree,
        blocks: &mut B,
        place: u32,
    ) -> Result<Index, ReadStop> {
        let change = match change_at(alloc, blocks, place) {
            Ok(change) => change,
            Err(stop) => return Err(stop),
        };
        match self.exchanged(&change.spent, &change.left) {
            Ok(index) => Ok(index),
            Err(Stop::Odd) => Err(damaged_at(tree, blocks, place)),
            Err(Stop::NoMemory) => Err(ReadStop::NoMemory),
        }
    }

    fn taken_back<B: Blocks>(
        self,
        alloc: Global,
        tree: &Tree,
        blocks: &mut B,
        place: u32,
    ) -> Result<Index, ReadStop> {
        let change = match change_at(alloc, blocks, place) {
            Ok(change) => change,
            Err(stop) => return Err(stop),
        };
        match self.exchanged(&change.left, &change.spent) {
            Ok(index) => Ok(index),
            Err(Stop::Odd) => Err(damaged_at(tree, blocks, place)),
            Err(Stop::NoMemory) => Err(ReadStop::NoMemory),
        }
    }
}

impl Index {
    /// The index of the branch of one place, moved to that of another: down to their fork, a block taken back each step, and up
    /// from there, a block taken each step. It looks at the blocks on the way and at nothing else. Damaged, at its record, where
    /// the source finds a block on the way damaged, or what it changes does not fit the index. After an error the index is gone.
    pub fn follow<B: Blocks>(
        self,
        alloc: Global,
        tree: &Tree,
        blocks: &mut B,
        from: u32,
        to: u32,
    ) -> Result<Index, ReadStop>
        requires from { from < length tree.now.entries }
        requires to { to < length tree.now.entries }
        requires counts { B.count blocks.old ≡ length tree.now.entries }
        ensures read { HasRead B.told B.count B.loans_of B.faults B.damages blocks.old blocks.new (stop_of result) }
        ensures stands { (stored : List Stored) → B.told blocks.old ≡ Some stored → IndexesBlocks (blocks_of stored) tree.now.entries
            → CanBeFollowed stored from to → IndexesBranch (blocks_of stored) from self → IfOk result (IndexesBranch (blocks_of stored) to) }
        ensures undamaged { (stored : List Stored) → B.told blocks.old ≡ Some stored → IndexesBlocks (blocks_of stored) tree.now.entries
            → CanBeFollowed stored from to → IndexesBranch (blocks_of stored) from self → (damage : Damage) → result ≡ Err (Damaged damage) → ⊥ }
        ensures at_record { (kept : List Block) → IndexesBlocks kept tree.now.entries → IsSome (B.told blocks.old) → (damage : Damage) → result ≡ Err (Damaged damage)
            → (place : ℕ) × (IsOnTheWay kept from to place × IsAtRecord tree.now.entries place damage) }
    {
        moved(alloc, self, tree, blocks, from, to)
    }
}
