// One kept block that is taken back.
ghost use Rattle.std.specs.Prelude.{◌≡◌, ◌≤◌, ◌<◌, ◌+◌, ℕ, List, length, Option, Some, Err, OnOk, IfSome, IsSome, slice_get};
ghost use Rattle.std.specs.List.{list_all};
ghost use Rattle.chain_defs.specs.Schema.{OutPoint as out_point};
ghost use Rattle.outside.specs.declared.disk.Damage.{Damage};
ghost use Rattle.outside.specs.declared.disk.ReadStop.TheVariants.{Damaged};
ghost use Rattle.chain_tree.specs.Told.{Stored};
ghost use Rattle.chain_tree.specs.Reading.{HasRead, stop_of};
ghost use Rattle.chain_defs.specs.Row.{Row};
ghost use Rattle.cell_state.specs.State.{rows};
ghost use Rattle.chain_tree.specs.Damages.{IsAtRecord};
ghost use Rattle.cell_state.specs.Moves.{AreRowsBelow, CanBeTakenBack, IsOfHand, is_below};

use crate::{CellMeta, Ext, OutPoint, State};
use chain_tree::{Blocks, Tree, damaged_at};
use outside::{ReadStop, Steps};
use std::alloc::Global;
use std::sync::ledger::Ledger;
use view_hashes::transaction_hashes;

/// Whether rows are of blocks before a place.
fn are_below(rows: &[(OutPoint, CellMeta)], place: u32) -> bool
    ensures { result ≡ list_all (is_below place) rows.now }
{
    'rows: for row in rows {
        if row.1.block >= place {
            return false;
        }
    }
    true
}

/// Takes the kept block at a place back, which is not the genesis, with its ext. Damaged where the source finds it
/// damaged, or a row of the ext cannot be put back: its cell is live, or is of no block before this one.
pub(crate) fn undo_at<B: Blocks, L: Ledger>(
    alloc: Global,
    state: &mut State,
    tree: &Tree,
    blocks: &mut B,
    place: u32,
    steps: &mut Steps<L>,
) -> Result<(), ReadStop>
    requires later { 0 < place }
    requires within { place < length tree.now.entries }
    requires counts { B.count blocks.old ≡ length tree.now.entries }
    ensures read { HasRead B.told B.count B.loans_of B.faults B.damages blocks.old blocks.new (stop_of result) }
    ensures rows { (stored : List Stored) (it : Stored) (before : out_point → Option Row) → B.told blocks.old ≡ Some stored → slice_get stored place ≡ Some it
        → CanBeTakenBack it.block it.ext (rows state.old) before → OnOk result ((o : out_point) → rows state.new o ≡ before o) }
    ensures undamaged { (stored : List Stored) (it : Stored) (before : out_point → Option Row) → B.told blocks.old ≡ Some stored → slice_get stored place ≡ Some it
        → CanBeTakenBack it.block it.ext (rows state.old) before → AreRowsBelow place before → (damage : Damage) → result ≡ Err (Damaged damage) → ⊥ }
    ensures below { (end : ℕ) → place < end → AreRowsBelow end (rows state.old) → OnOk result (AreRowsBelow end (rows state.new)) }
    ensures at_record { IsSome (B.told blocks.old) → (damage : Damage) → result ≡ Err (Damaged damage) → IsAtRecord tree.now.entries place damage }
    ensures steps { OnOk result (steps.new ≡ steps.old + 1) }
    ensures most { steps.new ≤ steps.old + 1 }
    ensures in_hand { (damage : Damage) → result ≡ Err (Damaged damage) → IfSome (B.in_hand blocks.new) (IsOfHand tree.now.entries (λ e. e ≡ place) damage) }
{
    match blocks.bring(place) {
        Ok(()) => {}
        Err(stop) => return Err(stop),
    }
    let ext = match Ext::read(alloc, blocks.spent()) {
        Ok(Some(ext)) => ext,
        Ok(None) => unreachable!(),
        Err(_) => return Err(ReadStop::NoMemory),
    };
    if !are_below(&ext.spent, place) {
        return Err(damaged_at(tree, blocks, place));
    }
    match state.reserve(ext.spent.len() as u64) {
        Ok(()) => {}
        Err(_) => return Err(ReadStop::NoMemory),
    }
    let block = blocks.block();
    let hashes = match transaction_hashes(alloc, &block) {
        Ok(hashes) => hashes,
        Err(_) => return Err(ReadStop::NoMemory),
    };
    match state.undo(&block, &hashes, &ext, steps) {
        Ok(()) => Ok(()),
        Err(_) => Err(damaged_at(tree, blocks, place)),
    }
}
