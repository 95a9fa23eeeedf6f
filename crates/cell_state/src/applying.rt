// One kept block at a time: the cells of the genesis, and the events of a block after it.
ghost use Rattle.std.specs.Prelude.{◌≡◌, ◌≤◌, ◌<◌, ◌+◌, ℕ, List, length, Some, None, Err, IfOk, OnOk, IfSome, IsSome};
ghost use Rattle.chain_defs.specs.Schema.{OutPoint, Block};
ghost use Rattle.outside.specs.declared.disk.Damage.{Damage};
ghost use Rattle.outside.specs.declared.disk.ReadStop.TheVariants.{Damaged};
ghost use Rattle.chain_defs.specs.Kept.{block_at};
ghost use Rattle.chain_tree.specs.Blocks.{IndexesBlocks};
ghost use Rattle.chain_tree.specs.Told.{Stored, blocks_of};
ghost use Rattle.chain_tree.specs.Reading.{HasRead, stop_of};
ghost use Rattle.chain_defs.specs.Events.{events_of_block};
ghost use Rattle.chain_defs.specs.Row.{row_after};
ghost use Rattle.chain_defs.specs.Fit.{are_live, AllFit};
ghost use Rattle.cell_state.specs.State.{rows};
ghost use Rattle.chain_tree.specs.Damages.{IsAtRecord};
ghost use Rattle.cell_state.specs.Moves.{AreRowsBelow, AreRowsOfBranch, IsOfHand};

use crate::{State, outputs_in};
use chain_tree::{Blocks, Tree, damaged_at};
use mol_schema::BlockView;
use outside::{ReadStop, Steps};
use std::alloc::Global;
use std::sync::ledger::Ledger;
use view_hashes::transaction_hashes;

/// The cells that the genesis leaves, from which the branch of any other place can be gone to. Damaged where the source finds
/// it damaged.
pub fn genesis_cells<B: Blocks>(
    alloc: Global,
    tree: &Tree,
    blocks: &mut B,
) -> Result<State, ReadStop>
    requires some { 0 < length tree.now.entries }
    requires counts { B.count blocks.old ≡ length tree.now.entries }
    ensures read { HasRead B.told B.count B.loans_of B.faults B.damages blocks.old blocks.new (stop_of result) }
    ensures rows { (stored : List Stored) → B.told blocks.old ≡ Some stored → IndexesBlocks (blocks_of stored) tree.now.entries
        → IfOk result (λ state. AreRowsOfBranch (blocks_of stored) 0 (rows state)) }
    ensures below { IfOk result (λ state. AreRowsBelow 1 (rows state)) }
    ensures undamaged { (stored : List Stored) → B.told blocks.old ≡ Some stored → (damage : Damage) → result ≡ Err (Damaged damage) → ⊥ }
{
    match blocks.bring(0) {
        Ok(()) => {}
        Err(stop) => return Err(stop),
    }
    let block = blocks.block();
    let hashes = match transaction_hashes(alloc, &block) {
        Ok(hashes) => hashes,
        Err(_) => return Err(ReadStop::NoMemory),
    };
    match State::genesis(alloc, &block, &hashes) {
        Ok(state) => Ok(state),
        Err(_) => Err(ReadStop::NoMemory),
    }
}

/// Takes the events of the kept block at a place, which is not the genesis. Damaged where the source finds it damaged, or
/// its events do not fit.
pub(crate) fn apply_at<B: Blocks, L: Ledger>(
    alloc: Global,
    state: &mut State,
    tree: &Tree,
    blocks: &mut B,
    place: u32,
    steps: &mut Steps<L>,
) -> Result<(), ReadStop>
    requires within { place < length tree.now.entries }
    requires counts { B.count blocks.old ≡ length tree.now.entries }
    ensures read { HasRead B.told B.count B.loans_of B.faults B.damages blocks.old blocks.new (stop_of result) }
    ensures rows { (stored : List Stored) (b : Block) → B.told blocks.old ≡ Some stored → block_at (blocks_of stored) place ≡ Some b
        → OnOk result ((height : ℕ) (o : OutPoint) → 0 < height → rows state.new o ≡ row_after place (events_of_block height b) (rows state.old) o) }
    ensures below { (end : ℕ) → place < end → AreRowsBelow end (rows state.old) → OnOk result (AreRowsBelow end (rows state.new)) }
    ensures fit { (stored : List Stored) (b : Block) → B.told blocks.old ≡ Some stored → block_at (blocks_of stored) place ≡ Some b
        → OnOk result ((height : ℕ) → 0 < height → AllFit (events_of_block height b) (are_live (rows state.old))) }
    ensures undamaged { (stored : List Stored) (b : Block) (height : ℕ) → B.told blocks.old ≡ Some stored → block_at (blocks_of stored) place ≡ Some b
        → 0 < height → AllFit (events_of_block height b) (are_live (rows state.old)) → (damage : Damage) → result ≡ Err (Damaged damage) → ⊥ }
    ensures at_record { IsSome (B.told blocks.old) → (damage : Damage) → result ≡ Err (Damaged damage) → IsAtRecord tree.now.entries place damage }
    ensures steps { OnOk result (steps.new ≡ steps.old + 1) }
    ensures most { steps.new ≤ steps.old + 1 }
    ensures in_hand { (damage : Damage) → result ≡ Err (Damaged damage) → IfSome (B.in_hand blocks.new) (IsOfHand tree.now.entries (λ e. e ≡ place) damage) }
{
    match blocks.bring(place) {
        Ok(()) => {}
        Err(stop) => return Err(stop),
    }
    let block = blocks.block();
    match state.reserve(outputs_in(&block)) {
        Ok(()) => {}
        Err(_) => return Err(ReadStop::NoMemory),
    }
    let hashes = match transaction_hashes(alloc, &block) {
        Ok(hashes) => hashes,
        Err(_) => return Err(ReadStop::NoMemory),
    };
    match state.apply(&block, &hashes, place, steps) {
        Ok(()) => Ok(()),
        Err(_) => Err(damaged_at(tree, blocks, place)),
    }
}
