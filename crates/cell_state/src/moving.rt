// From the rows of one place's branch to those of another's.
ghost use Rattle.std.specs.Prelude.{◌≡◌, ◌≤◌, ◌<◌, ◌+◌, ℕ, List, length, Some, Err, IfOk, OnOk, IfSome, IsSome, slice_get};
ghost use Rattle.chain_defs.specs.Schema.{Block};
ghost use Rattle.outside.specs.declared.disk.Damage.{Damage};
ghost use Rattle.outside.specs.declared.disk.ReadStop.TheVariants.{Damaged};
ghost use Rattle.chain_defs.specs.Branch.{distance};
ghost use Rattle.chain_tree.specs.Blocks.{IndexesBlocks};
ghost use Rattle.chain_tree.specs.Told.{Stored, blocks_of};
ghost use Rattle.chain_tree.specs.Reading.{HasRead, stop_of};
ghost use Rattle.chain_defs.specs.Fit.{BranchFits};
ghost use Rattle.cell_state.specs.State.{rows};
ghost use Rattle.chain_tree.specs.Damages.{IsAtRecord};
ghost use Rattle.cell_state.specs.Moves.{CanGoDown, AreRowsBelow, AreRowsOfBranch, IsPathUp, IsOnTheWay, AreOnTheWay, IsOfHand};

use crate::State;
use crate::applying::apply_at;
use crate::parent::parent_in;
use crate::taking_back::undo_at;
use chain_tree::{Blocks, Tree};
use outside::{ReadStop, Steps};
use std::alloc::Global;
use std::sync::ledger::Ledger;

/// Takes blocks back from one place down to the fork with another. Answers the fork, and the places after it on the
/// branch of the other, the last first. The later of two places is not on the branch of the earlier one, so it is always
/// the later one that goes down to its parent.
fn go_down<B: Blocks, L: Ledger>(
    alloc: Global,
    state: &mut State,
    tree: &Tree,
    blocks: &mut B,
    from: u32,
    to: u32,
    steps: &mut Steps<L>,
) -> Result<(u32, Vec<u32>), ReadStop>
    requires from { from < length tree.now.entries }
    requires to { to < length tree.now.entries }
    requires counts { B.count blocks.old ≡ length tree.now.entries }
    ensures read { HasRead B.told B.count B.loans_of B.faults B.damages blocks.old blocks.new (stop_of result) }
    ensures within { IfOk result (λ it. (i place : ℕ) → slice_get it.1.items i ≡ Some place → place < length tree.now.entries) }
    ensures up_to { IfOk result (λ it. (i place : ℕ) → slice_get it.1.items i ≡ Some place → place ≤ to) }
    ensures below { (end : ℕ) → from < end → AreRowsBelow end (rows state.old) → IfOk result (λ it. AreRowsBelow end (rows state.new)) }
    ensures on_way { (kept : List Block) → IndexesBlocks kept tree.now.entries → IfOk result (λ it. AreOnTheWay kept from to it.1.items) }
    ensures path { (kept : List Block) → IndexesBlocks kept tree.now.entries → IfOk result (λ it. IsPathUp kept to it.1.items it.0) }
    ensures rows { (stored : List Stored) → B.told blocks.old ≡ Some stored → IndexesBlocks (blocks_of stored) tree.now.entries
        → CanGoDown stored from to → AreRowsOfBranch (blocks_of stored) from (rows state.old) → IfOk result (λ it. AreRowsOfBranch (blocks_of stored) it.0 (rows state.new)) }
    ensures undamaged { (stored : List Stored) → B.told blocks.old ≡ Some stored → IndexesBlocks (blocks_of stored) tree.now.entries
        → CanGoDown stored from to → AreRowsOfBranch (blocks_of stored) from (rows state.old) → (damage : Damage) → result ≡ Err (Damaged damage) → ⊥ }
    ensures at_record { (kept : List Block) → IndexesBlocks kept tree.now.entries → IsSome (B.told blocks.old) → (damage : Damage) → result ≡ Err (Damaged damage)
        → (place : ℕ) × (IsOnTheWay kept from to place × IsAtRecord tree.now.entries place damage) }
    ensures steps { (kept : List Block) → IndexesBlocks kept tree.now.entries
        → IfOk result (λ it. steps.new + length it.1.items ≡ steps.old + distance kept from to) }
    ensures most { (kept : List Block) → IndexesBlocks kept tree.now.entries → steps.new ≤ steps.old + distance kept from to }
    ensures in_hand { (kept : List Block) → IndexesBlocks kept tree.now.entries → (damage : Damage) → result ≡ Err (Damaged damage)
        → IfSome (B.in_hand blocks.new) (IsOfHand tree.now.entries (IsOnTheWay kept from to) damage) }
{
    let mut up = Vec::new(alloc);
    let mut low = from;
    let mut high = to;
    'down: while low != high {
        if low < high {
            match up.push(high) {
                Ok(()) => {}
                Err(_) => return Err(ReadStop::NoMemory),
            }
            match parent_in(tree, high) {
                Some(parent) => high = parent,
                None => unreachable!(),
            }
        } else {
            match undo_at(alloc, state, tree, blocks, low, steps) {
                Ok(()) => {}
                Err(stop) => return Err(stop),
            }
            match parent_in(tree, low) {
                Some(parent) => low = parent,
                None => unreachable!(),
            }
        }
    }
    Ok((low, up))
}

/// Goes from the live cells of the branch of one place to those of another's: down to their fork, a block taken back each
/// step, and up from there, a block applied each step. Damaged, at its record, where the source finds a block on the way
/// damaged, or its ext or its events do not fit the cells: that block is then still in hand, whatever the source is. Rows of blocks before a place that is after both stay so, whatever
/// the source is. After an error the cells are gone.
pub fn go_to<B: Blocks, L: Ledger>(
    alloc: Global,
    state: State,
    tree: &Tree,
    blocks: &mut B,
    from: u32,
    to: u32,
    steps: &mut Steps<L>,
) -> Result<State, ReadStop>
    requires from { from < length tree.now.entries }
    requires to { to < length tree.now.entries }
    requires counts { B.count blocks.old ≡ length tree.now.entries }
    ensures read { HasRead B.told B.count B.loans_of B.faults B.damages blocks.old blocks.new (stop_of result) }
    ensures rows { (stored : List Stored) → B.told blocks.old ≡ Some stored → IndexesBlocks (blocks_of stored) tree.now.entries
        → CanGoDown stored from to → AreRowsOfBranch (blocks_of stored) from (rows state) → IfOk result (λ there. AreRowsOfBranch (blocks_of stored) to (rows there)) }
    ensures below { (end : ℕ) → from < end → to < end → AreRowsBelow end (rows state) → IfOk result (λ there. AreRowsBelow end (rows there)) }
    ensures undamaged { (stored : List Stored) → B.told blocks.old ≡ Some stored → IndexesBlocks (blocks_of stored) tree.now.entries
        → CanGoDown stored from to → AreRowsOfBranch (blocks_of stored) from (rows state) → BranchFits (blocks_of stored) to
        → (damage : Damage) → result ≡ Err (Damaged damage) → ⊥ }
    ensures at_record { (kept : List Block) → IndexesBlocks kept tree.now.entries → IsSome (B.told blocks.old) → (damage : Damage) → result ≡ Err (Damaged damage)
        → (place : ℕ) × (IsOnTheWay kept from to place × IsAtRecord tree.now.entries place damage) }
    ensures steps { (kept : List Block) → IndexesBlocks kept tree.now.entries
        → OnOk result (steps.new ≡ steps.old + distance kept from to) }
    ensures most { (kept : List Block) → IndexesBlocks kept tree.now.entries → steps.new ≤ steps.old + distance kept from to }
    ensures in_hand { (kept : List Block) → IndexesBlocks kept tree.now.entries → (damage : Damage) → result ≡ Err (Damaged damage)
        → IfSome (B.in_hand blocks.new) (IsOfHand tree.now.entries (IsOnTheWay kept from to) damage) }
{
    let mut state = state;
    let (_, up) = match go_down(alloc, &mut state, tree, blocks, from, to, steps) {
        Ok(down) => down,
        Err(stop) => return Err(stop),
    };
    let count = up.len();
    'up: for i in 0..count {
        let place = up[count - i - 1];
        match apply_at(alloc, &mut state, tree, blocks, place, steps) {
            Ok(()) => {}
            Err(stop) => return Err(stop),
        }
    }
    Ok(state)
}
