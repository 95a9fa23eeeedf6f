// What one block moves.
ghost use Rattle.std.specs.Prelude.{◌≡◌, ◌+◌, ◌<◌, ◌^◌, ℕ, List, length, Some, Err, IfSome, OnOk, IsTrue};
ghost use Rattle.chain_defs.specs.Schema.{Block};
ghost use Rattle.chain_defs.specs.Specification.{keeps_s3};
ghost use Rattle.chain_defs.specs.Dao.{miner_part};
ghost use Rattle.chain_defs.specs.Kept.{block_at, parent_place};
ghost use Rattle.chain_defs.specs.Branch.{branch};
ghost use Rattle.outside.specs.declared.disk.Damage.{Damage};
ghost use Rattle.outside.specs.declared.disk.ReadStop.TheVariants.{Damaged};
ghost use Rattle.chain_tree.specs.Damages.{IsOfBlock};
ghost use Rattle.chain_tree.specs.declared.entry.Entry.{Entry};
ghost use Rattle.chain_tree.specs.Entries.{entry_at};
ghost use Rattle.chain_tree.specs.Blocks.{AreRated, IndexesBlocks};
ghost use Rattle.chain_tree.specs.Told.{Stored, blocks_of};
ghost use Rattle.chain_tree.specs.Reading.{HasRead, stop_of};
ghost use Rattle.rewards.specs.Reading.{YieldsUndamaged};
ghost use Rattle.supply_defs.specs.Step.{Moves, step_by, step_of};
ghost use Rattle.supply.specs.Moving.{step_back};
ghost use Rattle.supply.specs.Standing.{HaveJoined};

use crate::due::due_at;
use crate::fees::flows_at;
use chain_tree::{Blocks, Tree, damaged_at};
use dao_math::{Dao, miner_share};
use epochs::{Spec, primary, share};
use outside::ReadStop;
use std::alloc::Global;
use std::marker::Model;

/// What comes to a total and what goes from it, in shannons.
#[derive(Clone, Copy)]
pub(crate) struct Change {
    pub comes: u128,
    pub goes: u128,
}

impl Model for Change {
    ghost use Rattle.supply_defs.specs.Step.{Change as ChangeValue};

    ghost Value = { ChangeValue };

    ghost view = { λ change. record { comes = change.comes; goes = change.goes } };

    ghost inverse = { λ change. record { comes = change.comes; goes = change.goes } };
}

impl Change {
    fn back(self) -> Change
        ensures { result ≡ record { comes = self.goes; goes = self.comes } }
    {
        Change {
            comes: self.goes,
            goes: self.comes,
        }
    }

    /// A total with the change made. None where it is below 0, or 2^125 or above.
    pub(crate) fn made(&self, before: u128) -> Option<u128>
        ensures moves { IfSome result (Moves self.now before) }
        ensures bounded { IfSome result (λ after. after < 2 ^ 125) }
        ensures made { (after : ℕ) → Moves self.now before after → after < 2 ^ 125 → result ≡ Some after }
    {
        let after = if self.comes >= self.goes {
            before.checked_add(self.comes - self.goes)?
        } else {
            before.checked_sub(self.goes - self.comes)?
        };
        if after >= 1 << 125 {
            return None;
        }
        Some(after)
    }
}

/// What a block moves: for each of the four totals a change.
#[derive(Drop)]
pub(crate) struct Step {
    pub live: Change,
    pub occupied: Change,
    pub unpaid: Change,
    pub burned: Change,
}

impl Model for Step {
    ghost use Rattle.supply_defs.specs.Step.{Step as StepValue};

    ghost Value = { StepValue };

    ghost view = { λ step. record { live = step.live; occupied = step.occupied; unpaid = step.unpaid; burned = step.burned } };
}

impl Step {
    /// The step of numbers: the DAO fields of a block and its parent, the block's shares, its fees, what its cellbase pays
    /// and what it was to pay. None where the miner's part is 2^121 or above, more than any totals hold.
    fn by(
        before: &Dao,
        after: &Dao,
        primary: u64,
        secondary: u64,
        fees: u128,
        paid: u128,
        owed: u64,
    ) -> Option<Step>
        requires issued { 0 < before.now.issued }
        requires fees { fees < 2 ^ 94 }
        requires paid { paid < 2 ^ 94 }
        ensures { miner_part before.now secondary < 2 ^ 121 → result ≡ Some (step_by before.now after.now primary secondary fees paid owed) }
    {
        let miner = miner_share(before, secondary);
        if miner >= 1 << 121 {
            return None;
        }
        Some(Step {
            live: Change {
                comes: paid + u128::from(before.s) + u128::from(secondary),
                goes: fees + u128::from(after.s) + miner,
            },
            occupied: Change {
                comes: u128::from(after.u),
                goes: u128::from(before.u),
            },
            unpaid: Change {
                comes: u128::from(primary) + miner + fees,
                goes: u128::from(owed),
            },
            burned: Change {
                comes: u128::from(owed),
                goes: paid,
            },
        })
    }

    /// The step taken back.
    pub(crate) fn back(&self) -> Step
        ensures { result ≡ step_back self.now }
    {
        Step {
            live: self.live.back(),
            occupied: self.occupied.back(),
            unpaid: self.unpaid.back(),
            burned: self.burned.back(),
        }
    }
}

/// The place of the parent of the block at a place, above the genesis.
pub(crate) fn parent_at(tree: &Tree, place: u32) -> u32
    requires later { 0 < place }
    requires within { place < length tree.now.entries }
    ensures within { result < length tree.now.entries }
    ensures next { (child parent : Entry) → entry_at tree.now.entries place ≡ Some child → entry_at tree.now.entries result ≡ Some parent → child.number ≡ parent.number + 1 }
    ensures of_blocks { (kept : List Block) → IndexesBlocks kept tree.now.entries → parent_place kept place ≡ Some result }
{
    // each entry above the genesis follows an earlier one
    let _ = tree.len();
    tree.entry(place).parent
}

/// The step of the kept block at a place, above the genesis. Damaged, at a block's record, where the source finds one
/// damaged, an ext lacks fees, the block was to pay more than the greatest u64, or a miner's part is past all totals.
pub(crate) fn step_at<B: Blocks>(
    alloc: Global,
    spec: &Spec,
    tree: &Tree,
    blocks: &mut B,
    place: u32,
) -> Result<Step, ReadStop>
    requires later { 0 < place }
    requires within { place < length tree.now.entries }
    requires rated { AreRated tree.now.entries }
    requires counts { B.count blocks.old ≡ length tree.now.entries }
    ensures read { HasRead B.told B.count B.loans_of B.faults B.damages blocks.old blocks.new (stop_of result) }
    ensures of_block { (stored : List Stored) → B.told blocks.old ≡ Some stored → (damage : Damage) → result ≡ Err (Damaged damage) → IsOfBlock tree.now.entries damage }
    ensures window { OnOk result (IsTrue (keeps_s3 spec.now.w_close spec.now.w_far)) }
    ensures step { (stored : List Stored) (parent : ℕ) (b : Block) → HaveJoined spec.now (B.told blocks.old) tree.now.entries stored
        → parent_place (blocks_of stored) place ≡ Some parent → block_at (blocks_of stored) place ≡ Some b
        → YieldsUndamaged (λ step. step ≡ step_of spec.now (branch (blocks_of stored) parent) b) result }
{
    let (fees, paid) = match flows_at(tree, blocks, place) {
        Ok(flows) => flows,
        Err(stop) => return Err(stop),
    };
    let parent = parent_at(tree, place);
    let entry = tree.entry(place);
    let height = entry.number;
    let secondary = share(spec.epoch_length, height, spec.secondary_reward);
    let owed = match due_at(alloc, spec, tree, blocks, parent, height) {
        Ok(Some(owed)) => owed,
        Ok(None) => return Err(damaged_at(tree, blocks, place)),
        Err(stop) => return Err(stop),
    };
    let step = Step::by(
        &Dao::read(&tree.entry(parent).dao),
        &Dao::read(&entry.dao),
        primary(spec, height),
        secondary,
        fees,
        paid,
        owed,
    );
    match step {
        Some(step) => Ok(step),
        None => Err(damaged_at(tree, blocks, place)),
    }
}
