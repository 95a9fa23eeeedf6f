// The running totals.
ghost use Rattle.std.specs.Prelude.{◌≡◌, ◌+◌, ◌<◌, ℕ, List, length, Some, Err, IfOk, IfSome, OnOk, OnErr, None, pos, ◌-ℤ◌, [], ◌∷◌};
ghost use Rattle.std.specs.List.{sum_by};
ghost use Rattle.chain_defs.specs.Schema.{Block};
ghost use Rattle.chain_defs.specs.First.{first_failing};
ghost use Rattle.chain_defs.specs.Specification.{Specification};
ghost use Rattle.chain_defs.specs.Kept.{parent_place};
ghost use Rattle.chain_defs.specs.Branch.{branch};
ghost use Rattle.outside.specs.declared.disk.Damage.{Damage};
ghost use Rattle.outside.specs.declared.disk.ReadStop.TheVariants.{Damaged};
ghost use Rattle.chain_tree.specs.Damages.{IsOfBlock};
ghost use Rattle.chain_tree.specs.Blocks.{AreRated};
ghost use Rattle.chain_tree.specs.Told.{Stored, blocks_of};
ghost use Rattle.chain_tree.specs.Reading.{HasRead, stop_of};
ghost use Rattle.rule_defs.specs.Genesis.{genesis_rules};
ghost use Rattle.rule_defs.specs.Capacity.{held_out};
ghost use Rattle.rule_defs.specs.Field.{made_by};
ghost use Rattle.rewards.specs.Reading.{YieldsUndamaged};
ghost use Rattle.supply_defs.specs.Sums.{Sums};
ghost use Rattle.supply_defs.specs.Step.{MovesBy, last_field};
ghost use Rattle.supply_defs.specs.Laws.{supply_balance, occupied_balance};
ghost use Rattle.supply.specs.declared.totals.Totals as declared;
ghost use Rattle.supply.specs.Standing.{sums_in, AreTotalsOf, AreBounded, HaveJoined};

use crate::outputs;
use crate::step::{Step, parent_at, step_at};
use chain_tree::{Blocks, Tree, damaged_at};
use dao_math::Dao;
use epochs::Spec;
use mol_schema::BlockView;
use outside::ReadStop;
use std::alloc::Global;

/// Where what a chain has issued is, along a branch. In shannons but for the height.
#[derive(Clone, Copy, Debug, PartialEq, Eq)]
pub struct Totals {
    /// That of the branch's last block.
    pub height: u64,
    /// The capacity of the live cells.
    pub live: u128,
    /// What they occupy.
    pub occupied: u128,
    /// What blocks were given that no cellbase was to pay yet: their shares, and those of the fees that the branch commits.
    pub unpaid: u128,
    /// The rewards that a cellbase was to pay and did not, being below what an output occupies.
    pub burned: u128,
}

impl Totals {
    /// Those of a genesis: all its outputs.
    pub fn genesis(block: BlockView<'_>) -> Totals
        ensures totals { result ≡ record { height = 0; live = sum_by held_out block.entry.transactions; occupied = sum_by made_by block.entry.transactions; unpaid = 0; burned = 0 } }
        ensures of_genesis { (spec : Specification) → first_failing (genesis_rules block.entry) ≡ None → AreTotalsOf spec (block.entry ∷ []) result }
        ensures bounded { AreBounded result }
    {
        let mut live: u128 = 0;
        let mut occupied: u128 = 0;
        'transactions: for i in 0..block.transactions_count() {
            let tx = block.transactions_item(i);
            live += outputs::held_out(&tx);
            occupied += outputs::made_by(&tx);
        }
        Totals {
            height: 0,
            live,
            occupied,
            unpaid: 0,
            burned: 0,
        }
    }

    /// The totals after a step, at a height. None where one of them is below 0, or 2^125 or above.
    fn after(&self, height: u64, step: &Step) -> Option<Totals>
        ensures bounded { IfSome result AreBounded }
        ensures after { (totals : declared.Totals) → MovesBy step.now (sums_in self.now) (sums_in totals) → totals.height ≡ height → AreBounded totals → result ≡ Some totals }
    {
        Some(Totals {
            height,
            live: step.live.made(self.live)?,
            occupied: step.occupied.made(self.occupied)?,
            unpaid: step.unpaid.made(self.unpaid)?,
            burned: step.burned.made(self.burned)?,
        })
    }

    /// Takes the kept block at a place, which is not the genesis, after the branch of its parent. After an `Err` the totals
    /// are as they were. Damaged, at a block's record, where the source finds one damaged, an ext lacks fees, the block was to
    /// pay more than the greatest u64, or a total does not fit the step, which never comes over blocks that have joined.
    pub fn add<B: Blocks>(
        &mut self,
        alloc: Global,
        spec: &Spec,
        tree: &Tree,
        blocks: &mut B,
        e: u32,
    ) -> Result<(), ReadStop>
        requires later { 0 < e }
        requires within { e < length tree.now.entries }
        requires rated { AreRated tree.now.entries }
        requires counts { B.count blocks.old ≡ length tree.now.entries }
        ensures read { HasRead B.told B.count B.loans_of B.faults B.damages blocks.old blocks.new (stop_of result) }
        ensures of_block { (stored : List Stored) → B.told blocks.old ≡ Some stored → (damage : Damage) → result ≡ Err (Damaged damage) → IsOfBlock tree.now.entries damage }
        ensures kept { OnErr result (self.new ≡ self.old) }
        ensures bounded { OnOk result (AreBounded self.new) }
        ensures added { (stored : List Stored) (parent : ℕ) → HaveJoined spec.now (B.told blocks.old) tree.now.entries stored
            → parent_place (blocks_of stored) e ≡ Some parent → AreTotalsOf spec.now (branch (blocks_of stored) parent) self.old
            → YieldsUndamaged (λ _. AreTotalsOf spec.now (branch (blocks_of stored) e) self.new) result }
    {
        let step = match step_at(alloc, spec, tree, blocks, e) {
            Ok(step) => step,
            Err(stop) => return Err(stop),
        };
        match self.after(tree.entry(e).number, &step) {
            Some(after) => *self = after,
            None => return Err(damaged_at(tree, blocks, e)),
        }
        Ok(())
    }

    /// Takes the kept block at a place, which is not the genesis, back: the totals of its branch become those of its parent's.
    /// Stops as `add` does.
    pub fn take<B: Blocks>(
        &mut self,
        alloc: Global,
        spec: &Spec,
        tree: &Tree,
        blocks: &mut B,
        e: u32,
    ) -> Result<(), ReadStop>
        requires later { 0 < e }
        requires within { e < length tree.now.entries }
        requires rated { AreRated tree.now.entries }
        requires counts { B.count blocks.old ≡ length tree.now.entries }
        ensures read { HasRead B.told B.count B.loans_of B.faults B.damages blocks.old blocks.new (stop_of result) }
        ensures of_block { (stored : List Stored) → B.told blocks.old ≡ Some stored → (damage : Damage) → result ≡ Err (Damaged damage) → IsOfBlock tree.now.entries damage }
        ensures kept { OnErr result (self.new ≡ self.old) }
        ensures bounded { OnOk result (AreBounded self.new) }
        ensures taken { (stored : List Stored) (parent : ℕ) → HaveJoined spec.now (B.told blocks.old) tree.now.entries stored
            → parent_place (blocks_of stored) e ≡ Some parent → AreTotalsOf spec.now (branch (blocks_of stored) e) self.old
            → YieldsUndamaged (λ _. AreTotalsOf spec.now (branch (blocks_of stored) parent) self.new) result }
    {
        let step = match step_at(alloc, spec, tree, blocks, e) {
            Ok(step) => step,
            Err(stop) => return Err(stop),
        };
        match self.after(tree.entry(parent_at(tree, e)).number, &step.back()) {
            Some(after) => *self = after,
            None => return Err(damaged_at(tree, blocks, e)),
        }
        Ok(())
    }

    /// Those of the branch of the kept block at a place: from the genesis on, one block after another. Stops as `add` does.
    pub fn of_branch<B: Blocks>(
        alloc: Global,
        spec: &Spec,
        tree: &Tree,
        blocks: &mut B,
        e: u32,
    ) -> Result<Totals, ReadStop>
        requires within { e < length tree.now.entries }
        requires rated { AreRated tree.now.entries }
        requires counts { B.count blocks.old ≡ length tree.now.entries }
        ensures read { HasRead B.told B.count B.loans_of B.faults B.damages blocks.old blocks.new (stop_of result) }
        ensures of_block { (stored : List Stored) → B.told blocks.old ≡ Some stored → (damage : Damage) → result ≡ Err (Damaged damage) → IsOfBlock tree.now.entries damage }
        ensures bounded { IfOk result AreBounded }
        ensures totals { (stored : List Stored) → HaveJoined spec.now (B.told blocks.old) tree.now.entries stored
            → YieldsUndamaged (AreTotalsOf spec.now (branch (blocks_of stored) e)) result }
    {
        match blocks.bring(0) {
            Ok(()) => {}
            Err(stop) => return Err(stop),
        }
        let mut totals = Totals::genesis(blocks.block());
        // numbers are below the count of entries, which is a u32
        let _ = tree.len();
        let end = tree.entry(e).number + 1;
        'heights: for height in 1..end {
            match totals.add(alloc, spec, tree, blocks, tree.ancestor(e, height)) {
                Ok(()) => {}
                Err(stop) => return Err(stop),
            }
        }
        Ok(totals)
    }

    /// What a DAO field says was issued and what live cells occupy, less what is saved, live, unpaid or burned, and less what
    /// they occupy.
    pub fn left(&self, dao: &Dao) -> (i128, i128)
        requires { AreBounded self.now }
        ensures supply { result.0 ≡ pos dao.now.issued -ℤ pos dao.now.savings -ℤ pos self.now.live -ℤ pos self.now.unpaid -ℤ pos self.now.burned }
        ensures occupied { result.1 ≡ pos dao.now.occupied -ℤ pos self.now.occupied }
        ensures balances { (spec : Specification) (branch : List Block) → AreTotalsOf spec branch self.now → last_field branch ≡ dao.now
            → result ≡ (supply_balance spec branch, occupied_balance branch) }
    {
        let held = self.live + self.unpaid + self.burned;
        let supply = i128::from(dao.c) - i128::from(dao.s) - held as i128;
        (supply, i128::from(dao.u) - self.occupied as i128)
    }
}
