// How the live cells go from one branch to another.
ghost use Rattle.std.specs.Prelude.{◌≡◌, ◌≤◌, ◌+◌, ◌-◌, ◌<◌, ℕ, length, Err, IfOk, OnOk, IsSome};
ghost use Rattle.chain_defs.specs.Branch.{distance};
ghost use Rattle.outside.specs.declared.disk.Damage.{Damage};
ghost use Rattle.outside.specs.declared.disk.ReadStop.TheVariants.{Damaged};
ghost use Rattle.cell_state.specs.State.{rows};
ghost use Rattle.chain_tree.specs.Damages.{IsAtRecord};
ghost use Rattle.cell_state.specs.Moves.{AreRowsOfBranch};
ghost use Rattle.chain_tree.specs.Reading.{HasRead, stop_of};
ghost use Rattle.node_store.specs.Kept.{HoldsJoined, AreRowsOfKept};

use crate::kept::Kept;
use cell_state::{State, go_to};
use chain_tree::Blocks;
use outside::{ReadStop, Steps};
use std::alloc::Global;
use std::sync::ledger::Ledger;

impl Kept {
    /// Leads the live cells of the branch of one place to those of another's: a step for each block of their distance.
    pub fn moved<B: Blocks, L: Ledger>(
        &self,
        alloc: Global,
        blocks: &mut B,
        state: State,
        from: u32,
        to: u32,
        steps: &mut Steps<L>,
    ) -> Result<State, ReadStop>
        requires from { from < length self.now.chain.blocks }
        requires to { to < length self.now.chain.blocks }
        requires counts { B.count blocks.old ≡ length self.now.chain.blocks }
        ensures read { HasRead B.told B.count B.loans_of B.faults B.damages blocks.old blocks.new (stop_of result) }
        ensures cells { HoldsJoined self.now (B.told blocks.old) → AreRowsOfBranch self.now.chain.blocks from (rows state)
            → IfOk result (λ there. AreRowsOfBranch self.now.chain.blocks to (rows there)) }
        ensures below { AreRowsOfKept self.now.chain.blocks (rows state) → IfOk result (λ there. AreRowsOfKept self.now.chain.blocks (rows there)) }
        ensures undamaged { HoldsJoined self.now (B.told blocks.old) → AreRowsOfBranch self.now.chain.blocks from (rows state)
            → (damage : Damage) → result ≡ Err (Damaged damage) → ⊥ }
        ensures at_record { IsSome (B.told blocks.old) → (damage : Damage) → result ≡ Err (Damaged damage)
            → (place : ℕ) × IsAtRecord self.now.entries place damage }
        ensures steps { OnOk result (steps.new ≡ steps.old + distance self.now.chain.blocks from to) }
        ensures most { steps.new ≤ steps.old + distance self.now.chain.blocks from to }
    {
        go_to(alloc, state, &self.tree, blocks, from, to, steps)
    }
}
