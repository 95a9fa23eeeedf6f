// The cellbase of the block that is assembled.
ghost use Rattle.std.specs.Prelude.{◌≡◌, ◌<◌, ◌^◌, List, [], length, Some, Err, IfOk, IfErr};
ghost use Rattle.outside.specs.declared.disk.Damage.{Damage};
ghost use Rattle.outside.specs.declared.disk.ReadStop.TheVariants.{Damaged, NoMemory as no_memory};
ghost use Rattle.chain_defs.specs.Shape.{IsEncoding, encoded};
ghost use Rattle.chain_defs.specs.Schema as schema;
ghost use Rattle.chain_defs.specs.Kept.{block_at};
ghost use Rattle.chain_defs.specs.Branch.{branch};
ghost use Rattle.chain_tree.specs.Blocks.{IsParent, IndexesBlocks};
ghost use Rattle.chain_tree.specs.Told.{Stored, blocks_of};
ghost use Rattle.chain_tree.specs.Reading.{HasRead, stop_of};
ghost use Rattle.rule_defs.specs.Payment as payment;
ghost use Rattle.rewards.specs.Own.{HaveOwnFees};
ghost use Rattle.pool_defs.specs.Start as start;

use block_judge::lock_of;
use chain_tree::{Blocks, Tree};
use epochs::Spec;
use mol_schema::{BlockView, CellbaseWitnessView, ScriptView};
use outside::{NoMemory, ReadStop};
use pool_rows::{cellbase_alone, cellbase_paying};
use rewards::reward;
use std::alloc::Global;
use view_hashes::occupied;

/// The cellbase at a height, where a reward of so many shannons is owed to a lock.
fn cellbase_to(
    alloc: Global,
    height: u64,
    lock: &ScriptView<'_>,
    reward: u64,
    witness: &CellbaseWitnessView<'_>,
) -> Result<Vec<u8>, NoMemory>
    requires witness { length (encoded schema.cellbase_witness witness.now) < 2 ^ 28 }
    ensures cellbase { IfOk result (λ bytes. IsEncoding schema.transaction bytes.items
        (start.cellbase_with height (start.owed_outputs (payment.owed_to (Some lock.now) reward)) witness.now)) }
    ensures size { IfOk result (λ bytes. length bytes.items < 2 ^ 30) }
{
    if reward < occupied(lock.args().len() as u32, None, 0) {
        return cellbase_alone(alloc, height, witness);
    }
    cellbase_paying(alloc, height, lock, reward, witness)
}

/// The same, where it is owed for a block.
fn cellbase_for(
    alloc: Global,
    height: u64,
    paid: &BlockView<'_>,
    reward: u64,
    witness: &CellbaseWitnessView<'_>,
) -> Result<Vec<u8>, NoMemory>
    requires witness { length (encoded schema.cellbase_witness witness.now) < 2 ^ 28 }
    ensures cellbase { IfOk result (λ bytes. IsEncoding schema.transaction bytes.items
        (start.cellbase_with height (start.owed_outputs (payment.owed_to (payment.lock_of (Some paid.now)) reward)) witness.now)) }
    ensures size { IfOk result (λ bytes. length bytes.items < 2 ^ 30) }
{
    match lock_of(paid) {
        Some(lock) => cellbase_to(alloc, height, &lock, reward, witness),
        None => cellbase_alone(alloc, height, witness),
    }
}

/// The same for the kept block at a place.
fn cellbase_at<B: Blocks>(
    alloc: Global,
    blocks: &mut B,
    height: u64,
    place: u32,
    reward: u64,
    witness: &CellbaseWitnessView<'_>,
) -> Result<Vec<u8>, ReadStop>
    requires within { place < B.count blocks.old }
    requires witness { length (encoded schema.cellbase_witness witness.now) < 2 ^ 28 }
    ensures read { HasRead B.told B.count B.loans_of B.faults B.damages blocks.old blocks.new (stop_of result) }
    ensures canonical { IfOk result (λ bytes. (t : schema.Transaction) × IsEncoding schema.transaction bytes.items t) }
    ensures size { IfOk result (λ bytes. length bytes.items < 2 ^ 30) }
    ensures cellbase { (stored : List Stored) → B.told blocks.old ≡ Some stored → IfOk result (λ bytes. IsEncoding schema.transaction bytes.items
        (start.cellbase_with height (start.owed_outputs (payment.owed_to (payment.lock_of (block_at (blocks_of stored) place)) reward)) witness.now)) }
    ensures undamaged { (stored : List Stored) → B.told blocks.old ≡ Some stored → (damage : Damage) → result ≡ Err (Damaged damage) → ⊥ }
{
    match blocks.bring(place) {
        Ok(()) => {}
        Err(stop) => return Err(stop),
    }
    match cellbase_for(alloc, height, &blocks.block(), reward, witness) {
        Ok(bytes) => Ok(bytes),
        Err(_) => Err(ReadStop::NoMemory),
    }
}

/// The same with no output.
fn alone(alloc: Global, height: u64, witness: &CellbaseWitnessView<'_>) -> Result<Vec<u8>, ReadStop>
    requires witness { length (encoded schema.cellbase_witness witness.now) < 2 ^ 28 }
    ensures cellbase { IfOk result (λ bytes. IsEncoding schema.transaction bytes.items (start.cellbase_with height [] witness.now)) }
    ensures size { IfOk result (λ bytes. length bytes.items < 2 ^ 30) }
    ensures stop { IfErr result (λ stop. stop ≡ no_memory) }
{
    match cellbase_alone(alloc, height, witness) {
        Ok(bytes) => Ok(bytes),
        Err(_) => Err(ReadStop::NoMemory),
    }
}

/// The cellbase of the block after a kept block, with this witness. It has no output where none is owed, or what is owed
/// cannot be paid.
pub(crate) fn cellbase_after<B: Blocks>(
    alloc: Global,
    spec: &Spec,
    tree: &Tree,
    blocks: &mut B,
    parent: u32,
    witness: &CellbaseWitnessView<'_>,
) -> Result<Vec<u8>, ReadStop>
    requires placed { IsParent tree.now.entries parent }
    requires counts { B.count blocks.old ≡ length tree.now.entries }
    requires witness { length (encoded schema.cellbase_witness witness.now) < 2 ^ 28 }
    ensures read { HasRead B.told B.count B.loans_of B.faults B.damages blocks.old blocks.new (stop_of result) }
    ensures canonical { IfOk result (λ bytes. (t : schema.Transaction) × IsEncoding schema.transaction bytes.items t) }
    ensures size { IfOk result (λ bytes. length bytes.items < 2 ^ 30) }
    ensures cellbase { (stored : List Stored) → B.told blocks.old ≡ Some stored → IndexesBlocks (blocks_of stored) tree.now.entries
        → HaveOwnFees spec.now stored
        → IfOk result (λ bytes. IsEncoding schema.transaction bytes.items (start.cellbase spec.now (branch (blocks_of stored) parent) witness.now)) }
    ensures undamaged { (stored : List Stored) → B.told blocks.old ≡ Some stored → IndexesBlocks (blocks_of stored) tree.now.entries
        → HaveOwnFees spec.now stored → (damage : Damage) → result ≡ Err (Damaged damage) → ⊥ }
{
    let height = tree.entry(parent).number + 1;
    let delay = u64::from(spec.w_far) + 1;
    if height <= delay {
        return alone(alloc, height, witness);
    }
    let paid = height - delay;
    match reward(alloc, spec, tree, blocks, parent, paid) {
        Ok(Some(reward)) => {
            cellbase_at(
                alloc,
                blocks,
                height,
                tree.ancestor(parent, paid),
                reward,
                witness,
            )
        }
        Ok(None) => alone(alloc, height, witness),
        Err(stop) => Err(stop),
    }
}
