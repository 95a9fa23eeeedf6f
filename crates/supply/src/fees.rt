// What a kept block commits in fees, and what its cellbase pays.
ghost use Rattle.std.specs.Prelude.{◌≡◌, ◌<◌, ◌^◌, ℕ, List, length, Some, Err, IfOk, IfSome, IsTrue};
ghost use Rattle.std.specs.List.{sum};
ghost use Rattle.chain_defs.specs.Schema.{Block};
ghost use Rattle.chain_defs.specs.Specification.{Specification};
ghost use Rattle.chain_defs.specs.Kept.{block_at, parent_place};
ghost use Rattle.chain_defs.specs.Branch.{branch};
ghost use Rattle.chain_defs.specs.Ext.{is_ext};
ghost use Rattle.outside.specs.declared.disk.Damage.{Damage};
ghost use Rattle.outside.specs.declared.disk.ReadStop.TheVariants.{Damaged};
ghost use Rattle.chain_tree.specs.Damages.{IsOfBlock};
ghost use Rattle.chain_tree.specs.Told.{Stored, blocks_of};
ghost use Rattle.chain_tree.specs.Reading.{HasRead, stop_of};
ghost use Rattle.rewards.specs.Reading.{AreKnownBlocks, YieldsUndamaged};
ghost use Rattle.supply_defs.specs.Step.{fees_of, paid_by};
ghost use Rattle.supply.specs.Moving.{HasFees};

use crate::outputs;
use cell_state::fee_in;
use chain_tree::{Blocks, Tree, damaged_at};
use outside::ReadStop;

/// The sum of the first fees of an ext, so many. None where it has fewer.
fn fees_in(ext: &[u8], count: usize) -> Option<u128>
    requires form { IsTrue (is_ext ext.now) }
    requires few { count < 2 ^ 30 }
    ensures sum { (fees : List ℕ) → HasFees ext.now fees → count ≡ length fees → result ≡ Some (sum fees) }
    ensures fits { IfSome result (λ sum. sum < 2 ^ 94) }
{
    let mut sum: u128 = 0;
    'fees: for i in 0..count {
        match fee_in(ext, i as u32 + 1) {
            Some(fee) => sum += u128::from(fee),
            None => return None,
        }
    }
    Some(sum)
}

/// The fees that the kept block at a place commits, in sum, and what its cellbase pays, in shannons. Damaged, at the block's
/// record, where the source finds it damaged, or its ext lacks fees.
pub(crate) fn flows_at<B: Blocks>(
    tree: &Tree,
    blocks: &mut B,
    place: u32,
) -> Result<(u128, u128), ReadStop>
    requires later { 0 < place }
    requires within { place < length tree.now.entries }
    requires counts { B.count blocks.old ≡ length tree.now.entries }
    ensures read { HasRead B.told B.count B.loans_of B.faults B.damages blocks.old blocks.new (stop_of result) }
    ensures of_block { (stored : List Stored) → B.told blocks.old ≡ Some stored → (damage : Damage) → result ≡ Err (Damaged damage) → IsOfBlock tree.now.entries damage }
    ensures flows { (spec : Specification) (stored : List Stored) (parent : ℕ) (b : Block) → AreKnownBlocks spec (B.told blocks.old) tree.now.entries stored
        → parent_place (blocks_of stored) place ≡ Some parent → block_at (blocks_of stored) place ≡ Some b
        → YieldsUndamaged (λ flows. flows ≡ (fees_of spec (branch (blocks_of stored) parent) b, paid_by b)) result }
    ensures fits { IfOk result (λ flows. (flows.0 < 2 ^ 94) × (flows.1 < 2 ^ 94)) }
{
    match blocks.bring(place) {
        Ok(()) => {}
        Err(stop) => return Err(stop),
    }
    let block = blocks.block();
    let paid = outputs::paid_by(&block);
    let count = block.transactions_count().saturating_sub(1);
    match fees_in(blocks.spent(), count) {
        Some(fees) => Ok((fees, paid)),
        None => Err(damaged_at(tree, blocks, place)),
    }
}
