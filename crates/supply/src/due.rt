// What the next block of a branch is to pay.
ghost use Rattle.std.specs.Prelude.{◌≡◌, ◌+◌, ◌<◌, List, length, Some, Err, IsSomeAnd, pos};
ghost use Rattle.chain_defs.specs.Dao.{as_u64};
ghost use Rattle.chain_defs.specs.Branch.{branch};
ghost use Rattle.outside.specs.declared.disk.Damage.{Damage};
ghost use Rattle.outside.specs.declared.disk.ReadStop.TheVariants.{Damaged};
ghost use Rattle.chain_tree.specs.Damages.{IsOfBlock};
ghost use Rattle.chain_tree.specs.Entries.{entry_at};
ghost use Rattle.chain_tree.specs.Blocks.{AreRated};
ghost use Rattle.chain_tree.specs.Told.{Stored, blocks_of};
ghost use Rattle.chain_tree.specs.Reading.{HasRead, stop_of};
ghost use Rattle.rewards.specs.Reading.{AreKnownBlocks, YieldsUndamaged};
ghost use Rattle.supply_defs.specs.Sums.{due};

use chain_tree::{Blocks, Tree};
use epochs::Spec;
use outside::ReadStop;
use rewards::reward;
use std::alloc::Global;

/// What the block at a height is to pay after the branch of a kept block, in shannons. None where it is above the greatest
/// u64. Damaged, at a block's record, as `reward` is.
pub(crate) fn due_at<B: Blocks>(
    alloc: Global,
    spec: &Spec,
    tree: &Tree,
    blocks: &mut B,
    parent: u32,
    height: u64,
) -> Result<Option<u64>, ReadStop>
    requires next { IsSomeAnd (entry_at tree.now.entries parent) (λ entry. height ≡ entry.number + 1) }
    requires rated { AreRated tree.now.entries }
    requires counts { B.count blocks.old ≡ length tree.now.entries }
    ensures read { HasRead B.told B.count B.loans_of B.faults B.damages blocks.old blocks.new (stop_of result) }
    ensures of_block { (stored : List Stored) → B.told blocks.old ≡ Some stored → (damage : Damage) → result ≡ Err (Damaged damage) → IsOfBlock tree.now.entries damage }
    ensures due { (stored : List Stored) → AreKnownBlocks spec.now (B.told blocks.old) tree.now.entries stored → length (branch (blocks_of stored) parent) ≡ height
        → YieldsUndamaged (λ found. found ≡ as_u64 (pos (due spec.now (branch (blocks_of stored) parent)))) result }
{
    let delay = u64::from(spec.w_far) + 1;
    if height <= delay {
        return Ok(Some(0));
    }
    reward(alloc, spec, tree, blocks, parent, height - delay)
}
