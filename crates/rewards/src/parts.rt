// The reward of a block, by its parts.
ghost use Rattle.std.specs.Prelude.{◌≡◌, ◌+◌, ◌-◌, ◌<◌, ◌≤◌, List, length, Some, Err, IfOk, IsSomeAnd, pos};
ghost use Rattle.outside.specs.declared.disk.Damage.{Damage};
ghost use Rattle.outside.specs.declared.disk.ReadStop.TheVariants.{Damaged};
ghost use Rattle.chain_defs.specs.Schema.{Block};
ghost use Rattle.chain_defs.specs.Dao.{as_u64, miner_part};
ghost use Rattle.chain_defs.specs.Branch.{branch};
ghost use Rattle.chain_tree.specs.Damages.{IsOfBlock};
ghost use Rattle.chain_tree.specs.Entries.{entry_at};
ghost use Rattle.chain_tree.specs.Blocks.{AreRated, IndexesBlocks};
ghost use Rattle.chain_tree.specs.Told.{Stored, blocks_of};
ghost use Rattle.chain_tree.specs.Reading.{HasRead, stop_of};
ghost use Rattle.rule_defs.specs.Shares.{primary_at, secondary_at};
ghost use Rattle.rule_defs.specs.Reward.{field_at, part};
ghost use Rattle.rewards.specs.Own.{HaveOwnFees};

use crate::amounts::plus;
use crate::fees::committed_at;
use crate::proposals::proposed_by;
use chain_tree::{Blocks, Tree};
use dao_math::{Dao, miner_share};
use epochs::{Spec, primary, share};
use outside::{Damage, ReadStop};
use std::alloc::Global;

/// What the block at a height is issued: its primary share, and the miner's part of its secondary share.
fn issued(spec: &Spec, tree: &Tree, parent: u32, height: u64) -> Option<u64>
    requires later { 1 ≤ height }
    requires height { IsSomeAnd (entry_at tree.now.entries parent) (λ entry. height ≤ entry.number) }
    requires rated { AreRated tree.now.entries }
    ensures { (kept : List Block) → IndexesBlocks kept tree.now.entries
        → result ≡ as_u64 (pos (primary_at spec.now height + miner_part (field_at (branch kept parent) (height - 1)) (secondary_at spec.now height))) }
{
    let before = Dao::read(&tree.entry(tree.ancestor(parent, height - 1)).dao);
    let secondary = share(spec.epoch_length, height, spec.secondary_reward);
    let miner = u64::try_from(miner_share(&before, secondary)).ok();
    plus(Some(primary(spec, height)), miner)
}

/// The reward of the block at a height of the branch of a kept block, in shannons. None where it is above the greatest
/// u64. Damaged, at a block's record, where the source finds a block damaged, or an ext has fewer fees than its block has
/// transactions after the first.
pub fn reward<B: Blocks>(
    alloc: Global,
    spec: &Spec,
    tree: &Tree,
    blocks: &mut B,
    parent: u32,
    target: u64,
) -> Result<Option<u64>, ReadStop>
    requires parent { parent < length tree.now.entries }
    requires target { 1 ≤ target }
    requires far { IsSomeAnd (entry_at tree.now.entries parent) (λ entry. target + spec.now.w_far ≤ entry.number) }
    requires rated { AreRated tree.now.entries }
    requires counts { B.count blocks.old ≡ length tree.now.entries }
    ensures read { HasRead B.told B.count B.loans_of B.faults B.damages blocks.old blocks.new (stop_of result) }
    ensures of_block { (stored : List Stored) → B.told blocks.old ≡ Some stored → (damage : Damage) → result ≡ Err (Damaged damage) → IsOfBlock tree.now.entries damage }
    ensures reward { (stored : List Stored) → B.told blocks.old ≡ Some stored → IndexesBlocks (blocks_of stored) tree.now.entries → HaveOwnFees spec.now stored
        → IfOk result (λ found. found ≡ as_u64 (pos (part spec.now (branch (blocks_of stored) parent) target))) }
    ensures undamaged { (stored : List Stored) → B.told blocks.old ≡ Some stored → IndexesBlocks (blocks_of stored) tree.now.entries → HaveOwnFees spec.now stored
        → (damage : Damage) → result ≡ Err (Damaged damage) → ⊥ }
{
    let committed = match committed_at(tree, blocks, parent, target) {
        Ok(committed) => committed,
        Err(stop) => return Err(stop),
    };
    let proposed = match proposed_by(alloc, spec, tree, blocks, parent, target) {
        Ok(proposed) => proposed,
        Err(stop) => return Err(stop),
    };
    Ok(plus(
        plus(issued(spec, tree, parent, target), committed),
        proposed,
    ))
}
