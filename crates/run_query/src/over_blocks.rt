// The balances of the best branch, over what is kept and a source of kept blocks.
ghost use Rattle.std.specs.Prelude.{◌≡◌, length};
ghost use Rattle.chain_tree.specs.Reading.{HasRead, stop_of};
ghost use Rattle.rewards.specs.Reading.{YieldsUndamaged};
ghost use Rattle.node_store.specs.Kept.{HoldsJoined};
ghost use Rattle.run_query.specs.Queries.{balances_of};

use chain_tree::Blocks;
use dao_math::Dao;
use node_store::Kept;
use outside::ReadStop;
use std::alloc::Global;
use supply::Totals;

/// What is left of the tip's DAO field after the totals of its branch.
pub(crate) fn balances<B: Blocks>(
    alloc: Global,
    kept: &Kept,
    blocks: &mut B,
) -> Result<(i128, i128), ReadStop>
    requires counts { B.count blocks.old ≡ length kept.now.chain.blocks }
    ensures read { HasRead B.told B.count B.loans_of B.faults B.damages blocks.old blocks.new (stop_of result) }
    ensures balances { HoldsJoined kept.now (B.told blocks.old) → YieldsUndamaged (λ left. left ≡ balances_of kept.now.chain) result }
{
    let tip = kept.tree.tip();
    let totals = match Totals::of_branch(alloc, &kept.spec, &kept.tree, blocks, tip) {
        Ok(totals) => totals,
        Err(stop) => return Err(stop),
    };
    Ok(totals.left(&Dao::read(&kept.tree.entry(tip).dao)))
}
