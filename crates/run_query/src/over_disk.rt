// The balances of the best branch, over a disk: the call makes a source of kept blocks of the disk and the cache, and lets it go.
ghost use Rattle.std.specs.Prelude.{◌≡◌, IfSome, IsSome};
ghost use Rattle.chain_tree.specs.Reading.{stop_of};
ghost use Rattle.rewards.specs.Reading.{YieldsUndamaged};
ghost use Rattle.store_defs.specs.Store.{AreJoined};
ghost use Rattle.node_store.specs.Node.{LogHoldsKept, HasOnlyRead};
ghost use Rattle.run_query.specs.Queries.{balances_of};

use crate::over_blocks;
use node_store::{Cache, Kept, Store};
use outside::{Disk, ReadStop};
use std::alloc::Global;

/// What is left of the tip's DAO field after the totals of its branch.
pub(crate) fn balances<D: Disk>(
    alloc: Global,
    disk: &mut D,
    cache: &mut Cache,
    kept: &Kept,
) -> Result<(i128, i128), ReadStop>
    requires own { IfSome (D.reads_as disk.old) (LogHoldsKept kept.now cache.old.held) }
    ensures looked { HasOnlyRead D.content_of D.reads_as D.faults disk.old disk.new kept.now cache.old cache.new (stop_of result) }
    ensures balances { IsSome (D.reads_as disk.old) → AreJoined kept.now.chain kept.now.exts → YieldsUndamaged (λ left. left ≡ balances_of kept.now.chain) result }
{
    let mut store = Store::new(alloc, disk, &kept.tree, cache);
    over_blocks::balances(alloc, kept, &mut store)
}
