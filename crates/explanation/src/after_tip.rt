// The page of a transaction after the tip of a node.
ghost use Rattle.std.specs.Prelude.{◌≡◌};
ghost use Rattle.chain_defs.specs.Hashes.{transaction_hash};
ghost use Rattle.chain_tree.specs.Reading.{stop_of};
ghost use Rattle.node_store.specs.Node.{IsOwnDiskWhereTold, LeavesAll};

use crate::over_disk;
use node_store::Node;
use outside::{Disk, ReadStop};
use std::alloc::Global;
use transaction_page::Judged;

/// The page of a transaction that was judged alone after the tip.
pub fn page_of_transaction<D: Disk>(
    alloc: Global,
    disk: &mut D,
    node: &mut Node,
    judged: &Judged<'_, '_>,
) -> Result<String, ReadStop>
    requires own { IsOwnDiskWhereTold node.old (D.reads_as disk.old) (D.images disk.old) }
    requires hash { judged.now.hash ≡ transaction_hash judged.now.tx.now }
    ensures left { LeavesAll D.content_of D.reads_as D.images D.faults disk.old disk.new node.old node.new (stop_of result) }
{
    over_disk::transaction_on(
        alloc,
        disk,
        &mut node.cache,
        &node.kept,
        &node.state,
        judged,
    )
}
