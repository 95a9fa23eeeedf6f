// The page of a block that was judged on its parent, of a node that is not used on.
ghost use Rattle.std.specs.Prelude.{◌≡◌, Err};
ghost use Rattle.outside.specs.Causes.{CountsFault};
ghost use Rattle.outside.specs.declared.disk.ReadStop.TheVariants.{DiskFault};
ghost use Rattle.node_store.specs.Node.{IsOwnDiskWhereTold};

use crate::block::JudgedBlock;
use crate::over_disk;
use node_store::Node;
use outside::{Disk, ReadStop, Steps};
use std::alloc::Global;
use std::sync::ledger::Ledger;

/// The page of an item that was judged as a block. The node is let go: its live cells go to the branch of the block's parent.
pub fn page_of_block<D: Disk, L: Ledger>(
    alloc: Global,
    disk: &mut D,
    node: Node,
    judged: &JudgedBlock<'_>,
    steps: &mut Steps<L>,
) -> Result<String, ReadStop>
    requires own { IsOwnDiskWhereTold node (D.reads_as disk.old) (D.images disk.old) }
    ensures content { D.content_of disk.new ≡ D.content_of disk.old }
    ensures cause { CountsFault (D.faults disk.old) (D.faults disk.new) (result ≡ Err DiskFault) }
{
    let Node {
        kept,
        state,
        log,
        body,
        mut cache,
    } = node;
    let page = over_disk::block_on(alloc, disk, &mut cache, &kept, state, judged, steps);
    drop((kept, log, body, cache));
    page
}
