// Where the best branch committed a transaction, by an index of those that it committed.
ghost use Rattle.std.specs.Prelude.{◌≡◌, Err, IfOk, IsSome};
ghost use Rattle.chain_defs.specs.Tip.{best_branch};
ghost use Rattle.report_defs.specs.Status.{IsOneOf};
ghost use Rattle.node_store.specs.Node.{IsOwnDiskWhereTold};
ghost use Rattle.run_text.specs.Store.{OnlyReads, opening_stops};
ghost use Rattle.run_store.specs.Keeping.{KeepsNode};
ghost use Rattle.run_ask.specs.Finding.{IsCommitted, IndexesCommitted};

use crate::finding::committed_rows;
use node_store::Node;
use outside::Disk;
use report_defs::Status;
use run_store::status_of_reading;
use std::alloc::Global;
use transaction_index::TransactionIndex;

/// A transaction that the best branch committed: the number and the hash of the block, and its place there.
#[derive(Clone, Copy)]
pub struct Committed {
    pub number: u64,
    pub hash: [u8; 32],
    pub place: u32,
}

/// Makes the index of the best branch. It looks at each block of it once.
pub fn index_of<D: Disk>(
    alloc: Global,
    disk: &mut D,
    node: &mut Node,
) -> Result<TransactionIndex, Status>
    requires own { IsOwnDiskWhereTold node.old (D.reads_as disk.old) (D.images disk.old) }
    ensures disk { OnlyReads D.content_of D.faults disk.old disk.new (result ≡ Err Status.DiskFault) }
    ensures node { KeepsNode node.old node.new (D.reads_as disk.new) (D.images disk.new) }
    ensures indexes { IsSome (D.reads_as disk.old) → IfOk result (IndexesCommitted (best_branch node.old.chain.blocks)) }
    ensures stop { (status : Status) → result ≡ Err status → IsOneOf opening_stops status }
    ensures sound { IsSome (D.reads_as disk.old) → result ≡ Err Status.NotAStore → ⊥ }
{
    let rows = match committed_rows(alloc, disk, node) {
        Ok(rows) => rows,
        Err(stop) => return Err(status_of_reading(stop)),
    };
    Ok(TransactionIndex::of(rows))
}

/// Where the best branch committed the transaction with a hash, by its index.
pub fn find_committed(node: &Node, index: &TransactionIndex, hash: &[u8; 32]) -> Option<Committed>
    ensures { IndexesCommitted (best_branch node.now.chain.blocks) index.now → IsCommitted node.now.chain.blocks hash.now result }
{
    let row = match index.find(hash) {
        Some(row) => row,
        None => return None,
    };
    let tree = node.tree();
    let tip = tree.tip();
    let number = u64::from(row.number);
    // (never above the tip, where the index is of the best branch)
    if tree.entry(tip).number < number {
        return None;
    }
    let entry = tree.entry(tree.ancestor(tip, number));
    Some(Committed {
        number,
        hash: entry.hash,
        place: row.place,
    })
}
