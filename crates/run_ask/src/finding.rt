// The same of a node, with the blocks that it holds in memory.
ghost use Rattle.std.specs.Prelude.{◌≡◌, Err, IfOk, IsSome};
ghost use Rattle.std.specs.Option.{option_map};
ghost use Rattle.outside.specs.declared.disk.Damage.{Damage};
ghost use Rattle.outside.specs.declared.disk.ReadStop.TheVariants.{Damaged};
ghost use Rattle.chain_defs.specs.Tip.{best_branch};
ghost use Rattle.chain_tree.specs.Reading.{stop_of};
ghost use Rattle.node_store.specs.Node.{IsOwnDiskWhereTold, LeavesAll};
ghost use Rattle.run_ask.specs.Finding.{IsNamed, AreRowsOf};

use crate::over_disk;
use node_store::Node;
use outside::{Disk, ReadStop};
use std::alloc::Global;
use transaction_index::Row;

/// The bytes of the kept block with a hash.
pub fn named<D: Disk>(
    alloc: Global,
    disk: &mut D,
    node: &mut Node,
    hash: &[u8; 32],
) -> Result<Option<Vec<u8>>, ReadStop>
    requires own { IsOwnDiskWhereTold node.old (D.reads_as disk.old) (D.images disk.old) }
    ensures left { LeavesAll D.content_of D.reads_as D.images D.faults disk.old disk.new node.old node.new (stop_of result) }
    ensures block { IsSome (D.reads_as disk.old) → IfOk result (λ found. IsNamed node.old.chain hash.now (option_map (λ bytes. bytes.items) found)) }
    ensures undamaged { IsSome (D.reads_as disk.old) → (damage : Damage) → result ≡ Err (Damaged damage) → ⊥ }
{
    over_disk::named(alloc, disk, &mut node.cache, &node.kept, hash)
}

/// The rows of the transactions that the best branch committed.
pub fn committed_rows<D: Disk>(
    alloc: Global,
    disk: &mut D,
    node: &mut Node,
) -> Result<Vec<Row>, ReadStop>
    requires own { IsOwnDiskWhereTold node.old (D.reads_as disk.old) (D.images disk.old) }
    ensures left { LeavesAll D.content_of D.reads_as D.images D.faults disk.old disk.new node.old node.new (stop_of result) }
    ensures rows { IsSome (D.reads_as disk.old) → IfOk result (λ rows. AreRowsOf (best_branch node.old.chain.blocks) rows.items) }
    ensures undamaged { IsSome (D.reads_as disk.old) → (damage : Damage) → result ≡ Err (Damaged damage) → ⊥ }
{
    over_disk::committed_rows(alloc, disk, &mut node.cache, &node.kept)
}
