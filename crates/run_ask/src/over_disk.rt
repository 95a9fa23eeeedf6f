// The same over a disk: each call makes a source of kept blocks of the disk and the cache, and lets it go.
ghost use Rattle.std.specs.Prelude.{◌≡◌, Err, IfOk, IfSome, IsSome};
ghost use Rattle.std.specs.Option.{option_map};
ghost use Rattle.outside.specs.declared.disk.Damage.{Damage};
ghost use Rattle.outside.specs.declared.disk.ReadStop.TheVariants.{Damaged};
ghost use Rattle.chain_defs.specs.Tip.{best_branch};
ghost use Rattle.chain_tree.specs.Reading.{stop_of};
ghost use Rattle.node_store.specs.Node.{LogHoldsKept, HasOnlyRead};
ghost use Rattle.run_ask.specs.Finding.{IsNamed, AreRowsOf};

use crate::over_blocks;
use node_store::{Cache, Kept, Store};
use outside::{Disk, ReadStop};
use std::alloc::Global;
use transaction_index::Row;

/// The bytes of the kept block with a hash.
pub(crate) fn named<D: Disk>(
    alloc: Global,
    disk: &mut D,
    cache: &mut Cache,
    kept: &Kept,
    hash: &[u8; 32],
) -> Result<Option<Vec<u8>>, ReadStop>
    requires own { IfSome (D.reads_as disk.old) (LogHoldsKept kept.now cache.old.held) }
    ensures looked { HasOnlyRead D.content_of D.reads_as D.faults disk.old disk.new kept.now cache.old cache.new (stop_of result) }
    ensures block { IsSome (D.reads_as disk.old) → IfOk result (λ found. IsNamed kept.now.chain hash.now (option_map (λ bytes. bytes.items) found)) }
    ensures undamaged { IsSome (D.reads_as disk.old) → (damage : Damage) → result ≡ Err (Damaged damage) → ⊥ }
{
    let mut store = Store::new(alloc, disk, &kept.tree, cache);
    over_blocks::named(alloc, kept, &mut store, hash)
}

/// The rows of the transactions that the best branch committed.
pub(crate) fn committed_rows<D: Disk>(
    alloc: Global,
    disk: &mut D,
    cache: &mut Cache,
    kept: &Kept,
) -> Result<Vec<Row>, ReadStop>
    requires own { IfSome (D.reads_as disk.old) (LogHoldsKept kept.now cache.old.held) }
    ensures looked { HasOnlyRead D.content_of D.reads_as D.faults disk.old disk.new kept.now cache.old cache.new (stop_of result) }
    ensures rows { IsSome (D.reads_as disk.old) → IfOk result (λ rows. AreRowsOf (best_branch kept.now.chain.blocks) rows.items) }
    ensures undamaged { IsSome (D.reads_as disk.old) → (damage : Damage) → result ≡ Err (Damaged damage) → ⊥ }
{
    let mut store = Store::new(alloc, disk, &kept.tree, cache);
    over_blocks::committed_rows(alloc, kept, &mut store)
}
