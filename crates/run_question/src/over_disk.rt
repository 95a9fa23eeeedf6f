// A block assembled over a disk: the call makes a source of kept blocks of the disk and the cache, and lets it go.
ghost use Rattle.std.specs.Prelude.{◌≡◌, ◌≤◌, ◌<◌, ◌==◌, ◌-◌, ℕ, true, map, length, Err, Some, None, IfOk, IfSome, IsSome, IsTrue};
ghost use Rattle.std.specs.List.{All, list_any};
ghost use Rattle.outside.specs.declared.disk.Damage.{Damage as a_damage};
ghost use Rattle.outside.specs.declared.disk.ReadStop.TheVariants.{Damaged};
ghost use Rattle.chain_defs.specs.Kept.{kept_limit};
ghost use Rattle.chain_defs.specs.Schema as schema;
ghost use Rattle.chain_defs.specs.Shape.{encoded};
ghost use Rattle.chain_tree.specs.Reading.{stop_of};
ghost use Rattle.cell_state.specs.State.{rows};
ghost use Rattle.verdict_defs.specs.Chain.{verdict_over};
ghost use Rattle.verdict_defs.specs.Verdict.{joins};
ghost use Rattle.pool_defs.specs.Assembly.{assembled};
ghost use Rattle.pool_defs.specs.Laws.{breakable};
ghost use Rattle.pool_defs.specs.Size.{most_items, most_bytes};
ghost use Rattle.tx_pool.specs.Assembling.{IsAssembled};
ghost use Rattle.store_defs.specs.Store.{AreJoined};
ghost use Rattle.node_store.specs.Node.{LogHoldsKept, HasOnlyRead};
ghost use Rattle.node_store.specs.Kept.{AreRowsOfTip};

use crate::over_blocks;
use cell_state::State;
use mol_schema::CellbaseWitnessView;
use node_store::{Cache, Kept, Store};
use outside::{Disk, ReadStop};
use std::alloc::Global;
use tx_pool::Assembled;

/// Assembles a block after the tip, by its live cells.
pub(crate) fn assemble<D: Disk>(
    alloc: Global,
    disk: &mut D,
    cache: &mut Cache,
    kept: &Kept,
    state: &State,
    witness: &CellbaseWitnessView<'_>,
    items: &[Vec<u8>],
) -> Result<Assembled, ReadStop>
    requires items { length items.now ≤ most_items }
    requires bytes { All (λ item. length item.items ≤ most_bytes) items.now }
    requires witness { length (encoded schema.cellbase_witness witness.now) ≤ most_bytes }
    requires own { IfSome (D.reads_as disk.old) (LogHoldsKept kept.now cache.old.held) }
    ensures looked { HasOnlyRead D.content_of D.reads_as D.faults disk.old disk.new kept.now cache.old cache.new (stop_of result) }
    ensures assembled { IsSome (D.reads_as disk.old) → AreJoined kept.now.chain kept.now.exts → AreRowsOfTip kept.now.chain.blocks (rows state.now)
        → IfOk result (IsAssembled (assembled kept.now.chain witness.now (map (λ item. item.items) items.now))) }
    ensures joins { IsSome (D.reads_as disk.old) → AreJoined kept.now.chain kept.now.exts → AreRowsOfTip kept.now.chain.blocks (rows state.now)
        → length kept.now.chain.blocks < kept_limit
        → IfOk result (λ made. made.broken ≡ None → joins (verdict_over kept.now.chain made.block.items) ≡ true) }
    ensures breaks_few { IsSome (D.reads_as disk.old) → AreJoined kept.now.chain kept.now.exts → AreRowsOfTip kept.now.chain.blocks (rows state.now)
        → IfOk result (λ made. (rule : ℕ) → made.broken ≡ Some rule → IsTrue (list_any (λ other. other == rule) breakable)) }
    ensures undamaged { IsSome (D.reads_as disk.old) → AreJoined kept.now.chain kept.now.exts → AreRowsOfTip kept.now.chain.blocks (rows state.now)
        → (damage : a_damage) → result ≡ Err (Damaged damage) → ⊥ }
{
    let mut store = Store::new(alloc, disk, &kept.tree, cache);
    over_blocks::assemble(alloc, kept, &mut store, state, witness, items)
}
