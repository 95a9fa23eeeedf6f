// A block assembled after the tip of a node.
ghost use Rattle.std.specs.Prelude.{◌≡◌, ◌<◌, ◌≤◌, ◌==◌, ◌-◌, ℕ, true, Err, None, Some, map, length, IfOk, IsTrue};
ghost use Rattle.std.specs.List.{All, list_any};
ghost use Rattle.outside.specs.declared.disk.Damage.{Damage};
ghost use Rattle.outside.specs.declared.disk.ReadStop.TheVariants.{Damaged};
ghost use Rattle.chain_defs.specs.Shape.{encoded};
ghost use Rattle.chain_defs.specs.Schema as schema;
ghost use Rattle.chain_defs.specs.Kept.{kept_limit};
ghost use Rattle.chain_tree.specs.Reading.{stop_of};
ghost use Rattle.verdict_defs.specs.Chain.{verdict_over};
ghost use Rattle.verdict_defs.specs.Verdict.{joins};
ghost use Rattle.pool_defs.specs.Assembly.{assembled};
ghost use Rattle.pool_defs.specs.Laws.{breakable};
ghost use Rattle.pool_defs.specs.Size.{most_items, most_bytes};
ghost use Rattle.tx_pool.specs.Assembling.{IsAssembled};
ghost use Rattle.node_store.specs.Node.{IsOwnDiskWhereTold, IsSoundWhereTold, LeavesAll};

use crate::over_disk;
use mol_schema::CellbaseWitnessView;
use node_store::Node;
use outside::{Disk, ReadStop};
use std::alloc::Global;
use tx_pool::Assembled;

/// Assembles a block after the tip (docs/RULES.md, "A block that is assembled"), with this witness of its cellbase, of up
/// to 1,000 items in their order, each the bytes of a transaction: what becomes of each item, the bytes of the block, and
/// the first rule that it breaks. Nothing is kept of it. The witness and each item have at most 1,048,576 bytes.
pub fn assemble<D: Disk>(
    alloc: Global,
    disk: &mut D,
    node: &mut Node,
    witness: &CellbaseWitnessView<'_>,
    items: &[Vec<u8>],
) -> Result<Assembled, ReadStop>
    requires items { length items.now ≤ most_items }
    requires bytes { All (λ item. length item.items ≤ most_bytes) items.now }
    requires witness { length (encoded schema.cellbase_witness witness.now) ≤ most_bytes }
    requires own { IsOwnDiskWhereTold node.old (D.reads_as disk.old) (D.images disk.old) }
    ensures left { LeavesAll D.content_of D.reads_as D.images D.faults disk.old disk.new node.old node.new (stop_of result) }
    ensures assembled { IsSoundWhereTold node.old (D.reads_as disk.old)
        → IfOk result (IsAssembled (assembled node.old.chain witness.now (map (λ item. item.items) items.now))) }
    // One that breaks no rule joins where it is imported next, while there is room; one that breaks a rule breaks one of few.
    ensures joins { IsSoundWhereTold node.old (D.reads_as disk.old) → length node.old.chain.blocks < kept_limit
        → IfOk result (λ made. made.broken ≡ None → joins (verdict_over node.old.chain made.block.items) ≡ true) }
    ensures breaks_few { IsSoundWhereTold node.old (D.reads_as disk.old)
        → IfOk result (λ made. (rule : ℕ) → made.broken ≡ Some rule → IsTrue (list_any (λ other. other == rule) breakable)) }
    ensures undamaged { IsSoundWhereTold node.old (D.reads_as disk.old) → (damage : Damage) → result ≡ Err (Damaged damage) → ⊥ }
{
    over_disk::assemble(
        alloc,
        disk,
        &mut node.cache,
        &node.kept,
        &node.state,
        witness,
        items,
    )
}
