// A block assembled over what is kept and a source of kept blocks.
ghost use Rattle.std.specs.Prelude.{◌≡◌, ◌≤◌, ◌==◌, ◌-◌, ◌<◌, ℕ, true, map, length, Some, None, Err, IfOk, IsTrue};
ghost use Rattle.std.specs.List.{All, list_any};
ghost use Rattle.chain_defs.specs.Schema as schema;
ghost use Rattle.chain_defs.specs.Shape.{encoded};
ghost use Rattle.chain_defs.specs.Kept.{kept_limit};
ghost use Rattle.outside.specs.declared.disk.Damage.{Damage};
ghost use Rattle.outside.specs.declared.disk.ReadStop.TheVariants.{Damaged};
ghost use Rattle.verdict_defs.specs.Chain.{verdict_over};
ghost use Rattle.verdict_defs.specs.Verdict.{joins};
ghost use Rattle.pool_defs.specs.Assembly.{assembled};
ghost use Rattle.pool_defs.specs.Laws.{breakable};
ghost use Rattle.pool_defs.specs.Size.{most_items, most_bytes};
ghost use Rattle.tx_pool.specs.Assembling.{IsAssembled};
ghost use Rattle.cell_state.specs.State.{rows};
ghost use Rattle.chain_tree.specs.Reading.{HasRead, stop_of};
ghost use Rattle.node_store.specs.Kept.{HoldsJoined, AreRowsOfTip};

use block_judge::Context;
use cell_state::State;
use chain_tree::Blocks;
use mol_schema::CellbaseWitnessView;
use node_store::Kept;
use outside::ReadStop;
use std::alloc::Global;
use tx_pool::Assembled;

/// Assembles a block after the tip, by its live cells.
pub(crate) fn assemble<B: Blocks>(
    alloc: Global,
    kept: &Kept,
    blocks: &mut B,
    state: &State,
    witness: &CellbaseWitnessView<'_>,
    items: &[Vec<u8>],
) -> Result<Assembled, ReadStop>
    requires items { length items.now ≤ most_items }
    requires bytes { All (λ item. length item.items ≤ most_bytes) items.now }
    requires witness { length (encoded schema.cellbase_witness witness.now) ≤ most_bytes }
    requires counts { B.count blocks.old ≡ length kept.now.chain.blocks }
    ensures read { HasRead B.told B.count B.loans_of B.faults B.damages blocks.old blocks.new (stop_of result) }
    ensures assembled { HoldsJoined kept.now (B.told blocks.old) → AreRowsOfTip kept.now.chain.blocks (rows state.now)
        → IfOk result (IsAssembled (assembled kept.now.chain witness.now (map (λ item. item.items) items.now))) }
    ensures joins { HoldsJoined kept.now (B.told blocks.old) → AreRowsOfTip kept.now.chain.blocks (rows state.now) → length kept.now.chain.blocks < kept_limit
        → IfOk result (λ made. made.broken ≡ None → joins (verdict_over kept.now.chain made.block.items) ≡ true) }
    ensures breaks_few { HoldsJoined kept.now (B.told blocks.old) → AreRowsOfTip kept.now.chain.blocks (rows state.now)
        → IfOk result (λ made. (rule : ℕ) → made.broken ≡ Some rule → IsTrue (list_any (λ other. other == rule) breakable)) }
    ensures undamaged { HoldsJoined kept.now (B.told blocks.old) → AreRowsOfTip kept.now.chain.blocks (rows state.now)
        → (damage : Damage) → result ≡ Err (Damaged damage) → ⊥ }
{
    let context = Context {
        spec: &kept.spec,
        tree: &kept.tree,
        uncles: &kept.uncles,
        cells: state,
        parent: kept.tree.tip(),
    };
    tx_pool::assemble(alloc, &context, blocks, witness, items)
}
