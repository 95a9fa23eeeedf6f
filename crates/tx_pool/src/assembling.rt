// A block that is assembled.
ghost use Rattle.std.specs.Prelude.{◌≡◌, ◌==◌, ◌<◌, ◌≤◌, ◌^◌, ℕ, List, Option, length, map, is_some, if◌then◌else◌, Some, None, Err, IfOk, IsTrue};
ghost use Rattle.std.specs.List.{All, list_any};
ghost use Rattle.outside.specs.declared.disk.Damage.{Damage};
ghost use Rattle.outside.specs.declared.disk.ReadStop.TheVariants.{Damaged};
ghost use Rattle.chain_defs.specs.Fold.{keep};
ghost use Rattle.chain_defs.specs.Schema as schema;
ghost use Rattle.chain_defs.specs.Shape.{IsEncoding, encoded};
ghost use Rattle.chain_defs.specs.Kept.{block_hash, kept_limit, place_of};
ghost use Rattle.chain_defs.specs.Branch.{branch};
ghost use Rattle.chain_defs.specs.Tip.{tip_place};
ghost use Rattle.chain_tree.specs.Told.{Stored, blocks_of};
ghost use Rattle.chain_tree.specs.Reading.{HasRead, stop_of};
ghost use Rattle.chain_tree.specs.Blocks.{IsParent};
ghost use Rattle.verdict_defs.specs.Rules.{first_broken};
ghost use Rattle.block_judge.specs.Standing.{ContextStandsForAll, seen};
ghost use Rattle.verdict_defs.specs.Chain.{verdict_over};
ghost use Rattle.verdict_defs.specs.declared.verdict.Verdict.TheVariants.{Joined};
ghost use Rattle.pool_defs.specs.Start as start;
ghost use Rattle.pool_defs.specs.Assembly as pool;
ghost use Rattle.pool_defs.specs.Laws.{breakable};
ghost use Rattle.pool_defs.specs.Size.{most_items, most_bytes};
ghost use Rattle.tx_pool.specs.Draft.{Fits, IsDraftSoFar, draft_of};
ghost use Rattle.tx_pool.specs.Assembling.{AreSmall, IsAssembled, IsMade, assembled_on, chain_on};

use crate::cellbase::cellbase_after;
use crate::draft::Draft;
use crate::sealing::sealed;
use block_judge::{Context, JudgeStop, NoCells, judge, judge_at_sight};
use cell_state::Cells;
use chain_tree::Blocks;
use mol_schema::{BlockView, CellbaseWitnessView};
use outside::ReadStop;
use pool_defs::Line;
use proposal_window::Proposed;
use std::alloc::Global;
use view_hashes::block_hash;

/// A block that was assembled: what became of each item, its bytes, and the first rule that it breaks.
#[derive(Drop)]
pub struct Assembled {
    pub lines: Vec<Line>,
    pub block: Vec<u8>,
    pub broken: Option<u8>,
}

/// The first rule that a block on the context's parent breaks, J2 first.
fn broken_by<C: Cells, B: Blocks>(
    alloc: Global,
    context: &Context<'_, C>,
    blocks: &mut B,
    block: &BlockView<'_>,
) -> Result<Option<u8>, ReadStop>
    requires placed { IsParent context.now.tree.now.entries context.now.parent }
    requires counts { B.count blocks.old ≡ length context.now.tree.now.entries }
    ensures read { HasRead B.told B.count B.loans_of B.faults B.damages blocks.old blocks.new (stop_of result) }
    ensures broken { (stored : List Stored) → B.told blocks.old ≡ Some stored → ContextStandsForAll stored (seen C.rows context.now)
        → IfOk result (λ broken. broken ≡ (if is_some (place_of (blocks_of stored) (block_hash block.now)) then Some 2
        else first_broken context.now.spec.now (branch (blocks_of stored) context.now.parent) block.now)) }
    ensures undamaged { (stored : List Stored) → B.told blocks.old ≡ Some stored → ContextStandsForAll stored (seen C.rows context.now)
        → (damage : Damage) → result ≡ Err (Damaged damage) → ⊥ }
{
    if context.tree.find(&block_hash(block)).is_some() {
        return Ok(Some(2));
    }
    let at_sight = Context {
        spec: context.spec,
        tree: context.tree,
        uncles: context.uncles,
        cells: &NoCells,
        parent: context.parent,
    };
    let hashes = match judge_at_sight(alloc, &at_sight, block) {
        Ok(hashes) => hashes,
        Err(JudgeStop::Broken(rule)) => return Ok(Some(rule.number())),
        Err(JudgeStop::Read(stop)) => return Err(stop),
    };
    match judge(alloc, context, blocks, block, &hashes) {
        Ok(_) => Ok(None),
        Err(JudgeStop::Broken(rule)) => Ok(Some(rule.number())),
        Err(JudgeStop::Read(stop)) => Err(stop),
    }
}

/// The block so far once each item was taken, after this cellbase.
fn filled<'c, 'a, C: Cells, B: Blocks>(
    alloc: Global,
    context: &Context<'c, C>,
    blocks: &mut B,
    cellbase: &'a [u8],
    items: &'a [Vec<u8>],
) -> Result<Draft<'c, 'a, C>, ReadStop>
    requires placed { IsParent context.now.tree.now.entries context.now.parent }
    requires counts { B.count blocks.old ≡ length context.now.tree.now.entries }
    requires canonical { (t : schema.Transaction) × IsEncoding schema.transaction cellbase.now t }
    requires size { length cellbase.now < 2 ^ 30 }
    requires items { length items.now ≤ most_items }
    requires bytes { All (λ item. length item.items ≤ most_bytes) items.now }
    ensures read { HasRead B.told B.count B.loans_of B.faults B.damages blocks.old blocks.new (stop_of result) }
    ensures fits { IfOk result (λ draft. Fits (draft_of C.rows draft)) }
    ensures lines { IfOk result (λ draft. length draft.lines.items ≡ length items.now) }
    ensures taken { (stored : List Stored) (witness : schema.CellbaseWitness) → B.told blocks.old ≡ Some stored → ContextStandsForAll stored (seen C.rows context.now)
        → IsEncoding schema.transaction cellbase.now (start.cellbase context.now.spec.now (branch (blocks_of stored) context.now.parent) witness)
        → IfOk result (λ draft. IsDraftSoFar stored (seen C.rows context.now)
        (keep (pool.take_item context.now.spec.now (branch (blocks_of stored) context.now.parent))
        (pool.start context.now.spec.now (branch (blocks_of stored) context.now.parent) witness) (map (λ item. item.items) items.now)) (draft_of C.rows draft)) }
    ensures undamaged { (stored : List Stored) (witness : schema.CellbaseWitness) → B.told blocks.old ≡ Some stored → ContextStandsForAll stored (seen C.rows context.now)
        → IsEncoding schema.transaction cellbase.now (start.cellbase context.now.spec.now (branch (blocks_of stored) context.now.parent) witness)
        → (damage : Damage) → result ≡ Err (Damaged damage) → ⊥ }
{
    let height = context.tree.entry(context.parent).number + 1;
    let proposed = match Proposed::of(
        alloc,
        context.spec,
        context.tree,
        blocks,
        context.parent,
        height,
    ) {
        Ok(proposed) => proposed,
        Err(stop) => return Err(stop),
    };
    let mut draft = match Draft::start(alloc, context, cellbase) {
        Ok(draft) => draft,
        Err(_) => return Err(ReadStop::NoMemory),
    };
    match draft.take_items(alloc, context, blocks, &proposed, items) {
        Ok(()) => Ok(draft),
        Err(stop) => {
            drop(draft);
            Err(stop)
        }
    }
}

/// What becomes of each item, and the bytes of the block.
fn make_block<C: Cells, B: Blocks>(
    alloc: Global,
    context: &Context<'_, C>,
    blocks: &mut B,
    witness: &CellbaseWitnessView<'_>,
    items: &[Vec<u8>],
) -> Result<(Vec<Line>, Vec<u8>), ReadStop>
    requires placed { IsParent context.now.tree.now.entries context.now.parent }
    requires counts { B.count blocks.old ≡ length context.now.tree.now.entries }
    requires items { length items.now ≤ most_items }
    requires bytes { All (λ item. length item.items ≤ most_bytes) items.now }
    requires witness { length (encoded schema.cellbase_witness witness.now) ≤ most_bytes }
    ensures read { HasRead B.told B.count B.loans_of B.faults B.damages blocks.old blocks.new (stop_of result) }
    ensures lines { IfOk result (λ made. length made.0.items ≡ length items.now) }
    ensures canonical { IfOk result (λ made. (b : schema.Block) × IsEncoding schema.block made.1.items b) }
    ensures made { (stored : List Stored) → B.told blocks.old ≡ Some stored → ContextStandsForAll stored (seen C.rows context.now)
        → IfOk result (λ made. IsMade context.now.spec.now (branch (blocks_of stored) context.now.parent)
        (pool.assembly context.now.spec.now (branch (blocks_of stored) context.now.parent) witness.now (map (λ item. item.items) items.now)) made.0.items made.1.items) }
    ensures undamaged { (stored : List Stored) → B.told blocks.old ≡ Some stored → ContextStandsForAll stored (seen C.rows context.now)
        → (damage : Damage) → result ≡ Err (Damaged damage) → ⊥ }
{
    let cellbase = match cellbase_after(
        alloc,
        context.spec,
        context.tree,
        blocks,
        context.parent,
        witness,
    ) {
        Ok(cellbase) => cellbase,
        Err(stop) => return Err(stop),
    };
    let draft = match filled(alloc, context, blocks, &cellbase, items) {
        Ok(draft) => draft,
        Err(stop) => return Err(stop),
    };
    match sealed(
        alloc,
        context,
        &draft.transactions,
        &draft.proposals,
        draft.interest,
        draft.freed,
    ) {
        Ok(block) => Ok((draft.lines, block)),
        Err(_) => {
            drop(draft);
            Err(ReadStop::NoMemory)
        }
    }
}

/// Assembles a block after the context's parent, of up to 1,000 items in their order, each the bytes of a transaction, with
/// this witness of its cellbase: what becomes of each item, the block, and the first rule that it breaks. The witness and
/// each item have at most 1,048,576 bytes. Damaged as `judge` is.
pub fn assemble<C: Cells, B: Blocks>(
    alloc: Global,
    context: &Context<'_, C>,
    blocks: &mut B,
    witness: &CellbaseWitnessView<'_>,
    items: &[Vec<u8>],
) -> Result<Assembled, ReadStop>
    requires placed { IsParent context.now.tree.now.entries context.now.parent }
    requires counts { B.count blocks.old ≡ length context.now.tree.now.entries }
    requires small { AreSmall (λ item. item.items) witness.now items.now }
    ensures read { HasRead B.told B.count B.loans_of B.faults B.damages blocks.old blocks.new (stop_of result) }

    // Over any source of blocks: a line for each item, and a canonical block.
    ensures lines { IfOk result (λ made. length made.lines.items ≡ length items.now) }
    ensures canonical { IfOk result (λ made. (b : schema.Block) × IsEncoding schema.block made.block.items b) }

    // Over kept blocks that are known with their own fees, with the cells of the parent's branch.
    ensures assembled_on { (stored : List Stored) → B.told blocks.old ≡ Some stored → ContextStandsForAll stored (seen C.rows context.now)
        → IfOk result (IsAssembled (assembled_on context.now.spec.now (blocks_of stored) (branch (blocks_of stored) context.now.parent) witness.now
        (map (λ item. item.items) items.now))) }

    // And where the parent is the tip.
    ensures assembled { (stored : List Stored) → B.told blocks.old ≡ Some stored → ContextStandsForAll stored (seen C.rows context.now)
        → tip_place (blocks_of stored) ≡ Some context.now.parent
        → IfOk result (IsAssembled (pool.assembled (chain_on context.now.spec.now (blocks_of stored)) witness.now (map (λ item. item.items) items.now))) }
    ensures joins { (stored : List Stored) → B.told blocks.old ≡ Some stored → ContextStandsForAll stored (seen C.rows context.now)
        → tip_place (blocks_of stored) ≡ Some context.now.parent → length (blocks_of stored) < kept_limit
        → (b : schema.Block) → b ≡ (pool.assembled (chain_on context.now.spec.now (blocks_of stored)) witness.now (map (λ item. item.items) items.now)).block
        → IfOk result (λ made. made.broken ≡ None
        → verdict_over (chain_on context.now.spec.now (blocks_of stored)) made.block.items ≡ Joined b.header.number (block_hash b)) }
    ensures breaks_few { (stored : List Stored) → B.told blocks.old ≡ Some stored → ContextStandsForAll stored (seen C.rows context.now)
        → tip_place (blocks_of stored) ≡ Some context.now.parent
        → IfOk result (λ made. (rule : ℕ) → made.broken ≡ Some rule → IsTrue (list_any (λ other. other == rule) breakable)) }
    ensures undamaged { (stored : List Stored) → B.told blocks.old ≡ Some stored → ContextStandsForAll stored (seen C.rows context.now)
        → (damage : Damage) → result ≡ Err (Damaged damage) → ⊥ }
{
    let (lines, block) = match make_block(alloc, context, blocks, witness, items) {
        Ok(made) => made,
        Err(stop) => return Err(stop),
    };
    let broken = match broken_by(alloc, context, blocks, &BlockView::from_encoding(&block)) {
        Ok(broken) => broken,
        Err(stop) => return Err(stop),
    };
    Ok(Assembled {
        lines,
        block,
        broken,
    })
}
