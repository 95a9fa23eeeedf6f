// The bytes of a block, whose header commits to what was put into it.
ghost use Rattle.std.specs.Prelude.{◌≡◌, ◌<◌, ◌^◌, List, length, IfOk};
ghost use Rattle.chain_defs.specs.Shape.{IsEncoding};
ghost use Rattle.chain_defs.specs.Schema as schema;
ghost use Rattle.chain_defs.specs.Branch.{branch};
ghost use Rattle.chain_defs.specs.Median.{median_time};
ghost use Rattle.chain_tree.specs.Blocks.{IsParent, IndexesBlocks};
ghost use Rattle.rule_defs.specs.Field as field;
ghost use Rattle.block_judge.specs.Progress.{AreMoved};
ghost use Rattle.pool_defs.specs.Start as start;
ghost use Rattle.pool_defs.specs.Size.{size_with};
ghost use Rattle.tx_pool.specs.Sealing.{Fills, commitments_to, header_on};

use block_judge::{Context, made_in};
use block_rules::{proposals_hash, transactions_root, uncles_hash};
use chain_tree::Tree;
use dao_math::{Dao, DaoMove, next_field};
use epochs::{Spec, epoch_of, field, primary, share};
use mol_schema::{BlockView, TxView};
use outside::NoMemory;
use pool_rows::{Commitments, block_row, header_row, timestamp_after};
use std::alloc::Global;

/// The commitments of a header that commits to nothing.
const NOTHING: Commitments = Commitments {
    transactions_root: [0; 32],
    proposals_hash: [0; 32],
    uncles_hash: [0; 32],
    dao: [0; 32],
};

/// The DAO field of a block after a kept block, where there is one. Its transactions withdraw this interest and free so much,
/// in shannons.
fn dao_after(
    spec: &Spec,
    tree: &Tree,
    parent: u32,
    block: &BlockView<'_>,
    interest: i128,
    freed: u128,
) -> Option<Dao>
    requires placed { IsParent tree.now.entries parent }
    ensures { (kept : List schema.Block) → IndexesBlocks kept tree.now.entries → AreMoved spec.now (branch kept parent) block.now interest freed
        → result ≡ field.next_dao spec.now (branch kept parent) block.now }
{
    let before = tree.entry(parent);
    let height = before.number + 1;
    let movement = DaoMove {
        primary: primary(spec, height),
        secondary: share(spec.epoch_length, height, spec.secondary_reward),
        interest,
        made: made_in(block),
        freed,
    };
    next_field(&Dao::read(&before.dao), &movement)
}

/// The bytes of a DAO field, and zeros where there is none.
#[tactic(auto, unfolding(pool_defs::specs::Start::zero_bytes))]
fn dao_bytes(field: Option<Dao>) -> [u8; 32]
    ensures { result ≡ start.dao_bytes field }
{
    match field {
        Some(field) => field.write(),
        None => [0; 32],
    }
}

/// What the header of a block after a kept block commits to it by.
fn commitments_of<C>(
    alloc: Global,
    context: &Context<'_, C>,
    block: &BlockView<'_>,
    interest: i128,
    freed: u128,
) -> Result<Commitments, NoMemory>
    requires placed { IsParent context.now.tree.now.entries context.now.parent }
    ensures { (kept : List schema.Block) → IndexesBlocks kept context.now.tree.now.entries → AreMoved context.now.spec.now (branch kept context.now.parent) block.now interest freed
        → IfOk result (λ commitments. commitments ≡ commitments_to context.now.spec.now (branch kept context.now.parent) block.now) }
{
    let root = transactions_root(alloc, block)?;
    let field = dao_after(
        context.spec,
        context.tree,
        context.parent,
        block,
        interest,
        freed,
    );
    Ok(Commitments {
        transactions_root: root,
        proposals_hash: proposals_hash(block),
        uncles_hash: uncles_hash(block),
        dao: dao_bytes(field),
    })
}

/// The timestamp of the block after a kept block, in milliseconds.
pub(crate) fn timestamp_on(tree: &Tree, parent: u32) -> u64
    requires { parent < length tree.now.entries }
    ensures { (kept : List schema.Block) → IndexesBlocks kept tree.now.entries → result ≡ start.next_timestamp (median_time (branch kept parent)) }
{
    timestamp_after(tree.median(parent))
}

/// The header of a block after a kept block, with these commitments.
fn header_after(
    alloc: Global,
    spec: &Spec,
    tree: &Tree,
    parent: u32,
    commitments: &Commitments,
) -> Result<Vec<u8>, NoMemory>
    requires parent { parent < length tree.now.entries }
    requires few { length tree.now.entries < 2 ^ 24 }
    ensures canonical { IfOk result (λ bytes. (h : schema.Header) × IsEncoding schema.header bytes.items h) }
    ensures header { (kept : List schema.Block) → IndexesBlocks kept tree.now.entries
        → IfOk result (λ bytes. IsEncoding schema.header bytes.items (header_on spec.now (branch kept parent) commitments.now)) }
    ensures size { IfOk result (λ bytes. length bytes.items ≡ 208) }
{
    let before = tree.entry(parent);
    let number = before.number + 1;
    let epoch = field(epoch_of(spec.epoch_length, number));
    let timestamp = timestamp_on(tree, parent);
    header_row(
        alloc,
        spec.compact_target,
        timestamp,
        number,
        epoch,
        &before.hash,
        commitments,
    )
}

/// A block after a kept block with these transactions and proposal ids, and no uncles, of which the transactions withdraw
/// this interest and free so much, in shannons. Its header commits to it: what it commits to is read off the block whose
/// header commits to nothing.
pub(crate) fn sealed<C>(
    alloc: Global,
    context: &Context<'_, C>,
    transactions: &[TxView<'_>],
    ids: &[[u8; 10]],
    interest: i128,
    freed: u128,
) -> Result<Vec<u8>, NoMemory>
    requires placed { IsParent context.now.tree.now.entries context.now.parent }
    requires size { size_with transactions.now ids.now < 2 ^ 32 }
    ensures canonical { IfOk result (λ bytes. (b : schema.Block) × IsEncoding schema.block bytes.items b) }
    ensures sealed { (kept : List schema.Block) (b : schema.Block) → IndexesBlocks kept context.now.tree.now.entries
        → Fills context.now.spec.now (branch kept context.now.parent) b transactions.now ids.now
        → AreMoved context.now.spec.now (branch kept context.now.parent) b interest freed
        → IfOk result (λ bytes. IsEncoding schema.block bytes.items (start.sealed context.now.spec.now (branch kept context.now.parent) b)) }
{
    let header = header_after(alloc, context.spec, context.tree, context.parent, &NOTHING)?;
    let open = block_row(alloc, &header, transactions, ids)?;
    let block = BlockView::from_encoding(&open);
    let commitments = commitments_of(alloc, context, &block, interest, freed)?;
    let header = header_after(
        alloc,
        context.spec,
        context.tree,
        context.parent,
        &commitments,
    )?;
    block_row(alloc, &header, transactions, ids)
}
