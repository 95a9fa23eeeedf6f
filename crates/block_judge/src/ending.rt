// What is tried of a block after its transactions: J31, what its cellbase pays, and J32, its DAO field.
ghost use Rattle.std.specs.Prelude.{◌≡◌, ◌<◌, ◌≤◌, ◌^◌, List, None, Some, Err, IfOk, IsTrue, length};
ghost use Rattle.std.specs.List.{sum_by};
ghost use Rattle.chain_defs.specs.First.{first_failing};
ghost use Rattle.outside.specs.declared.disk.Damage.{Damage};
ghost use Rattle.outside.specs.declared.disk.ReadStop.TheVariants.{Damaged};
ghost use Rattle.chain_defs.specs.Schema as schema;
ghost use Rattle.chain_defs.specs.Dao.{is_rated};
ghost use Rattle.chain_defs.specs.Kept.{block_at};
ghost use Rattle.chain_defs.specs.Branch.{branch};
ghost use Rattle.chain_tree.specs.Blocks.{IsParent, IndexesBlocks};
ghost use Rattle.chain_tree.specs.Told.{Stored, blocks_of};
ghost use Rattle.chain_tree.specs.Reading.{HasRead, stop_of};
ghost use Rattle.chain_defs.specs.Cell.{occupied_by};
ghost use Rattle.rule_defs.specs.Payment as payment;
ghost use Rattle.rule_defs.specs.Field as field;
ghost use Rattle.rule_defs.specs.RewardRules as rules;
ghost use Rattle.rewards.specs.Own.{HaveOwnFees};
ghost use Rattle.rule_defs.specs.RuleNumber.{rule_number};
ghost use Rattle.block_judge.specs.declared.stop.JudgeStop.TheVariants.{Broken, Read};
ghost use Rattle.block_judge.specs.Progress.{AreMoved};
ghost use Rattle.block_judge.specs.Stops.{read_stop_of};

use crate::all_transactions::Outcome;
use crate::context::Context;
use crate::stop::JudgeStop;
use cell_state::{Cells, data_at};
use chain_tree::{Blocks, Tree};
use dao_math::{Dao, DaoMove, next_field};
use epochs::{Spec, primary, share};
use mol_schema::{BlockView, CellbaseWitnessView, OutputView, RawTxView, ScriptView, TxView};
use outside::ReadStop;
use rewards::reward;
use rule_defs::Rule;
use std::alloc::Global;
use view_hashes::{occupied, occupied_output};

/// The lock in the first witness of a block's cellbase.
pub fn lock_of<'a>(block: &BlockView<'a>) -> Option<ScriptView<'a>>
    ensures { result ≡ payment.lock_of (Some block.now) }
{
    if block.transactions_count() == 0 {
        return None;
    }
    let cellbase = block.transactions_item(0);
    if cellbase.witnesses_count() == 0 {
        return None;
    }
    match CellbaseWitnessView::read(cellbase.witnesses_item(0)) {
        Some(witness) => Some(witness.lock()),
        None => None,
    }
}

/// Whether an output holds so many shannons, with this lock and no type script.
fn is_output_to(lock: &ScriptView<'_>, capacity: u64, output: &OutputView<'_>) -> bool
    ensures { result ≡ payment.is_output_to lock.now capacity output.now }
{
    output.capacity() == capacity
        && output.lock().bytes() == lock.bytes()
        && output.type_script().is_none()
}

/// Whether the outputs of a cellbase are those that are owed to a lock, where the reward is this, in shannons.
fn pays_lock(lock: &ScriptView<'_>, reward: u64, cellbase: &RawTxView<'_>) -> bool
    ensures { result ≡ payment.are_owed (payment.owed_to (Some lock.now) reward) cellbase.now.outputs }
{
    let count = cellbase.outputs_count();
    if reward < occupied(lock.args().len() as u32, None, 0) {
        return count == 0;
    }
    count == 1 && is_output_to(lock, reward, &cellbase.outputs_item(0))
}

/// Whether they are those that are owed for a block, where its reward is this.
fn pays_block(paid: &BlockView<'_>, reward: u64, cellbase: &RawTxView<'_>) -> bool
    ensures { result ≡ payment.are_owed (payment.owed_to (payment.lock_of (Some paid.now)) reward) cellbase.now.outputs }
{
    match lock_of(paid) {
        Some(lock) => pays_lock(&lock, reward, cellbase),
        None => false,
    }
}

/// The same for the kept block at a place.
fn pays_at<B: Blocks>(
    blocks: &mut B,
    place: u32,
    reward: u64,
    cellbase: &RawTxView<'_>,
) -> Result<bool, ReadStop>
    requires within { place < B.count blocks.old }
    ensures read { HasRead B.told B.count B.loans_of B.faults B.damages blocks.old blocks.new (stop_of result) }
    ensures pays { (stored : List Stored) → B.told blocks.old ≡ Some stored → IfOk result (λ pays.
        pays ≡ payment.are_owed (payment.owed_to (payment.lock_of (block_at (blocks_of stored) place)) reward) cellbase.now.outputs) }
    ensures undamaged { (stored : List Stored) → B.told blocks.old ≡ Some stored → (damage : Damage) → result ≡ Err (Damaged damage) → ⊥ }
{
    match blocks.bring(place) {
        Ok(()) => {}
        Err(stop) => return Err(stop),
    }
    Ok(pays_block(&blocks.block(), reward, cellbase))
}

/// J31: the outputs of the block's cellbase are exactly those that are owed.
fn pays_reward<B: Blocks>(
    alloc: Global,
    spec: &Spec,
    tree: &Tree,
    blocks: &mut B,
    parent: u32,
    block: &BlockView<'_>,
) -> Result<bool, ReadStop>
    requires placed { IsParent tree.now.entries parent }
    requires counts { B.count blocks.old ≡ length tree.now.entries }
    requires some { 0 < length block.now.transactions }
    ensures read { HasRead B.told B.count B.loans_of B.faults B.damages blocks.old blocks.new (stop_of result) }
    ensures pays { (stored : List Stored) → B.told blocks.old ≡ Some stored → IndexesBlocks (blocks_of stored) tree.now.entries
        → HaveOwnFees spec.now stored → IfOk result (λ pays. pays ≡ rules.pays_reward spec.now (branch (blocks_of stored) parent) block.now) }
    ensures undamaged { (stored : List Stored) → B.told blocks.old ≡ Some stored → IndexesBlocks (blocks_of stored) tree.now.entries
        → HaveOwnFees spec.now stored → (damage : Damage) → result ≡ Err (Damaged damage) → ⊥ }
{
    let cellbase = block.transactions_item(0).raw();
    let height = tree.entry(parent).number + 1;
    let delay = u64::from(spec.w_far) + 1;
    if height <= delay {
        return Ok(cellbase.outputs_count() == 0);
    }
    let paid = height - delay;
    match reward(alloc, spec, tree, blocks, parent, paid) {
        Ok(Some(reward)) => pays_at(blocks, tree.ancestor(parent, paid), reward, &cellbase),
        Ok(None) => Ok(false),
        Err(stop) => Err(stop),
    }
}

/// What the cells occupy that a transaction makes, in shannons. It has below 2^30 of them.
fn made_by(tx: &TxView<'_>) -> u128
    ensures made { result ≡ field.made_by tx.now }
    ensures fits { result < 2 ^ 94 }
{
    let raw = tx.raw();
    let mut made: u128 = 0;
    'outputs: for i in 0..raw.outputs_count() {
        made += u128::from(occupied_output(&raw.outputs_item(i), data_at(tx, i)));
    }
    made
}

/// What the cells occupy that a block makes, those of its cellbase too, in shannons.
pub fn made_in(block: &BlockView<'_>) -> u128
    ensures { result ≡ sum_by field.made_by block.now.transactions }
{
    let mut made: u128 = 0;
    'transactions: for i in 0..block.transactions_count() {
        made += made_by(&block.transactions_item(i));
    }
    made
}

/// What a block at a height moves, where its transactions come to this.
fn movement_of(spec: &Spec, height: u64, block: &BlockView<'_>, outcome: &Outcome) -> DaoMove
    ensures { (on : List schema.Block) → height ≡ length on → AreMoved spec.now on block.now outcome.now.interest outcome.now.freed
        → result ≡ field.movement spec.now on block.now }
{
    DaoMove {
        primary: primary(spec, height),
        secondary: share(spec.epoch_length, height, spec.secondary_reward),
        interest: outcome.interest,
        made: made_in(block),
        freed: outcome.freed,
    }
}

/// J32: the DAO field of the block is the next one, and there is one. The field of its parent is rated, and so is its own
/// then.
fn has_next_dao(
    spec: &Spec,
    tree: &Tree,
    parent: u32,
    block: &BlockView<'_>,
    outcome: &Outcome,
) -> bool
    requires placed { IsParent tree.now.entries parent }
    ensures next { (kept : List schema.Block) → IndexesBlocks kept tree.now.entries
        → AreMoved spec.now (branch kept parent) block.now outcome.now.interest outcome.now.freed
        → result ≡ rules.has_next_dao spec.now (branch kept parent) block.now }
    ensures rated { IsTrue result → IsTrue (is_rated block.now.header.dao) }
{
    let before = tree.entry(parent);
    let movement = movement_of(spec, before.number + 1, block, outcome);
    match next_field(&Dao::read(&before.dao), &movement) {
        Some(dao) => block.header().dao() == dao.write().as_slice(),
        None => false,
    }
}

/// J31 and J32 on a block whose transactions come to this.
pub(crate) fn judge_end<C: Cells, B: Blocks>(
    alloc: Global,
    context: &Context<'_, C>,
    blocks: &mut B,
    block: &BlockView<'_>,
    outcome: &Outcome,
) -> Result<(), JudgeStop>
    requires placed { IsParent context.now.tree.now.entries context.now.parent }
    requires counts { B.count blocks.old ≡ length context.now.tree.now.entries }
    requires some { 0 < length block.now.transactions }
    ensures read { HasRead B.told B.count B.loans_of B.faults B.damages blocks.old blocks.new (read_stop_of result) }
    ensures tried { (rule : Rule) → result ≡ Err (Broken rule) → (31 ≤ rule_number rule) × (rule_number rule ≤ 32) }
    ensures rated { IfOk result (λ _. IsTrue (is_rated block.now.header.dao)) }
    ensures broken { (stored : List Stored) → B.told blocks.old ≡ Some stored → IndexesBlocks (blocks_of stored) context.now.tree.now.entries → HaveOwnFees context.now.spec.now stored
        → AreMoved context.now.spec.now (branch (blocks_of stored) context.now.parent) block.now outcome.now.interest outcome.now.freed → (rule : Rule) → result ≡ Err (Broken rule)
        → first_failing (rules.end_rules context.now.spec.now (branch (blocks_of stored) context.now.parent) block.now) ≡ Some (rule_number rule) }
    ensures unbroken { (stored : List Stored) → B.told blocks.old ≡ Some stored → IndexesBlocks (blocks_of stored) context.now.tree.now.entries → HaveOwnFees context.now.spec.now stored
        → AreMoved context.now.spec.now (branch (blocks_of stored) context.now.parent) block.now outcome.now.interest outcome.now.freed
        → IfOk result (λ _. first_failing (rules.end_rules context.now.spec.now (branch (blocks_of stored) context.now.parent) block.now) ≡ None) }
    ensures undamaged { (stored : List Stored) → B.told blocks.old ≡ Some stored → IndexesBlocks (blocks_of stored) context.now.tree.now.entries → HaveOwnFees context.now.spec.now stored
        → (damage : Damage) → result ≡ Err (Read (Damaged damage)) → ⊥ }
{
    match pays_reward(
        alloc,
        context.spec,
        context.tree,
        blocks,
        context.parent,
        block,
    ) {
        Ok(true) => {}
        Ok(false) => return Err(JudgeStop::Broken(Rule::Reward)),
        Err(stop) => return Err(JudgeStop::Read(stop)),
    }
    if !has_next_dao(context.spec, context.tree, context.parent, block, outcome) {
        return Err(JudgeStop::Broken(Rule::DaoField));
    }
    Ok(())
}
