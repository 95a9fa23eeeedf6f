// J31: what a cellbase pays, and what it owes; J32: the DAO field.
ghost use Rattle.std.specs.Prelude.{◌≡◌, ◌<◌, ◌≤◌, length};
ghost use Rattle.chain_tree.specs.Blocks.{IsParent};
ghost use Rattle.chain_tree.specs.Reading.{HasRead, stop_of};

use crate::in_block::Progress;
use block_judge::{lock_of, made_in};
use chain_tree::{Blocks, Tree};
use dao_math::{Dao, DaoMove, next_field};
use epochs::{Spec, primary, share};
use mol_schema::{BlockView, OutputView, ScriptView};
use outside::ReadStop;
use rewards::reward;
use std::alloc::Global;
use transaction_page::Page;
use view_hashes::{occupied, script_hash};

/// Appends an output of a cellbase.
fn push_output(page: &mut Page, output: &OutputView<'_>) {
    page.number(output.capacity());
    page.add(" shannons to lock ");
    page.bytes(&script_hash(&output.lock()));
    if output.type_script().is_some() {
        page.add(", with a type script");
    }
}

/// Appends what the cellbase of a block pays.
fn push_paid(page: &mut Page, block: &BlockView<'_>) {
    page.add("place the outputs of the cellbase\nfound ");
    if block.transactions_count() == 0 {
        page.add("none\n");
        return;
    }
    let cellbase = block.transactions_item(0).raw();
    let count = cellbase.outputs_count();
    if count == 0 {
        page.add("none\n");
        return;
    }
    'outputs: for i in 0..count {
        if i > 0 {
            page.add("; ");
        }
        push_output(page, &cellbase.outputs_item(i));
    }
    page.add("\n");
}

/// Appends what is owed to the lock of the block at a height.
fn push_owed(page: &mut Page, height: u64, reward: u64, lock: &ScriptView<'_>) {
    let least = occupied(lock.args().len() as u32, None, 0);
    if reward < least {
        page.add("wanted none: the reward of block ");
        page.number(height);
        page.add(" is ");
        page.number(reward);
        page.add(" shannons, and an output with its lock occupies ");
        page.number(least);
        page.add("\n");
        return;
    }
    page.add("wanted ");
    page.number(reward);
    page.add(" shannons, the reward of block ");
    page.number(height);
    page.add(", to its lock ");
    page.bytes(&script_hash(lock));
    page.add("\n");
}

/// J31: what the cellbase of a block on a parent pays, and what it owes.
pub(crate) fn explain_payment<B: Blocks>(
    alloc: Global,
    page: &mut Page,
    spec: &Spec,
    tree: &Tree,
    parent: u32,
    blocks: &mut B,
    block: &BlockView<'_>,
) -> Result<(), ReadStop>
    requires placed { IsParent tree.now.entries parent }
    requires counts { B.count blocks.old ≡ length tree.now.entries }
    ensures read { HasRead B.told B.count B.loans_of B.faults B.damages blocks.old blocks.new (stop_of result) }
{
    push_paid(page, block);
    let height = tree.entry(parent).number + 1;
    let delay = u64::from(spec.w_far) + 1;
    if height <= delay {
        page.add("wanted none: the cellbase of a block up to ");
        page.number(delay);
        page.add(" pays nothing\n");
        return Ok(());
    }
    let paid = height - delay;
    match reward(alloc, spec, tree, blocks, parent, paid) {
        Ok(Some(reward)) => push_owed_at(page, tree.ancestor(parent, paid), blocks, paid, reward),
        Ok(None) => {
            page.add("wanted what no output can hold: the reward of block ");
            page.number(paid);
            page.add(" is above 2^64 - 1 shannons\n");
            Ok(())
        }
        Err(stop) => Err(stop),
    }
}

/// Appends what is owed to the lock of the kept block at a place.
fn push_owed_at<B: Blocks>(
    page: &mut Page,
    place: u32,
    blocks: &mut B,
    height: u64,
    reward: u64,
) -> Result<(), ReadStop>
    requires within { place < B.count blocks.old }
    ensures read { HasRead B.told B.count B.loans_of B.faults B.damages blocks.old blocks.new (stop_of result) }
{
    match blocks.bring(place) {
        Ok(()) => {}
        Err(stop) => return Err(stop),
    }
    match lock_of(&blocks.block()) {
        Some(lock) => push_owed(page, height, reward, &lock),
        None => {
            page.add("wanted what nobody is owed: no witness of the cellbase of block ");
            page.number(height);
            page.add(" has a lock\n");
        }
    }
    Ok(())
}

/// The next field, where there is one. C is above 0 in each field of a chain.
fn next_of(dao: &Dao, movement: &DaoMove) -> Option<Dao> {
    if dao.c == 0 {
        return None;
    }
    next_field(dao, movement)
}

fn push_dao(page: &mut Page, dao: &Dao) {
    page.add("C ");
    page.number(dao.c);
    page.add(", AR ");
    page.number(dao.ar);
    page.add(", S ");
    page.number(dao.s);
    page.add(", U ");
    page.number(dao.u);
    page.add("\n");
}

/// J32: the DAO field of a block on a parent, and the next one.
pub(crate) fn explain_dao(
    page: &mut Page,
    spec: &Spec,
    tree: &Tree,
    parent: u32,
    block: &BlockView<'_>,
    progress: &Progress,
)
    requires { IsParent tree.now.entries parent }
{
    let before = tree.entry(parent);
    let height = before.number + 1;
    let movement = DaoMove {
        primary: primary(spec, height),
        secondary: share(spec.epoch_length, height, spec.secondary_reward),
        interest: progress.interest,
        made: made_in(block),
        freed: progress.freed,
    };
    let mut found = [0u8; 32];
    found.copy_from_slice(block.header().dao());
    page.add("place dao\nfound ");
    push_dao(page, &Dao::read(&found));
    page.add("wanted ");
    match next_of(&Dao::read(&before.dao), &movement) {
        Some(next) => push_dao(page, &next),
        None => page.add("what there is not: one of the four is below 0 or above 2^64 - 1\n"),
    }
}
