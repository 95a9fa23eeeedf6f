// What is judged of a block at sight, J4 to J17: all that asks for no live cell.
ghost use Rattle.std.specs.Prelude.{◌≡◌, ◌<◌, ◌≤◌, nat_le, true, List, None, Some, Err, IfOk, length, map};
ghost use Rattle.chain_defs.specs.First.{first_failing};
ghost use Rattle.outside.specs.declared.disk.ReadStop.{ReadStop as a_stop};
ghost use Rattle.outside.specs.declared.disk.ReadStop.TheVariants.{NoMemory as no_memory};
ghost use Rattle.chain_defs.specs.Schema.{Block};
ghost use Rattle.chain_defs.specs.Branch.{branch};
ghost use Rattle.chain_defs.specs.Hashes.{transaction_hash};
ghost use Rattle.chain_tree.specs.Blocks.{IndexesBlocks};
ghost use Rattle.rule_defs.specs.Header.{header_rules as rules_on_header};
ghost use Rattle.rule_defs.specs.Body.{fits_length};
ghost use Rattle.uncle_rules.specs.Embedded.{IndexesUncles};
ghost use Rattle.rule_defs.specs.FamilyRules.{uncle_and_cellbase_rules_over, no_cell};
ghost use Rattle.verdict_defs.specs.Rules.{broken_at_sight};
ghost use Rattle.rule_defs.specs.RuleNumber.{rule_number};
ghost use Rattle.block_judge.specs.declared.stop.JudgeStop.TheVariants.{Broken, Read};

use crate::cellbase::{forms_cellbase, has_cellbase};
use crate::context::{Context, NoCells};
use crate::stop::JudgeStop;
use block_rules::Checked;
use mol_schema::BlockView;
use outside::ReadStop;
use rule_defs::Rule;
use std::alloc::Global;
use uncle_rules::uncles_ok;

/// J15 to J17: the uncles of a block, and its cellbase, whose output is taken not to be live.
fn judge_family(
    alloc: Global,
    context: &Context<'_, NoCells>,
    block: &BlockView<'_>,
    hashes: &[[u8; 32]],
) -> Result<(), JudgeStop>
    requires parent { context.now.parent < length context.now.tree.now.entries }
    requires hashes { hashes.now ≡ map transaction_hash block.now.transactions }
    ensures tried { (rule : Rule) → result ≡ Err (Broken rule) → (15 ≤ rule_number rule) × (rule_number rule ≤ 17) }
    ensures memory { (stop : a_stop) → result ≡ Err (Read stop) → stop ≡ no_memory }
    ensures some { IfOk result (λ _. 0 < length block.now.transactions) }
    ensures broken { (kept : List Block) → IndexesBlocks kept context.now.tree.now.entries → IndexesUncles kept context.now.uncles.now
        → (rule : Rule) → result ≡ Err (Broken rule)
        → first_failing (uncle_and_cellbase_rules_over no_cell context.now.spec.now (branch kept context.now.parent) block.now) ≡ Some (rule_number rule) }
    ensures unbroken { (kept : List Block) → IndexesBlocks kept context.now.tree.now.entries → IndexesUncles kept context.now.uncles.now
        → IfOk result (λ _. first_failing (uncle_and_cellbase_rules_over no_cell context.now.spec.now (branch kept context.now.parent) block.now) ≡ None) }
{
    let has_uncles = match uncles_ok(
        alloc,
        context.spec,
        context.tree,
        context.uncles,
        context.parent,
        block,
    ) {
        Ok(has) => has,
        Err(_) => return Err(JudgeStop::Read(ReadStop::NoMemory)),
    };
    if !has_uncles {
        return Err(JudgeStop::Broken(Rule::Uncles));
    }
    let begins = match has_cellbase(alloc, block, hashes) {
        Ok(begins) => begins,
        Err(_) => return Err(JudgeStop::Read(ReadStop::NoMemory)),
    };
    if !begins {
        return Err(JudgeStop::Broken(Rule::Cellbase));
    }
    if !forms_cellbase(context.cells, block, hashes) {
        return Err(JudgeStop::Broken(Rule::CellbaseForm));
    }
    Ok(())
}

/// Judges a block at sight on a parent in the tree: the first of J4 to J17 that it breaks, or the hashes of its transactions,
/// in their order. It looks at no live cell: that the output of the cellbase is not live is left to `judge`, which goes on
/// from here. It reads no kept block, so that it stops for want of memory alone, and never where one of J4 to J9 is
/// broken or the proposals are too many.
pub fn judge_at_sight(
    alloc: Global,
    context: &Context<'_, NoCells>,
    block: &BlockView<'_>,
) -> Result<Vec<[u8; 32]>, JudgeStop>
    requires parent { context.now.parent < length context.now.tree.now.entries }
    ensures hashes { IfOk result (λ hashes. hashes.items ≡ map transaction_hash block.now.transactions) }
    ensures some { IfOk result (λ _. 0 < length block.now.transactions) }
    ensures tried { (rule : Rule) → result ≡ Err (Broken rule) → (4 ≤ rule_number rule) × (rule_number rule ≤ 17) }
    ensures broken { (kept : List Block) → IndexesBlocks kept context.now.tree.now.entries → IndexesUncles kept context.now.uncles.now
        → (rule : Rule) → result ≡ Err (Broken rule)
        → broken_at_sight context.now.spec.now (branch kept context.now.parent) block.now ≡ Some (rule_number rule) }
    ensures unbroken { (kept : List Block) → IndexesBlocks kept context.now.tree.now.entries → IndexesUncles kept context.now.uncles.now
        → IfOk result (λ _. broken_at_sight context.now.spec.now (branch kept context.now.parent) block.now ≡ None) }
    ensures header { (kept : List Block) → IndexesBlocks kept context.now.tree.now.entries
        → IfOk result (λ _. first_failing (rules_on_header context.now.spec.now (branch kept context.now.parent) block.now) ≡ None) }
    ensures memory { (stop : a_stop) → result ≡ Err (Read stop) → stop ≡ no_memory }
    ensures asked { (kept : List Block) → IndexesBlocks kept context.now.tree.now.entries → (stop : a_stop) → result ≡ Err (Read stop)
        → first_failing (rules_on_header context.now.spec.now (branch kept context.now.parent) block.now) ≡ None }
    ensures asked_of_body { (stop : a_stop) → result ≡ Err (Read stop)
        → (fits_length context.now.spec.now block.now ≡ true) × (nat_le (length block.now.proposals) context.now.spec.now.max_proposals ≡ true) }
{
    if let Some(rule) = header_rules::check(
        context.spec,
        context.tree,
        context.parent,
        &block.header(),
    ) {
        return Err(JudgeStop::Broken(rule));
    }
    let hashes = match block_rules::check(alloc, context.spec, block) {
        Ok(Checked::Kept(hashes)) => hashes,
        Ok(Checked::Broken(rule)) => return Err(JudgeStop::Broken(rule)),
        Err(_) => return Err(JudgeStop::Read(ReadStop::NoMemory)),
    };
    match judge_family(alloc, context, block, &hashes) {
        Ok(()) => Ok(hashes),
        Err(stop) => Err(stop),
    }
}
