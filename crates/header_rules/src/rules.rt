//! J4 to J8, one function a rule.
ghost use Rattle.std.specs.Prelude.{◌≡◌, ◌<◌, ◌≤◌, IfSome, List, length};
ghost use Rattle.std.specs.Option.{option_map};
ghost use Rattle.chain_defs.specs.Schema.{Block};
ghost use Rattle.chain_defs.specs.First.{first_failing};
ghost use Rattle.chain_defs.specs.Branch.{branch};
ghost use Rattle.chain_tree.specs.Blocks.{IndexesBlocks};
ghost use Rattle.chain_defs.specs.Kept as chain;
ghost use Rattle.rule_defs.specs.Header as rules;
ghost use Rattle.rule_defs.specs.RuleNumber.{rule_number};

use chain_tree::Tree;
use epochs::{Spec, epoch_of};
use mol_schema::HeaderView;
use rule_defs::{Rule, first_broken};

/// J4: its version is 0.
fn has_version(header: &HeaderView<'_>) -> bool
    ensures { result ≡ rules.has_version header.now }
{
    header.version() == 0
}

/// J5: its number is its parent's plus 1. None follows the greatest u64.
fn follows(tree: &Tree, parent: u32, header: &HeaderView<'_>) -> bool
    requires { parent < length tree.now.entries }
    ensures of_blocks { (kept : List Block) (b : Block) → IndexesBlocks kept tree.now.entries → header.now ≡ b.header
        → result ≡ chain.follows b (rules.parent_of (branch kept parent)) }
{
    tree.entry(parent).number.checked_add(1) == Some(header.number())
}

/// J6: its epoch field is that of its number. The number may be any, so that its epoch is summed up as a u128.
fn has_epoch(spec: &Spec, header: &HeaderView<'_>) -> bool
    ensures { result ≡ rules.has_epoch spec.now header.now }
{
    let epoch = epoch_of(spec.epoch_length, header.number());
    let index = u128::from(epoch.index) << 24;
    let length = u128::from(epoch.length) << 40;
    u128::from(header.epoch()) == u128::from(epoch.number) + index + length
}

/// J7: its compact target is the specification's.
fn has_target(spec: &Spec, header: &HeaderView<'_>) -> bool
    ensures { result ≡ rules.has_target spec.now header.now }
{
    header.compact_target() == spec.compact_target
}

/// J8: its timestamp is above the median time at its parent.
fn is_later(tree: &Tree, parent: u32, header: &HeaderView<'_>) -> bool
    requires { parent < length tree.now.entries }
    ensures of_blocks { (kept : List Block) → IndexesBlocks kept tree.now.entries → result ≡ rules.is_later (branch kept parent) header.now }
{
    tree.median(parent) < header.timestamp()
}

/// The least of J4 to J8 that a header breaks, on the kept block at a place.
pub fn check(spec: &Spec, tree: &Tree, parent: u32, header: &HeaderView<'_>) -> Option<Rule>
    requires { parent < length tree.now.entries }
    ensures of_blocks { (kept : List Block) (b : Block) → IndexesBlocks kept tree.now.entries → header.now ≡ b.header
        → option_map rule_number result ≡ first_failing (rules.header_rules spec.now (branch kept parent) b) }
    ensures tried { IfSome result (λ rule. (4 ≤ rule_number rule) × (rule_number rule ≤ 8)) }
{
    first_broken(&[
        (Rule::Version, has_version(header)),
        (Rule::Number, follows(tree, parent, header)),
        (Rule::Epoch, has_epoch(spec, header)),
        (Rule::CompactTarget, has_target(spec, header)),
        (Rule::Timestamp, is_later(tree, parent, header)),
    ])
}
