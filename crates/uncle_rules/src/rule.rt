// J15: the uncles of a block.
ghost use Rattle.std.specs.Prelude.{◌≡◌, ◌<◌, ◌≤◌, ◌&&◌, List, length, map, take, IfOk};
ghost use Rattle.std.specs.List.{list_any};
ghost use Rattle.chain_defs.specs.Schema.{Block};
ghost use Rattle.rule_defs.specs.Uncles as rules;
ghost use Rattle.chain_defs.specs.Branch.{branch};
ghost use Rattle.chain_tree.specs.Blocks.{IndexesBlocks};
ghost use Rattle.uncle_rules.specs.Embedded.{IndexesUncles};
ghost use Rattle.uncle_rules.specs.Known as known;

use crate::branch::is_on_branch;
use crate::header::{has_number, is_named, parent_hash_of};
use crate::index::Uncles;
use crate::proposals::proposes_well;
use chain_tree::Tree;
use epochs::{Spec, parts};
use mol_schema::{BlockView, HeaderView, UncleView};
use outside::NoMemory;
use std::alloc::Global;
use view_hashes::header_hash;

/// Whether a block on the branch of a parent has this hash and number.
fn is_ancestor(tree: &Tree, parent: u32, hash: &[u8; 32], number: Option<u64>) -> bool
    requires { parent < length tree.now.entries }
    ensures { (kept : List Block) → IndexesBlocks kept tree.now.entries
        → result ≡ list_any (known.is_named hash.now number) (map (λ b. b.header) (branch kept parent)) }
{
    match tree.find(hash) {
        None => false,
        Some(place) => has_number(number, tree.entry(place).number)
            && is_on_branch(tree, parent, place),
    }
}

/// Whether one of a block's first uncles has this hash and number.
fn is_earlier(block: &BlockView<'_>, earlier: usize, hash: &[u8; 32], number: Option<u64>) -> bool
    requires { earlier ≤ length block.now.uncles }
    ensures { result ≡ list_any (known.is_named hash.now number) (map (λ uncle. uncle.header) (take earlier block.now.uncles)) }
{
    'uncles: for i in 0..earlier {
        if is_named(&block.uncles_item(i).header(), hash, number) {
            return true;
        }
    }
    false
}

/// Whether a header with this hash and number is known to the uncle after a block's first ones.
fn is_known(
    tree: &Tree,
    uncles: &Uncles,
    parent: u32,
    block: &BlockView<'_>,
    earlier: usize,
    hash: &[u8; 32],
    number: Option<u64>,
) -> bool
    requires parent { parent < length tree.now.entries }
    requires earlier { earlier ≤ length block.now.uncles }
    ensures { (kept : List Block) → IndexesBlocks kept tree.now.entries → IndexesUncles kept uncles.now
        → result ≡ list_any (known.is_named hash.now number) (rules.known_headers (branch kept parent) (take earlier block.now.uncles)) }
{
    if is_ancestor(tree, parent, hash, number) {
        return true;
    }
    if uncles.embeds(tree, parent, hash, number) {
        return true;
    }
    is_earlier(block, earlier, hash, number)
}

/// Whether a header's parent is known, with the number before its own.
fn stands_on(
    tree: &Tree,
    uncles: &Uncles,
    parent: u32,
    block: &BlockView<'_>,
    earlier: usize,
    header: &HeaderView<'_>,
) -> bool
    requires parent { parent < length tree.now.entries }
    requires earlier { earlier ≤ length block.now.uncles }
    ensures { (kept : List Block) → IndexesBlocks kept tree.now.entries → IndexesUncles kept uncles.now
        → result ≡ rules.stands_on (rules.known_headers (branch kept parent) (take earlier block.now.uncles)) header.now }
{
    let number = header.number();
    if number == 0 {
        return false;
    }
    is_known(
        tree,
        uncles,
        parent,
        block,
        earlier,
        &parent_hash_of(header),
        Some(number - 1),
    )
}

/// Whether a header is not known.
fn is_new(
    tree: &Tree,
    uncles: &Uncles,
    parent: u32,
    block: &BlockView<'_>,
    earlier: usize,
    header: &HeaderView<'_>,
) -> bool
    requires parent { parent < length tree.now.entries }
    requires earlier { earlier ≤ length block.now.uncles }
    ensures { (kept : List Block) → IndexesBlocks kept tree.now.entries → IndexesUncles kept uncles.now
        → result ≡ rules.is_new (rules.known_headers (branch kept parent) (take earlier block.now.uncles)) header.now }
{
    let hash = header_hash(header);
    !is_known(tree, uncles, parent, block, earlier, &hash, None)
}

/// Whether an uncle has the block's compact target and epoch number, and a lower number.
fn is_beside(block: &HeaderView<'_>, uncle: &HeaderView<'_>) -> bool
    ensures { result ≡ rules.is_beside block.now uncle.now }
{
    uncle.compact_target() == block.compact_target()
        && parts(uncle.epoch()).number == parts(block.epoch()).number
        && uncle.number() < block.number()
}

/// Whether an uncle has its place: beside the block, on a known header, and none of these.
fn is_placed(
    tree: &Tree,
    uncles: &Uncles,
    parent: u32,
    block: &BlockView<'_>,
    earlier: usize,
    header: &HeaderView<'_>,
) -> bool
    requires parent { parent < length tree.now.entries }
    requires earlier { earlier ≤ length block.now.uncles }
    ensures { (kept : List Block) → IndexesBlocks kept tree.now.entries → IndexesUncles kept uncles.now
        → result ≡ (rules.is_beside block.now.header header.now
        && (rules.stands_on (rules.known_headers (branch kept parent) (take earlier block.now.uncles)) header.now
        && rules.is_new (rules.known_headers (branch kept parent) (take earlier block.now.uncles)) header.now)) }
{
    is_beside(&block.header(), header)
        && stands_on(tree, uncles, parent, block, earlier, header)
        && is_new(tree, uncles, parent, block, earlier, header)
}

/// J15: each uncle of a block on a parent in the tree keeps the rule.
pub fn uncles_ok(
    alloc: Global,
    spec: &Spec,
    tree: &Tree,
    uncles: &Uncles,
    parent: u32,
    block: &BlockView<'_>,
) -> Result<bool, NoMemory>
    requires parent { parent < length tree.now.entries }
    ensures { (kept : List Block) → IndexesBlocks kept tree.now.entries → IndexesUncles kept uncles.now
        → IfOk result (λ ok. ok ≡ rules.has_uncles spec.now (branch kept parent) block.now) }
{
    'uncles: for i in 0..block.uncles_count() {
        let uncle = block.uncles_item(i);
        if !is_placed(tree, uncles, parent, block, i, &uncle.header()) {
            return Ok(false);
        }
        if !proposes_well(alloc, spec, &uncle)? {
            return Ok(false);
        }
    }
    Ok(true)
}
