// The blocks that the records of a log hold.

ghost use Rattle.std.specs.Prelude.{◌≡◌, ◌≢◌, ◌⊎◌, ◌+◌, ◌<◌, ◌^◌, List, [], Some, None, Err, length, IfOk, OnOk, IfErr, IfSome, is_some, option_map, false, true};
ghost use Rattle.chain_defs.specs.Shape.{decoded};
ghost use Rattle.chain_defs.specs.Schema as schema;
ghost use Rattle.chain_defs.specs.Schema.{Block};
ghost use Rattle.chain_defs.specs.Kept.{place_of};
ghost use Rattle.chain_tree.specs.Entries.{place_of_hash, FollowsParent};
ghost use Rattle.chain_tree.specs.Blocks.{Describes, IndexesBlocks};
ghost use Rattle.chain_tree.specs.Told.{blocks_of};
ghost use Rattle.disk_defs.specs.Log.{may_stand_on, block_of_record, record_limit, is_genesis};
ghost use Rattle.log_file.specs.Grammar.{record_of, AreBlocks, blocks_with, IsGenesisOf, IsGrownBy, IsJudged};
ghost use Rattle.log_file.specs.Stops.{IfDamage, in_log};

use crate::body::parts;
use crate::ext::ext_form;
use crate::genesis::judge_genesis;
use crate::stop::LogStop;
use crate::visitor::Visitor;
use chain_tree::{Entry, Tree};
use mol_schema::BlockView;
use outside::{Area, Damage, NoMemory};
use std::alloc::Global;
use view_hashes::header_hash;

/// The most records of blocks, which are one fewer than the blocks.
const RECORD_LIMIT: u32 = 999_999;

/// The entry of a block on this parent.
#[tactic(auto, unfolding(chain_defs::specs::Kept::header_hash))]
fn entry_of(block: &BlockView<'_>, parent: u32, at: u64, len: u32) -> Entry
    ensures describes { Describes block.now result }
    ensures parent { result.parent ≡ parent }
    ensures at { result.at ≡ at }
    ensures len { result.len ≡ len }
{
    let header = block.header();
    Entry::of_header(&header, header_hash(&header), parent, at, len)
}

/// The entry of a block that may stand after those of a tree: its parent is there, its number is that one's plus 1,
/// and its hash is new.
fn next_entry(tree: &Tree, block: &BlockView<'_>, at: u64, len: u32) -> Option<Entry>
    requires { length tree.now.entries < 2 ^ 32 }
    ensures may_stand { (kept : List Block) → IndexesBlocks kept tree.now.entries → may_stand_on kept block.now ≡ is_some result }
    ensures describes { IfSome result (λ entry. Describes block.now entry) }
    ensures at { IfSome result (λ entry. entry.at ≡ at) }
    ensures len { IfSome result (λ entry. entry.len ≡ len) }
    ensures parent { (kept : List Block) → IndexesBlocks kept tree.now.entries
        → IfSome result (λ entry. place_of kept block.now.header.parent_hash ≡ Some entry.parent) }
    ensures follows { IfSome result (λ entry. FollowsParent tree.now.entries entry) }
    ensures new { IfSome result (λ entry. place_of_hash tree.now.entries entry.hash ≡ None) }
{
    let mut parent_hash = [0u8; 32];
    parent_hash.copy_from_slice(block.header().parent_hash());
    let parent = tree.find(&parent_hash)?;
    let entry = entry_of(block, parent, at, len);
    if entry.number != tree.entry(parent).number + 1 || tree.find(&entry.hash).is_some() {
        return None;
    }
    Some(entry)
}

/// What the record of a block was judged as.
#[derive(Drop)]
struct Found<'a> {
    block: BlockView<'a>,
    ext: &'a [u8],
    entry: Entry,
}

/// The block in the body of a record with its ext, and its entry, if it may stand after those of a tree.
fn judged<'a>(tree: &Tree, kind: u8, body: &'a [u8], at: u64) -> Option<Found<'a>>
    requires few { length tree.now.entries < 2 ^ 32 }
    requires fits { length body.now < 2 ^ 32 }
    ensures judged { (kept : List Block) → IndexesBlocks kept tree.now.entries
        → IsJudged at (record_of kind body.now) kept (option_map (λ found. ((found.block, found.ext.now), found.entry)) result) }
    ensures follows { IfSome result (λ found. FollowsParent tree.now.entries found.entry) }
    ensures new { IfSome result (λ found. place_of_hash tree.now.entries found.entry.hash ≡ None) }
{
    if kind != 3 {
        return None;
    }
    let (item, ext) = parts(body)?;
    if !ext_form(ext) {
        return None;
    }
    let block = BlockView::read(item)?;
    let entry = next_entry(tree, &block, at, body.len() as u32)?;
    Some(Found { block, ext, entry })
}

/// The genesis in the body of a record, which begins at `at`.
fn genesis<'a>(alloc: Global, kind: u8, body: &'a [u8], at: u64) -> Result<BlockView<'a>, LogStop>
    ensures genesis { IfOk result (λ block. is_genesis (record_of kind body.now) ≡ true) }
    ensures decoded { IfOk result (λ block. decoded schema.block body.now ≡ Some block) }
    ensures first { IfOk result (λ block. block.header.number ≡ 0) }
    ensures wrong { IfErr result (IfDamage (λ damage. (damage ≡ in_log at) × (is_genesis (record_of kind body.now) ≡ false))) }
    ensures reads { IfErr result (λ stop. stop ≢ LogStop.DiskFault) }
{
    if kind != 2 {
        return Err(LogStop::NotAStore(Damage {
            area: Area::Log,
            at,
        }));
    }
    let Some(block) = BlockView::read(body) else {
        return Err(LogStop::NotAStore(Damage {
            area: Area::Log,
            at,
        }));
    };
    match judge_genesis(alloc, &block) {
        Ok(None) => Ok(block),
        Ok(Some(_)) => Err(LogStop::NotAStore(Damage {
            area: Area::Log,
            at,
        })),
        Err(_) => Err(LogStop::NoMemory),
    }
}

/// Shows the genesis of a record, and makes the tree of its entry alone. The record's body begins at `at`.
pub(crate) fn begin<V: Visitor>(
    alloc: Global,
    visitor: &mut V,
    kind: u8,
    body: &[u8],
    at: u64,
) -> Result<Tree, LogStop>
    requires fits { length body.now < 2 ^ 32 }
    requires none { V.visited visitor.old ≡ [] }
    ensures genesis { IfOk result (λ tree. IsGenesisOf at (record_of kind body.now) (blocks_with (V.visited visitor.new) tree.entries)) }
    ensures blocks { IfOk result (λ tree. AreBlocks (V.visited visitor.new) tree.entries) }
    ensures wrong { IfErr result (IfDamage (λ damage. (damage ≡ in_log at) × (is_genesis (record_of kind body.now) ≡ false))) }
    ensures reads { IfErr result (λ stop. stop ≢ LogStop.DiskFault) }
{
    let block = match genesis(alloc, kind, body, at) {
        Ok(block) => block,
        Err(stop) => return Err(stop),
    };
    let entry = entry_of(&block, 0, at, body.len() as u32);
    match visitor.visit(alloc, &block, &[], &entry) {
        Ok(()) => {}
        Err(_) => return Err(LogStop::NoMemory),
    }
    match Tree::new(alloc, entry) {
        Ok(tree) => Ok(tree),
        Err(_) => Err(LogStop::NoMemory),
    }
}

/// Shows the block of a record after the others, and adds its entry. The record's body begins at `at`.
pub(crate) fn put<V: Visitor>(
    alloc: Global,
    visitor: &mut V,
    tree: &mut Tree,
    kind: u8,
    body: &[u8],
    at: u64,
) -> Result<(), LogStop>
    requires fits { length body.now < 2 ^ 32 }
    requires blocks { AreBlocks (V.visited visitor.old) tree.old.entries }
    ensures grown { OnOk result (IsGrownBy at (record_of kind body.now) (blocks_with (V.visited visitor.old) tree.old.entries)
        (blocks_with (V.visited visitor.new) tree.new.entries)) }
    ensures blocks { OnOk result (AreBlocks (V.visited visitor.new) tree.new.entries) }
    ensures wrong { IfErr result (IfDamage (λ damage. (damage ≡ in_log at) × ((block_of_record (blocks_of (V.visited visitor.old)) (record_of kind body.now) ≡ None)
        ⊎ (record_limit < length (blocks_of (V.visited visitor.old)))))) }
    ensures reads { IfErr result (λ stop. stop ≢ LogStop.DiskFault) }
{
    if tree.len() > RECORD_LIMIT {
        return Err(LogStop::NotAStore(Damage {
            area: Area::Log,
            at,
        }));
    }
    let Some(found) = judged(tree, kind, body, at) else {
        return Err(LogStop::NotAStore(Damage {
            area: Area::Log,
            at,
        }));
    };
    match tree.reserve() {
        Ok(()) => {}
        Err(_) => return Err(LogStop::NoMemory),
    }
    match visitor.visit(alloc, &found.block, found.ext, &found.entry) {
        Ok(()) => {}
        Err(_) => return Err(LogStop::NoMemory),
    }
    tree.add(found.entry);
    Ok(())
}
