// J15: which uncle is none, and why.
ghost use Rattle.std.specs.Prelude.{◌≡◌, ◌<◌, ◌≤◌, length};
ghost use Rattle.chain_tree.specs.Reading.{HasRead, stop_of};

use crate::in_block::OnParent;
use blake2b_ckb::Hasher;
use chain_tree::{Blocks, Tree};
use epochs::{Spec, parts};
use mol_schema::{BlockView, HeaderView, UncleView};
use outside::ReadStop;
use transaction_page::{Page, entry_at, hash_from, is_on_branch};
use view_hashes::header_hash;

/// What is wrong with an uncle.
#[derive(Clone, Copy)]
enum UncleFault {
    Target,
    Epoch,
    Number,
    /// Its parent is not there, with the number before its own.
    Parent,
    /// It is a block of the branch.
    Ancestor,
    /// The branch or this block has it as an uncle before.
    Known,
    Count,
    /// The proposal id at the first place stands at the second before.
    Twice(usize, usize),
    Hash,
}

/// A header that is looked for: by its hash, and by its number where that is asked for.
#[derive(Clone, Copy)]
struct Sought {
    hash: [u8; 32],
    number: Option<u64>,
}

impl Sought {
    fn is(&self, hash: &[u8; 32], number: u64) -> bool {
        let fits = match self.number {
            None => true,
            Some(it) => it == number,
        };
        fits && self.hash == *hash
    }
}

/// Whether one of the first uncles of a block is sought.
fn is_among(block: &BlockView<'_>, first: usize, sought: &Sought) -> bool {
    'uncles: for i in 0..block.uncles_count() {
        if i >= first {
            break;
        }
        let header = block.uncles_item(i).header();
        if sought.is(&header_hash(&header), header.number()) {
            return true;
        }
    }
    false
}

/// Whether a block of the branch is sought.
fn is_ancestor(tree: &Tree, parent: u32, sought: &Sought) -> bool {
    let Some(place) = tree.find(&sought.hash) else {
        return false;
    };
    match entry_at(tree, place) {
        Some(entry) => is_on_branch(tree, parent, place) && sought.is(&entry.hash, entry.number),
        None => false,
    }
}

/// Whether a block of the branch embeds an uncle that is sought. Only one above it may, so those down to a number are read.
fn is_embedded<B: Blocks>(
    tree: &Tree,
    parent: u32,
    blocks: &mut B,
    sought: &Sought,
    above: u64,
) -> Result<bool, ReadStop>
    requires counts { B.count blocks.old ≡ length tree.now.entries }
    ensures read { HasRead B.told B.count B.loans_of B.faults B.damages blocks.old blocks.new (stop_of result) }
{
    let mut place = parent;
    'branch: for _ in 0..tree.len() {
        if place >= tree.len() {
            break;
        }
        let entry = *tree.entry(place);
        if entry.number <= above {
            break;
        }
        match blocks.bring(place) {
            Ok(()) => {}
            Err(stop) => return Err(stop),
        }
        let block = blocks.block();
        if is_among(&block, block.uncles_count(), sought) {
            return Ok(true);
        }
        place = entry.parent;
    }
    Ok(false)
}

/// Whether the parent of an uncle is there.
fn has_parent<B: Blocks>(
    tree: &Tree,
    parent: u32,
    blocks: &mut B,
    on: &OnParent<'_, '_>,
    earlier: usize,
    header: &HeaderView<'_>,
) -> Result<bool, ReadStop>
    requires counts { B.count blocks.old ≡ length tree.now.entries }
    ensures read { HasRead B.told B.count B.loans_of B.faults B.damages blocks.old blocks.new (stop_of result) }
{
    let Some(number) = header.number().checked_sub(1) else {
        return Ok(false);
    };
    let sought = Sought {
        hash: hash_from(header.parent_hash()),
        number: Some(number),
    };
    if is_ancestor(tree, parent, &sought) || is_among(on.block, earlier, &sought) {
        return Ok(true);
    }
    is_embedded(tree, parent, blocks, &sought, number)
}

/// Whether the place of an uncle is a good one.
fn fault_of_place<B: Blocks>(
    tree: &Tree,
    parent: u32,
    blocks: &mut B,
    on: &OnParent<'_, '_>,
    earlier: usize,
    header: &HeaderView<'_>,
) -> Result<Option<UncleFault>, ReadStop>
    requires counts { B.count blocks.old ≡ length tree.now.entries }
    ensures read { HasRead B.told B.count B.loans_of B.faults B.damages blocks.old blocks.new (stop_of result) }
{
    let own = on.block.header();
    if header.compact_target() != own.compact_target() {
        return Ok(Some(UncleFault::Target));
    }
    if parts(header.epoch()).number != parts(own.epoch()).number {
        return Ok(Some(UncleFault::Epoch));
    }
    if header.number() >= own.number() {
        return Ok(Some(UncleFault::Number));
    }
    match has_parent(tree, parent, blocks, on, earlier, header) {
        Ok(true) => {}
        Ok(false) => return Ok(Some(UncleFault::Parent)),
        Err(stop) => return Err(stop),
    }
    let sought = Sought {
        hash: header_hash(header),
        number: None,
    };
    if is_ancestor(tree, parent, &sought) {
        return Ok(Some(UncleFault::Ancestor));
    }
    if is_among(on.block, earlier, &sought) {
        return Ok(Some(UncleFault::Known));
    }
    match is_embedded(tree, parent, blocks, &sought, header.number()) {
        Ok(true) => Ok(Some(UncleFault::Known)),
        Ok(false) => Ok(None),
        Err(stop) => Err(stop),
    }
}

/// The hash that a header has of the proposal ids.
fn proposals_hash(uncle: &UncleView<'_>) -> [u8; 32] {
    if uncle.proposals_count() == 0 {
        return [0u8; 32];
    }
    let mut hasher = Hasher::new();
    'ids: for i in 0..uncle.proposals_count() {
        hasher.update(uncle.proposals_item(i));
    }
    hasher.finalize()
}

fn fault_of_ids(uncle: &UncleView<'_>, most: u32) -> Option<UncleFault> {
    if uncle.proposals_count() as u64 > u64::from(most) {
        return Some(UncleFault::Count);
    }
    'ids: for i in 0..uncle.proposals_count() {
        'before: for j in 0..i {
            if uncle.proposals_item(j) == uncle.proposals_item(i) {
                return Some(UncleFault::Twice(i, j));
            }
        }
    }
    if uncle.header().proposals_hash() != proposals_hash(uncle).as_slice() {
        return Some(UncleFault::Hash);
    }
    None
}

/// J15: the first uncle that is none, and why.
pub(crate) fn explain_uncles<B: Blocks>(
    page: &mut Page,
    spec: &Spec,
    tree: &Tree,
    parent: u32,
    blocks: &mut B,
    on: &OnParent<'_, '_>,
) -> Result<(), ReadStop>
    requires counts { B.count blocks.old ≡ length tree.now.entries }
    ensures read { HasRead B.told B.count B.loans_of B.faults B.damages blocks.old blocks.new (stop_of result) }
{
    'uncles: for i in 0..on.block.uncles_count() {
        let uncle = on.block.uncles_item(i);
        let misplaced = match fault_of_place(tree, parent, blocks, on, i, &uncle.header()) {
            Ok(fault) => fault,
            Err(stop) => return Err(stop),
        };
        let fault = match misplaced {
            Some(fault) => Some(fault),
            None => fault_of_ids(&uncle, spec.max_proposals),
        };
        if let Some(fault) = fault {
            page.add("place uncle ");
            page.count(i);
            page.add("\nfound ");
            push_fault(page, spec, on.block, &uncle, fault);
            break;
        }
    }
    Ok(())
}

fn push_fault(
    page: &mut Page,
    spec: &Spec,
    block: &BlockView<'_>,
    uncle: &UncleView<'_>,
    fault: UncleFault,
) {
    let own = block.header();
    let header = uncle.header();
    match fault {
        UncleFault::Target => {
            page.add("compact target ");
            page.hex(u64::from(header.compact_target()));
            page.add("\nwanted ");
            page.hex(u64::from(own.compact_target()));
            page.add(", the block's\n");
        }
        UncleFault::Epoch => {
            page.add("epoch number ");
            page.number(parts(header.epoch()).number);
            page.add("\nwanted ");
            page.number(parts(own.epoch()).number);
            page.add(", the block's\n");
        }
        UncleFault::Number => {
            page.add("number ");
            page.number(header.number());
            page.add("\nwanted a number below the block's, ");
            page.number(own.number());
            page.add("\n");
        }
        UncleFault::Parent => {
            page.add("number ");
            page.number(header.number());
            page.add(" and parent hash ");
            page.bytes(header.parent_hash());
            page.add(
                "\nwanted the hash of an ancestor, or of an uncle before it, with the number before its own\n",
            );
        }
        UncleFault::Ancestor => page.add("a block of the branch\nwanted none of these\n"),
        UncleFault::Known => {
            page.add("an uncle that the branch or this block has before\nwanted each uncle once\n")
        }
        _ => push_ids_fault(page, spec, uncle, fault),
    }
}

fn push_ids_fault(page: &mut Page, spec: &Spec, uncle: &UncleView<'_>, fault: UncleFault) {
    match fault {
        UncleFault::Count => {
            page.add("so many proposal ids: ");
            page.count(uncle.proposals_count());
            page.add("\nwanted at most ");
            page.number(u64::from(spec.max_proposals));
            page.add("\n");
        }
        UncleFault::Twice(i, j) => {
            page.add("proposal ");
            page.count(i);
            page.add(" the same as proposal ");
            page.count(j);
            page.add("\nwanted each id once\n");
        }
        _ => {
            page.add("proposals_hash ");
            page.bytes(uncle.header().proposals_hash());
            page.add("\nwanted ");
            page.bytes(&proposals_hash(uncle));
            page.add("\n");
        }
    }
}
