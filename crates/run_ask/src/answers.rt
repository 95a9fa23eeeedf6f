// The answer to a line, over a node that is open.
ghost use Rattle.std.specs.Prelude.{◌≡◌, ◌<◌, ℕ, List, Err, length, IfOk, IsSome, string_bytes};
ghost use Rattle.chain_defs.specs.Schema.{Block};
ghost use Rattle.chain_defs.specs.Kept.{place_of};
ghost use Rattle.chain_defs.specs.Tip.{best_branch};
ghost use Rattle.verdict_defs.specs.Trial.{trial};
ghost use Rattle.report_defs.specs.Status.{IsOneOf};
ghost use Rattle.report_defs.specs.Text.{trial_line};
ghost use Rattle.node_store.specs.Node.{IsOwnDiskWhereTold, IsSoundWhereTold};
ghost use Rattle.run_text.specs.Store.{OnlyReads, opening_stops};
ghost use Rattle.run_store.specs.Keeping.{KeepsNode};
ghost use Rattle.ask_defs.specs.Answers as answers;
ghost use Rattle.ask_defs.specs.Answers.{block_named, line_of_named, committed_on};
ghost use Rattle.ask_defs.specs.Asks.{words_of, checked_in as checked_of, asked_in as asked_of};
ghost use Rattle.run_ask.specs.Finding.{IsCommitted, IndexesCommitted, HoldsCommitted};
ghost use Rattle.run_ask.specs.Showing as showing;

use crate::committed::{Committed, find_committed, index_of};
use crate::finding::named;
use crate::text::{block_line, branch_line, committed_line, no_question_line};
use crate::words::{asked_in, checked_in, text_of};
use ask_defs::Ask;
use json_blocks::to_json;
use mol_schema::BlockView;
use node_store::Node;
use outside::{Disk, NoMemory};
use report_defs::Status;
use run_query::{header_line, line_or_stop, none_line};
use run_question::check;
use run_store::status_of_reading;
use std::alloc::{AllocError, Global};
use transaction_index::TransactionIndex;
use view_hashes::block_hash;

/// What is shown of a kept block.
#[derive(Clone, Copy)]
pub enum Shown {
    /// Its header.
    Header,
    /// All of it, as JSON.
    Json,
    /// All of it, with the hashes of its transactions.
    Whole,
}

/// The line of a block's header, by its own number.
fn header_of(alloc: Global, block: &BlockView<'_>) -> Result<Vec<u8>, NoMemory>
    ensures { IfOk result (λ line. line.items ≡ answers.header_of_block block.now) }
{
    let header = block.header();
    let line = header_line(alloc, header.number(), &block_hash(block), header.bytes())?;
    Ok(line.into_bytes())
}

/// The line of a block as JSON.
fn json_of(alloc: Global, block: &BlockView<'_>) -> Result<Vec<u8>, NoMemory>
    ensures { IfOk result (λ line. line.items ≡ answers.json_of_block block.now) }
{
    let mut line = to_json(alloc, block)?;
    line.push(b'\n')?;
    Ok(line)
}

/// What is shown of a block.
fn text_of_block(alloc: Global, block: &BlockView<'_>, how: Shown) -> Result<Vec<u8>, NoMemory>
    ensures { IfOk result (λ line. line.items ≡ showing.shown how block.now) }
{
    match how {
        Shown::Header => header_of(alloc, block),
        Shown::Json => json_of(alloc, block),
        Shown::Whole => block_line(alloc, block),
    }
}

/// What is shown of the kept block with a hash.
fn show<D: Disk>(
    alloc: Global,
    disk: &mut D,
    node: &mut Node,
    hash: &[u8; 32],
    how: Shown,
) -> Result<Vec<u8>, Status>
    requires own { IsOwnDiskWhereTold node.old (D.reads_as disk.old) (D.images disk.old) }
    ensures disk { OnlyReads D.content_of D.faults disk.old disk.new (result ≡ Err Status.DiskFault) }
    ensures node { KeepsNode node.old node.new (D.reads_as disk.new) (D.images disk.new) }
    ensures text { IsSome (D.reads_as disk.old) → IfOk result (λ text. text.items ≡ line_of_named (showing.shown how) (block_named node.old.chain hash.now)) }
    ensures stop { (status : Status) → result ≡ Err status → IsOneOf opening_stops status }
    ensures sound { IsSome (D.reads_as disk.old) → result ≡ Err Status.NotAStore → ⊥ }
{
    let found = match named(alloc, disk, node, hash) {
        Ok(found) => found,
        Err(stop) => return Err(status_of_reading(stop)),
    };
    let bytes = match found {
        None => return line_or_stop(none_line(alloc)),
        Some(bytes) => bytes,
    };
    // (always a block, where the disk tells what it reads as)
    let Some(block) = BlockView::read(&bytes) else {
        return Err(Status::NotAStore);
    };
    let Ok(line) = text_of_block(alloc, &block, how) else {
        return Err(Status::NoMemory);
    };
    Ok(line)
}

/// Whether the kept block with a hash is on the best branch.
fn branch(alloc: Global, node: &Node, hash: &[u8; 32]) -> Result<Vec<u8>, Status>
    ensures text { IfOk result (λ text. text.items ≡ answers.branch_of_place node.now.chain.blocks (place_of node.now.chain.blocks hash.now)) }
    ensures memory { (status : Status) → result ≡ Err status → status ≡ Status.NoMemory }
{
    let tree = node.tree();
    let Some(place) = tree.find(hash) else {
        return line_or_stop(none_line(alloc));
    };
    let number = tree.entry(place).number;
    let best = is_on_best(node, place);
    line_or_stop(branch_line(alloc, best, number))
}

/// Whether a place is on the best branch: only the one with its number can be it.
fn is_on_best(node: &Node, place: u32) -> bool
    requires { place < length node.now.entries }
    ensures { result ≡ answers.is_on_best node.now.chain.blocks place }
{
    let tree = node.tree();
    let tip = tree.tip();
    let number = tree.entry(place).number;
    if tree.entry(tip).number < number {
        return false;
    }
    tree.ancestor(tip, number) == place
}

/// The line of where a transaction was committed.
fn line_of_committed(alloc: Global, found: &Option<Committed>) -> Result<String, AllocError>
    ensures { (kept : List Block) (hash : List ℕ) → IsCommitted kept hash found.now
        → IfOk result (λ line. string_bytes line ≡ answers.committed_line (committed_on (best_branch kept) hash)) }
{
    match found {
        None => none_line(alloc),
        Some(it) => committed_line(alloc, it.number, it.place, &it.hash),
    }
}

/// The line of where the best branch committed the transaction with a hash, by its index.
fn transaction_line(
    alloc: Global,
    node: &Node,
    index: &TransactionIndex,
    hash: &[u8; 32],
) -> Result<Vec<u8>, Status>
    ensures text { IndexesCommitted (best_branch node.now.chain.blocks) index.now
        → IfOk result (λ text. text.items ≡ answers.committed_line (committed_on (best_branch node.now.chain.blocks) hash.now)) }
    ensures memory { (status : Status) → result ≡ Err status → status ≡ Status.NoMemory }
{
    let found = find_committed(node, index, hash);
    line_or_stop(line_of_committed(alloc, &found))
}

/// Where the best branch committed the transaction with a hash. The first such question makes the index, and the next ones look it up.
fn transaction<D: Disk>(
    alloc: Global,
    disk: &mut D,
    node: &mut Node,
    index: &mut Option<TransactionIndex>,
    hash: &[u8; 32],
) -> Result<Vec<u8>, Status>
    requires own { IsOwnDiskWhereTold node.old (D.reads_as disk.old) (D.images disk.old) }
    requires held { IsSome (D.reads_as disk.old) → HoldsCommitted node.old.chain index.old }
    ensures disk { OnlyReads D.content_of D.faults disk.old disk.new (result ≡ Err Status.DiskFault) }
    ensures node { KeepsNode node.old node.new (D.reads_as disk.new) (D.images disk.new) }
    ensures held { IsSome (D.reads_as disk.old) → HoldsCommitted node.old.chain index.new }
    ensures text { IsSome (D.reads_as disk.old)
        → IfOk result (λ text. text.items ≡ answers.committed_line (committed_on (best_branch node.old.chain.blocks) hash.now)) }
    ensures stop { (status : Status) → result ≡ Err status → IsOneOf opening_stops status }
    ensures sound { IsSome (D.reads_as disk.old) → result ≡ Err Status.NotAStore → ⊥ }
{
    match index {
        Some(index) => return transaction_line(alloc, node, index, hash),
        None => {}
    }
    let made = match index_of(alloc, disk, node) {
        Ok(made) => made,
        Err(status) => return Err(status),
    };
    let line = transaction_line(alloc, node, &made, hash);
    *index = Some(made);
    line
}

/// Finds the answer to what is asked. Each question has a function of its own.
fn answer_to<D: Disk>(
    alloc: Global,
    disk: &mut D,
    node: &mut Node,
    index: &mut Option<TransactionIndex>,
    asked: Ask,
) -> Result<Vec<u8>, Status>
    requires own { IsOwnDiskWhereTold node.old (D.reads_as disk.old) (D.images disk.old) }
    requires held { IsSome (D.reads_as disk.old) → HoldsCommitted node.old.chain index.old }
    ensures disk { OnlyReads D.content_of D.faults disk.old disk.new (result ≡ Err Status.DiskFault) }
    ensures node { KeepsNode node.old node.new (D.reads_as disk.new) (D.images disk.new) }
    ensures held { IsSome (D.reads_as disk.old) → HoldsCommitted node.old.chain index.new }
    ensures text { IsSoundWhereTold node.old (D.reads_as disk.old) → IfOk result (λ text. text.items ≡ answers.answer_to asked node.old.chain) }
    ensures stop { (status : Status) → result ≡ Err status → IsOneOf opening_stops status }
    ensures sound { IsSoundWhereTold node.old (D.reads_as disk.old) → result ≡ Err Status.NotAStore → ⊥ }
{
    match asked {
        Ask::Query(query) => run_query::answer_to(alloc, disk, node, query),
        Ask::Header { hash } => show(alloc, disk, node, &hash, Shown::Header),
        Ask::Json { hash } => show(alloc, disk, node, &hash, Shown::Json),
        Ask::Block { hash } => show(alloc, disk, node, &hash, Shown::Whole),
        Ask::Branch { hash } => branch(alloc, node, &hash),
        Ask::Transaction { hash } => transaction(alloc, disk, node, index, &hash),
    }
}

/// Judges a transaction alone.
fn judge<D: Disk>(
    alloc: Global,
    disk: &mut D,
    node: &mut Node,
    item: &[u8],
) -> Result<Vec<u8>, Status>
    requires own { IsOwnDiskWhereTold node.old (D.reads_as disk.old) (D.images disk.old) }
    ensures disk { OnlyReads D.content_of D.faults disk.old disk.new (result ≡ Err Status.DiskFault) }
    ensures node { KeepsNode node.old node.new (D.reads_as disk.new) (D.images disk.new) }
    ensures text { IsSoundWhereTold node.old (D.reads_as disk.old) → IfOk result (λ text. text.items ≡ trial_line (trial node.old.chain item.now)) }
    ensures stop { (status : Status) → result ≡ Err status → IsOneOf opening_stops status }
    ensures sound { IsSoundWhereTold node.old (D.reads_as disk.old) → result ≡ Err Status.NotAStore → ⊥ }
{
    match check(alloc, disk, node, item) {
        Ok(answer) => Ok(answer.text.into_bytes()),
        Err(status) => Err(status),
    }
}

/// Finds the answer to a line of ASCII.
fn answer_to_text<D: Disk>(
    alloc: Global,
    disk: &mut D,
    node: &mut Node,
    index: &mut Option<TransactionIndex>,
    text: &str,
) -> Result<Vec<u8>, Status>
    requires own { IsOwnDiskWhereTold node.old (D.reads_as disk.old) (D.images disk.old) }
    requires held { IsSome (D.reads_as disk.old) → HoldsCommitted node.old.chain index.old }
    ensures disk { OnlyReads D.content_of D.faults disk.old disk.new (result ≡ Err Status.DiskFault) }
    ensures node { KeepsNode node.old node.new (D.reads_as disk.new) (D.images disk.new) }
    ensures held { IsSome (D.reads_as disk.old) → HoldsCommitted node.old.chain index.new }
    ensures text { IsSoundWhereTold node.old (D.reads_as disk.old) → IfOk result (λ answer. answer.items
        ≡ answers.answer_to_either (checked_of (words_of text.now)) (asked_of (words_of text.now)) node.old.chain) }
    ensures stop { (status : Status) → result ≡ Err status → IsOneOf opening_stops status }
    ensures sound { IsSoundWhereTold node.old (D.reads_as disk.old) → result ≡ Err Status.NotAStore → ⊥ }
{
    match checked_in(alloc, text) {
        Ok(Some(item)) => return judge(alloc, disk, node, &item),
        Ok(None) => {}
        Err(_) => return Err(Status::NoMemory),
    }
    match asked_in(text) {
        Some(asked) => answer_to(alloc, disk, node, index, asked),
        None => line_or_stop(no_question_line(alloc)),
    }
}

/// Finds the answer to a line.
#[tactic(auto, unfolding(ask_defs::specs::Answers::answer))]
pub fn answer<D: Disk>(
    alloc: Global,
    disk: &mut D,
    node: &mut Node,
    index: &mut Option<TransactionIndex>,
    line: &[u8],
) -> Result<Vec<u8>, Status>
    requires own { IsOwnDiskWhereTold node.old (D.reads_as disk.old) (D.images disk.old) }
    requires held { IsSome (D.reads_as disk.old) → HoldsCommitted node.old.chain index.old }
    ensures disk { OnlyReads D.content_of D.faults disk.old disk.new (result ≡ Err Status.DiskFault) }
    ensures node { KeepsNode node.old node.new (D.reads_as disk.new) (D.images disk.new) }
    ensures held { IsSome (D.reads_as disk.old) → HoldsCommitted node.old.chain index.new }
    ensures text { IsSoundWhereTold node.old (D.reads_as disk.old) → IfOk result (λ text. text.items ≡ answers.answer node.old.chain line.now) }
    ensures stop { (status : Status) → result ≡ Err status → IsOneOf opening_stops status }
    ensures sound { IsSoundWhereTold node.old (D.reads_as disk.old) → result ≡ Err Status.NotAStore → ⊥ }
{
    match text_of(line) {
        Some(text) => answer_to_text(alloc, disk, node, index, text),
        None => line_or_stop(no_question_line(alloc)),
    }
}
