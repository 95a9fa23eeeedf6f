// Queries: the store is asked, and nothing is read.
ghost use Rattle.std.specs.Prelude.{◌≡◌, ◌≢◌, ◌+◌, ◌≤◌, slice_index, List, ℕ, Option, Err, Some, None, [], IfOk, string_bytes, nat_lt, if◌then◌else◌, IsSome};
ghost use Rattle.chain_defs.specs.Schema.{Block};
ghost use Rattle.chain_defs.specs.Kept.{block_at};
ghost use Rattle.chain_defs.specs.Tip.{best_branch};
ghost use Rattle.chain_defs.specs.Cell.{Cell};
ghost use Rattle.outside.specs.Causes.{CountsFault};
ghost use Rattle.disk_defs.specs.Log.{end_of_log};
ghost use Rattle.store_defs.specs.Store.{Keeps, store_of};
ghost use Rattle.outside.specs.Disk.{IsOnlyRead, IsKnownAsBefore};
ghost use Rattle.verdict_defs.specs.Chain.{Chain};
ghost use Rattle.outside.specs.Image.{Image};
ghost use Rattle.report_defs.specs.Report as reports;
ghost use Rattle.report_defs.specs.Queries.{header_of, json_of, cell_of, cell_at_tip, index_bound};
ghost use Rattle.report_defs.specs.declared.command.Query.TheVariants as queries;
ghost use Rattle.report_defs.specs.Status.{IsOneOf};
ghost use Rattle.report_defs.specs.Promise.{query_statuses};
ghost use Rattle.report_defs.specs.Survival.{KeepsRecords, MayAdd};
ghost use Rattle.report_defs.specs.declared.command.Command.TheVariants as commands;
ghost use Rattle.node_store.specs.OpeningSteps.{moves_to_open};
ghost use Rattle.cell_state.specs.State.{rows};
ghost use Rattle.node_store.specs.Node.{IsOwnDiskWhereTold, IsSoundWhereTold};
ghost use Rattle.node_store.specs.Kept.{AreRowsOfTip};
ghost use Rattle.run_store.specs.Damage.{AnswersDamage};
ghost use Rattle.node_store.specs.Queries.{IsHeaderAt};
ghost use Rattle.run_text.specs.Output.{SinkTook};
ghost use Rattle.run_query.specs.Queries.{IsCellFound};
ghost use Rattle.run_store.specs.Keeping.{KeepsNode};
ghost use Rattle.run_text.specs.Store.{DeliversCommand, IsQueryPrinted, OnlyReads, opening_stops};

use crate::audit::audit;
use crate::dao::dao;
use crate::lines::{epoch_line, header_line, live_line, none_line, tip_line};
use crate::list::list;
use cell_state::OutPoint;
use epochs::epoch_of;
use json_blocks::to_json;
use mol_schema::BlockView;
use node_store::{HeaderAt, Live, Node};
use outside::{Disk, NoMemory, Sink, Steps};
use report_defs::{Query, Status};
use run_store::{open, status_of_reading};
use run_text::write_bytes;
use std::alloc::{AllocError, Global};
use std::sync::ledger::Ledger;

/// Finds what a query answers over the kept blocks. Each query has a function of its own.
pub fn answer_to<D: Disk>(
    alloc: Global,
    disk: &mut D,
    node: &mut Node,
    query: Query,
) -> Result<Vec<u8>, Status>
    requires own { IsOwnDiskWhereTold node.old (D.reads_as disk.old) (D.images disk.old) }
    ensures disk { OnlyReads D.content_of D.faults disk.old disk.new (result ≡ Err Status.DiskFault) }
    ensures node { KeepsNode node.old node.new (D.reads_as disk.new) (D.images disk.new) }
    ensures text { IsSoundWhereTold node.old (D.reads_as disk.old) → IfOk result (λ text. text.items ≡ reports.answer_to_query query node.old.chain) }
    ensures stop { (status : Status) → result ≡ Err status → IsOneOf opening_stops status }
    ensures sound { IsSoundWhereTold node.old (D.reads_as disk.old) → result ≡ Err Status.NotAStore → ⊥ }
    ensures damage { AnswersDamage node.old node.new (result ≡ Err Status.NotAStore) }
{
    match query {
        Query::Tip => tip(alloc, node),
        Query::Header { height } => header(alloc, disk, node, height),
        Query::Json { height } => json(alloc, disk, node, height),
        Query::Epoch => epoch(alloc, node),
        Query::Cell { tx_hash, index } => cell(alloc, node, tx_hash, index),
        Query::Cells { lock } => list(alloc, node, &lock),
        Query::Dao { tx_hash, index } => dao(alloc, disk, node, tx_hash, index),
        Query::Audit => audit(alloc, disk, node),
    }
}

/// The line of the tip.
fn tip(alloc: Global, node: &Node) -> Result<Vec<u8>, Status>
    ensures text { IfOk result (λ text. text.items ≡ reports.answer_to_query Query.Tip node.now.chain) }
    ensures memory { (status : Status) → result ≡ Err status → status ≡ Status.NoMemory }
{
    let tip = node.tip();
    line_or_stop(tip_line(alloc, tip.number, &tip.hash))
}

/// The bytes of a line, or that memory ran out.
pub fn line_or_stop(line: Result<String, AllocError>) -> Result<Vec<u8>, Status>
    ensures text { (bytes : List ℕ) → IfOk line (λ text. string_bytes text ≡ bytes) → IfOk result (λ text. text.items ≡ bytes) }
    ensures memory { (status : Status) → result ≡ Err status → status ≡ Status.NoMemory }
{
    match line {
        Ok(line) => Ok(line.into_bytes()),
        Err(_) => Err(Status::NoMemory),
    }
}

/// The line of the header at a height of the best branch.
fn header<D: Disk>(
    alloc: Global,
    disk: &mut D,
    node: &mut Node,
    height: u64,
) -> Result<Vec<u8>, Status>
    requires own { IsOwnDiskWhereTold node.old (D.reads_as disk.old) (D.images disk.old) }
    ensures disk { OnlyReads D.content_of D.faults disk.old disk.new (result ≡ Err Status.DiskFault) }
    ensures node { KeepsNode node.old node.new (D.reads_as disk.new) (D.images disk.new) }
    ensures text { IsSome (D.reads_as disk.old) → IfOk result (λ text. text.items ≡ reports.answer_to_query (queries.Header height) node.old.chain) }
    ensures stop { (status : Status) → result ≡ Err status → IsOneOf opening_stops status }
    ensures sound { IsSome (D.reads_as disk.old) → result ≡ Err Status.NotAStore → ⊥ }
    ensures damage { AnswersDamage node.old node.new (result ≡ Err Status.NotAStore) }
{
    let found = match node.header(alloc, disk, height) {
        Ok(found) => found,
        Err(stop) => return Err(status_of_reading(stop)),
    };
    line_or_stop(header_line_of(alloc, height, &found))
}

/// The line of what was found at a height.
fn header_line_of(
    alloc: Global,
    height: u64,
    found: &Option<HeaderAt>,
) -> Result<String, AllocError>
    ensures { (kept : List Block) → IsHeaderAt kept height found.now
        → IfOk result (λ text. string_bytes text ≡ header_of height (block_at (best_branch kept) height)) }
{
    match found {
        None => none_line(alloc),
        Some(it) => header_line(alloc, height, &it.hash, &it.bytes),
    }
}

/// The line of the block at a height of the best branch, as JSON.
fn json<D: Disk>(
    alloc: Global,
    disk: &mut D,
    node: &mut Node,
    height: u64,
) -> Result<Vec<u8>, Status>
    requires own { IsOwnDiskWhereTold node.old (D.reads_as disk.old) (D.images disk.old) }
    ensures disk { OnlyReads D.content_of D.faults disk.old disk.new (result ≡ Err Status.DiskFault) }
    ensures node { KeepsNode node.old node.new (D.reads_as disk.new) (D.images disk.new) }
    ensures text { IsSome (D.reads_as disk.old) → IfOk result (λ text. text.items ≡ reports.answer_to_query (queries.Json height) node.old.chain) }
    ensures stop { (status : Status) → result ≡ Err status → IsOneOf opening_stops status }
    ensures sound { IsSome (D.reads_as disk.old) → result ≡ Err Status.NotAStore → ⊥ }
    ensures damage { AnswersDamage node.old node.new (result ≡ Err Status.NotAStore) }
{
    let found = match node.block(alloc, disk, height) {
        Ok(found) => found,
        Err(stop) => return Err(status_of_reading(stop)),
    };
    let bytes = match found {
        None => return line_or_stop(none_line(alloc)),
        Some(bytes) => bytes,
    };
    // (always a block, where the disk tells what it reads as)
    let Some(block) = BlockView::read(&bytes) else {
        return Err(Status::NotAStore);
    };
    let Ok(line) = json_line(alloc, &block) else {
        return Err(Status::NoMemory);
    };
    Ok(line)
}

/// The line of a block in JSON.
fn json_line(alloc: Global, block: &BlockView<'_>) -> Result<Vec<u8>, NoMemory>
    ensures { IfOk result (λ line. line.items ≡ json_of (Some block.now)) }
{
    let mut line = to_json(alloc, block)?;
    line.push(b'\n')?;
    Ok(line)
}

/// The line of the epoch of the tip.
fn epoch(alloc: Global, node: &Node) -> Result<Vec<u8>, Status>
    ensures text { IfOk result (λ text. text.items ≡ reports.answer_to_query queries.Epoch node.now.chain) }
    ensures memory { (status : Status) → result ≡ Err status → status ≡ Status.NoMemory }
{
    let epoch = epoch_of(node.spec().epoch_length, node.tip().number);
    line_or_stop(epoch_line(alloc, &epoch))
}

/// An out-point of an index, if its four bytes hold it.
#[tactic(auto, unfolding(report_defs::specs::Queries::index_bound))]
pub fn out_point(tx_hash: [u8; 32], index: u64) -> Option<OutPoint>
    ensures { result ≡ (if nat_lt index index_bound then Some (record { tx_hash = tx_hash; index = index }) else None) }
{
    match u32::try_from(index) {
        Ok(index) => Some(OutPoint { tx_hash, index }),
        Err(_) => None,
    }
}

/// The line of the live cell with an out-point.
fn cell(alloc: Global, node: &Node, tx_hash: [u8; 32], index: u64) -> Result<Vec<u8>, Status>
    ensures text { AreRowsOfTip node.now.chain.blocks (rows node.now.cells) → IfOk result (λ text. text.items ≡ reports.answer_to_query (queries.Cell tx_hash index) node.now.chain) }
    ensures memory { (status : Status) → result ≡ Err status → status ≡ Status.NoMemory }
{
    let found = find_cell(node, tx_hash, index);
    line_or_stop(cell_line_of(alloc, &found))
}

/// The live cell with an out-point, as its row.
fn find_cell(node: &Node, tx_hash: [u8; 32], index: u64) -> Option<Live>
    ensures { AreRowsOfTip node.now.chain.blocks (rows node.now.cells) → IsCellFound (cell_at_tip node.now.chain tx_hash index) result }
{
    match out_point(tx_hash, index) {
        None => None,
        Some(o) => node.live(&o),
    }
}

/// The line of what was found with an out-point.
fn cell_line_of(alloc: Global, found: &Option<Live>) -> Result<String, AllocError>
    ensures { (live : Option Cell) → IsCellFound live found.now → IfOk result (λ text. string_bytes text ≡ cell_of live) }
{
    match found {
        None => none_line(alloc),
        Some(live) => live_line(alloc, &live.meta, live.height),
    }
}

/// Finds the answer and writes it.
fn find_and_answer<K: Sink, D: Disk>(
    alloc: Global,
    out: &mut K,
    disk: &mut D,
    node: &mut Node,
    query: Query,
) -> Status
    requires own { IsOwnDiskWhereTold node.old (D.reads_as disk.old) (D.images disk.old) }
    ensures told { SinkTook (K.taken out.old) (K.taken out.new) (λ taken. IsSoundWhereTold node.old (D.reads_as disk.old)
        → (left : Option (List ℕ)) → IsQueryPrinted query node.old.chain left taken result) }
    ensures status { IsOneOf query_statuses result }
    ensures disk { OnlyReads D.content_of D.faults disk.old disk.new (result ≡ Status.DiskFault) }
    ensures faults { CountsFault (K.faults out.old) (K.faults out.new) (result ≡ Status.SinkFault) }
    ensures damage { AnswersDamage node.old node.new (result ≡ Status.NotAStore) }
{
    let text = match answer_to(alloc, disk, node, query) {
        Ok(text) => text,
        Err(status) => return status,
    };
    write_bytes(out, &text, Status::Done)
}

/// Asks the store.
pub fn query<K: Sink, D: Disk, L: Ledger>(
    alloc: Global,
    out: &mut K,
    disk: &mut D,
    asked: Query,
    steps: &mut Steps<L>,
) -> Status
    ensures query { SinkTook (K.taken out.old) (K.taken out.new) (λ taken. (left : Option (List ℕ))
        → DeliversCommand (commands.Query asked) (D.reads_as disk.old) (D.images disk.old) (D.images disk.new) (D.left_since disk.new (D.moment disk.old)) left [] taken result) }
    ensures status { IsOneOf query_statuses result }
    ensures records { (now : Image) (chain : Chain) → D.reads_as disk.old ≡ Some now → store_of now ≡ Keeps chain
        → KeepsRecords (MayAdd (Some (commands.Query asked)) chain []) now (D.images disk.old) (D.images disk.new) (D.left_since disk.new (D.moment disk.old)) }
    ensures told { IsKnownAsBefore (D.reads_as disk.old) (D.reads_as disk.new) }
    ensures no_log { (now : Image) → D.reads_as disk.old ≡ Some now → ((chain : Chain) → store_of now ≡ Keeps chain → ⊥)
        → IsOnlyRead D.reads_as D.images D.moment D.left_since disk.old disk.new }
    ensures out_faults { CountsFault (K.faults out.old) (K.faults out.new) (result ≡ Status.SinkFault) }
    ensures disk_faults { CountsFault (D.faults disk.old) (D.faults disk.new) (result ≡ Status.DiskFault) }
    ensures rests { (now : Image) → D.reads_as disk.old ≡ Some now → slice_index now.log (end_of_log now.log) ≢ 1
        → IsOnlyRead D.reads_as D.images D.moment D.left_since disk.old disk.new }
    ensures most { (now : Image) → D.reads_as disk.old ≡ Some now → steps.new ≤ steps.old + moves_to_open now }
{
    let mut node = match open(alloc, disk, steps) {
        Ok(node) => node,
        Err(status) => return status,
    };
    let status = find_and_answer(alloc, out, disk, &mut node, asked);
    drop(node);
    status
}
