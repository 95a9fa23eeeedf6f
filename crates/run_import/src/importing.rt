// The commands `import` and `watch`: blocks, each answered by a line.
ghost use Rattle.std.specs.Prelude.{List, ℕ, Option, ◌≡◌, ◌≢◌, ◌⊎◌, ◌+◌, [], ◌∷◌, ◌<◌, ◌≤◌, ◌^◌, false, Err, Some, length, slice_index, string_bytes, IfOk, if◌then◌else◌};
ghost use Rattle.outside.specs.Causes.{CountsFault};
ghost use Rattle.outside.specs.Disk.{LeavesOnly, IsOnlyRead, IsKnownAsBefore};
ghost use Rattle.outside.specs.Image.{Image};
ghost use Rattle.disk_defs.specs.Log.{Record, end_of_log};
ghost use Rattle.disk_defs.specs.Rest.{IsSettled};
ghost use Rattle.verdict_defs.specs.Verdict.{joins};
ghost use Rattle.verdict_defs.specs.Chain.{Chain, verdict_over};
ghost use Rattle.store_defs.specs.Store.{Keeps, store_of, StandsFor};
ghost use Rattle.report_defs.specs.Items.{split_of};
ghost use Rattle.report_defs.specs.Report as reports;
ghost use Rattle.report_defs.specs.Status.{IsOneOf};
ghost use Rattle.report_defs.specs.Text.{line};
ghost use Rattle.report_defs.specs.Promise.{import_statuses};
ghost use Rattle.report_defs.specs.Survival.{NoneJoins, AreOfSome, GoesOn, KeepsRecords};
ghost use Rattle.report_defs.specs.declared.command.Command.TheVariants.{Import};
ghost use Rattle.run_text.specs.Items.{SourceGave, IsNext};
ghost use Rattle.node_store.specs.Import.{LeavesEither};
ghost use Rattle.node_store.specs.Node.{IsOwnDiskWhereTold, IsSoundWhereTold, StandsOnDisk, IsSettledAfter};
ghost use Rattle.node_store.specs.OpeningSteps.{moves_to_open};
ghost use Rattle.node_store.specs.Steps.{moves_for, steps_over};
ghost use Rattle.run_text.specs.Output.{SinkTook, Transfers};
ghost use Rattle.run_text.specs.Store.{DeliversCommand, opening_stops};
ghost use Rattle.run_import.specs.Import.{IsAnswered, AreImported, item_stops};
ghost use Rattle.report_defs.specs.Report.{line_over};
ghost use Rattle.run_import.specs.Watching.{IsSoundWatching, IsFollowed};

use crate::lines::item_line;
use crate::watching::{balance_of, follow, watch_of};
use cell_index::Balance;
use node_core::Rules;
use node_store::Node;
use outside::{Disk, NoMemory, Sink, Source, Steps};
use report_defs::{End, Status};
use run_store::{open, status_of_reading};
use run_text::{Answer, Next, closing_of_end, next_item, status_of_end, write_answer, write_text};
use std::alloc::Global;
use std::sync::ledger::Ledger;
use verdict_defs::Verdict;

/// The most bytes of an item.
const ITEM_LIMIT: usize = 1 << 20;

/// The most bytes of all items.
const INPUT_LIMIT: u64 = 1 << 40;

/// How the items ended: at which offset, and whether one of them was refused.
#[derive(Clone, Copy)]
struct Ended {
    end: End,
    offset: u64,
    refused: bool,
}

/// Reads the next item, which stands at this offset.
fn next_block<S: Source>(alloc: Global, input: &mut S, offset: u64) -> Result<Next, Status>
    requires { offset ≤ reports.input_limit }
    ensures next { SourceGave (S.left input.old) (S.left input.new) (IsNext reports.item_limit (Some reports.input_limit) offset (S.left input.new) result) }
    ensures faults { CountsFault (S.faults input.old) (S.faults input.new) (result ≡ Err Status.InputFault) }
{
    next_item(alloc, input, ITEM_LIMIT, Some(INPUT_LIMIT), offset)
}

/// Writes the line of an item, with the balance of a lock that is watched.
fn write_line<K: Sink>(
    alloc: Global,
    out: &mut K,
    verdict: &Verdict,
    balance: Option<(u64, u128)>,
) -> Result<(), Status>
    ensures written { SinkTook (K.taken out.old) (K.taken out.new) (IsAnswered (line verdict.now balance) result) }
    ensures status { (status : Status) → result ≡ Err status → IsOneOf (Status.SinkFault ∷ Status.NoMemory ∷ []) status }
    ensures faults { CountsFault (K.faults out.old) (K.faults out.new) (result ≡ Err Status.SinkFault) }
{
    match item_line(alloc, verdict, balance) {
        Ok(text) => write_text(out, text.as_bytes()),
        Err(_) => Err(Status::NoMemory),
    }
}

/// Judges an item and keeps what joins. What is watched follows the tip.
fn keep_item<D: Disk, L: Ledger>(
    alloc: Global,
    disk: &mut D,
    node: Node,
    watch: Option<Balance>,
    item: &[u8],
    steps: &mut Steps<L>,
) -> Result<(Node, Option<Balance>, Verdict), Status>
    requires size { length item.now < 2 ^ 31 }
    requires own { IsOwnDiskWhereTold node (D.reads_as disk.old) (D.images disk.old) }
    ensures imported { IfOk result (λ answer. IsFollowed node answer.0 watch answer.1 item.now answer.2 (D.reads_as disk.old) (D.reads_as disk.new) (D.images disk.old) (D.images disk.new)) }
    ensures left { LeavesEither D.reads_as D.images D.moment D.left_since disk.old disk.new (IsSoundWhereTold node (D.reads_as disk.old)) node item.now }
    ensures status { (status : Status) → result ≡ Err status → IsOneOf opening_stops status }
    ensures sound { (watched : Option (List ℕ)) → IsSoundWatching watched node watch (D.reads_as disk.old) → result ≡ Err Status.NotAStore → ⊥ }
    ensures told { IsKnownAsBefore (D.reads_as disk.old) (D.reads_as disk.new) }
    ensures settled { (records : List Record) → IsSettled node.place records (D.reads_as disk.old) (D.images disk.old)
        → IfOk result (λ answer. IsSettledAfter records item.now answer.2 answer.0.place (D.reads_as disk.new) (D.images disk.new)) }
    ensures still { IsSoundWhereTold node (D.reads_as disk.old) → joins (verdict_over node.chain item.now) ≡ false → D.content_of disk.new ≡ D.content_of disk.old }
    ensures cause { CountsFault (D.faults disk.old) (D.faults disk.new) (result ≡ Err Status.DiskFault) }
    ensures most { steps.new ≤ steps.old + moves_for node.chain item.now }
{
    let before = node.tree().tip();
    let (next, verdict) = match node.import(alloc, disk, &Rules { alloc }, item, steps) {
        Ok(answer) => answer,
        Err(stop) => return Err(status_of_reading(stop)),
    };
    let mut next = next;
    // (never over a chain that has joined: it has the blocks that it had)
    if before >= next.tree().len() {
        drop(next);
        return Err(Status::NotAStore);
    }
    match follow(alloc, disk, &mut next, watch, before) {
        Ok(watch) => Ok((next, watch, verdict)),
        Err(stop) => {
            drop(next);
            Err(status_of_reading(stop))
        }
    }
}

/// Judges an item, keeps what joins, and then writes its line.
fn import_item<K: Sink, D: Disk, L: Ledger>(
    alloc: Global,
    out: &mut K,
    disk: &mut D,
    node: Node,
    watch: Option<Balance>,
    item: &[u8],
    steps: &mut Steps<L>,
) -> Result<(Node, Option<Balance>, Verdict), Status>
    requires size { length item.now < 2 ^ 31 }
    requires own { IsOwnDiskWhereTold node (D.reads_as disk.old) (D.images disk.old) }
    ensures imported { IfOk result (λ answer. IsFollowed node answer.0 watch answer.1 item.now answer.2 (D.reads_as disk.old) (D.reads_as disk.new) (D.images disk.old) (D.images disk.new)) }
    ensures left { LeavesEither D.reads_as D.images D.moment D.left_since disk.old disk.new (IsSoundWhereTold node (D.reads_as disk.old)) node item.now }
    ensures written { SinkTook (K.taken out.old) (K.taken out.new) (λ taken. (watched : Option (List ℕ)) → IsSoundWatching watched node watch (D.reads_as disk.old)
        → IsAnswered (line_over watched node.chain item.now) result taken) }
    ensures status { (status : Status) → result ≡ Err status → IsOneOf item_stops status }
    ensures told { IsKnownAsBefore (D.reads_as disk.old) (D.reads_as disk.new) }
    ensures settled { (records : List Record) → IsSettled node.place records (D.reads_as disk.old) (D.images disk.old)
        → IfOk result (λ answer. IsSettledAfter records item.now answer.2 answer.0.place (D.reads_as disk.new) (D.images disk.new)) }
    ensures still { IsSoundWhereTold node (D.reads_as disk.old) → joins (verdict_over node.chain item.now) ≡ false → D.content_of disk.new ≡ D.content_of disk.old }
    ensures out_faults { CountsFault (K.faults out.old) (K.faults out.new) (result ≡ Err Status.SinkFault) }
    ensures disk_faults { CountsFault (D.faults disk.old) (D.faults disk.new) (result ≡ Err Status.DiskFault) }
    ensures most { steps.new ≤ steps.old + moves_for node.chain item.now }
{
    let (next, watch, verdict) = match keep_item(alloc, disk, node, watch, item, steps) {
        Ok(answer) => answer,
        Err(status) => return Err(status),
    };
    let balance = balance_of(&watch);
    match write_line(alloc, out, &verdict, balance) {
        Ok(()) => Ok((next, watch, verdict)),
        Err(status) => {
            drop((next, watch));
            Err(status)
        }
    }
}

/// Reads the items, judges each and writes its line before the next is read.
fn import_items<S: Source, K: Sink, D: Disk, L: Ledger>(
    alloc: Global,
    input: &mut S,
    out: &mut K,
    disk: &mut D,
    opened: Node,
    watched: Option<[u8; 32]>,
    steps: &mut Steps<L>,
) -> Result<Ended, Status>
    requires own { IsOwnDiskWhereTold opened (D.reads_as disk.old) (D.images disk.old) }
    ensures imported { Transfers (S.left input.old) (S.left input.new) (K.taken out.old) (K.taken out.new)
        (λ given taken. IsSoundWhereTold opened (D.reads_as disk.old) → AreImported watched opened.chain (S.left input.new) result (StandsOnDisk opened (D.reads_as disk.old) (D.images disk.old))
        (D.images disk.new) (LeavesOnly D.moment D.left_since disk.old disk.new) given taken) }
    ensures told { IsKnownAsBefore (D.reads_as disk.old) (D.reads_as disk.new) }
    ensures status { (status : Status) → result ≡ Err status → IsOneOf (Status.InputFault ∷ item_stops) status }
    ensures input_faults { CountsFault (S.faults input.old) (S.faults input.new) (result ≡ Err Status.InputFault) }
    ensures out_faults { CountsFault (K.faults out.old) (K.faults out.new) (result ≡ Err Status.SinkFault) }
    ensures disk_faults { CountsFault (D.faults disk.old) (D.faults disk.new) (result ≡ Err Status.DiskFault) }
    ensures steps { SourceGave (S.left input.old) (S.left input.new) (λ given. IsSoundWhereTold opened (D.reads_as disk.old)
        → steps.new ≤ steps.old + steps_over opened.chain (split_of reports.import_limits given).items) }
    ensures records { SourceGave (S.left input.old) (S.left input.new) (λ given. (records : List Record)
        → IsSettled opened.place records (D.reads_as disk.old) (D.images disk.old)
        → LeavesOnly D.moment D.left_since disk.old disk.new (λ image. GoesOn (AreOfSome (split_of reports.import_limits given).items) records image.log)) }
    ensures still { SourceGave (S.left input.old) (S.left input.new) (λ given. IsSoundWhereTold opened (D.reads_as disk.old)
        → NoneJoins opened.chain (split_of reports.import_limits given).items → D.content_of disk.new ≡ D.content_of disk.old) }
{
    let mut watch = match watch_of(alloc, &opened, watched) {
        Ok(watch) => watch,
        Err(_) => {
            drop(opened);
            return Err(Status::NoMemory);
        }
    };
    let mut node = opened;
    let mut offset = 0u64;
    let mut refused = false;
    'items: loop {
        let item = match next_block(alloc, input, offset) {
            Ok(Next::Item(item)) => item,
            Ok(Next::End(end)) => {
                drop((node, watch));
                return Ok(Ended {
                    end,
                    offset,
                    refused,
                });
            }
            Err(status) => {
                drop((node, watch));
                return Err(status);
            }
        };
        let (next, later, verdict) = match import_item(
            alloc, out, disk, node, watch, &item, steps,
        ) {
            Ok(answer) => answer,
            Err(status) => return Err(status),
        };
        node = next;
        watch = later;
        offset += item.len() as u64;
        refused = refused || verdict.refuses();
    }
}

/// What is said after the lines, and the status.
fn answer_to_end(alloc: Global, ended: &Ended) -> Result<Answer, NoMemory>
    ensures text { IfOk result (λ answer. string_bytes answer.text ≡ reports.closing_of_end ended.now.offset ended.now.end) }
    ensures status { IfOk result (λ answer. answer.status
        ≡ reports.status_of_end (if ended.now.refused then Status.SomeRefused else Status.Done) ended.now.end) }
{
    let text = closing_of_end(alloc, ended.offset, ended.end)?;
    let whole = if ended.refused {
        Status::SomeRefused
    } else {
        Status::Done
    };
    Ok(Answer {
        text,
        status: status_of_end(whole, ended.end),
    })
}

/// Imports what the input holds. Where a lock is watched, by its hash, each line of an item ends with its balance.
pub fn import<S: Source, K: Sink, D: Disk, L: Ledger>(
    alloc: Global,
    input: &mut S,
    out: &mut K,
    disk: &mut D,
    watched: Option<[u8; 32]>,
    steps: &mut Steps<L>,
) -> Status
    ensures import { Transfers (S.left input.old) (S.left input.new) (K.taken out.old) (K.taken out.new)
        (λ given taken. DeliversCommand (Import watched) (D.reads_as disk.old) (D.images disk.old) (D.images disk.new) (D.left_since disk.new (D.moment disk.old))
        (S.left input.new) given taken result) }
    ensures status { IsOneOf import_statuses result }
    ensures told { IsKnownAsBefore (D.reads_as disk.old) (D.reads_as disk.new) }
    ensures no_log { (now : Image) → D.reads_as disk.old ≡ Some now → ((chain : Chain) → store_of now ≡ Keeps chain → ⊥)
        → IsOnlyRead D.reads_as D.images D.moment D.left_since disk.old disk.new }
    ensures input_faults { CountsFault (S.faults input.old) (S.faults input.new) (result ≡ Status.InputFault) }
    ensures out_faults { CountsFault (K.faults out.old) (K.faults out.new) (result ≡ Status.SinkFault) }
    ensures disk_faults { CountsFault (D.faults disk.old) (D.faults disk.new) (result ≡ Status.DiskFault) }
    ensures steps { SourceGave (S.left input.old) (S.left input.new) (λ given. (now : Image) (chain : Chain) → D.reads_as disk.old ≡ Some now → StandsFor chain now
        → steps.new ≤ steps.old + moves_to_open now + steps_over chain (split_of reports.import_limits given).items) }
    ensures records { SourceGave (S.left input.old) (S.left input.new) (λ given. (now : Image) (chain : Chain) → D.reads_as disk.old ≡ Some now → store_of now ≡ Keeps chain
        → KeepsRecords (AreOfSome (split_of reports.import_limits given).items) now (D.images disk.old) (D.images disk.new) (D.left_since disk.new (D.moment disk.old))) }
    ensures still { SourceGave (S.left input.old) (S.left input.new) (λ given. (now : Image) (chain : Chain) → D.reads_as disk.old ≡ Some now → StandsFor chain now
        → slice_index now.log (end_of_log now.log) ≢ 1 → NoneJoins chain (split_of reports.import_limits given).items
        → IsOnlyRead D.reads_as D.images D.moment D.left_since disk.old disk.new) }
{
    let node = match open(alloc, disk, steps) {
        Ok(node) => node,
        Err(status) => return status,
    };
    let ended = match import_items(alloc, input, out, disk, node, watched, steps) {
        Ok(ended) => ended,
        Err(status) => return status,
    };
    let answer = match answer_to_end(alloc, &ended) {
        Ok(answer) => answer,
        Err(_) => return Status::NoMemory,
    };
    write_answer(out, &answer)
}
