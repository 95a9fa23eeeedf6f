// Line by line: each is answered before the next is read.
ghost use Rattle.std.specs.Prelude.{◌≡◌, ◌≢◌, ◌+◌, ◌≤◌, [], ◌∷◌, Err, Some, IfOk, IsSome, slice_index};
ghost use Rattle.outside.specs.Causes.{CountsFault};
ghost use Rattle.outside.specs.Disk.{IsOnlyRead, IsKnownAsBefore};
ghost use Rattle.outside.specs.Image.{Image};
ghost use Rattle.disk_defs.specs.Log.{end_of_log};
ghost use Rattle.verdict_defs.specs.Chain.{Chain};
ghost use Rattle.store_defs.specs.Store.{Keeps, store_of};
ghost use Rattle.report_defs.specs.Status.{IsOneOf};
ghost use Rattle.report_defs.specs.Survival.{KeepsRecords};
ghost use Rattle.node_store.specs.Node.{IsOwnDiskWhereTold, IsSoundWhereTold};
ghost use Rattle.node_store.specs.OpeningSteps.{moves_to_open};
ghost use Rattle.run_text.specs.Output.{SinkTook, Transfers};
ghost use Rattle.run_text.specs.Store.{OnlyReads};
ghost use Rattle.run_store.specs.Keeping.{KeepsNode};
ghost use Rattle.ask_defs.specs.Answers as answers;
ghost use Rattle.ask_defs.specs.Promise.{IsAsked, ask_statuses};
ghost use Rattle.run_ask.specs.Finding.{HoldsCommitted};
ghost use Rattle.run_ask.specs.Asking.{IsAnswered, IsAskedNext, AreAnswered, line_stops};

use crate::answers::answer;
use crate::next::{NextLine, next_line};
use node_store::Node;
use outside::{Disk, Sink, Source, Steps};
use report_defs::Status;
use run_store::open;
use run_text::{has_more, write_text};
use std::alloc::Global;
use std::sync::ledger::Ledger;
use transaction_index::TransactionIndex;

/// How the reading goes on after a line.
#[derive(Clone, Copy)]
pub enum Going {
    /// Another line may follow.
    On,
    /// The input has ended.
    AtEnd,
    /// The line is too long.
    TooLong,
}

/// Answers a line, after which the reading goes on so.
fn answer_line<K: Sink, D: Disk>(
    alloc: Global,
    out: &mut K,
    disk: &mut D,
    node: &mut Node,
    index: &mut Option<TransactionIndex>,
    line: &[u8],
    going: Going,
) -> Result<Going, Status>
    requires own { IsOwnDiskWhereTold node.old (D.reads_as disk.old) (D.images disk.old) }
    requires held { IsSome (D.reads_as disk.old) → HoldsCommitted node.old.chain index.old }
    ensures written { SinkTook (K.taken out.old) (K.taken out.new) (λ taken. IsSoundWhereTold node.old (D.reads_as disk.old)
        → IsAnswered (answers.answer node.old.chain line.now) result taken) }
    ensures goes { IfOk result (λ after. after ≡ going) }
    ensures stop { (status : Status) → result ≡ Err status → IsOneOf line_stops status }
    ensures disk { OnlyReads D.content_of D.faults disk.old disk.new (result ≡ Err Status.DiskFault) }
    ensures node { KeepsNode node.old node.new (D.reads_as disk.new) (D.images disk.new) }
    ensures held { IsSome (D.reads_as disk.old) → HoldsCommitted node.old.chain index.new }
    ensures faults { CountsFault (K.faults out.old) (K.faults out.new) (result ≡ Err Status.SinkFault) }
{
    let text = match answer(alloc, disk, node, index, line) {
        Ok(text) => text,
        Err(status) => return Err(status),
    };
    match write_text(out, &text) {
        Ok(()) => Ok(going),
        Err(status) => Err(status),
    }
}

/// Reads a line and answers it.
fn ask_next<S: Source, K: Sink, D: Disk>(
    alloc: Global,
    input: &mut S,
    out: &mut K,
    disk: &mut D,
    node: &mut Node,
    index: &mut Option<TransactionIndex>,
) -> Result<Going, Status>
    requires own { IsOwnDiskWhereTold node.old (D.reads_as disk.old) (D.images disk.old) }
    requires held { IsSome (D.reads_as disk.old) → HoldsCommitted node.old.chain index.old }
    ensures asked { Transfers (S.left input.old) (S.left input.new) (K.taken out.old) (K.taken out.new)
        (λ given taken. IsAskedNext (IsSoundWhereTold node.old (D.reads_as disk.old)) node.old.chain (S.left input.new) result given taken) }
    ensures stop { (status : Status) → result ≡ Err status → IsOneOf (Status.InputFault ∷ line_stops) status }
    ensures disk { OnlyReads D.content_of D.faults disk.old disk.new (result ≡ Err Status.DiskFault) }
    ensures node { KeepsNode node.old node.new (D.reads_as disk.new) (D.images disk.new) }
    ensures held { IsSome (D.reads_as disk.old) → HoldsCommitted node.old.chain index.new }
    ensures input_faults { CountsFault (S.faults input.old) (S.faults input.new) (result ≡ Err Status.InputFault) }
    ensures out_faults { CountsFault (K.faults out.old) (K.faults out.new) (result ≡ Err Status.SinkFault) }
{
    match next_line(alloc, input) {
        Ok(NextLine::Line(line)) => answer_line(alloc, out, disk, node, index, &line, Going::On),
        Ok(NextLine::Last(line)) => answer_line(alloc, out, disk, node, index, &line, Going::AtEnd),
        Ok(NextLine::End) => Ok(Going::AtEnd),
        Ok(NextLine::TooLong) => Ok(Going::TooLong),
        Err(status) => Err(status),
    }
}

/// Answers line after line, up to the end of the input, a line that is too long, or as many lines as are counted.
fn ask_all<S: Source, K: Sink, D: Disk>(
    alloc: Global,
    input: &mut S,
    out: &mut K,
    disk: &mut D,
    node: &mut Node,
    index: &mut Option<TransactionIndex>,
) -> Status
    requires own { IsOwnDiskWhereTold node.old (D.reads_as disk.old) (D.images disk.old) }
    requires held { IsSome (D.reads_as disk.old) → HoldsCommitted node.old.chain index.old }
    ensures asked { Transfers (S.left input.old) (S.left input.new) (K.taken out.old) (K.taken out.new)
        (λ given taken. IsSoundWhereTold node.old (D.reads_as disk.old) → AreAnswered node.old.chain given (S.left input.new) taken result) }
    ensures status { IsOneOf ask_statuses result }
    ensures disk { OnlyReads D.content_of D.faults disk.old disk.new (result ≡ Status.DiskFault) }
    ensures input_faults { CountsFault (S.faults input.old) (S.faults input.new) (result ≡ Status.InputFault) }
    ensures out_faults { CountsFault (K.faults out.old) (K.faults out.new) (result ≡ Status.SinkFault) }
{
    let mut more = u64::MAX;
    'lines: while more > 0 {
        match ask_next(alloc, input, out, disk, node, index) {
            Ok(Going::On) => {}
            Ok(Going::AtEnd) => return Status::Done,
            Ok(Going::TooLong) => return Status::BadSize,
            Err(status) => return status,
        }
        more -= 1;
    }
    match has_more(input) {
        Ok(true) => Status::ExtraInput,
        Ok(false) => Status::Done,
        Err(status) => status,
    }
}

/// Opens the store on a disk, and answers each line of the input before it reads the next (docs/COMMANDS.md, "Many questions").
/// `BadSize` after a line above 2,097,154 bytes, and `ExtraInput` where more than 2^64 - 1 lines are asked.
pub fn ask<S: Source, K: Sink, D: Disk, L: Ledger>(
    alloc: Global,
    input: &mut S,
    out: &mut K,
    disk: &mut D,
    steps: &mut Steps<L>,
) -> Status
    // All that it promises of the bytes that the source gave and the sink took, and of the disk.
    ensures asked { Transfers (S.left input.old) (S.left input.new) (K.taken out.old) (K.taken out.new)
        (λ given taken. IsAsked (D.reads_as disk.old) (D.images disk.old) (D.images disk.new) (D.left_since disk.new (D.moment disk.old))
        (S.left input.new) given taken result) }
    ensures status { IsOneOf ask_statuses result }
    ensures records { (now : Image) (chain : Chain) → D.reads_as disk.old ≡ Some now → store_of now ≡ Keeps chain
        → KeepsRecords (λ records. records ≡ []) now (D.images disk.old) (D.images disk.new) (D.left_since disk.new (D.moment disk.old)) }
    ensures told { IsKnownAsBefore (D.reads_as disk.old) (D.reads_as disk.new) }
    ensures no_log { (now : Image) → D.reads_as disk.old ≡ Some now → ((chain : Chain) → store_of now ≡ Keeps chain → ⊥)
        → IsOnlyRead D.reads_as D.images D.moment D.left_since disk.old disk.new }
    ensures input_faults { CountsFault (S.faults input.old) (S.faults input.new) (result ≡ Status.InputFault) }
    ensures out_faults { CountsFault (K.faults out.old) (K.faults out.new) (result ≡ Status.SinkFault) }
    ensures disk_faults { CountsFault (D.faults disk.old) (D.faults disk.new) (result ≡ Status.DiskFault) }
    ensures rests { (now : Image) → D.reads_as disk.old ≡ Some now → slice_index now.log (end_of_log now.log) ≢ 1
        → IsOnlyRead D.reads_as D.images D.moment D.left_since disk.old disk.new }
    ensures most { (now : Image) → D.reads_as disk.old ≡ Some now → steps.new ≤ steps.old + moves_to_open now }
{
    let mut node = match open(alloc, disk, steps) {
        Ok(node) => node,
        Err(status) => return status,
    };
    let mut index = None;
    let status = ask_all(alloc, input, out, disk, &mut node, &mut index);
    drop(index);
    drop(node);
    status
}
