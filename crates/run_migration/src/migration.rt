// The command `migrate`: the store is given an edition, and nothing is read.
ghost use Rattle.std.specs.Prelude.{◌≡◌, ◌≢◌, ◌⊎◌, ◌↔◌, slice_index, ◌+◌, ◌≤◌, ◌∷◌, List, ℕ, Option, Some, [], IfOk, string_bytes};
ghost use Rattle.outside.specs.Causes.{CountsFault};
ghost use Rattle.outside.specs.Disk.{LeavesOnly, IsOnlyRead, IsKnownAsBefore};
ghost use Rattle.outside.specs.Image.{Image};
ghost use Rattle.verdict_defs.specs.Chain.{Chain};
ghost use Rattle.disk_defs.specs.Log.{Record, end_of_log};
ghost use Rattle.disk_defs.specs.Rest.{IsSettled};
ghost use Rattle.store_defs.specs.Store.{Keeps, store_of, StandsFor};
ghost use Rattle.store_defs.specs.Migration.{migrated};
ghost use Rattle.report_defs.specs.Report as reports;
ghost use Rattle.report_defs.specs.Text as text;
ghost use Rattle.report_defs.specs.Status.{IsOneOf};
ghost use Rattle.report_defs.specs.Promise.{migrate_statuses};
ghost use Rattle.report_defs.specs.Survival.{GoesOn, IsOfEdition, KeepsRecords, MayAdd, refusals};
ghost use Rattle.report_defs.specs.declared.command.Command.TheVariants as commands;
ghost use Rattle.node_store.specs.Node.{IsOwnDiskWhereTold, IsSoundWhereTold, StandsOnDisk};
ghost use Rattle.node_store.specs.OpeningSteps.{moves_to_open};
ghost use Rattle.run_text.specs.Output.{SinkTook, IsSaid};
ghost use Rattle.run_text.specs.Store.{DeliversCommand};
ghost use Rattle.run_migration.specs.Migration.{LeavesMoved, moving_statuses, outcomes, telling_statuses};

use node_store::{Moved, Node};
use outside::{Disk, Sink, Steps, WriteStop};
use report_defs::Status;
use run_store::open;
use run_text::{Answer, number_line, write_answer};
use std::alloc::{AllocError, Global};
use std::sync::ledger::Ledger;

/// What is said of what became of an edition from this epoch on.
fn answer_of(alloc: Global, epoch: u64, moved: Moved) -> Result<Answer, AllocError>
    ensures text { IfOk result (λ answer. string_bytes answer.text ≡ reports.text_of (reports.report_of_moved epoch moved)) }
    ensures status { IfOk result (λ answer. answer.status ≡ (reports.report_of_moved epoch moved).status) }
{
    match moved {
        Moved::Done => edition_answer(alloc, epoch, Status::Done),
        Moved::Already(first) => edition_answer(alloc, first, Status::AlreadyMigrated),
        Moved::TooEarly(reached) => too_early_answer(alloc, reached),
    }
}

/// The line of an edition, with a status.
fn edition_answer(alloc: Global, first: u64, status: Status) -> Result<Answer, AllocError>
    ensures text { IfOk result (λ answer. string_bytes answer.text ≡ text.edition_line first) }
    ensures status { IfOk result (λ answer. answer.status ≡ status) }
{
    let text = number_line(alloc, "edition ", first)?;
    Ok(Answer { text, status })
}

/// The line of an epoch that a tip has reached.
fn too_early_answer(alloc: Global, reached: u64) -> Result<Answer, AllocError>
    ensures text { IfOk result (λ answer. string_bytes answer.text ≡ text.too_early_line reached) }
    ensures status { IfOk result (λ answer. answer.status ≡ Status.TooEarly) }
{
    let text = number_line(alloc, "too early ", reached)?;
    Ok(Answer {
        text,
        status: Status::TooEarly,
    })
}

/// The status of a stop of writing.
fn status_of_writing(stop: WriteStop) -> Status
    ensures one_of { IsOneOf (Status.DiskFault ∷ Status.NoMemory ∷ []) result }
    ensures fault { (result ≡ Status.DiskFault) ↔ (stop ≡ WriteStop.DiskFault) }
{
    match stop {
        WriteStop::DiskFault => Status::DiskFault,
        WriteStop::NoMemory => Status::NoMemory,
    }
}

/// Tells what became of an edition from this epoch on.
fn tell<K: Sink>(alloc: Global, out: &mut K, epoch: u64, moved: Moved) -> Status
    ensures said { SinkTook (K.taken out.old) (K.taken out.new) (IsSaid (reports.report_of_moved epoch moved) result) }
    ensures one_of { IsOneOf telling_statuses result }
    ensures told { IsOneOf outcomes result → result ≡ (reports.report_of_moved epoch moved).status }
    ensures faults { CountsFault (K.faults out.old) (K.faults out.new) (result ≡ Status.SinkFault) }
{
    match answer_of(alloc, epoch, moved) {
        Ok(answer) => write_answer(out, &answer),
        Err(_) => Status::NoMemory,
    }
}

/// Gives the store the edition, and tells what became of it.
fn move_and_answer<K: Sink, D: Disk>(
    alloc: Global,
    out: &mut K,
    disk: &mut D,
    node: Node,
    epoch: u64,
) -> Status
    requires own { IsOwnDiskWhereTold node (D.reads_as disk.old) (D.images disk.old) }
    ensures said { SinkTook (K.taken out.old) (K.taken out.new) (IsSaid (reports.report_of_migration epoch node.chain) result) }
    ensures one_of { IsOneOf moving_statuses result }
    ensures moved { StandsOnDisk node (D.reads_as disk.old) (D.images disk.old) → LeavesMoved epoch node.chain result (D.images disk.new) }
    ensures moments { StandsOnDisk node (D.reads_as disk.old) (D.images disk.old)
        → LeavesOnly D.moment D.left_since disk.old disk.new (λ image. StandsFor node.chain image ⊎ StandsFor (migrated epoch node.chain) image) }
    ensures keeps { (records : List Record) → IsSettled node.place records (D.reads_as disk.old) (D.images disk.old)
        → LeavesOnly D.moment D.left_since disk.old disk.new (λ image. GoesOn (IsOfEdition epoch node.chain) records image.log) }
    ensures refused { IsOneOf refusals result → disk.new ≡ disk.old }
    ensures told { IsKnownAsBefore (D.reads_as disk.old) (D.reads_as disk.new) }
    ensures out_faults { CountsFault (K.faults out.old) (K.faults out.new) (result ≡ Status.SinkFault) }
    ensures disk_faults { CountsFault (D.faults disk.old) (D.faults disk.new) (result ≡ Status.DiskFault) }
{
    match node.migrate(alloc, disk, epoch) {
        Ok((node, moved)) => {
            drop(node);
            tell(alloc, out, epoch, moved)
        }
        Err(stop) => status_of_writing(stop),
    }
}

/// Gives the store an edition of the rules, from this epoch on, where it has none and its tip has not reached it.
pub fn migrate<K: Sink, D: Disk, L: Ledger>(
    alloc: Global,
    out: &mut K,
    disk: &mut D,
    epoch: u64,
    steps: &mut Steps<L>,
) -> Status
    ensures migration { SinkTook (K.taken out.old) (K.taken out.new) (λ taken. (left : Option (List ℕ))
        → DeliversCommand (commands.Migrate epoch) (D.reads_as disk.old) (D.images disk.old) (D.images disk.new) (D.left_since disk.new (D.moment disk.old)) left [] taken result) }
    ensures status { IsOneOf migrate_statuses result }
    ensures records { (now : Image) (chain : Chain) → D.reads_as disk.old ≡ Some now → store_of now ≡ Keeps chain
        → KeepsRecords (MayAdd (Some (commands.Migrate epoch)) chain []) now (D.images disk.old) (D.images disk.new) (D.left_since disk.new (D.moment disk.old)) }
    ensures told { IsKnownAsBefore (D.reads_as disk.old) (D.reads_as disk.new) }
    ensures no_log { (now : Image) → D.reads_as disk.old ≡ Some now → ((chain : Chain) → store_of now ≡ Keeps chain → ⊥)
        → IsOnlyRead D.reads_as D.images D.moment D.left_since disk.old disk.new }
    ensures rests { (now : Image) → D.reads_as disk.old ≡ Some now → slice_index now.log (end_of_log now.log) ≢ 1
        → IsOneOf refusals result → IsOnlyRead D.reads_as D.images D.moment D.left_since disk.old disk.new }
    ensures out_faults { CountsFault (K.faults out.old) (K.faults out.new) (result ≡ Status.SinkFault) }
    ensures disk_faults { CountsFault (D.faults disk.old) (D.faults disk.new) (result ≡ Status.DiskFault) }
    ensures most { (now : Image) → D.reads_as disk.old ≡ Some now → steps.new ≤ steps.old + moves_to_open now }
{
    match open(alloc, disk, steps) {
        Ok(node) => move_and_answer(alloc, out, disk, node, epoch),
        Err(status) => status,
    }
}
