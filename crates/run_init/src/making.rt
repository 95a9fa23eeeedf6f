// The command `init`: a new store of a specification and a genesis.
ghost use Rattle.std.specs.Prelude.{◌≡◌, ◌↔◌, ◌∷◌, ◌<◌, ◌^◌, [], Err, Some, length, string_bytes, IfOk, IsSome};
ghost use Rattle.outside.specs.Causes.{CountsFault};
ghost use Rattle.outside.specs.Disk.{IsAsBefore, IsKnownAsBefore};
ghost use Rattle.outside.specs.Image.{Image};
ghost use Rattle.store_defs.specs.Store.{NoLog, store_of};
ghost use Rattle.report_defs.specs.Report as reports;
ghost use Rattle.report_defs.specs.Status.{IsOneOf};
ghost use Rattle.report_defs.specs.Promise.{init_statuses};
ghost use Rattle.report_defs.specs.Survival.{as_before};
ghost use Rattle.report_defs.specs.declared.command.Command.TheVariants.{Init as init_command};
ghost use Rattle.run_text.specs.Output.{SinkTook, Transfers, IsSaid};
ghost use Rattle.run_text.specs.Store.{DeliversCommand};
ghost use Rattle.run_init.specs.Init.{StandsAlone, new_statuses, text_of_stop};

use crate::lines::{bad_genesis_line, bad_spec_line, genesis_line};
use node_store::{NewStop, judge};
use outside::{Area, Disk, Sink, Source, WriteStop};
use report_defs::Status;
use run_text::{Answer, Whole, read_whole, write_answer, write_early_end};
use std::alloc::Global;

/// The most bytes of a specification.
const SPEC_LIMIT: usize = 1 << 20;

/// The most bytes of a genesis.
const GENESIS_LIMIT: usize = 1 << 22;

/// What is said of a specification or a genesis that breaks a rule. The status is `NoMemory`.
fn refusal(alloc: Global, stop: NewStop) -> Result<Answer, Status>
    ensures text { IfOk result (λ answer. string_bytes answer.text ≡ text_of_stop stop) }
    ensures status { IfOk result (λ answer. answer.status ≡ Status.BadGenesis) }
    ensures rule { IfOk result (λ _. stop ≡ NewStop.NoMemory → ⊥) }
    ensures memory { (status : Status) → result ≡ Err status → status ≡ Status.NoMemory }
{
    let text = match stop {
        NewStop::BadSpec(rule) => bad_spec_line(alloc, rule),
        NewStop::BadGenesis(rule) => bad_genesis_line(alloc, rule),
        NewStop::NoMemory => return Err(Status::NoMemory),
    };
    match text {
        Ok(text) => Ok(Answer {
            text,
            status: Status::BadGenesis,
        }),
        Err(_) => Err(Status::NoMemory),
    }
}

/// The status of a stop of writing.
fn status_of_writing(stop: WriteStop) -> Status
    ensures one_of { IsOneOf (Status.DiskFault ∷ Status.NoMemory ∷ []) result }
    ensures fault { (result ≡ Status.DiskFault) ↔ (stop ≡ WriteStop.DiskFault) }
{
    match stop {
        WriteStop::DiskFault => Status::DiskFault,
        WriteStop::NoMemory => Status::NoMemory,
    }
}

/// Makes the store, unless a rule is broken, and answers what is said of it. The text is had before the disk is called.
fn make<D: Disk>(
    alloc: Global,
    disk: &mut D,
    specification: &[u8],
    genesis: &[u8],
) -> Result<Answer, Status>
    requires specification { length specification.now < 2 ^ 32 }
    requires genesis { length genesis.now < 2 ^ 32 }
    ensures text { IfOk result (λ answer. string_bytes answer.text ≡ reports.text_of (reports.report_of_new specification.now genesis.now)) }
    ensures status { IfOk result (λ answer. answer.status ≡ (reports.report_of_new specification.now genesis.now).status) }
    ensures one_of { IfOk result (λ answer. IsOneOf (Status.Done ∷ Status.BadGenesis ∷ []) answer.status) }
    ensures stop { (status : Status) → result ≡ Err status → IsOneOf (Status.DiskFault ∷ Status.NoMemory ∷ []) status }
    ensures made { IsSome (D.reads_as disk.old) → IfOk result (λ answer. answer.status ≡ Status.Done → StandsAlone specification.now genesis.now (D.images disk.new)) }
    ensures unmade { IfOk result (λ answer. answer.status ≡ Status.BadGenesis → disk.new ≡ disk.old) }
    ensures told { IsKnownAsBefore (D.reads_as disk.old) (D.reads_as disk.new) }
    ensures cause { CountsFault (D.faults disk.old) (D.faults disk.new) (result ≡ Err Status.DiskFault) }
{
    let new = match judge(alloc, specification, genesis) {
        Ok(new) => new,
        Err(stop) => return refusal(alloc, stop),
    };
    let text = match genesis_line(alloc, &new.genesis_hash()) {
        Ok(text) => text,
        Err(_) => return Err(Status::NoMemory),
    };
    match new.create(alloc, disk) {
        Ok(()) => Ok(Answer {
            text,
            status: Status::Done,
        }),
        Err(stop) => Err(status_of_writing(stop)),
    }
}

/// Makes the store, unless a rule is broken, and tells so.
fn make_and_answer<K: Sink, D: Disk>(
    alloc: Global,
    out: &mut K,
    disk: &mut D,
    specification: &[u8],
    genesis: &[u8],
) -> Status
    requires specification { length specification.now < 2 ^ 32 }
    requires genesis { length genesis.now < 2 ^ 32 }
    ensures said { SinkTook (K.taken out.old) (K.taken out.new) (IsSaid (reports.report_of_new specification.now genesis.now) result) }
    ensures status { IsOneOf new_statuses result }
    ensures made { IsSome (D.reads_as disk.old) → result ≡ Status.Done → StandsAlone specification.now genesis.now (D.images disk.new) }
    ensures unmade { result ≡ Status.BadGenesis → disk.new ≡ disk.old }
    ensures told { IsKnownAsBefore (D.reads_as disk.old) (D.reads_as disk.new) }
    ensures out_faults { CountsFault (K.faults out.old) (K.faults out.new) (result ≡ Status.SinkFault) }
    ensures disk_faults { CountsFault (D.faults disk.old) (D.faults disk.new) (result ≡ Status.DiskFault) }
{
    match make(alloc, disk, specification, genesis) {
        Ok(answer) => write_answer(out, &answer),
        Err(status) => status,
    }
}

/// Makes a new store of what the input holds, where there is none.
pub fn init<S: Source, K: Sink, D: Disk>(
    alloc: Global,
    input: &mut S,
    out: &mut K,
    disk: &mut D,
) -> Status
    ensures init { Transfers (S.left input.old) (S.left input.new) (K.taken out.old) (K.taken out.new)
        (λ given taken. DeliversCommand init_command (D.reads_as disk.old) (D.images disk.old) (D.images disk.new) (D.left_since disk.new (D.moment disk.old))
        (S.left input.new) given taken result) }
    ensures status { IsOneOf init_statuses result }
    ensures told { IsKnownAsBefore (D.reads_as disk.old) (D.reads_as disk.new) }
    ensures there { (now : Image) → D.reads_as disk.old ≡ Some now → (store_of now ≡ NoLog → ⊥) → IsAsBefore D.reads_as D.images D.moment D.left_since disk.old disk.new }
    ensures as_before { IsOneOf (as_before (Some init_command)) result → IsAsBefore D.reads_as D.images D.moment D.left_since disk.old disk.new }
    ensures input_faults { CountsFault (S.faults input.old) (S.faults input.new) (result ≡ Status.InputFault) }
    ensures out_faults { CountsFault (K.faults out.old) (K.faults out.new) (result ≡ Status.SinkFault) }
    ensures disk_faults { CountsFault (D.faults disk.old) (D.faults disk.new) (result ≡ Status.DiskFault) }
{
    let length = match disk.len(Area::Log) {
        Ok(length) => length,
        Err(_) => return Status::DiskFault,
    };
    if length != 0 {
        return Status::StoreThere;
    }
    match read_whole(alloc, input, &[SPEC_LIMIT, GENESIS_LIMIT], 2) {
        Ok(Whole::Items(items)) => make_and_answer(alloc, out, disk, &items[0], &items[1]),
        Ok(Whole::Early { end, offset }) => write_early_end(alloc, out, end, offset),
        Err(status) => status,
    }
}
