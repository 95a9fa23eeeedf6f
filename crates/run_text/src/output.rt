// What is written to the output.
ghost use Rattle.std.specs.Prelude.{◌≡◌, Err, string_bytes};
ghost use Rattle.outside.specs.Causes.{CountsFault};
ghost use Rattle.report_defs.specs.Report as reports;
ghost use Rattle.report_defs.specs.Status.{IsOneOf};
ghost use Rattle.run_text.specs.Output.{SinkTook, IsWritten, IsWrittenAnswer, IsSaid, early_ends};

use crate::lines::closing_of_end;
use outside::{Sink, write_all};
use report_defs::{End, Status};
use std::alloc::Global;

/// A text, and the status after it.
#[derive(Drop)]
pub struct Answer {
    pub text: String,
    pub status: Status,
}

/// Hands all of a text to the sink.
pub fn write_text<K: Sink>(out: &mut K, text: &[u8]) -> Result<(), Status>
    ensures written { SinkTook (K.taken out.old) (K.taken out.new) (IsWritten text.now result) }
    ensures stop { (status : Status) → result ≡ Err status → status ≡ Status.SinkFault }
    ensures faults { CountsFault (K.faults out.old) (K.faults out.new) (result ≡ Err Status.SinkFault) }
{
    match write_all(out, text) {
        Ok(()) => Ok(()),
        Err(_) => Err(Status::SinkFault),
    }
}

/// Writes bytes, and answers this status.
pub fn write_bytes<K: Sink>(out: &mut K, bytes: &[u8], status: Status) -> Status
    requires { status ≡ Status.SinkFault → ⊥ }
    ensures told { SinkTook (K.taken out.old) (K.taken out.new) (IsWrittenAnswer bytes.now status result) }
    ensures faults { CountsFault (K.faults out.old) (K.faults out.new) (result ≡ Status.SinkFault) }
{
    match write_text(out, bytes) {
        Ok(()) => status,
        Err(stop) => stop,
    }
}

/// Writes an answer's text, and answers its status.
pub fn write_answer<K: Sink>(out: &mut K, answer: &Answer) -> Status
    requires { answer.now.status ≡ Status.SinkFault → ⊥ }
    ensures told { SinkTook (K.taken out.old) (K.taken out.new) (IsWrittenAnswer (string_bytes answer.now.text) answer.now.status result) }
    ensures faults { CountsFault (K.faults out.old) (K.faults out.new) (result ≡ Status.SinkFault) }
{
    write_bytes(out, answer.text.as_bytes(), answer.status)
}

/// The status of an input whose reading ends so, which is another's where it ends between two items.
pub fn status_of_end(whole: Status, end: End) -> Status
    ensures { result ≡ reports.status_of_end whole end }
{
    match end {
        End::AtEnd => whole,
        End::Cut => Status::CutInput,
        End::BadSize => Status::BadSize,
        End::Extra => Status::ExtraInput,
    }
}

/// What is said of an input that ends early.
pub fn write_early_end<K: Sink>(alloc: Global, out: &mut K, end: End, offset: u64) -> Status
    requires { end ≡ End.AtEnd → ⊥ }
    ensures said { SinkTook (K.taken out.old) (K.taken out.new) (IsSaid (reports.report_of_end offset end) result) }
    ensures faults { CountsFault (K.faults out.old) (K.faults out.new) (result ≡ Status.SinkFault) }
    ensures one_of { IsOneOf early_ends result }
    ensures disk { result ≡ Status.DiskFault → ⊥ }
{
    let text = match closing_of_end(alloc, offset, end) {
        Ok(text) => text,
        Err(_) => return Status::NoMemory,
    };
    let answer = Answer {
        text,
        status: status_of_end(Status::Done, end),
    };
    write_answer(out, &answer)
}
