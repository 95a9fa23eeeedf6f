// A whole input, and an answer.
ghost use Rattle.std.specs.Prelude.{◌≡◌, ℕ, ◌<◌, ◌≤◌, ◌^◌, List, Err, IfOk, OnOk, length};
ghost use Rattle.std.specs.Io.KnownBytes.{IsAtEnd};
ghost use Rattle.outside.specs.Causes.{CountsFault};
ghost use Rattle.outside.specs.Streams.{Gives, Takes};

use crate::status::Status;
use outside::{Sink, Source, read_full, write_all};
use std::alloc::Global;

/// All of an input, which is to have at most `limit` bytes. The status is `InputFault`, `NoMemory` or `ExtraInput`.
pub fn read_input<S: Source>(alloc: Global, limit: usize, input: &mut S) -> Result<Vec<u8>, Status>
    requires { limit < 2 ^ 62 }
    ensures given { IfOk result (λ bytes. Gives (S.left input.old) (S.left input.new) bytes.items) }
    ensures end { IfOk result (λ bytes. IsAtEnd (S.left input.new)) }
    ensures fits { IfOk result (λ bytes. length bytes.items ≤ limit) }
    ensures extra { result ≡ Err Status.ExtraInput → (bytes : List ℕ) × (limit < length bytes) × Gives (S.left input.old) (S.left input.new) bytes }
    ensures faults { CountsFault (S.faults input.old) (S.faults input.new) (result ≡ Err Status.InputFault) }
{
    let mut bytes = vec![in alloc; 0u8; limit + 1]?;
    let count = match read_full(input, &mut bytes) {
        Ok(count) => count,
        Err(_) => return Err(Status::InputFault),
    };
    if count > limit {
        return Err(Status::ExtraInput);
    }
    bytes.truncate(count);
    Ok(bytes)
}

/// Has a sink take all of an answer. The status is `OutputFault`.
pub fn write_answer<K: Sink>(bytes: &[u8], out: &mut K) -> Result<(), Status>
    ensures taken { OnOk result (Takes (K.taken out.old) (K.taken out.new) bytes.now) }
    ensures faults { CountsFault (K.faults out.old) (K.faults out.new) (result ≡ Err Status.OutputFault) }
{
    match write_all(out, bytes) {
        Ok(()) => Ok(()),
        Err(_) => Err(Status::OutputFault),
    }
}
