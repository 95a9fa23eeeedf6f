// The next item of an input.
ghost use Rattle.std.specs.Prelude.{◌≡◌, ◌+◌, ◌^◌, ◌<◌, ◌≤◌, ◌++◌, ℕ, List, Err, length, take, drop, false, IfOk, OnErr};
ghost use Rattle.std.specs.Int.{w32, from_le_bytes};
ghost use Rattle.std.specs.Io.KnownBytes.{IsAtEnd};
ghost use Rattle.outside.specs.Causes.{HasCause, CountsFault};
ghost use Rattle.outside.specs.Streams.{Gives};
ghost use Rattle.report_defs.specs.Items as items;
ghost use Rattle.run_text.specs.Items.{SourceGave, IsNext, IsEndProbe};

use outside::{Failed, Source, read_full};
use report_defs::{End, Status};
use std::alloc::Global;

/// What stands next in an input.
#[derive(Drop)]
pub enum Next {
    Item(Vec<u8>),
    End(End),
}

/// Reads the next item, which stands at this offset: at most `limit` bytes, and all items up to it within
/// the limit of the input. The status is `InputFault` or `NoMemory`.
pub fn next_item<S: Source>(
    alloc: Global,
    input: &mut S,
    limit: usize,
    input_limit: Option<u64>,
    offset: u64,
) -> Result<Next, Status>
    requires { offset ≤ 2 ^ 62 }
    ensures next { SourceGave (S.left input.old) (S.left input.new) (IsNext limit input_limit offset (S.left input.new) result) }
    ensures faults { CountsFault (S.faults input.old) (S.faults input.new) (result ≡ Err Status.InputFault) }
{
    let mut word = [0u8; 4];
    let n = match read_full(input, &mut word) {
        Ok(n) => n,
        Err(_) => return Err(Status::InputFault),
    };
    if n == 0 {
        return Ok(Next::End(End::AtEnd));
    }
    if n < 4 {
        return Ok(Next::End(End::Cut));
    }
    let size = u32::from_le_bytes(word) as usize;
    if size < 4 || size > limit {
        return Ok(Next::End(End::BadSize));
    }
    if is_past(input_limit, offset + size as u64) {
        return Ok(Next::End(End::Extra));
    }
    item_of_size(alloc, input, input_limit, offset, &word, size)
}

/// Whether an offset is past the limit of an input.
fn is_past(input_limit: Option<u64>, offset: u64) -> bool
    ensures { result ≡ items.is_past input_limit offset }
{
    match input_limit {
        Some(most) => most < offset,
        None => false,
    }
}

/// Reads the rest of an item of this size, whose size word was read.
fn item_of_size<S: Source>(
    alloc: Global,
    input: &mut S,
    input_limit: Option<u64>,
    offset: u64,
    word: &[u8; 4],
    size: usize,
) -> Result<Next, Status>
    requires word { from_le_bytes w32 word.now ≡ size }
    requires least { 4 ≤ size }
    requires within { items.is_past input_limit (offset + size) ≡ false }
    ensures next { (limit : ℕ) → size ≤ limit
        → SourceGave (S.left input.old) (S.left input.new) (λ given. IsNext limit input_limit offset (S.left input.new) result (word.now ++ given)) }
    ensures faults { CountsFault (S.faults input.old) (S.faults input.new) (result ≡ Err Status.InputFault) }
{
    let mut item = match vec![in alloc; 0u8; size] {
        Ok(item) => item,
        Err(_) => return Err(Status::NoMemory),
    };
    let n = match fill(input, word, &mut item) {
        Ok(n) => n,
        Err(_) => return Err(Status::InputFault),
    };
    if n < size - 4 {
        return Ok(Next::End(End::Cut));
    }
    Ok(Next::Item(item))
}

/// Puts the size word at the start of an item and reads what is after it.
fn fill<S: Source>(input: &mut S, word: &[u8; 4], item: &mut [u8]) -> Result<usize, Failed>
    requires { 4 ≤ length item.old }
    ensures read { IfOk result (λ n. n + 4 ≤ length item.old) }
    ensures given { IfOk result (λ n. Gives (S.left input.old) (S.left input.new) (take n (drop 4 item.new))) }
    ensures prefix { IfOk result (λ n. take 4 item.new ≡ word.now) }
    ensures end { IfOk result (λ n. n + 4 < length item.old → IsAtEnd (S.left input.new)) }
    ensures given_before { OnErr result ((given : List ℕ) × (length given + 4 < length item.old)
        × Gives (S.left input.old) (S.left input.new) given) }
    ensures cause { HasCause (S.faults input.old) (S.faults input.new) result }
{
    item[..4].copy_from_slice(word);
    read_full(input, &mut item[4..])
}

/// Whether a byte is left, where no item is taken. The status is `InputFault`.
pub fn has_more<S: Source>(input: &mut S) -> Result<bool, Status>
    ensures more { SourceGave (S.left input.old) (S.left input.new) (IsEndProbe (S.left input.new) result) }
    ensures faults { CountsFault (S.faults input.old) (S.faults input.new) (result ≡ Err Status.InputFault) }
{
    let mut byte = [0u8; 1];
    match read_full(input, &mut byte) {
        Ok(n) => Ok(0 < n),
        Err(_) => Err(Status::InputFault),
    }
}
