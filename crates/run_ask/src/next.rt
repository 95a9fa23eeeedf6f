// The next line of the input.
ghost use Rattle.std.specs.Prelude.{◌≡◌, Err};
ghost use Rattle.outside.specs.Causes.{CountsFault};
ghost use Rattle.run_text.specs.Items.{SourceGave};
ghost use Rattle.run_ask.specs.Reading.{IsNextByte, IsNextLine, last_of};

use outside::{Source, read_full};
use report_defs::Status;
use std::alloc::Global;

/// The most bytes of a line.
const LINE_LIMIT: usize = 2_097_154;

/// What stands next in the input.
#[derive(Drop)]
pub enum NextLine {
    /// A line with its line feed.
    Line(Vec<u8>),
    /// Bytes that the input ends after.
    Last(Vec<u8>),
    /// Nothing.
    End,
    /// More bytes than a line has.
    TooLong,
}

/// Reads a byte, unless the input has ended. The status is `InputFault`.
fn next_byte<S: Source>(input: &mut S) -> Result<Option<u8>, Status>
    ensures byte { SourceGave (S.left input.old) (S.left input.new) (IsNextByte (S.left input.new) result) }
    ensures faults { CountsFault (S.faults input.old) (S.faults input.new) (result ≡ Err Status.InputFault) }
{
    let mut byte = [0u8; 1];
    match read_full(input, &mut byte) {
        Ok(n) => { if n == 0 { Ok(None) } else { Ok(Some(byte[0])) } }
        Err(_) => Err(Status::InputFault),
    }
}

/// What ends with the input.
fn last_line(line: Vec<u8>) -> NextLine
    ensures { result ≡ last_of line }
{
    if line.is_empty() {
        NextLine::End
    } else {
        NextLine::Last(line)
    }
}

/// Reads a line up to its line feed, and not a byte more. The status is `InputFault` or `NoMemory`.
pub fn next_line<S: Source>(alloc: Global, input: &mut S) -> Result<NextLine, Status>
    ensures line { SourceGave (S.left input.old) (S.left input.new) (IsNextLine (S.left input.new) result) }
    ensures faults { CountsFault (S.faults input.old) (S.faults input.new) (result ≡ Err Status.InputFault) }
{
    let mut line = Vec::new(alloc);
    'bytes: while line.len() <= LINE_LIMIT {
        let byte = match next_byte(input) {
            Ok(Some(byte)) => byte,
            Ok(None) => return Ok(last_line(line)),
            Err(status) => return Err(status),
        };
        if byte == b'\n' {
            return Ok(NextLine::Line(line));
        }
        match line.push(byte) {
            Ok(()) => {}
            Err(_) => return Err(Status::NoMemory),
        }
    }
    Ok(NextLine::TooLong)
}
