// The words of a text of the assembler.
ghost use Rattle.std.specs.Prelude.{◌≡◌, ◌≢◌, ◌≤◌, List, ℕ, ◌++◌, length, IfErr, IfOk, IsTrue, MatchOption, OnOk, ◌↔◌};
ghost use Rattle.machine_defs.specs.declared.ins.Ins.{Ins};
ghost use Rattle.machine_defs.specs.Instruction.{FitsFormat};
ghost use Rattle.machine_defs.specs.Text as texts;
ghost use Rattle.machine_defs.specs.Text.{IsWord};
ghost use Rattle.machine_defs.specs.Assembly.{Assembles, IsLineOf, IsSkipped, lines_of};
ghost use Rattle.rv_text.specs.Stops.{IsStopOf, IsStopOfLine};
ghost use Rattle.rv_text.specs.Reading.{line_end};

use crate::encode::word;
use crate::read::read_line;
use std::alloc::{AllocError, Global};
use std::error::Error;
use std::fmt;

/// Why a text has no words.
#[derive(Clone, Copy, Debug, PartialEq, Eq)]
pub enum AssemblyStop {
    /// The line of this number is the first that is not skipped and is no instruction's text. All lines count, from 1.
    BadLine(u64),
    NoMemory,
}

impl fmt::Display for AssemblyStop {
    fn fmt<W: fmt::Write>(&self, f: &mut fmt::Formatter<W>) -> fmt::Result {
        match self {
            AssemblyStop::BadLine(number) => write!(f, "line {number} is no instruction"),
            AssemblyStop::NoMemory => write!(f, "out of memory"),
        }
    }
}

impl Error for AssemblyStop {}

/// The words of a text, lowest byte first: one for each line but those that are empty or begin with `#`.
pub fn assemble(alloc: Global, text: &[u8]) -> Result<Vec<u8>, AssemblyStop>
    ensures words { IfOk result (λ code. Assembles (lines_of text.now) code.items) }
    ensures stop { IfErr result (λ stop. IsStopOf (lines_of text.now) stop) }
{
    let mut code = Vec::new(alloc);
    let mut at = 0;
    let mut before = 0u64;
    while at <= text.len() {
        let end = at + line_end(&text[at..]);
        match append_line(&mut code, before + 1, &text[at..end]) {
            Ok(()) => (),
            Err(stop) => return Err(stop),
        }
        before += 1;
        at = end + 1;
    }
    Ok(code)
}

/// Appends what a line stands for.
fn append_line(code: &mut Vec<u8>, number: u64, line: &[u8]) -> Result<(), AssemblyStop>
    ensures bytes { OnOk result ((bytes : List ℕ) × IsLineOf line.now bytes × (code.new.items ≡ code.old.items ++ bytes)) }
    ensures stop { IfErr result (λ stop. IsStopOfLine number line.now stop) }
{
    if is_skipped(line) {
        return Ok(());
    }
    match line_word(line) {
        Some(word) => match code.extend_from_slice(&word.to_le_bytes()) {
            Ok(()) => Ok(()),
            Err(AllocError) => Err(AssemblyStop::NoMemory),
        },
        None => Err(AssemblyStop::BadLine(number)),
    }
}

fn is_skipped(line: &[u8]) -> bool
    ensures { IsTrue result ↔ IsSkipped line.now }
{
    match line {
        [] => true,
        [first, ..] => *first == b'#',
    }
}

/// The word of the instruction whose text the line is.
fn line_word(line: &[u8]) -> Option<u32>
    ensures { MatchOption result ((i : Ins) → FitsFormat i → line.now ≢ texts.show i) (λ word. (i : Ins) × FitsFormat i × (line.now ≡ texts.show i) × IsWord i word) }
{
    match read_line(line) {
        Some(i) => word(&i),
        None => None,
    }
}

fn line_end(text: &[u8]) -> usize
    ensures end { result ≡ line_end text.now }
    ensures within { result ≤ length text.now }
{
    for (at, byte) in text.iter().enumerate() {
        if *byte == b'\n' {
            return at;
        }
    }
    text.len()
}
