// What is answered to an input.
ghost use Rattle.std.specs.Prelude.{IfOk};
ghost use Rattle.ckbjson.specs.Answers.{IsAnswer};

use crate::ids::identify;
use crate::items::{read_item, read_sealed, show_item};
use crate::words::Command;
use json_blocks::JsonStop;
use outside::NoMemory;
use std::alloc::Global;

/// What is answered to an input.
#[derive(Drop)]
pub(crate) enum Answer {
    /// What is written.
    Bytes(Vec<u8>),
    /// The input is none of what was named.
    Refused,
    /// The input is a block whose cells hold or occupy more than a DAO field has room for.
    TooMuch,
}

/// What is answered to an input. It fails for want of memory alone.
pub(crate) fn answer_to(alloc: Global, command: Command, input: &[u8]) -> Result<Answer, NoMemory>
    ensures { IfOk result (λ answer. IsAnswer command input.now answer) }
{
    match command {
        Command::Read(kind) => match read_item(alloc, kind, input) {
            Ok(bytes) => Ok(Answer::Bytes(bytes)),
            Err(JsonStop::Bad) => Ok(Answer::Refused),
            Err(JsonStop::NoMemory) => Err(NoMemory),
        },
        Command::Seal => match read_sealed(alloc, input) {
            Ok(Some(bytes)) => Ok(Answer::Bytes(bytes)),
            Ok(None) => Ok(Answer::TooMuch),
            Err(JsonStop::Bad) => Ok(Answer::Refused),
            Err(JsonStop::NoMemory) => Err(NoMemory),
        },
        Command::Show(kind) => match show_item(alloc, kind, input) {
            Ok(Some(bytes)) => Ok(Answer::Bytes(bytes)),
            Ok(None) => Ok(Answer::Refused),
            Err(stop) => Err(stop),
        },
        Command::Id => match identify(alloc, input) {
            Ok(Some(bytes)) => Ok(Answer::Bytes(bytes)),
            Ok(None) => Ok(Answer::Refused),
            Err(stop) => Err(stop),
        },
    }
}
