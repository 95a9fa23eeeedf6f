// The lines of commands without a store.
ghost use Rattle.std.specs.Prelude.{◌≡◌, ◌++◌, codes, string_bytes, IfOk, OnOk};
ghost use Rattle.std.specs.Fmt.{decimal, signed_decimal};
ghost use Rattle.report_defs.specs.Text as text;
ghost use Rattle.program_run.specs.Program.{execution_of};

use machine_defs::Outcome;
use program_run::Execution;
use run_text::{number_line, numbers_line, push_number};
use std::alloc::{AllocError, Global};

/// The line of a text whose first bad line has this number.
pub fn bad_line(alloc: Global, number: u64) -> Result<String, AllocError>
    ensures { IfOk result (λ line. string_bytes line ≡ text.bad_line number) }
{
    number_line(alloc, "bad line ", number)
}

/// The line of a text that is read as no block.
pub fn bad_json(alloc: Global) -> Result<String, AllocError>
    ensures { IfOk result (λ line. string_bytes line ≡ text.bad_json) }
{
    String::from_str(alloc, "bad json\n")
}

/// Adds an exit code in decimal digits, after a sign where it is negative.
fn push_code(alloc: Global, line: &mut String, code: i8) -> Result<(), AllocError>
    ensures { OnOk result (string_bytes line.new ≡ string_bytes line.old ++ signed_decimal code) }
{
    let digits = code.to_string(alloc)?;
    line.push_str(&digits)
}

/// The line of a program that exited.
fn exit_line(alloc: Global, code: i8, cycles: u64) -> Result<String, AllocError>
    ensures { IfOk result (λ line. string_bytes line
        ≡ codes "exit " ++ signed_decimal code ++ codes " " ++ decimal cycles ++ text.line_feed) }
{
    let mut line = String::from_str(alloc, "exit ")?;
    push_code(alloc, &mut line, code)?;
    line.push_str(" ")?;
    push_number(alloc, &mut line, cycles)?;
    line.push_str("\n")?;
    Ok(line)
}

/// The line of a program that ended.
fn outcome_line(alloc: Global, outcome: Outcome, cycles: u64) -> Result<String, AllocError>
    ensures { IfOk result (λ line. string_bytes line ≡ text.outcome_line outcome cycles) }
{
    match outcome {
        Outcome::Exit(code) => exit_line(alloc, code, cycles),
        Outcome::Fault(number) => numbers_line(alloc, "fault ", u64::from(number), cycles),
        Outcome::Spent => String::from_str(alloc, "spent\n"),
    }
}

/// The line of what came of a file.
pub fn execution_line(alloc: Global, came: &Execution) -> Result<String, AllocError>
    ensures { IfOk result (λ line. string_bytes line ≡ text.execution_line (execution_of came.now)) }
{
    match came {
        Execution::Ended { outcome, cycles } => outcome_line(alloc, *outcome, *cycles),
        Execution::BadElf(condition) => number_line(alloc, "bad elf ", u64::from(*condition)),
    }
}
