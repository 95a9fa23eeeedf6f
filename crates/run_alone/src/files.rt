// Commands without a store: a file is read, and answered.
ghost use Rattle.std.specs.Prelude.{◌≡◌, ◌^◌, ◌≤◌, Err, IfOk, MatchResult, string_bytes};
ghost use Rattle.outside.specs.Causes.{CountsFault};
ghost use Rattle.report_defs.specs.Report.{IsAnswerToFile, IsReportOfFile, file_limit, report_without_lines};
ghost use Rattle.report_defs.specs.Status.{IsOneOf};
ghost use Rattle.report_defs.specs.Promise.{MatchesReport, ReadsFileInOrder, standalone_statuses};
ghost use Rattle.run_text.specs.Items.{SourceGave};
ghost use Rattle.run_text.specs.Output.{Transfers};
ghost use Rattle.run_alone.specs.Standalone.{IsFile, IsUnread};
ghost use Rattle.run_text.specs.Words.{IsWithinBudget};

use crate::lines::{bad_json, bad_line, execution_line};
use json_blocks::{JsonStop, from_json};
use outside::{NoMemory, Sink, Source, read_full};
use program_run::execute;
use report_defs::{End, Standalone, Status};
use run_text::{closing_of_end, write_text};
use rv_text::{AssemblyStop, assemble, elf_file};
use std::alloc::Global;

/// What is said of a file: bytes, which may be no text, and the status of the run.
#[derive(Drop)]
struct FileAnswer {
    bytes: Vec<u8>,
    status: Status,
}

/// A file was refused by this line.
fn refused(line: String) -> FileAnswer
    ensures bytes { result.bytes.items ≡ string_bytes line }
    ensures status { result.status ≡ Status.SomeRefused }
{
    FileAnswer {
        bytes: line.into_bytes(),
        status: Status::SomeRefused,
    }
}

/// The most bytes of a command's file.
#[tactic(auto, unfolding(report_defs::specs::Report::file_limit))]
fn limit_of(command: Standalone) -> usize
    ensures limit { result ≡ file_limit command }
    ensures most { result ≤ 2 ^ 24 }
{
    match command {
        Standalone::Exec { .. } => 1 << 20,
        Standalone::Asm => 1 << 20,
        Standalone::Dis => 1 << 20,
        Standalone::Unjson => 1 << 24,
    }
}

/// Reads a file: all of the input, or of one that is too long a byte more than the limit.
fn read_file<S: Source>(alloc: Global, input: &mut S, limit: usize) -> Result<Vec<u8>, Status>
    requires { limit ≤ 2 ^ 24 }
    ensures file { SourceGave (S.left input.old) (S.left input.new)
        (λ given. MatchResult result (λ file. IsFile limit (S.left input.new) file.items given) (λ status. IsUnread limit status given)) }
    ensures faults { CountsFault (S.faults input.old) (S.faults input.new) (result ≡ Err Status.InputFault) }
{
    let mut file = match vec![in alloc; 0u8; limit + 1] {
        Ok(file) => file,
        Err(_) => return Err(Status::NoMemory),
    };
    let n = match read_full(input, &mut file) {
        Ok(n) => n,
        Err(_) => return Err(Status::InputFault),
    };
    file.truncate(n);
    Ok(file)
}

/// Runs the program of a file to its end, within a budget in cycles.
fn exec(alloc: Global, file: &[u8], budget: u64) -> Result<FileAnswer, NoMemory>
    requires { budget ≤ 2 ^ 40 }
    ensures { IfOk result (λ answer. IsAnswerToFile (Standalone.Exec budget) file.now (report_without_lines answer.bytes.items answer.status)) }
{
    let came = match execute(alloc, file, budget) {
        Ok(came) => came,
        Err(_) => return Err(NoMemory),
    };
    let line = execution_line(alloc, &came)?;
    Ok(FileAnswer {
        bytes: line.into_bytes(),
        status: Status::Done,
    })
}

/// The ELF file of a text's words, or the number of its first bad line.
fn asm(alloc: Global, file: &[u8]) -> Result<FileAnswer, NoMemory>
    ensures { IfOk result (λ answer. IsAnswerToFile Standalone.Asm file.now (report_without_lines answer.bytes.items answer.status)) }
{
    let code = match assemble(alloc, file) {
        Ok(code) => code,
        Err(AssemblyStop::BadLine(number)) => return Ok(refused(bad_line(alloc, number)?)),
        Err(AssemblyStop::NoMemory) => return Err(NoMemory),
    };
    let bytes = elf_file(alloc, &code)?;
    Ok(FileAnswer {
        bytes,
        status: Status::Done,
    })
}

/// The listing of code.
fn dis(alloc: Global, file: &[u8]) -> Result<FileAnswer, NoMemory>
    ensures { IfOk result (λ answer. IsAnswerToFile Standalone.Dis file.now (report_without_lines answer.bytes.items answer.status)) }
{
    let bytes = rv_text::dis(alloc, file)?;
    Ok(FileAnswer {
        bytes,
        status: Status::Done,
    })
}

/// The bytes of the block that a text is read as.
fn unjson(alloc: Global, file: &[u8]) -> Result<FileAnswer, NoMemory>
    ensures { IfOk result (λ answer. IsAnswerToFile Standalone.Unjson file.now (report_without_lines answer.bytes.items answer.status)) }
{
    let bytes = match from_json(alloc, file) {
        Ok(bytes) => bytes,
        Err(JsonStop::Bad) => return Ok(refused(bad_json(alloc)?)),
        Err(JsonStop::NoMemory) => return Err(NoMemory),
    };
    Ok(FileAnswer {
        bytes,
        status: Status::Done,
    })
}

/// What is said of a file within the limit. Each command has a function of its own.
fn answer_within(alloc: Global, file: &[u8], command: Standalone) -> Result<FileAnswer, NoMemory>
    requires { IsWithinBudget command }
    ensures { IfOk result (λ answer. IsAnswerToFile command file.now (report_without_lines answer.bytes.items answer.status)) }
{
    match command {
        Standalone::Exec { budget } => exec(alloc, file, budget),
        Standalone::Asm => asm(alloc, file),
        Standalone::Dis => dis(alloc, file),
        Standalone::Unjson => unjson(alloc, file),
    }
}

/// What is said of a file, unless it is too long.
fn answer_to(alloc: Global, file: &[u8], command: Standalone) -> Result<FileAnswer, NoMemory>
    requires { IsWithinBudget command }
    ensures { IfOk result (λ answer. IsReportOfFile command file.now (report_without_lines answer.bytes.items answer.status)) }
{
    let limit = limit_of(command);
    if file.len() > limit {
        let line = closing_of_end(alloc, limit as u64, End::Extra)?;
        return Ok(FileAnswer {
            bytes: line.into_bytes(),
            status: Status::ExtraInput,
        });
    }
    answer_within(alloc, file, command)
}

/// Reads a file and answers it.
pub fn standalone<S: Source, K: Sink>(
    alloc: Global,
    input: &mut S,
    out: &mut K,
    command: Standalone,
) -> Status
    requires { IsWithinBudget command }
    ensures text { Transfers (S.left input.old) (S.left input.new) (K.taken out.old) (K.taken out.new)
        (λ given taken. MatchesReport (IsReportOfFile command) given (S.left input.new) taken result
        × ReadsFileInOrder (file_limit command) given (S.left input.new) taken result) }
    ensures status { IsOneOf (standalone_statuses command) result }
    ensures input_faults { CountsFault (S.faults input.old) (S.faults input.new) (result ≡ Status.InputFault) }
    ensures out_faults { CountsFault (K.faults out.old) (K.faults out.new) (result ≡ Status.SinkFault) }
{
    let limit = limit_of(command);
    let file = match read_file(alloc, input, limit) {
        Ok(file) => file,
        Err(status) => return status,
    };
    let answer = match answer_to(alloc, &file, command) {
        Ok(answer) => answer,
        Err(_) => return Status::NoMemory,
    };
    match write_text(out, &answer.bytes) {
        Ok(()) => answer.status,
        Err(status) => status,
    }
}
