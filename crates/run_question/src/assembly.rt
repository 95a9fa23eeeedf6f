// The question `assemble`: a block after the tip is assembled of transactions.
ghost use Rattle.std.specs.Prelude.{◌≡◌, ◌++◌, ◌≤◌, ◌∷◌, [], Err, IfOk, OnOk, length, map, string_bytes};
ghost use Rattle.std.specs.List.{concat, list_any};
ghost use Rattle.report_defs.specs.Assembly as texts;
ghost use Rattle.report_defs.specs.Assembly.{pool_line as line_of, block_line as last_line, no_block_line as no_block};
ghost use Rattle.report_defs.specs.Items.{AreItems};
ghost use Rattle.report_defs.specs.Report.{question_limits};
ghost use Rattle.report_defs.specs.Status.{IsOneOf};
ghost use Rattle.report_defs.specs.declared.command.Question.TheVariants as questions;
ghost use Rattle.node_store.specs.Node.{IsOwnDiskWhereTold, IsSoundWhereTold};
ghost use Rattle.run_store.specs.Damage.{AnswersDamage};
ghost use Rattle.run_text.specs.Store.{OnlyReads, opening_stops};
ghost use Rattle.run_question.specs.Question.{IsAnswerTo};

use crate::Assembled;
use crate::lines::{block_line, no_block_line, pool_line};
use mol_schema::CellbaseWitnessView;
use node_store::Node;
use outside::{Disk, NoMemory};
use pool_defs::Line;
use report_defs::Status;
use run_store::status_of_reading;
use run_text::Answer;
use std::alloc::{AllocError, Global};

/// Whether an item was refused.
fn refuses(line: Line) -> bool
    ensures { result ≡ texts.refuses line }
{
    match line {
        Line::Commit(_, _) => false,
        Line::Propose => false,
        Line::Refused(_) => true,
        Line::Later => false,
    }
}

/// Whether one of these items was refused.
fn any_refused(lines: &[Line]) -> bool
    ensures { result ≡ list_any texts.refuses lines.now }
{
    lines.iter().any(|line| refuses(*line))
}

/// The status of a run that tells these lines and a block that breaks this rule.
fn status_of_lines(lines: &[Line], broken: Option<u8>) -> Status
    ensures { result ≡ texts.status_of_lines lines.now broken }
{
    if any_refused(lines) || broken.is_some() {
        Status::SomeRefused
    } else {
        Status::Done
    }
}

/// Adds the lines of items.
fn push_lines(alloc: Global, text: &mut String, lines: &[Line]) -> Result<(), AllocError>
    ensures { OnOk result (string_bytes text.new ≡ string_bytes text.old ++ concat (map line_of lines.now)) }
{
    'lines: for line in lines {
        let one = pool_line(alloc, *line)?;
        text.push_str(&one)?;
    }
    Ok(())
}

/// The text of what was assembled.
fn text_of(alloc: Global, made: &Assembled) -> Result<String, AllocError>
    ensures { IfOk result (λ text. string_bytes text ≡ concat (map line_of made.now.lines.items) ++ last_line made.now.block.items made.now.broken) }
{
    let mut text = String::new(alloc);
    push_lines(alloc, &mut text, &made.lines)?;
    let last = block_line(alloc, &made.block, made.broken)?;
    text.push_str(&last)?;
    Ok(text)
}

/// What is said of what was assembled, and the status.
fn answer_of(alloc: Global, made: &Assembled) -> Result<Answer, NoMemory>
    ensures text { IfOk result (λ answer. string_bytes answer.text ≡ concat (map line_of made.now.lines.items) ++ last_line made.now.block.items made.now.broken) }
    ensures status { IfOk result (λ answer. answer.status ≡ texts.status_of_lines made.now.lines.items made.now.broken) }
    ensures one_of { IfOk result (λ answer. IsOneOf (Status.Done ∷ Status.SomeRefused ∷ []) answer.status) }
{
    let text = text_of(alloc, made)?;
    let status = status_of_lines(&made.lines, made.broken);
    Ok(Answer { text, status })
}

/// What is said where the first item is no witness of a cellbase: J17 is broken.
fn unwitnessed(alloc: Global) -> Result<Answer, Status>
    ensures text { IfOk result (λ answer. string_bytes answer.text ≡ no_block 17) }
    ensures status { IfOk result (λ answer. answer.status ≡ Status.SomeRefused) }
    ensures memory { (status : Status) → result ≡ Err status → status ≡ Status.NoMemory }
{
    match no_block_line(alloc, 17) {
        Ok(text) => Ok(Answer {
            text,
            status: Status::SomeRefused,
        }),
        Err(_) => Err(Status::NoMemory),
    }
}

/// Assembles a block after the tip, and says what came of it and of each item. The first item is the witness of its cellbase.
pub fn assemble<D: Disk>(
    alloc: Global,
    disk: &mut D,
    node: &mut Node,
    items: &[Vec<u8>],
) -> Result<Answer, Status>
    requires some { 1 ≤ length items.now }
    requires items { AreItems (question_limits questions.Assemble) 0 (map (λ item. item.items) items.now) }
    requires own { IsOwnDiskWhereTold node.old (D.reads_as disk.old) (D.images disk.old) }
    ensures disk { OnlyReads D.content_of D.faults disk.old disk.new (result ≡ Err Status.DiskFault) }
    ensures answer { IsSoundWhereTold node.old (D.reads_as disk.old)
        → IfOk result (λ answer. IsAnswerTo questions.Assemble node.old.chain (map (λ item. item.items) items.now) (string_bytes answer.text) answer.status) }
    ensures one_of { IfOk result (λ answer. IsOneOf (Status.Done ∷ Status.SomeRefused ∷ []) answer.status) }
    ensures stop { (status : Status) → result ≡ Err status → IsOneOf opening_stops status }
    ensures sound { IsSoundWhereTold node.old (D.reads_as disk.old) → result ≡ Err Status.NotAStore → ⊥ }
    ensures damage { AnswersDamage node.old node.new (result ≡ Err Status.NotAStore) }
{
    let Some(witness) = CellbaseWitnessView::read(&items[0]) else {
        return unwitnessed(alloc);
    };
    let made = match crate::assemble(alloc, disk, node, &witness, &items[1..]) {
        Ok(made) => made,
        Err(stop) => return Err(status_of_reading(stop)),
    };
    match answer_of(alloc, &made) {
        Ok(answer) => Ok(answer),
        Err(_) => Err(Status::NoMemory),
    }
}
