// Questions: the store is asked about a whole input.
ghost use Rattle.std.specs.Prelude.{◌≡◌, ◌≢◌, ◌+◌, ◌≤◌, slice_index, ◌∷◌, [], Err, Some, IfOk, length, map, string_bytes};
ghost use Rattle.outside.specs.Causes.{CountsFault};
ghost use Rattle.outside.specs.Image.{Image};
ghost use Rattle.verdict_defs.specs.Chain.{Chain};
ghost use Rattle.verdict_defs.specs.Trial as trials;
ghost use Rattle.disk_defs.specs.Log.{end_of_log};
ghost use Rattle.store_defs.specs.Store.{Keeps, store_of};
ghost use Rattle.outside.specs.Disk.{IsOnlyRead, IsKnownAsBefore};
ghost use Rattle.report_defs.specs.Report as reports;
ghost use Rattle.report_defs.specs.Items.{AreItems};
ghost use Rattle.report_defs.specs.Text as text;
ghost use Rattle.report_defs.specs.Status.{IsOneOf};
ghost use Rattle.report_defs.specs.Promise.{question_statuses};
ghost use Rattle.report_defs.specs.Survival.{KeepsRecords, MayAdd};
ghost use Rattle.report_defs.specs.declared.command.Command.TheVariants as commands;
ghost use Rattle.run_text.specs.Items.{SourceGave};
ghost use Rattle.run_text.specs.Whole.{IsReadWhole};
ghost use Rattle.node_store.specs.OpeningSteps.{moves_to_open};
ghost use Rattle.run_store.specs.Damage.{AnswersDamage};
ghost use Rattle.run_text.specs.Output.{Transfers};
ghost use Rattle.node_store.specs.Node.{IsOwnDiskWhereTold, IsSoundWhereTold};
ghost use Rattle.run_store.specs.Keeping.{KeepsNode};
ghost use Rattle.run_text.specs.Store.{OnlyReads, opening_stops};
ghost use Rattle.run_question.specs.Question.{IsAnswerTo, AnswersQuestion, DeliversAnswer};

use crate::assembly::assemble;
use crate::lines::trial_line;
use mol_schema::TxView;
use node_core::JudgeStop;
use node_store::Node;
use outside::{Disk, NoMemory, Sink, Source, Steps};
use report_defs::{Question, Status};
use run_store::{open, status_of_reading};
use run_text::{Answer, Whole, read_whole, write_answer, write_early_end};
use std::alloc::Global;
use std::sync::ledger::Ledger;
use verdict_defs::Trial;

/// The most bytes of an item.
const ITEM_LIMIT: usize = 1 << 20;

/// The most items of which a block is assembled, and the witness of its cellbase.
const MOST_ASSEMBLED: usize = 1001;

/// Reads the items that a question is about, of which the first must be there.
fn read_items<S: Source>(alloc: Global, input: &mut S, question: Question) -> Result<Whole, Status>
    ensures read { SourceGave (S.left input.old) (S.left input.new) (IsReadWhole (reports.question_items question) 1 (S.left input.new) result) }
    ensures faults { CountsFault (S.faults input.old) (S.faults input.new) (result ≡ Err Status.InputFault) }
{
    match question {
        Question::Check => read_whole(alloc, input, &[ITEM_LIMIT], 1),
        Question::Assemble => read_whole(alloc, input, &[ITEM_LIMIT; MOST_ASSEMBLED], 1),
    }
}

/// Finds what a question answers of these items over the kept blocks. Each question has a function of its own.
fn answer_to<D: Disk>(
    alloc: Global,
    disk: &mut D,
    node: &mut Node,
    question: Question,
    items: &[Vec<u8>],
) -> Result<Answer, Status>
    requires some { 1 ≤ length items.now }
    requires items { AreItems (reports.question_limits question) 0 (map (λ item. item.items) items.now) }
    requires own { IsOwnDiskWhereTold node.old (D.reads_as disk.old) (D.images disk.old) }
    ensures disk { OnlyReads D.content_of D.faults disk.old disk.new (result ≡ Err Status.DiskFault) }
    ensures answer { IsSoundWhereTold node.old (D.reads_as disk.old) → IfOk result (λ answer. IsAnswerTo question node.old.chain (map (λ item. item.items) items.now) (string_bytes answer.text) answer.status) }
    ensures one_of { IfOk result (λ answer. IsOneOf (Status.Done ∷ Status.SomeRefused ∷ []) answer.status) }
    ensures stop { (status : Status) → result ≡ Err status → IsOneOf opening_stops status }
    ensures sound { IsSoundWhereTold node.old (D.reads_as disk.old) → result ≡ Err Status.NotAStore → ⊥ }
    ensures damage { AnswersDamage node.old node.new (result ≡ Err Status.NotAStore) }
{
    match question {
        Question::Check => check(alloc, disk, node, &items[0]),
        Question::Assemble => assemble(alloc, disk, node, items),
    }
}

/// Judges a transaction alone, and says what came of it.
pub fn check<D: Disk>(
    alloc: Global,
    disk: &mut D,
    node: &mut Node,
    item: &[u8],
) -> Result<Answer, Status>
    requires own { IsOwnDiskWhereTold node.old (D.reads_as disk.old) (D.images disk.old) }
    ensures disk { OnlyReads D.content_of D.faults disk.old disk.new (result ≡ Err Status.DiskFault) }
    ensures node { KeepsNode node.old node.new (D.reads_as disk.new) (D.images disk.new) }
    ensures answer { IsSoundWhereTold node.old (D.reads_as disk.old) → IfOk result (λ answer. IsAnswerTo Question.Check node.old.chain (item.now ∷ []) (string_bytes answer.text) answer.status) }
    ensures one_of { IfOk result (λ answer. IsOneOf (Status.Done ∷ Status.SomeRefused ∷ []) answer.status) }
    ensures stop { (status : Status) → result ≡ Err status → IsOneOf opening_stops status }
    ensures sound { IsSoundWhereTold node.old (D.reads_as disk.old) → result ≡ Err Status.NotAStore → ⊥ }
    ensures damage { AnswersDamage node.old node.new (result ≡ Err Status.NotAStore) }
{
    let tried = match judge_item(alloc, disk, node, item) {
        Ok(tried) => tried,
        Err(status) => return Err(status),
    };
    match answer_of_trial(alloc, &tried) {
        Ok(answer) => Ok(answer),
        Err(_) => Err(Status::NoMemory),
    }
}

/// Judges the transaction of an item alone, as `check` does: J1 where it is no canonical `Transaction`.
pub fn judge_item<D: Disk>(
    alloc: Global,
    disk: &mut D,
    node: &mut Node,
    item: &[u8],
) -> Result<Trial, Status>
    requires own { IsOwnDiskWhereTold node.old (D.reads_as disk.old) (D.images disk.old) }
    ensures disk { OnlyReads D.content_of D.faults disk.old disk.new (result ≡ Err Status.DiskFault) }
    ensures node { KeepsNode node.old node.new (D.reads_as disk.new) (D.images disk.new) }
    ensures trial { IsSoundWhereTold node.old (D.reads_as disk.old) → IfOk result (λ tried. tried ≡ trials.trial node.old.chain item.now) }
    ensures stop { (status : Status) → result ≡ Err status → IsOneOf opening_stops status }
    ensures sound { IsSoundWhereTold node.old (D.reads_as disk.old) → result ≡ Err Status.NotAStore → ⊥ }
    ensures damage { AnswersDamage node.old node.new (result ≡ Err Status.NotAStore) }
{
    let Some(tx) = TxView::read(item) else {
        return Ok(Trial::Refused(1));
    };
    match node_core::check(alloc, disk, node, &tx) {
        Ok((fee, cycles)) => Ok(Trial::Passes(fee, cycles)),
        Err(JudgeStop::Broken(rule)) => Ok(Trial::Refused(rule.number())),
        Err(JudgeStop::Read(stop)) => Err(status_of_reading(stop)),
    }
}

/// What `check` says of a transaction that was judged, and the status.
pub fn answer_of_trial(alloc: Global, tried: &Trial) -> Result<Answer, NoMemory>
    ensures text { IfOk result (λ answer. string_bytes answer.text ≡ text.trial_line tried.now) }
    ensures status { IfOk result (λ answer. answer.status ≡ reports.status_of_trial tried.now) }
    ensures one_of { IfOk result (λ answer. IsOneOf (Status.Done ∷ Status.SomeRefused ∷ []) answer.status) }
{
    let text = trial_line(alloc, tried)?;
    let status = match tried {
        Trial::Passes(_, _) => Status::Done,
        Trial::Refused(_) => Status::SomeRefused,
    };
    Ok(Answer { text, status })
}

/// Reads what the question is about, finds the answer, and tells it.
fn read_and_answer<S: Source, K: Sink, D: Disk>(
    alloc: Global,
    input: &mut S,
    out: &mut K,
    disk: &mut D,
    node: &mut Node,
    question: Question,
) -> Status
    requires own { IsOwnDiskWhereTold node.old (D.reads_as disk.old) (D.images disk.old) }
    ensures answered { Transfers (S.left input.old) (S.left input.new) (K.taken out.old) (K.taken out.new)
        (λ given taken. IsSoundWhereTold node.old (D.reads_as disk.old) → AnswersQuestion question node.old.chain given (S.left input.new) taken result) }
    ensures status { IsOneOf question_statuses result }
    ensures disk { OnlyReads D.content_of D.faults disk.old disk.new (result ≡ Status.DiskFault) }
    ensures input_faults { CountsFault (S.faults input.old) (S.faults input.new) (result ≡ Status.InputFault) }
    ensures out_faults { CountsFault (K.faults out.old) (K.faults out.new) (result ≡ Status.SinkFault) }
    ensures damage { AnswersDamage node.old node.new (result ≡ Status.NotAStore) }
{
    let items = match read_items(alloc, input, question) {
        Ok(Whole::Items(items)) => items,
        Ok(Whole::Early { end, offset }) => return write_early_end(alloc, out, end, offset),
        Err(status) => return status,
    };
    match answer_to(alloc, disk, node, question, &items) {
        Ok(answer) => write_answer(out, &answer),
        Err(status) => status,
    }
}

/// Asks the store about what the input holds.
pub fn question<S: Source, K: Sink, D: Disk, L: Ledger>(
    alloc: Global,
    input: &mut S,
    out: &mut K,
    disk: &mut D,
    asked: Question,
    steps: &mut Steps<L>,
) -> Status
    ensures question { Transfers (S.left input.old) (S.left input.new) (K.taken out.old) (K.taken out.new)
        (λ given taken. DeliversAnswer asked (D.reads_as disk.old) (D.images disk.old) (D.images disk.new) (D.left_since disk.new (D.moment disk.old))
        (S.left input.new) given taken result) }
    ensures status { IsOneOf question_statuses result }
    ensures records { (now : Image) (chain : Chain) → D.reads_as disk.old ≡ Some now → store_of now ≡ Keeps chain
        → KeepsRecords (MayAdd (Some (commands.Question asked)) chain []) now (D.images disk.old) (D.images disk.new) (D.left_since disk.new (D.moment disk.old)) }
    ensures told { IsKnownAsBefore (D.reads_as disk.old) (D.reads_as disk.new) }
    ensures no_log { (now : Image) → D.reads_as disk.old ≡ Some now → ((chain : Chain) → store_of now ≡ Keeps chain → ⊥)
        → IsOnlyRead D.reads_as D.images D.moment D.left_since disk.old disk.new }
    ensures input_faults { CountsFault (S.faults input.old) (S.faults input.new) (result ≡ Status.InputFault) }
    ensures out_faults { CountsFault (K.faults out.old) (K.faults out.new) (result ≡ Status.SinkFault) }
    ensures disk_faults { CountsFault (D.faults disk.old) (D.faults disk.new) (result ≡ Status.DiskFault) }
    ensures rests { (now : Image) → D.reads_as disk.old ≡ Some now → slice_index now.log (end_of_log now.log) ≢ 1
        → IsOnlyRead D.reads_as D.images D.moment D.left_since disk.old disk.new }
    ensures most { (now : Image) → D.reads_as disk.old ≡ Some now → steps.new ≤ steps.old + moves_to_open now }
{
    let mut node = match open(alloc, disk, steps) {
        Ok(node) => node,
        Err(status) => return status,
    };
    let status = read_and_answer(alloc, input, out, disk, &mut node, asked);
    drop(node);
    status
}
