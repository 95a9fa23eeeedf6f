// A block, as `import` judges it.
ghost use Rattle.std.specs.Prelude.{◌≡◌, ◌∷◌, [], Err, IfOk, string_bytes};
ghost use Rattle.report_defs.specs.Report as reports;
ghost use Rattle.report_defs.specs.Status.{IsOneOf};
ghost use Rattle.report_defs.specs.Text.{line};
ghost use Rattle.run_text.specs.Store.{OnlyReads, opening_stops};
ghost use Rattle.node_store.specs.Node.{IsOwnDiskWhereTold, IsSoundWhereTold};
ghost use Rattle.run_explanation.specs.Explanation.{IsLineOf};
ghost use Rattle.run_explanation.specs.declared.asked.Asked.TheVariants.{Import};

use crate::said::Said;
use explanation::{JudgedBlock, page_of_block};
use node_core::Rules;
use node_store::Node;
use outside::{Disk, NoMemory, ReadStop, Steps};
use report_defs::Status;
use run_import::item_line;
use run_store::status_of_reading;
use run_text::Answer;
use std::alloc::Global;
use std::sync::ledger::Ledger;
use verdict_defs::Verdict;

/// Judges a block on its kept parent, and explains it. It is not kept.
pub(crate) fn explain_block<D: Disk, L: Ledger>(
    alloc: Global,
    disk: &mut D,
    node: Node,
    item: &[u8],
    group: Option<u32>,
    steps: &mut Steps<L>,
) -> Result<Said, Status>
    requires own { IsOwnDiskWhereTold node (D.reads_as disk.old) (D.images disk.old) }
    ensures disk { OnlyReads D.content_of D.faults disk.old disk.new (result ≡ Err Status.DiskFault) }
    ensures said { IsSoundWhereTold node (D.reads_as disk.old) → IfOk result (λ said. IsLineOf Import node.chain (item.now ∷ []) (string_bytes said.line.text) said.line.status) }
    ensures one_of { IfOk result (λ said. IsOneOf (Status.Done ∷ Status.SomeRefused ∷ []) said.line.status) }
    ensures stop { (status : Status) → result ≡ Err status → IsOneOf opening_stops status }
    ensures sound { IsSoundWhereTold node (D.reads_as disk.old) → result ≡ Err Status.NotAStore → ⊥ }
{
    let (judged, verdict) = match node.judge(alloc, disk, &Rules { alloc }, item, steps) {
        Ok(judged) => judged,
        Err(stop) => return Err(status_of_reading(stop)),
    };
    let line = match answer_of_verdict(alloc, &verdict) {
        Ok(line) => line,
        Err(_) => {
            drop(judged);
            return Err(Status::NoMemory);
        }
    };
    match page_below(alloc, disk, judged, item, &verdict, group, steps) {
        Ok(page) => Ok(Said { line, page }),
        Err(status) => {
            drop(line);
            Err(status)
        }
    }
}

/// The page of a block that is refused. Where a kept block is damaged that is read for it alone, there is none.
fn page_below<D: Disk, L: Ledger>(
    alloc: Global,
    disk: &mut D,
    node: Node,
    item: &[u8],
    verdict: &Verdict,
    group: Option<u32>,
    steps: &mut Steps<L>,
) -> Result<String, Status>
    requires own { IsOwnDiskWhereTold node (D.reads_as disk.old) (D.images disk.old) }
    ensures disk { OnlyReads D.content_of D.faults disk.old disk.new (result ≡ Err Status.DiskFault) }
    ensures stop { (status : Status) → result ≡ Err status → IsOneOf (Status.DiskFault ∷ Status.NoMemory ∷ []) status }
{
    let Verdict::Refused(rule) = verdict else {
        drop(node);
        return Ok(String::new(alloc));
    };
    let judged = JudgedBlock {
        item,
        rule: *rule,
        asked: group,
    };
    match page_of_block(alloc, disk, node, &judged, steps) {
        Ok(page) => Ok(page),
        Err(ReadStop::Damaged(_)) => Ok(String::new(alloc)),
        Err(ReadStop::DiskFault) => Err(Status::DiskFault),
        Err(ReadStop::NoMemory) => Err(Status::NoMemory),
    }
}

/// What is said of a block that was judged, and the status.
fn answer_of_verdict(alloc: Global, verdict: &Verdict) -> Result<Answer, NoMemory>
    ensures text { IfOk result (λ answer. string_bytes answer.text ≡ line verdict.now None) }
    ensures status { IfOk result (λ answer. answer.status ≡ reports.status_of_verdicts (verdict.now ∷ [])) }
    ensures one_of { IfOk result (λ answer. IsOneOf (Status.Done ∷ Status.SomeRefused ∷ []) answer.status) }
{
    let text = item_line(alloc, verdict, None)?;
    let status = if verdict.refuses() {
        Status::SomeRefused
    } else {
        Status::Done
    };
    Ok(Answer { text, status })
}
