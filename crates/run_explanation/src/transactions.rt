// A transaction, as `check` judges it.
ghost use Rattle.std.specs.Prelude.{◌≡◌, ◌∷◌, [], Err, IfOk, string_bytes};
ghost use Rattle.report_defs.specs.Status.{IsOneOf};
ghost use Rattle.run_text.specs.Store.{OnlyReads, opening_stops};
ghost use Rattle.node_store.specs.Node.{IsOwnDiskWhereTold, IsSoundWhereTold};
ghost use Rattle.run_explanation.specs.Explanation.{IsLineOf};
ghost use Rattle.run_explanation.specs.declared.asked.Asked.TheVariants.{Check};

use crate::said::Said;
use explanation::page_of_transaction;
use mol_schema::TxView;
use node_store::Node;
use outside::{Disk, ReadStop};
use report_defs::Status;
use run_question::{answer_of_trial, judge_item};
use run_text::Answer;
use std::alloc::Global;
use transaction_page::{Judged, page_of_bytes};
use verdict_defs::Trial;
use view_hashes::transaction_hash;

/// Judges a transaction alone after the tip, and explains it.
pub(crate) fn explain_transaction<D: Disk>(
    alloc: Global,
    disk: &mut D,
    node: &mut Node,
    item: &[u8],
    group: Option<u32>,
) -> Result<Said, Status>
    requires own { IsOwnDiskWhereTold node.old (D.reads_as disk.old) (D.images disk.old) }
    ensures disk { OnlyReads D.content_of D.faults disk.old disk.new (result ≡ Err Status.DiskFault) }
    ensures said { IsSoundWhereTold node.old (D.reads_as disk.old) → IfOk result (λ said. IsLineOf Check node.old.chain (item.now ∷ []) (string_bytes said.line.text) said.line.status) }
    ensures one_of { IfOk result (λ said. IsOneOf (Status.Done ∷ Status.SomeRefused ∷ []) said.line.status) }
    ensures stop { (status : Status) → result ≡ Err status → IsOneOf opening_stops status }
    ensures sound { IsSoundWhereTold node.old (D.reads_as disk.old) → result ≡ Err Status.NotAStore → ⊥ }
{
    let tried = match judge_item(alloc, disk, node, item) {
        Ok(tried) => tried,
        Err(status) => return Err(status),
    };
    let line = match answer_of_trial(alloc, &tried) {
        Ok(line) => line,
        Err(_) => return Err(Status::NoMemory),
    };
    match page_after(alloc, disk, node, item, rule_of(&tried), group) {
        Ok(page) => Ok(Said { line, page }),
        Err(status) => {
            drop(line);
            Err(status)
        }
    }
}

/// The rule that a transaction breaks.
fn rule_of(tried: &Trial) -> Option<u8> {
    match tried {
        Trial::Passes(_, _) => None,
        Trial::Refused(rule) => Some(*rule),
    }
}

/// The page of a transaction. Where a kept block is damaged that is read for it alone, there is none.
fn page_after<D: Disk>(
    alloc: Global,
    disk: &mut D,
    node: &mut Node,
    item: &[u8],
    rule: Option<u8>,
    asked: Option<u32>,
) -> Result<String, Status>
    requires own { IsOwnDiskWhereTold node.old (D.reads_as disk.old) (D.images disk.old) }
    ensures disk { OnlyReads D.content_of D.faults disk.old disk.new (result ≡ Err Status.DiskFault) }
    ensures stop { (status : Status) → result ≡ Err status → IsOneOf (Status.DiskFault ∷ Status.NoMemory ∷ []) status }
{
    let Some(tx) = TxView::read(item) else {
        return match page_of_bytes(alloc, item) {
            Some(page) => Ok(page),
            None => Err(Status::NoMemory),
        };
    };
    let judged = Judged {
        tx: &tx,
        hash: transaction_hash(&tx),
        rule,
        asked,
    };
    match page_of_transaction(alloc, disk, node, &judged) {
        Ok(page) => Ok(page),
        Err(ReadStop::Damaged(_)) => Ok(String::new(alloc)),
        Err(ReadStop::DiskFault) => Err(Status::DiskFault),
        Err(ReadStop::NoMemory) => Err(Status::NoMemory),
    }
}
