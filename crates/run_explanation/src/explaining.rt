// The one call: a store is opened, an item read, judged and explained.
ghost use Rattle.std.specs.Prelude.{List, ℕ, ◌≡◌, ◌≢◌, ◌≤◌, slice_index, ◌∷◌, [], Err, Some, IfOk, length, map, string_bytes};
ghost use Rattle.outside.specs.Causes.{CountsFault};
ghost use Rattle.outside.specs.Image.{Image};
ghost use Rattle.outside.specs.Disk.{IsOnlyRead, IsKnownAsBefore};
ghost use Rattle.verdict_defs.specs.Chain.{Chain};
ghost use Rattle.disk_defs.specs.Log.{end_of_log};
ghost use Rattle.store_defs.specs.Store.{Keeps, store_of};
ghost use Rattle.report_defs.specs.Status.{IsOneOf};
ghost use Rattle.report_defs.specs.Promise.{question_statuses};
ghost use Rattle.report_defs.specs.Survival.{KeepsRecords};
ghost use Rattle.run_text.specs.Items.{SourceGave};
ghost use Rattle.run_text.specs.Whole.{IsReadWhole};
ghost use Rattle.run_text.specs.Output.{Transfers};
ghost use Rattle.run_text.specs.Store.{OnlyReads, opening_stops};
ghost use Rattle.node_store.specs.Node.{IsOwnDiskWhereTold, IsSoundWhereTold};
ghost use Rattle.run_explanation.specs.Explanation.{one_item, IsLineOf, Explains, ExplainsOver};

use crate::asked::{Asked, Wanted};
use crate::blocks::explain_block;
use crate::said::{Said, as_one};
use crate::transactions::explain_transaction;
use node_store::Node;
use outside::{Disk, Sink, Source, Steps};
use report_defs::Status;
use run_store::open;
use run_text::{Whole, read_whole, write_answer, write_early_end};
use std::alloc::Global;
use std::sync::ledger::Ledger;

/// The most bytes of an item.
const ITEM_LIMIT: usize = 1 << 20;

/// Reads the item, which must be there.
fn read_items<S: Source>(alloc: Global, input: &mut S) -> Result<Whole, Status>
    ensures read { SourceGave (S.left input.old) (S.left input.new) (IsReadWhole one_item 1 (S.left input.new) result) }
    ensures faults { CountsFault (S.faults input.old) (S.faults input.new) (result ≡ Err Status.InputFault) }
{
    read_whole(alloc, input, &[ITEM_LIMIT], 1)
}

/// Judges the first of these items as it is asked for, and explains it. It is the only one.
fn say<D: Disk, L: Ledger>(
    alloc: Global,
    disk: &mut D,
    node: Node,
    wanted: Wanted,
    items: &[Vec<u8>],
    steps: &mut Steps<L>,
) -> Result<Said, Status>
    requires some { 1 ≤ length items.now }
    requires own { IsOwnDiskWhereTold node (D.reads_as disk.old) (D.images disk.old) }
    ensures disk { OnlyReads D.content_of D.faults disk.old disk.new (result ≡ Err Status.DiskFault) }
    ensures said { IsSoundWhereTold node (D.reads_as disk.old) → IfOk result (λ said. IsLineOf wanted.asked node.chain (map (λ item. item.items) items.now) (string_bytes said.line.text) said.line.status) }
    ensures one_of { IfOk result (λ said. IsOneOf (Status.Done ∷ Status.SomeRefused ∷ []) said.line.status) }
    ensures stop { (status : Status) → result ≡ Err status → IsOneOf opening_stops status }
    ensures sound { IsSoundWhereTold node (D.reads_as disk.old) → result ≡ Err Status.NotAStore → ⊥ }
{
    say_item(alloc, disk, node, wanted, &items[0], steps)
}

/// Judges an item as it is asked for, and explains it.
fn say_item<D: Disk, L: Ledger>(
    alloc: Global,
    disk: &mut D,
    node: Node,
    wanted: Wanted,
    item: &[u8],
    steps: &mut Steps<L>,
) -> Result<Said, Status>
    requires own { IsOwnDiskWhereTold node (D.reads_as disk.old) (D.images disk.old) }
    ensures disk { OnlyReads D.content_of D.faults disk.old disk.new (result ≡ Err Status.DiskFault) }
    ensures said { IsSoundWhereTold node (D.reads_as disk.old) → IfOk result (λ said. IsLineOf wanted.asked node.chain (item.now ∷ []) (string_bytes said.line.text) said.line.status) }
    ensures one_of { IfOk result (λ said. IsOneOf (Status.Done ∷ Status.SomeRefused ∷ []) said.line.status) }
    ensures stop { (status : Status) → result ≡ Err status → IsOneOf opening_stops status }
    ensures sound { IsSoundWhereTold node (D.reads_as disk.old) → result ≡ Err Status.NotAStore → ⊥ }
{
    match wanted.asked {
        Asked::Check => {
            let mut node = node;
            let said = explain_transaction(alloc, disk, &mut node, item, wanted.group);
            drop(node);
            said
        }
        Asked::Import => explain_block(alloc, disk, node, item, wanted.group, steps),
    }
}

/// Reads the item, explains it, and tells it.
fn read_and_say<S: Source, K: Sink, D: Disk, L: Ledger>(
    alloc: Global,
    input: &mut S,
    out: &mut K,
    disk: &mut D,
    node: Node,
    wanted: Wanted,
    steps: &mut Steps<L>,
) -> Status
    requires own { IsOwnDiskWhereTold node (D.reads_as disk.old) (D.images disk.old) }
    ensures said { Transfers (S.left input.old) (S.left input.new) (K.taken out.old) (K.taken out.new)
        (λ given taken. (page : List ℕ) × (IsSoundWhereTold node (D.reads_as disk.old) → ExplainsOver page wanted.asked node.chain given (S.left input.new) taken result)) }
    ensures status { IsOneOf question_statuses result }
    ensures disk { OnlyReads D.content_of D.faults disk.old disk.new (result ≡ Status.DiskFault) }
    ensures input_faults { CountsFault (S.faults input.old) (S.faults input.new) (result ≡ Status.InputFault) }
    ensures out_faults { CountsFault (K.faults out.old) (K.faults out.new) (result ≡ Status.SinkFault) }
{
    let items = match read_items(alloc, input) {
        Ok(Whole::Items(items)) => items,
        Ok(Whole::Early { end, offset }) => {
            drop(node);
            return write_early_end(alloc, out, end, offset);
        }
        Err(status) => {
            drop(node);
            return status;
        }
    };
    let said = match say(alloc, disk, node, wanted, &items, steps) {
        Ok(said) => said,
        Err(status) => return status,
    };
    match as_one(said) {
        Ok(answer) => write_answer(out, &answer),
        Err(_) => Status::NoMemory,
    }
}

/// Explains the one item that the input holds: the line that `check` or `import` has for it, and a page below. The store keeps
/// what it kept, and its statuses are those of `check`.
pub fn explain<S: Source, K: Sink, D: Disk, L: Ledger>(
    alloc: Global,
    input: &mut S,
    out: &mut K,
    disk: &mut D,
    wanted: Wanted,
    steps: &mut Steps<L>,
) -> Status
    ensures explained { Transfers (S.left input.old) (S.left input.new) (K.taken out.old) (K.taken out.new)
        (λ given taken. Explains wanted.asked (D.reads_as disk.old) (D.images disk.old) (D.images disk.new) (D.left_since disk.new (D.moment disk.old))
        (S.left input.new) given taken result) }
    ensures status { IsOneOf question_statuses result }
    ensures records { (now : Image) (chain : Chain) → D.reads_as disk.old ≡ Some now → store_of now ≡ Keeps chain
        → KeepsRecords (λ records. records ≡ []) now (D.images disk.old) (D.images disk.new) (D.left_since disk.new (D.moment disk.old)) }
    ensures told { IsKnownAsBefore (D.reads_as disk.old) (D.reads_as disk.new) }
    ensures no_log { (now : Image) → D.reads_as disk.old ≡ Some now → ((chain : Chain) → store_of now ≡ Keeps chain → ⊥)
        → IsOnlyRead D.reads_as D.images D.moment D.left_since disk.old disk.new }
    ensures input_faults { CountsFault (S.faults input.old) (S.faults input.new) (result ≡ Status.InputFault) }
    ensures out_faults { CountsFault (K.faults out.old) (K.faults out.new) (result ≡ Status.SinkFault) }
    ensures disk_faults { CountsFault (D.faults disk.old) (D.faults disk.new) (result ≡ Status.DiskFault) }
    ensures rests { (now : Image) → D.reads_as disk.old ≡ Some now → slice_index now.log (end_of_log now.log) ≢ 1
        → IsOnlyRead D.reads_as D.images D.moment D.left_since disk.old disk.new }
{
    let node = match open(alloc, disk, steps) {
        Ok(node) => node,
        Err(status) => return status,
    };
    read_and_say(alloc, input, out, disk, node, wanted, steps)
}
