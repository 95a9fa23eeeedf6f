// The store that a command works on.
ghost use Rattle.std.specs.Prelude.{◌≡◌, ◌⊎◌, ◌↔◌, ◌+◌, ◌≤◌, Err, Some, drop, IfOk, IfSome};
ghost use Rattle.outside.specs.Causes.{CountsFault};
ghost use Rattle.outside.specs.Disk.{LeavesOnly, IsKnownAsBefore};
ghost use Rattle.outside.specs.declared.disk.Damage.{Damage};
ghost use Rattle.outside.specs.Image.{Image};
ghost use Rattle.verdict_defs.specs.Chain.{Chain};
ghost use Rattle.disk_defs.specs.Log.{records_of};
ghost use Rattle.disk_defs.specs.Rest.{IsSettled};
ghost use Rattle.store_defs.specs.Store.{Keeps, store_of, StandsFor, IsSound};
ghost use Rattle.report_defs.specs.Status.{IsOneOf};
ghost use Rattle.node_store.specs.Node.{IsOwnDiskWhereTold, IsSoundNode, StandsOnDisk};
ghost use Rattle.node_store.specs.Opening.{LeavesStore};
ghost use Rattle.node_store.specs.OpeningSteps.{moves_to_open};
ghost use Rattle.run_text.specs.Store.{opening_stops};

use node_store::{HELD, LogStop, Node};
use outside::{Disk, ReadStop, Steps};
use report_defs::Status;
use std::alloc::Global;
use std::sync::ledger::Ledger;

/// The status of a stop of opening.
fn status_of_opening(stop: LogStop) -> Status
    ensures one_of { IsOneOf opening_stops result }
    ensures none { (result ≡ Status.NotAStore) ↔ ((damage : Damage) × (stop ≡ LogStop.NotAStore damage)) }
    ensures fault { (result ≡ Status.DiskFault) ↔ (stop ≡ LogStop.DiskFault) }
{
    match stop {
        LogStop::DiskFault => Status::DiskFault,
        LogStop::NotAStore(_) => Status::NotAStore,
        LogStop::NoMemory => Status::NoMemory,
    }
}

/// The status of a stop of judging. What is damaged has not joined.
pub fn status_of_reading(stop: ReadStop) -> Status
    ensures one_of { IsOneOf opening_stops result }
    ensures none { result ≡ Status.NotAStore → (damage : Damage) × (stop ≡ ReadStop.Damaged damage) }
    ensures damaged { (damage : Damage) → stop ≡ ReadStop.Damaged damage → result ≡ Status.NotAStore }
    ensures fault { (result ≡ Status.DiskFault) ↔ (stop ≡ ReadStop.DiskFault) }
    ensures memory { (result ≡ Status.NoMemory) ↔ (stop ≡ ReadStop.NoMemory) }
{
    match stop {
        ReadStop::DiskFault => Status::DiskFault,
        ReadStop::Damaged(_) => Status::NotAStore,
        ReadStop::NoMemory => Status::NoMemory,
    }
}

/// Opens the store on a disk.
pub fn open<D: Disk, L: Ledger>(
    alloc: Global,
    disk: &mut D,
    steps: &mut Steps<L>,
) -> Result<Node, Status>
    ensures one_of { (status : Status) → result ≡ Err status → IsOneOf opening_stops status }
    ensures kept { IfOk result (λ node. IfSome (D.reads_as disk.old) (λ now. store_of now ≡ Keeps node.chain)) }
    ensures not_a_store { result ≡ Err Status.NotAStore → IfSome (D.reads_as disk.old) (λ now. IsSound now → ⊥) }
    ensures left { LeavesStore D.reads_as D.images D.moment D.left_since disk.old disk.new }
    ensures told { IsKnownAsBefore (D.reads_as disk.old) (D.reads_as disk.new) }
    ensures own { IfOk result (λ node. IsOwnDiskWhereTold node (D.reads_as disk.new) (D.images disk.new)) }
    ensures settled { IfOk result (λ node. IfSome (D.reads_as disk.old) (λ now.
        IsSettled node.place (records_of (drop 8 now.log)) (D.reads_as disk.new) (D.images disk.new))) }
    ensures on { ((image : Image) → D.images disk.old image → IsSound image)
        → IfOk result (λ node. IfSome (D.reads_as disk.old) (λ _. StandsOnDisk node (D.reads_as disk.new) (D.images disk.new))) }
    ensures sound { (now : Image) → D.reads_as disk.old ≡ Some now → IsSound now → IfOk result IsSoundNode }
    ensures moments { (now : Image) (chain : Chain) → D.reads_as disk.old ≡ Some now → store_of now ≡ Keeps chain → ((image : Image) → D.images disk.old image → IsSound image)
        → LeavesOnly D.moment D.left_since disk.old disk.new (λ image. D.images disk.old image ⊎ StandsFor chain image) }
    ensures cause { CountsFault (D.faults disk.old) (D.faults disk.new) (result ≡ Err Status.DiskFault) }
    ensures most { (now : Image) → D.reads_as disk.old ≡ Some now → steps.new ≤ steps.old + moves_to_open now }
{
    match Node::open(alloc, disk, HELD, steps) {
        Ok(node) => Ok(node),
        Err(stop) => Err(status_of_opening(stop)),
    }
}
