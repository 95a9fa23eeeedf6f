// Sessions over one disk, each of which ends in a crash.
ghost use Rattle.std.specs.Prelude.{◌≡◌, ◌↔◌, ◌+◌, ◌≤◌, length, map, All, IfOk, OnErr, IsSome};
ghost use Rattle.outside.specs.Causes.{CountsFault, up_to_last};
ghost use Rattle.outside.specs.Image.{Image};
ghost use Rattle.crashing.specs.Arming.{armed_faults};
ghost use Rattle.verdict_defs.specs.Chain.{Chain};
ghost use Rattle.node_store.specs.Node.{IsOnlyImage, StandsOnDisk};
ghost use Rattle.node_store.specs.OpeningSteps.{moves_to_open};
ghost use Rattle.node_store.specs.Steps.{steps_over};
ghost use Rattle.made_chain.specs.Sessions.{items_in, items_of, AreShort, IsShort, HasSoundImage, KeepsPrefix, IsEndOf, IsSession, ArePlayed, IsKeptAfter, fault_ends};

use crate::outcome::{End, Played};
use crate::plan::Session;
use crashing::{Armed, Crashing};
use node_store::{HELD, Judging, LogStop, Node};
use outside::{Disk, NoMemory, ReadStop, Steps};
use std::alloc::Global;
use std::sync::ledger::Ledger;

/// Arms the disk, opens its store, imports the items up to the first stop, and crashes, in this order. Answers how many items got
/// a verdict, and how it ended. An item that was stopped may have been kept.
pub fn session<D: Crashing, J: Judging, L: Ledger>(
    alloc: Global,
    disk: &mut Armed<D>,
    judge: &J,
    session: &Session,
    steps: &mut Steps<L>,
) -> (u64, End)
    requires store { HasSoundImage (D.reads_as disk.old.disk) (D.images disk.old.disk) }
    requires short { IsShort session.now }
    ensures session { IsSession D.content_of D.reads_as D.images D.faults D.picks session.now result.0 result.1 disk.old disk.new steps.old steps.new }
{
    disk.arm(session.pass);
    let ended = open_and_import(alloc, disk, judge, &session.items, steps);
    disk.crash(session.pick);
    ended
}

/// Makes each session in order, whatever came of the ones before it. `Err` is want of memory for the answer, before the first.
pub fn play<D: Crashing, J: Judging, L: Ledger>(
    alloc: Global,
    disk: &mut Armed<D>,
    judge: &J,
    sessions: &[Session],
    steps: &mut Steps<L>,
) -> Result<Played, NoMemory>
    requires store { HasSoundImage (D.reads_as disk.old.disk) (D.images disk.old.disk) }
    requires short { All IsShort sessions.now }
    ensures played { IfOk result (λ played. ArePlayed D.content_of D.reads_as D.images D.faults D.picks sessions.now played.acked.items played.ends.items
        disk.old disk.new steps.old steps.new) }
    ensures kept { (chain : Chain) → IsOnlyImage chain (D.reads_as disk.old.disk) (D.images disk.old.disk)
        → IfOk result (λ played. (kept : Chain) × IsKeptAfter chain (map items_of sessions.now) played.acked.items kept
        × IsOnlyImage kept (D.reads_as disk.new.disk) (D.images disk.new.disk)) }
    ensures faults { IfOk result (λ played. up_to_last (armed_faults D.faults disk.old + fault_ends played.ends.items) ≤ armed_faults D.faults disk.new) }
    ensures untouched { OnErr result ((disk.new ≡ disk.old) × (steps.new ≡ steps.old)) }
{
    let mut acked = Vec::with_capacity(alloc, sessions.len())?;
    let mut ends = Vec::with_capacity(alloc, sessions.len())?;
    'playing: for i in 0..sessions.len() {
        let (count, end) = session(alloc, disk, judge, &sessions[i], steps);
        acked.push(count)?;
        ends.push(end)?;
    }
    Ok(Played { acked, ends })
}

/// Opens the store on a disk and imports the items up to the first stop. Answers how many got a verdict, and how it ended.
fn open_and_import<D: Disk, J: Judging, L: Ledger>(
    alloc: Global,
    disk: &mut D,
    judge: &J,
    items: &[Vec<u8>],
    steps: &mut Steps<L>,
) -> (u64, End)
    requires store { HasSoundImage (D.reads_as disk.old) (D.images disk.old) }
    requires short { AreShort items.now }
    ensures told { IsSome (D.reads_as disk.new) }
    ensures kept { (chain : Chain) → IsOnlyImage chain (D.reads_as disk.old) (D.images disk.old)
        → (image : Image) → D.images disk.new image → KeepsPrefix chain (items_in items.now) result.0 image }
    ensures end { IsEndOf (length items.now) result.0 result.1 }
    ensures fault { CountsFault (D.faults disk.old) (D.faults disk.new) (result.1 ≡ End.DiskFault) }
    ensures steps { (chain : Chain) (only : IsOnlyImage chain (D.reads_as disk.old) (D.images disk.old))
        → steps.new ≤ steps.old + moves_to_open only.now + steps_over chain (items_in items.now) }
    ensures opened { (chain : Chain) (only : IsOnlyImage chain (D.reads_as disk.old) (D.images disk.old))
        → result.1 ≡ End.Whole → steps.old + moves_to_open only.now ≤ steps.new }
{
    match Node::open(alloc, disk, HELD, steps) {
        Ok(node) => import_items(alloc, disk, judge, node, items, steps),
        Err(stop) => (0, end_of_opening(stop)),
    }
}

/// Imports items up to the first stop. Answers how many got a verdict, and how it ended.
fn import_items<D: Disk, J: Judging, L: Ledger>(
    alloc: Global,
    disk: &mut D,
    judge: &J,
    opened: Node,
    items: &[Vec<u8>],
    steps: &mut Steps<L>,
) -> (u64, End)
    requires on { StandsOnDisk opened (D.reads_as disk.old) (D.images disk.old) }
    requires short { AreShort items.now }
    ensures told { IsSome (D.reads_as disk.new) }
    ensures kept { (image : Image) → D.images disk.new image → KeepsPrefix opened.chain (items_in items.now) result.0 image }
    ensures end { IsEndOf (length items.now) result.0 result.1 }
    ensures fault { CountsFault (D.faults disk.old) (D.faults disk.new) (result.1 ≡ End.DiskFault) }
    ensures steps { steps.new ≤ steps.old + steps_over opened.chain (items_in items.now) }
    ensures counted { result.1 ≡ End.Whole → steps.old ≤ steps.new }
{
    let mut node = opened;
    'importing: for i in 0..items.len() {
        match node.import(alloc, disk, judge, &items[i], steps) {
            Ok((next, _)) => node = next,
            Err(stop) => return (i as u64, end_of_import(stop)),
        }
    }
    drop(node);
    (items.len() as u64, End::Whole)
}

/// How a session ends whose store was not opened. A sound store is one.
fn end_of_opening(stop: LogStop) -> End
    ensures stopped { result ≡ End.Whole → ⊥ }
    ensures fault { (result ≡ End.DiskFault) ↔ (stop ≡ LogStop.DiskFault) }
{
    match stop {
        LogStop::DiskFault => End::DiskFault,
        LogStop::NotAStore(_) => End::NoMemory,
        LogStop::NoMemory => End::NoMemory,
    }
}

/// How a session ends whose import was stopped.
fn end_of_import(stop: ReadStop) -> End
    ensures stopped { result ≡ End.Whole → ⊥ }
    ensures fault { (result ≡ End.DiskFault) ↔ (stop ≡ ReadStop.DiskFault) }
{
    match stop {
        ReadStop::DiskFault => End::DiskFault,
        ReadStop::Damaged(_) => End::NoMemory,
        ReadStop::NoMemory => End::NoMemory,
    }
}
