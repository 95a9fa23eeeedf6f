// The blocks of a generated chain are imported in sessions that are stopped at one call of the disk after the other, and counted.
ghost use Rattle.std.specs.Prelude.{◌≡◌, ◌+◌, ◌-◌, ◌*◌, ◌^◌, ◌≤◌, ◌<◌, length, map, replicate, slice_get, true, Some, All, IfOk, OnOk, IsSome};
ghost use Rattle.verdict_defs.specs.Chain.{Chain, chain_of_genesis};
ghost use Rattle.node_store.specs.Node.{IsOnlyImage, IsSoundNode};
ghost use Rattle.made_chain.specs.Sessions.{items_in, items_of, AreShort, IsShort, HasSoundImage};
ghost use Rattle.report_defs.specs.SoakLaws.{NamesNoLater};
ghost use Rattle.report_defs.specs.Simulation.{AreSoakCounts, counts_over};
ghost use Rattle.made_chain.specs.Soak.{stop_of, stops_of, IsPlayed, EndWhole, IsSoaked, IsSoakedInMemory};

use crate::counting::{SIZE_BOUND, counted, open_new};
use crate::{End, Session, play};
use chain_gen::{Made, make};
use crashing::{Armed, Crashing};
use node_store::{HELD, Judging, Node};
use outside::{Disk, NoMemory, Steps};
use outside_mem::MemDisk;
use report_defs::{Counts, soak_laws};
use std::alloc::Global;
use std::marker::Brand;
use std::sync::ledger::{Blank, Ledger};

/// A copy of an item. `Err` is want of memory, or an item that no session takes: none that is generated comes near it.
fn copy_of_item(item: &Vec<u8>) -> Result<Vec<u8>, NoMemory>
    ensures same { IfOk result (λ copy. copy.items ≡ item.now.items) }
    ensures short { IfOk result (λ copy. length copy.items < 2 ^ 31) }
{
    if item.len() >= SIZE_BOUND {
        return Err(NoMemory);
    }
    let copy = item.clone()?;
    Ok(copy)
}

/// A copy of items.
fn copy_of(alloc: Global, items: &[Vec<u8>]) -> Result<Vec<Vec<u8>>, NoMemory>
    ensures same { IfOk result (λ copies. items_in copies.items ≡ items_in items.now) }
    ensures short { IfOk result (λ copies. AreShort copies.items) }
{
    let mut copies = Vec::with_capacity(alloc, items.len())?;
    'copying: for i in 0..items.len() {
        let copy = copy_of_item(&items[i])?;
        copies.push(copy)?;
    }
    Ok(copies)
}

/// The session that imports all of these items, and is stopped so.
fn session_over(
    alloc: Global,
    items: &[Vec<u8>],
    pass: Option<u64>,
    pick: u64,
) -> Result<Session, NoMemory>
    ensures items { IfOk result (λ session. items_of session ≡ items_in items.now) }
    ensures short { IfOk result IsShort }
    ensures stop { IfOk result (λ session. stop_of session ≡ record { pass = pass; pick = pick }) }
{
    let items = copy_of(alloc, items)?;
    Ok(Session { items, pass, pick })
}

/// The sessions of a soak over these items. Session k, for k from 0 to four times their count, passes k calls of the disk, and picks
/// the seed plus k, modulo 2^64. The last one passes all.
fn sessions_over(alloc: Global, seed: u64, items: &[Vec<u8>]) -> Result<Vec<Session>, NoMemory>
    requires { length items.now ≤ 100 }
    ensures items { IfOk result (λ sessions. map items_of sessions.items ≡ replicate (4 * length items.now + 2) (items_in items.now)) }
    ensures short { IfOk result (λ sessions. All IsShort sessions.items) }
    ensures stops { IfOk result (λ sessions. map stop_of sessions.items ≡ stops_of seed (length items.now)) }
{
    let stopped = 4 * items.len() as u64 + 1;
    let mut sessions = Vec::with_capacity(alloc, stopped as usize + 1)?;
    'stopping: for k in 0..stopped {
        let stopped_session = session_over(alloc, items, Some(k), seed.wrapping_add(k))?;
        sessions.push(stopped_session)?;
    }
    let last = session_over(alloc, items, None, 0)?;
    sessions.push(last)?;
    Ok(sessions)
}

/// Whether the last of these ends is whole.
fn last_is_whole(ends: &[End]) -> bool
    ensures { result ≡ true → slice_get ends.now (length ends.now - 1) ≡ Some End.Whole }
{
    let count = ends.len();
    if count == 0 {
        return false;
    }
    match ends[count - 1] {
        End::Whole => true,
        End::DiskFault => false,
        End::NoMemory => false,
    }
}

/// Plays sessions, of which the last must be whole and give so many verdicts.
fn play_all<D: Crashing, J: Judging, L: Ledger>(
    alloc: Global,
    disk: &mut Armed<D>,
    judge: &J,
    sessions: &[Session],
    size: u64,
    steps: &mut Steps<L>,
) -> Result<(), NoMemory>
    requires store { HasSoundImage (D.reads_as disk.old.disk) (D.images disk.old.disk) }
    requires short { All IsShort sessions.now }
    ensures kept { (chain : Chain) → IsOnlyImage chain (D.reads_as disk.old.disk) (D.images disk.old.disk)
        → OnOk result ((kept : Chain) × IsPlayed chain (map items_of sessions.now) size kept × IsOnlyImage kept (D.reads_as disk.new.disk) (D.images disk.new.disk)) }
    ensures ended { OnOk result (EndWhole D.content_of D.reads_as D.images D.faults D.picks sessions.now disk.old disk.new steps.old steps.new) }
{
    let played = match play(alloc, disk, judge, sessions, steps) {
        Ok(played) => played,
        Err(stop) => return Err(stop),
    };
    let count = played.acked.len();
    if count == 0 {
        return Err(NoMemory);
    }
    let last = played.acked[count - 1];
    if last < size {
        return Err(NoMemory);
    }
    if !last_is_whole(&played.ends) {
        return Err(NoMemory);
    }
    Ok(())
}

/// Opens the store on a disk that keeps a chain.
fn open_kept<D: Disk, L: Ledger>(
    alloc: Global,
    disk: &mut D,
    steps: &mut Steps<L>,
) -> Result<Node, NoMemory>
    requires store { HasSoundImage (D.reads_as disk.old) (D.images disk.old) }
    ensures chain { (chain : Chain) → IsOnlyImage chain (D.reads_as disk.old) (D.images disk.old) → IfOk result (λ node. node.chain ≡ chain) }
    ensures sound { IfOk result IsSoundNode }
{
    match Node::open(alloc, disk, HELD, steps) {
        Ok(node) => Ok(node),
        Err(_) => Err(NoMemory),
    }
}

/// Imports a chain into a new store on this disk, again and again in sessions, and counts. As many items joined as there are blocks
/// beside the genesis.
fn soak_on<D: Crashing, J: Judging, L: Ledger>(
    alloc: Global,
    disk: &mut Armed<D>,
    judge: &J,
    seed: u64,
    made: &Made,
    steps: &mut Steps<L>,
) -> Result<Counts, NoMemory>
    requires told { IsSome (D.reads_as disk.old.disk) }
    requires count { length made.now.blocks.items ≤ 100 }
    ensures counts { IfOk result (λ counts. NamesNoLater (items_in made.now.blocks.items)
        → counts ≡ counts_over (chain_of_genesis made.now.spec.items made.now.genesis.items) (items_in made.now.blocks.items)) }
    ensures soaked { IfOk result (λ _. IsSoaked D.content_of D.reads_as D.images D.faults D.picks seed (items_in made.now.blocks.items)) }
{
    soak_laws();
    let sessions = sessions_over(alloc, seed, &made.blocks)?;
    let opened = open_new(alloc, disk, &made.spec, &made.genesis, steps)?;
    let before = opened.tree().len();
    drop(opened);
    match play_all(
        alloc,
        disk,
        judge,
        &sessions,
        made.blocks.len() as u64,
        steps,
    ) {
        Ok(()) => {}
        Err(stop) => return Err(stop),
    }
    let node = open_kept(alloc, disk, steps)?;
    let joined = node.tree().len().saturating_sub(before);
    counted(alloc, &node, u64::from(joined))
}

/// Makes a chain, and soaks a store of it on a disk of its own.
fn soak_made<J: Judging, L: Ledger>(
    alloc: Global,
    judge: &J,
    seed: u64,
    count: u32,
    blank: Blank,
) -> Result<Counts, NoMemory>
    requires name { blank.name ≡ L.name }
    requires parts { blank.parts ≡ L.parts }
    requires some { 0 < L.parts }
    requires count { count ≤ 100 }
    ensures counts { IfOk result (λ counts. AreSoakCounts seed count counts) }
    ensures soaked { IfOk result (λ _. IsSoakedInMemory seed count) }
{
    soak_laws();
    let made = make(alloc, seed, count)?;
    let mut disk = Armed::new(MemDisk::new(alloc, Vec::new(alloc)));
    let mut steps = Steps::<L>::new(blank);
    soak_on(alloc, &mut disk, judge, seed, &made, &mut steps)
}

/// What is counted where the blocks of a seed, so many of them, at most 100, are imported over their genesis in 4 times as many
/// sessions and two: session k is stopped after k calls of the disk, and the last is not. They are kept on a disk in memory, and
/// steps are counted for no one. `Err` is want of memory, also where the disk meets it in the last session or outside the sessions,
/// of a soak without blocks too.
/// Where two hashes of the genesis and the blocks are equal, nothing is said of the counts.
pub fn soak_counts_of<J: Judging>(
    alloc: Global,
    judge: &J,
    seed: u64,
    count: u32,
) -> Result<Counts, NoMemory>
    requires { count ≤ 100 }
    ensures counts { IfOk result (λ counts. AreSoakCounts seed count counts) }
    // Each session was played, stopped as it is to be, and the last was whole.
    ensures soaked { IfOk result (λ _. IsSoakedInMemory seed count) }
{
    soak_made::<J, Brand>(alloc, judge, seed, count, Blank::new(1))
}
