// The blocks of a generated chain are imported, one after the other, and counted.
ghost use Rattle.std.specs.Prelude.{◌≡◌, ◌<◌, ◌≤◌, length, map, IfOk, IsSome, if◌then◌else◌};
ghost use Rattle.std.specs.List.{filter};
ghost use Rattle.chain_defs.specs.Tip as tips;
ghost use Rattle.chain_defs.specs.Events.{events};
ghost use Rattle.verdict_defs.specs.Verdict as rules;
ghost use Rattle.verdict_defs.specs.Chain.{verdict_over, chain_after, verdicts_over, chain_over, chain_of_genesis};
ghost use Rattle.node_store.specs.Node.{IsOwnDiskWhereTold, IsOnlyImage, IsSoundNode, IsSoundWhereTold};
ghost use Rattle.chain_defs.specs.LiveCells.{live_cells};
ghost use Rattle.report_defs.specs.Simulation.{height_of, counts_over, generated_counts};

use chain_gen::{Made, make};
use node_store::{HELD, Judging, Node, judge};
use outside::{Disk, NoMemory, Steps};
use outside_mem::MemDisk;
use report_defs::Counts;
use std::alloc::Global;
use std::marker::Brand;
use std::sync::ledger::{Blank, Ledger};
use verdict_defs::Verdict;

/// More bytes than an item of a node has. No generated item comes near it.
pub const SIZE_BOUND: usize = 1 << 31;

/// One for an item that joined, and none for any other.
fn one_if_joined(verdict: &Verdict) -> u64
    ensures { result ≡ (if rules.joins verdict.now then 1 else 0) }
{
    match verdict {
        Verdict::Joined(_, _) => 1,
        Verdict::Known(_) => 0,
        Verdict::Refused(_) => 0,
        Verdict::Full => 0,
    }
}

/// Opens a new store of a specification and a genesis. `Err` is want of memory, or a rule that they break: those of a generated
/// chain break none.
pub fn open_new<D: Disk, L: Ledger>(
    alloc: Global,
    disk: &mut D,
    spec: &[u8],
    genesis: &[u8],
    steps: &mut Steps<L>,
) -> Result<Node, NoMemory>
    requires told { IsSome (D.reads_as disk.old) }
    ensures chain { IfOk result (λ node. node.chain ≡ chain_of_genesis spec.now genesis.now) }
    ensures sound { IfOk result (λ node. IsSoundWhereTold node (D.reads_as disk.new)) }
    ensures own { IfOk result (λ node. IsOwnDiskWhereTold node (D.reads_as disk.new) (D.images disk.new)) }
    ensures image { IfOk result (λ node. IsOnlyImage node.chain (D.reads_as disk.new) (D.images disk.new)) }
{
    if spec.len() >= SIZE_BOUND || genesis.len() >= SIZE_BOUND {
        return Err(NoMemory);
    }
    let new = match judge(alloc, spec, genesis) {
        Ok(new) => new,
        Err(_) => return Err(NoMemory),
    };
    match new.create(alloc, disk) {
        Ok(()) => {}
        Err(_) => return Err(NoMemory),
    }
    match Node::open(alloc, disk, HELD, steps) {
        Ok(node) => Ok(node),
        Err(_) => Err(NoMemory),
    }
}

/// Imports an item.
fn import_item<D: Disk, J: Judging, L: Ledger>(
    alloc: Global,
    disk: &mut D,
    judge: &J,
    node: Node,
    item: &[u8],
    steps: &mut Steps<L>,
) -> Result<(Node, Verdict), NoMemory>
    requires sound { IsSoundWhereTold node (D.reads_as disk.old) }
    requires own { IsOwnDiskWhereTold node (D.reads_as disk.old) (D.images disk.old) }
    ensures verdict { IfOk result (λ answer. answer.1 ≡ verdict_over node.chain item.now) }
    ensures kept { IfOk result (λ answer. answer.0.chain ≡ chain_after node.chain item.now) }
    ensures sound { IfOk result (λ answer. IsSoundWhereTold answer.0 (D.reads_as disk.new)) }
    ensures own { IfOk result (λ answer. IsOwnDiskWhereTold answer.0 (D.reads_as disk.new) (D.images disk.new)) }
{
    if item.len() >= SIZE_BOUND {
        drop(node);
        return Err(NoMemory);
    }
    match node.import(alloc, disk, judge, item, steps) {
        Ok(answer) => Ok(answer),
        Err(_) => Err(NoMemory),
    }
}

/// Imports items one after the other, and counts those that join.
fn import_all<D: Disk, J: Judging, L: Ledger>(
    alloc: Global,
    disk: &mut D,
    judge: &J,
    opened: Node,
    items: &[Vec<u8>],
    steps: &mut Steps<L>,
) -> Result<(Node, u64), NoMemory>
    requires sound { IsSoundWhereTold opened (D.reads_as disk.old) }
    requires own { IsOwnDiskWhereTold opened (D.reads_as disk.old) (D.images disk.old) }
    ensures sound { IfOk result (λ came. IsSoundNode came.0) }
    ensures kept { IfOk result (λ came. came.0.chain ≡ chain_over opened.chain (map (λ bytes. bytes.items) items.now)) }
    ensures count { IfOk result (λ came. came.1 ≡ length (filter rules.joins (verdicts_over opened.chain (map (λ bytes. bytes.items) items.now)))) }
{
    let mut node = opened;
    let mut joined = 0u64;
    'importing: for i in 0..items.len() {
        let (next, verdict) = match import_item(alloc, disk, judge, node, &items[i], steps) {
            Ok(answer) => answer,
            Err(stop) => return Err(stop),
        };
        node = next;
        joined += one_if_joined(&verdict);
    }
    Ok((node, joined))
}

/// What is counted of a node, where so many items joined. The live cells are listed to be counted: the list has each once.
pub fn counted(alloc: Global, node: &Node, joined: u64) -> Result<Counts, NoMemory>
    requires { IsSoundNode node.now }
    ensures { IfOk result (λ counts. counts ≡ record {
      joined = joined;
      height = height_of (tips.tip node.now.chain.blocks);
      cells = length (live_cells (events (tips.best_branch node.now.chain.blocks)));
    }) }
{
    let tip = node.tip();
    let cells = node.state().sorted(alloc)?;
    Ok(Counts {
        joined,
        height: tip.number,
        cells: cells.len() as u64,
    })
}

/// Imports a chain into a new store on this disk, and counts.
fn count_on<D: Disk, J: Judging, L: Ledger>(
    alloc: Global,
    disk: &mut D,
    judge: &J,
    made: &Made,
    steps: &mut Steps<L>,
) -> Result<Counts, NoMemory>
    requires told { IsSome (D.reads_as disk.old) }
    ensures { IfOk result (λ counts. counts
        ≡ counts_over (chain_of_genesis made.now.spec.items made.now.genesis.items) (map (λ bytes. bytes.items) made.now.blocks.items)) }
{
    let opened = open_new(alloc, disk, &made.spec, &made.genesis, steps)?;
    let (node, joined) = import_all(alloc, disk, judge, opened, &made.blocks, steps)?;
    counted(alloc, &node, joined)
}

/// Makes a chain, and counts it on a disk of its own.
fn count_made<J: Judging, L: Ledger>(
    alloc: Global,
    judge: &J,
    seed: u64,
    count: u32,
    blank: Blank,
) -> Result<Counts, NoMemory>
    requires name { blank.name ≡ L.name }
    requires parts { blank.parts ≡ L.parts }
    requires some { 0 < L.parts }
    requires count { count ≤ 20000 }
    ensures { IfOk result (λ counts. counts ≡ generated_counts seed count) }
{
    let made = make(alloc, seed, count)?;
    let mut disk = MemDisk::new(alloc, Vec::new(alloc));
    let mut steps = Steps::<L>::new(blank);
    count_on(alloc, &mut disk, judge, &made, &mut steps)
}

/// What is counted where the blocks of a seed, so many of them, at most 20,000, are imported one after the other over their genesis.
/// They are kept on a disk in memory, and steps are counted for no one. `Err` is want of memory, also where the disk meets it.
/// That nothing else gives it rests on the rules that the generated genesis keeps (`genesis_laws` of gen_defs), and on the sizes of
/// the blocks, which are only tested.
pub fn counts_of<J: Judging>(
    alloc: Global,
    judge: &J,
    seed: u64,
    count: u32,
) -> Result<Counts, NoMemory>
    requires { count ≤ 20000 }
    ensures { IfOk result (λ counts. counts ≡ generated_counts seed count) }
{
    count_made::<J, Brand>(alloc, judge, seed, count, Blank::new(1))
}
