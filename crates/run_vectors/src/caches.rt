// A generated chain, imported into a node that holds one block in memory.
ghost use Rattle.std.specs.Prelude.{◌≡◌, ◌≤◌, ◌<◌, IfSome};
ghost use Rattle.node_store.specs.Node.{IsOwnDiskWhereTold};

use chain_gen::{Made, make};
use node_core::Rules;
use node_store::{Node, judge};
use outside::{Disk, Steps};
use outside_mem::MemDisk;
use std::alloc::Global;
use std::sync::ledger::Ledger;
use verdict_defs::Verdict;

/// More bytes than an item of a node has. No generated item comes near it.
const SIZE_BOUND: usize = 1 << 31;

/// The chain: its seed, and how many blocks stand after its genesis.
const SEED: u64 = 5;

const BLOCKS: u32 = 2000;

/// A node over a new store that holds one block.
fn open_new<D: Disk, L: Ledger>(
    alloc: Global,
    disk: &mut D,
    made: &Made,
    steps: &mut Steps<L>,
) -> Option<Node>
    ensures { IfSome result (λ node. IsOwnDiskWhereTold node (D.reads_as disk.new) (D.images disk.new)) }
{
    if made.spec.len() >= SIZE_BOUND || made.genesis.len() >= SIZE_BOUND {
        return None;
    }
    let Ok(new) = judge(alloc, &made.spec, &made.genesis) else {
        return None;
    };
    match new.create(alloc, disk) {
        Ok(()) => {}
        Err(_) => return None,
    }
    match Node::open(alloc, disk, 1, steps) {
        Ok(node) => Some(node),
        Err(_) => None,
    }
}

/// Imports an item.
fn import<D: Disk, L: Ledger>(
    alloc: Global,
    disk: &mut D,
    node: Node,
    item: &[u8],
    steps: &mut Steps<L>,
) -> Option<(Node, Verdict)>
    requires { IsOwnDiskWhereTold node (D.reads_as disk.old) (D.images disk.old) }
    ensures { IfSome result (λ answer. IsOwnDiskWhereTold answer.0 (D.reads_as disk.new) (D.images disk.new)) }
{
    if item.len() >= SIZE_BOUND {
        drop(node);
        return None;
    }
    match node.import(alloc, disk, &Rules { alloc }, item, steps) {
        Ok(answer) => Some(answer),
        Err(_) => None,
    }
}

fn has_joined(verdict: Verdict) -> bool {
    matches!(verdict, Verdict::Joined(_, _))
}

/// How many items join that are imported one after the other, and the number of live cells after them.
fn joined_of<D: Disk, L: Ledger>(
    alloc: Global,
    disk: &mut D,
    opened: Node,
    items: &[Vec<u8>],
    steps: &mut Steps<L>,
) -> Option<(u64, u64)>
    requires { IsOwnDiskWhereTold opened (D.reads_as disk.old) (D.images disk.old) }
{
    let mut node = opened;
    let mut joined = 0u64;
    'items: for item in items {
        let (next, verdict) = import(alloc, disk, node, item, steps)?;
        node = next;
        joined = joined.saturating_add(u64::from(has_joined(verdict)));
    }
    let rows = node.state().rows();
    drop(node);
    Some((joined, rows))
}

/// How many blocks of the chain join a node that holds one block in memory, and how many live cells it has then; None where it stops.
pub fn agreed<L: Ledger>(alloc: Global, steps: &mut Steps<L>) -> Option<(u64, u64)> {
    let made = make(alloc, SEED, BLOCKS).ok()?;
    let mut disk = MemDisk::new(alloc, Vec::new(alloc));
    let node = open_new(alloc, &mut disk, &made, steps)?;
    joined_of(alloc, &mut disk, node, &made.blocks, steps)
}
