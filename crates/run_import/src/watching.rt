// A lock that is watched: its balance, which follows the tip.
ghost use Rattle.std.specs.Prelude.{◌≡◌, ◌<◌, ℕ, List, Option, length, IfOk, IfSome, IsSome, Err};
ghost use Rattle.chain_defs.specs.Schema.{Block};
ghost use Rattle.chain_tree.specs.Reading.{HasRead, stop_of};
ghost use Rattle.cell_state.specs.State.{rows};
ghost use Rattle.cell_index.specs.Balance as balances;
ghost use Rattle.rewards.specs.Reading.{YieldsUndamaged};
ghost use Rattle.store_defs.specs.Store.{AreJoined};
ghost use Rattle.verdict_defs.specs.Chain.{Chain};
ghost use Rattle.node_store.specs.Kept.{AreRowsOfTip, HoldsJoined};
ghost use Rattle.node_store.specs.Node.{IsOwnDiskWhereTold, LogHoldsKept, IsSoundWhereTold, HasOnlyRead, LeavesAll};
ghost use Rattle.report_defs.specs.Report.{balance_over};
ghost use Rattle.run_import.specs.Watching.{IsWatchAt, IsWatching, IsTipBalance};

use cell_index::Balance;
use chain_tree::Blocks;
use node_store::{Cache, Kept, Node, Store};
use outside::{Disk, NoMemory, ReadStop};
use std::alloc::Global;

/// Begins to watch a lock, where one is to be watched.
pub fn watch_of(
    alloc: Global,
    node: &Node,
    watched: Option<[u8; 32]>,
) -> Result<Option<Balance>, NoMemory>
    ensures { AreRowsOfTip node.now.chain.blocks (rows node.now.cells) → IfOk result (IsWatching watched node.now.chain.blocks) }
{
    // (there is a tip)
    let _tip = node.tree().tip();
    let Some(lock) = watched else {
        return Ok(None);
    };
    let balance = Balance::of(alloc, node.state(), &lock)?;
    Ok(Some(balance))
}

/// What is said of a lock that is watched.
pub fn balance_of(watch: &Option<Balance>) -> Option<(u64, u128)>
    ensures { (watched : Option (List ℕ)) (chain : Chain) → IsWatching watched chain.blocks watch.now → result ≡ balance_over watched chain }
{
    match watch {
        None => None,
        Some(balance) => Some(balance.sum()),
    }
}

/// The balance on the branch of a kept block, moved to that of the tip, over a source of kept blocks.
fn moved<B: Blocks>(
    alloc: Global,
    kept: &Kept,
    blocks: &mut B,
    balance: Balance,
    from: u32,
) -> Result<Balance, ReadStop>
    requires from { from < length kept.now.chain.blocks }
    requires counts { B.count blocks.old ≡ length kept.now.chain.blocks }
    ensures read { HasRead B.told B.count B.loans_of B.faults B.damages blocks.old blocks.new (stop_of result) }
    ensures followed { (lock : List ℕ) → HoldsJoined kept.now (B.told blocks.old) → balances.IsBalance lock kept.now.chain.blocks from balance
        → YieldsUndamaged (IsTipBalance lock kept.now.chain.blocks) result }
{
    balance.follow(alloc, &kept.tree, blocks, from, kept.tree.tip())
}

/// The same over a disk.
fn moved_on_disk<D: Disk>(
    alloc: Global,
    disk: &mut D,
    cache: &mut Cache,
    kept: &Kept,
    balance: Balance,
    from: u32,
) -> Result<Balance, ReadStop>
    requires from { from < length kept.now.chain.blocks }
    requires own { IfSome (D.reads_as disk.old) (LogHoldsKept kept.now cache.old.held) }
    ensures looked { HasOnlyRead D.content_of D.reads_as D.faults disk.old disk.new kept.now cache.old cache.new (stop_of result) }
    ensures followed { (lock : List ℕ) → IsSome (D.reads_as disk.old) → AreJoined kept.now.chain kept.now.exts → balances.IsBalance lock kept.now.chain.blocks from balance
        → YieldsUndamaged (IsTipBalance lock kept.now.chain.blocks) result }
{
    let mut store = Store::new(alloc, disk, &kept.tree, cache);
    moved(alloc, kept, &mut store, balance, from)
}

/// The same of a node, with the blocks that it holds in memory.
fn moved_on_node<D: Disk>(
    alloc: Global,
    disk: &mut D,
    node: &mut Node,
    balance: Balance,
    from: u32,
) -> Result<Balance, ReadStop>
    requires from { from < length node.old.chain.blocks }
    requires own { IsOwnDiskWhereTold node.old (D.reads_as disk.old) (D.images disk.old) }
    ensures left { LeavesAll D.content_of D.reads_as D.images D.faults disk.old disk.new node.old node.new (stop_of result) }
    ensures followed { (lock : List ℕ) → IsSoundWhereTold node.old (D.reads_as disk.old) → balances.IsBalance lock node.old.chain.blocks from balance
        → YieldsUndamaged (IsTipBalance lock node.old.chain.blocks) result }
{
    moved_on_disk(alloc, disk, &mut node.cache, &node.kept, balance, from)
}

/// Has what is watched follow the tip, from the place where it was.
pub fn follow<D: Disk>(
    alloc: Global,
    disk: &mut D,
    node: &mut Node,
    watch: Option<Balance>,
    from: u32,
) -> Result<Option<Balance>, ReadStop>
    requires from { from < length node.old.chain.blocks }
    requires own { IsOwnDiskWhereTold node.old (D.reads_as disk.old) (D.images disk.old) }
    ensures left { LeavesAll D.content_of D.reads_as D.images D.faults disk.old disk.new node.old node.new (stop_of result) }
    ensures followed { (watched : Option (List ℕ)) → IsSoundWhereTold node.old (D.reads_as disk.old) → IsWatchAt watched node.old.chain.blocks from watch
        → YieldsUndamaged (IsWatching watched node.old.chain.blocks) result }
{
    // (there is a tip)
    let _tip = node.tree().tip();
    let Some(watch) = watch else {
        return Ok(None);
    };
    match moved_on_node(alloc, disk, node, watch, from) {
        Ok(balance) => Ok(Some(balance)),
        Err(stop) => Err(stop),
    }
}
