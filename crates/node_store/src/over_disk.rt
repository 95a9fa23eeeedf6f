// What is kept, over its disk: each call makes a source of kept blocks of the disk and the cache, and lets it go.
ghost use Rattle.std.specs.Prelude.{◌≡◌, ◌≤◌, ◌<◌, ◌+◌, ◌-◌, ℕ, length, Ok, Err, None, IfOk, OnOk, IfSome, IsSome};
ghost use Rattle.std.specs.Option.{option_map};
ghost use Rattle.outside.specs.declared.disk.Damage.{Damage as a_damage};
ghost use Rattle.outside.specs.declared.disk.ReadStop.TheVariants.{NoMemory, Damaged};
ghost use Rattle.chain_defs.specs.Branch.{distance};
ghost use Rattle.chain_defs.specs.Kept.{block_at};
ghost use Rattle.chain_defs.specs.Tip.{best_branch};
ghost use Rattle.chain_tree.specs.Reading.{stop_of};
ghost use Rattle.cell_state.specs.State.{rows};
ghost use Rattle.chain_tree.specs.Damages.{IsAtRecord, IsOfBlock};
ghost use Rattle.cell_state.specs.Moves.{AreRowsOfBranch};
ghost use Rattle.store_defs.specs.Store.{AreJoined};
ghost use Rattle.node_store.specs.Node.{LogHoldsKept, HasOnlyRead};
ghost use Rattle.node_store.specs.Kept.{AreRowsOfFound, AreRowsOfTip, AreRowsOfKept};
ghost use Rattle.node_store.specs.Steps.{moves_for, moves_until};
ghost use Rattle.node_store.specs.Judging.{IsReadyItem, IsDecided, MayWantMemory, place_for};
ghost use Rattle.node_store.specs.Queries.{IsHeaderAt, IsBlockAt, IsLiveCell, IsFetched};

use crate::{Cache, Decision, Fetched, HeaderAt, Judging, Kept, Store};
use cell_state::{OutPoint, State};
use outside::{Disk, ReadStop, Steps};
use std::alloc::Global;
use std::sync::ledger::Ledger;

/// Leads the live cells of the branch of one place to those of another's.
pub(crate) fn moved<D: Disk, L: Ledger>(
    alloc: Global,
    disk: &mut D,
    cache: &mut Cache,
    kept: &Kept,
    state: State,
    from: u32,
    to: u32,
    steps: &mut Steps<L>,
) -> Result<State, ReadStop>
    requires from { from < length kept.now.chain.blocks }
    requires to { to < length kept.now.chain.blocks }
    requires own { IfSome (D.reads_as disk.old) (LogHoldsKept kept.now cache.old.held) }
    ensures looked { HasOnlyRead D.content_of D.reads_as D.faults disk.old disk.new kept.now cache.old cache.new (stop_of result) }
    ensures cells { IsSome (D.reads_as disk.old) → AreJoined kept.now.chain kept.now.exts → AreRowsOfBranch kept.now.chain.blocks from (rows state)
        → IfOk result (λ there. AreRowsOfBranch kept.now.chain.blocks to (rows there)) }
    ensures below { AreRowsOfKept kept.now.chain.blocks (rows state) → IfOk result (λ there. AreRowsOfKept kept.now.chain.blocks (rows there)) }
    ensures undamaged { IsSome (D.reads_as disk.old) → AreJoined kept.now.chain kept.now.exts → AreRowsOfBranch kept.now.chain.blocks from (rows state)
        → (damage : a_damage) → result ≡ Err (Damaged damage) → ⊥ }
    ensures at_record { IsSome (D.reads_as disk.old) → (damage : a_damage) → result ≡ Err (Damaged damage)
        → (place : ℕ) × IsAtRecord kept.now.entries place damage }
    ensures steps { OnOk result (steps.new ≡ steps.old + distance kept.now.chain.blocks from to) }
    ensures most { steps.new ≤ steps.old + distance kept.now.chain.blocks from to }
{
    let mut store = Store::new(alloc, disk, &kept.tree, cache);
    kept.moved(alloc, &mut store, state, from, to, steps)
}

/// What is to become of an item, and the live cells where they then stand.
pub(crate) fn decide<D: Disk, J: Judging, L: Ledger>(
    alloc: Global,
    disk: &mut D,
    cache: &mut Cache,
    judge: &J,
    kept: &Kept,
    state: State,
    item: &[u8],
    steps: &mut Steps<L>,
) -> Result<(State, Decision), ReadStop>
    requires own { IfSome (D.reads_as disk.old) (LogHoldsKept kept.now cache.old.held) }
    ensures looked { HasOnlyRead D.content_of D.reads_as D.faults disk.old disk.new kept.now cache.old cache.new (stop_of result) }
    ensures ready { IfOk result (λ it. IsReadyItem kept.now.chain item.now it.1) }
    ensures cells { IsSome (D.reads_as disk.old) → AreJoined kept.now.chain kept.now.exts → AreRowsOfTip kept.now.chain.blocks (rows state)
        → IfOk result (λ it. AreRowsOfFound kept.now.chain.blocks (place_for kept.now.chain.blocks it.1) (rows it.0)) }
    ensures below { AreRowsOfKept kept.now.chain.blocks (rows state) → IfOk result (λ it. AreRowsOfKept kept.now.chain.blocks (rows it.0)) }
    ensures decided { IsSome (D.reads_as disk.old) → AreJoined kept.now.chain kept.now.exts → AreRowsOfTip kept.now.chain.blocks (rows state)
        → IfOk result (λ it. IsDecided kept.now.chain item.now it.1) }
    ensures undamaged { IsSome (D.reads_as disk.old) → AreJoined kept.now.chain kept.now.exts → AreRowsOfTip kept.now.chain.blocks (rows state)
        → (damage : a_damage) → result ≡ Err (Damaged damage) → ⊥ }
    ensures asked { result ≡ Err NoMemory → MayWantMemory kept.now.chain item.now }
    ensures exactly { IfOk result (λ it. steps.new ≡ steps.old + moves_until kept.now.chain.blocks (moves_for kept.now.chain item.now) it.1) }
    ensures most { steps.new ≤ steps.old + (moves_for kept.now.chain item.now - 1) }
    ensures sight { moves_for kept.now.chain item.now ≡ 0 → disk.new ≡ disk.old }
{
    let mut store = Store::new(alloc, disk, &kept.tree, cache);
    judge.decide(kept, &mut store, state, item, steps)
}

/// The header at a height of the best branch.
pub(crate) fn header<D: Disk>(
    alloc: Global,
    disk: &mut D,
    cache: &mut Cache,
    kept: &Kept,
    height: u64,
) -> Result<Option<HeaderAt>, ReadStop>
    requires own { IfSome (D.reads_as disk.old) (LogHoldsKept kept.now cache.old.held) }
    ensures looked { HasOnlyRead D.content_of D.reads_as D.faults disk.old disk.new kept.now cache.old cache.new (stop_of result) }
    ensures header { IsSome (D.reads_as disk.old) → IfOk result (IsHeaderAt kept.now.chain.blocks height) }
    ensures none { block_at (best_branch kept.now.chain.blocks) height ≡ None → (result ≡ Ok None) × (disk.new ≡ disk.old) }
    ensures undamaged { IsSome (D.reads_as disk.old) → (damage : a_damage) → result ≡ Err (Damaged damage) → ⊥ }
{
    let mut store = Store::new(alloc, disk, &kept.tree, cache);
    kept.header(&mut store, height)
}

/// The bytes of the block at a height of the best branch.
pub(crate) fn block<D: Disk>(
    alloc: Global,
    disk: &mut D,
    cache: &mut Cache,
    kept: &Kept,
    height: u64,
) -> Result<Option<Vec<u8>>, ReadStop>
    requires own { IfSome (D.reads_as disk.old) (LogHoldsKept kept.now cache.old.held) }
    ensures looked { HasOnlyRead D.content_of D.reads_as D.faults disk.old disk.new kept.now cache.old cache.new (stop_of result) }
    ensures block { IsSome (D.reads_as disk.old) → IfOk result (λ found. IsBlockAt kept.now.chain.blocks height (option_map (λ bytes. bytes.items) found)) }
    ensures none { block_at (best_branch kept.now.chain.blocks) height ≡ None → (result ≡ Ok None) × (disk.new ≡ disk.old) }
    ensures undamaged { IsSome (D.reads_as disk.old) → (damage : a_damage) → result ≡ Err (Damaged damage) → ⊥ }
{
    let mut store = Store::new(alloc, disk, &kept.tree, cache);
    kept.block(alloc, &mut store, height)
}

/// The live cell with an out-point, by the live cells of the tip, with a copy of its bytes.
pub(crate) fn fetch<D: Disk>(
    alloc: Global,
    disk: &mut D,
    cache: &mut Cache,
    kept: &Kept,
    state: &State,
    o: OutPoint,
) -> Result<Option<Fetched>, ReadStop>
    requires own { IfSome (D.reads_as disk.old) (LogHoldsKept kept.now cache.old.held) }
    requires below { AreRowsOfKept kept.now.chain.blocks (rows state.now) }
    ensures looked { HasOnlyRead D.content_of D.reads_as D.faults disk.old disk.new kept.now cache.old cache.new (stop_of result) }
    ensures fetched { IsSome (D.reads_as disk.old) → AreRowsOfTip kept.now.chain.blocks (rows state.now) → IfOk result (IsFetched kept.now.chain.blocks o) }
    ensures none { AreRowsOfTip kept.now.chain.blocks (rows state.now) → IsLiveCell kept.now.chain.blocks o None → (result ≡ Ok None) × (disk.new ≡ disk.old) }
    ensures undamaged { IsSome (D.reads_as disk.old) → AreRowsOfTip kept.now.chain.blocks (rows state.now)
        → (damage : a_damage) → result ≡ Err (Damaged damage) → ⊥ }
    ensures of_block { IsSome (D.reads_as disk.old) → (damage : a_damage) → result ≡ Err (Damaged damage) → IsOfBlock kept.now.entries damage }
{
    let mut store = Store::new(alloc, disk, &kept.tree, cache);
    kept.fetch(alloc, &mut store, state, o)
}
