// Which ids may be given to a proposer: those that later blocks commit.
ghost use Rattle.std.specs.Prelude.{◌≡◌, ◌+◌, ◌^◌, ◌<◌, ◌≤◌, ◌||◌, ◌&&◌, true, List, ℕ, length, Some, Err, IfOk, OnOk, IsSomeAnd};
ghost use Rattle.std.specs.List.{list_any, Contains};
ghost use Rattle.std.specs.Str.{bytes_eq};
ghost use Rattle.std.specs.HashSet as hashed;
ghost use Rattle.chain_defs.specs.Specification.{Specification};
ghost use Rattle.outside.specs.declared.disk.Damage.{Damage};
ghost use Rattle.outside.specs.declared.disk.ReadStop.TheVariants.{Damaged};
ghost use Rattle.chain_defs.specs.Branch.{branch};
ghost use Rattle.chain_tree.specs.Entries.{entry_at};
ghost use Rattle.chain_tree.specs.Told.{Stored, blocks_of};
ghost use Rattle.chain_tree.specs.Reading.{HasRead, stop_of};
ghost use Rattle.rule_defs.specs.Fees.{Paid, paid_at};
ghost use Rattle.rewards.specs.Starts.{AsksForCommits};
ghost use Rattle.rewards.specs.Reading.{AreKnownBlocks, YieldsUndamaged};

use crate::places::place_at;
use chain_tree::{Blocks, ByDigest, Tree};
use epochs::Spec;
use outside::{NoMemory, ReadStop};
use std::alloc::Global;
use std::collections::HashSet;

/// Ids of transactions that kept blocks commit. Each begins the hash of one, so it is found and not picked, and may be
/// hashed.
pub(crate) type Committed = HashSet<[u8; 10], ByDigest>;

/// Adds some ids.
fn add_all(committed: &mut Committed, ids: &[[u8; 10]]) -> Result<(), NoMemory>
    ensures { OnOk result ((id : List ℕ) → hashed.contains bytes_eq committed.new id
        ≡ (hashed.contains bytes_eq committed.old id || list_any (λ other. bytes_eq other id) ids.now)) }
{
    'ids: for i in 0..ids.len() {
        committed.insert(ids[i])?;
    }
    Ok(())
}

/// Adds those that the block at a height commits. Damaged where the source finds the block damaged.
fn add_at<B: Blocks>(
    committed: &mut Committed,
    tree: &Tree,
    blocks: &mut B,
    parent: u32,
    height: u64,
) -> Result<(), ReadStop>
    requires later { 1 ≤ height }
    requires height { IsSomeAnd (entry_at tree.now.entries parent) (λ entry. height ≤ entry.number) }
    requires counts { B.count blocks.old ≡ length tree.now.entries }
    ensures read { HasRead B.told B.count B.loans_of B.faults B.damages blocks.old blocks.new (stop_of result) }
    ensures undamaged { (stored : List Stored) → B.told blocks.old ≡ Some stored → (damage : Damage) → result ≡ Err (Damaged damage) → ⊥ }
    ensures kept { OnOk result ((id : List ℕ) → hashed.contains bytes_eq committed.old id ≡ true → hashed.contains bytes_eq committed.new id ≡ true) }
    ensures added { (spec : Specification) (stored : List Stored) → AreKnownBlocks spec (B.told blocks.old) tree.now.entries stored
        → OnOk result ((paid : Paid) → Contains (paid_at spec (branch (blocks_of stored) parent) height) paid → hashed.contains bytes_eq committed.new paid.id ≡ true) }
{
    let place = place_at(tree, parent, height);
    match blocks.bring(place) {
        Ok(()) => {}
        Err(stop) => return Err(stop),
    }
    let ids = match blocks.ids() {
        Ok(ids) => ids,
        Err(NoMemory) => return Err(ReadStop::NoMemory),
    };
    match add_all(committed, &ids) {
        Ok(()) => Ok(()),
        Err(_) => Err(ReadStop::NoMemory),
    }
}

/// The ids that the blocks from w_close to w_far after a proposer commit. Damaged where the source finds one of them damaged.
pub(crate) fn committed_after<B: Blocks>(
    alloc: Global,
    spec: &Spec,
    tree: &Tree,
    blocks: &mut B,
    parent: u32,
    proposer: u64,
) -> Result<Committed, ReadStop>
    requires fits { proposer < 2 ^ 32 }
    requires far { IsSomeAnd (entry_at tree.now.entries parent) (λ entry. proposer + spec.now.w_far ≤ entry.number) }
    requires counts { B.count blocks.old ≡ length tree.now.entries }
    ensures read { HasRead B.told B.count B.loans_of B.faults B.damages blocks.old blocks.new (stop_of result) }
    ensures undamaged { (stored : List Stored) → B.told blocks.old ≡ Some stored → (damage : Damage) → result ≡ Err (Damaged damage) → ⊥ }
    ensures asked { (stored : List Stored) → AreKnownBlocks spec.now (B.told blocks.old) tree.now.entries stored
        → YieldsUndamaged (λ committed. AsksForCommits spec.now (branch (blocks_of stored) parent) proposer (hashed.contains bytes_eq committed)) result }
{
    let low = proposer + u64::from(spec.w_close);
    let end = proposer + u64::from(spec.w_far) + 1;
    let mut committed = HashSet::with_hasher(alloc, ByDigest);
    'commits: for height in low..end {
        match add_at(&mut committed, tree, blocks, parent, height) {
            Ok(()) => {}
            Err(stop) => return Err(stop),
        }
    }
    Ok(committed)
}

/// Those of some ids that are committed.
pub(crate) fn wanted_of(
    alloc: Global,
    ids: &[[u8; 10]],
    committed: &Committed,
) -> Result<Vec<[u8; 10]>, NoMemory>
    ensures { IfOk result (λ wanted. (id : List ℕ) → list_any (λ other. bytes_eq other id) wanted.items
        ≡ (list_any (λ other. bytes_eq other id) ids.now && hashed.contains bytes_eq committed.now id)) }
{
    let mut wanted = Vec::new(alloc);
    'ids: for i in 0..ids.len() {
        if committed.contains(&ids[i]) {
            wanted.push(ids[i])?;
        }
    }
    Ok(wanted)
}
