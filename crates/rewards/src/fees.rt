// The fees that a kept block commits.
ghost use Rattle.std.specs.Prelude.{◌≡◌, ◌+◌, ◌^◌, ◌<◌, ◌≤◌, List, length, filter, Some, Err, IsTrue, IsSomeAnd, pos};
ghost use Rattle.std.specs.List.{sum_by};
ghost use Rattle.std.specs.Str.{bytes_eq};
ghost use Rattle.std.specs.HashMap as hashed;
ghost use Rattle.chain_defs.specs.Specification.{Specification};
ghost use Rattle.chain_defs.specs.Dao.{as_u64};
ghost use Rattle.outside.specs.declared.disk.Damage.{Damage};
ghost use Rattle.outside.specs.declared.disk.ReadStop.TheVariants.{Damaged};
ghost use Rattle.chain_defs.specs.Branch.{branch};
ghost use Rattle.chain_tree.specs.Damages.{IsOfBlock};
ghost use Rattle.chain_tree.specs.Entries.{entry_at};
ghost use Rattle.chain_tree.specs.Told.{Stored, blocks_of};
ghost use Rattle.chain_tree.specs.Reading.{HasRead, stop_of};
ghost use Rattle.chain_defs.specs.Ext.{count_at, fee_of, is_ext};
ghost use Rattle.rule_defs.specs.Fees as fees;
ghost use Rattle.rule_defs.specs.Fees.{Paid, paid_at};
ghost use Rattle.rewards.specs.Paid.{ArePaid};
ghost use Rattle.rewards.specs.Starts.{is_started};
ghost use Rattle.rewards.specs.Reading.{AreKnownBlocks, YieldsUndamaged};

use crate::amounts::{committer_share, plus, proposer_share};
use crate::places::place_at;
use crate::starts::{Starts, is_started};
use cell_state::fee_in;
use chain_tree::{Blocks, Tree, damaged_at};
use outside::{NoMemory, ReadStop};

/// How many fees an ext has.
fn fee_count(ext: &[u8]) -> u32
    requires { IsTrue (is_ext ext.now) }
    ensures { result ≡ count_at ext.now 0 }
{
    let four = &ext[0..4];
    u32::from_le_bytes([four[0], four[1], four[2], four[3]])
}

/// The fee of the i-th transaction after the first.
fn fee_at(ext: &[u8], i: usize) -> u64
    requires form { IsTrue (is_ext ext.now) }
    requires few { i + 1 < 2 ^ 32 }
    requires has { i < count_at ext.now 0 }
    ensures { result ≡ fee_of ext.now (i + 1) }
{
    match fee_in(ext, i as u32 + 1) {
        Some(fee) => fee,
        None => unreachable!(),
    }
}

/// What the fees of some transactions give to the block that commits them.
fn committed(ids: &[[u8; 10]], ext: &[u8]) -> Option<u64>
    requires form { IsTrue (is_ext ext.now) }
    requires few { length ids.now < 2 ^ 32 }
    requires has { length ids.now ≤ count_at ext.now 0 }
    ensures { (paids : List Paid) → ArePaid ext.now ids.now paids → result ≡ as_u64 (pos (sum_by (λ paid. fees.committer_share paid.fee) paids)) }
{
    let mut sum = Some(0);
    'fees: for i in 0..ids.len() {
        sum = plus(sum, Some(committer_share(fee_at(ext, i))));
    }
    sum
}

/// What the fees of some transactions that are committed at a height give to the proposer whose starts these are.
fn proposed(starts: &Starts, height: u64, ids: &[[u8; 10]], ext: &[u8]) -> Option<u64>
    requires form { IsTrue (is_ext ext.now) }
    requires few { length ids.now < 2 ^ 32 }
    requires has { length ids.now ≤ count_at ext.now 0 }
    ensures { (paids : List Paid) → ArePaid ext.now ids.now paids → result ≡ as_u64 (pos (sum_by (λ paid. fees.proposer_share paid.fee)
        (filter (λ paid. is_started (hashed.get bytes_eq starts.now paid.id) height) paids))) }
{
    let mut sum = Some(0);
    'fees: for i in 0..ids.len() {
        if is_started(starts, &ids[i], height) {
            sum = plus(sum, Some(proposer_share(fee_at(ext, i))));
        }
    }
    sum
}

/// What the fees that the block at a height commits give to that block. Damaged where the source finds the block
/// damaged, or its ext lacks fees: at the block's record.
pub(crate) fn committed_at<B: Blocks>(
    tree: &Tree,
    blocks: &mut B,
    parent: u32,
    height: u64,
) -> Result<Option<u64>, ReadStop>
    requires later { 1 ≤ height }
    requires height { IsSomeAnd (entry_at tree.now.entries parent) (λ entry. height ≤ entry.number) }
    requires counts { B.count blocks.old ≡ length tree.now.entries }
    ensures read { HasRead B.told B.count B.loans_of B.faults B.damages blocks.old blocks.new (stop_of result) }
    ensures of_block { (stored : List Stored) → B.told blocks.old ≡ Some stored → (damage : Damage) → result ≡ Err (Damaged damage) → IsOfBlock tree.now.entries damage }
    ensures sum { (spec : Specification) (stored : List Stored) → AreKnownBlocks spec (B.told blocks.old) tree.now.entries stored
        → YieldsUndamaged (λ found. found ≡ as_u64 (pos (sum_by (λ paid. fees.committer_share paid.fee) (paid_at spec (branch (blocks_of stored) parent) height)))) result }
{
    let place = place_at(tree, parent, height);
    match blocks.bring(place) {
        Ok(()) => {}
        Err(stop) => return Err(stop),
    }
    let ids = match blocks.ids() {
        Ok(ids) => ids,
        Err(NoMemory) => return Err(ReadStop::NoMemory),
    };
    let ext = blocks.spent();
    if ids.len() > fee_count(ext) as usize {
        return Err(damaged_at(tree, blocks, place));
    }
    Ok(committed(&ids, ext))
}

/// What they give to the proposer whose starts these are. Damaged as above.
pub(crate) fn proposed_at<B: Blocks>(
    starts: &Starts,
    tree: &Tree,
    blocks: &mut B,
    parent: u32,
    height: u64,
) -> Result<Option<u64>, ReadStop>
    requires later { 1 ≤ height }
    requires height { IsSomeAnd (entry_at tree.now.entries parent) (λ entry. height ≤ entry.number) }
    requires counts { B.count blocks.old ≡ length tree.now.entries }
    ensures read { HasRead B.told B.count B.loans_of B.faults B.damages blocks.old blocks.new (stop_of result) }
    ensures of_block { (stored : List Stored) → B.told blocks.old ≡ Some stored → (damage : Damage) → result ≡ Err (Damaged damage) → IsOfBlock tree.now.entries damage }
    ensures sum { (spec : Specification) (stored : List Stored) → AreKnownBlocks spec (B.told blocks.old) tree.now.entries stored
        → YieldsUndamaged (λ found. found ≡ as_u64 (pos (sum_by (λ paid. fees.proposer_share paid.fee)
        (filter (λ paid. is_started (hashed.get bytes_eq starts.now paid.id) height) (paid_at spec (branch (blocks_of stored) parent) height))))) result }
{
    let place = place_at(tree, parent, height);
    match blocks.bring(place) {
        Ok(()) => {}
        Err(stop) => return Err(stop),
    }
    let ids = match blocks.ids() {
        Ok(ids) => ids,
        Err(NoMemory) => return Err(ReadStop::NoMemory),
    };
    let ext = blocks.spent();
    if ids.len() > fee_count(ext) as usize {
        return Err(damaged_at(tree, blocks, place));
    }
    Ok(proposed(starts, height, &ids, ext))
}
