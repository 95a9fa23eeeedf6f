// J27: what the inputs count and the outputs hold.
ghost use Rattle.std.specs.Prelude.{◌≡◌, ◌<◌, ◌^◌, ℕ, IsTrue, IsSome, false, pos, ◌-ℤ◌, nat_abs, List, length, map, Err, Some, None, IfOk, IfSome, slice_index, Option};
ghost use Rattle.std.specs.List.{AllZip, sum_by};
ghost use Rattle.chain_defs.specs.Schema.{OutPoint};
ghost use Rattle.chain_defs.specs.Dao.{field_of_bytes, as_u64};
ghost use Rattle.chain_defs.specs.Row.{Row};
ghost use Rattle.cell_state.specs.Copies.{IsCopyOf};
ghost use Rattle.chain_defs.specs.Branch.{branch_places};
ghost use Rattle.outside.specs.declared.disk.Area.TheVariants.{Log};
ghost use Rattle.outside.specs.declared.disk.Damage.{Damage};
ghost use Rattle.chain_tree.specs.declared.entry.Entry.{Entry};
ghost use Rattle.chain_tree.specs.Entries.{entry_at};
ghost use Rattle.chain_tree.specs.Told.{Stored, blocks_of};
ghost use Rattle.rule_defs.specs.Site.{Site, Found, height_at};
ghost use Rattle.rule_defs.specs.Resolving.{inputs, heights};
ghost use Rattle.rule_defs.specs.Withdrawals.{names_deposits, withdraws_well};
ghost use Rattle.rule_defs.specs.Capacity as rules;
ghost use Rattle.tx_rules.specs.At.{IsAtParent, IsSiteOf};
ghost use Rattle.tx_rules.specs.Outcome.{Copies, IsBalanceOf};
ghost use Rattle.tx_rules.specs.Seen.{IsRowOf};

use crate::at::{TxAt, damage_of};
use crate::withdrawals::{deposit_place, withdrawing_made};
use cell_state::{CellMeta, Resolved};
use dao_math::{Dao, max_withdraw};
use mol_schema::TxView;
use outside::Damage;

/// What a transaction pays: its fee and its interest, in shannons.
#[derive(Clone, Copy)]
pub(crate) struct Balance {
    pub fee: u64,
    pub interest: i128,
}

/// The accumulated rate of a kept block.
fn rate_at(at: &TxAt<'_, '_, '_>, place: u32) -> u64
    requires placed { IsAtParent at.now }
    requires within { place < length at.now.entries }
    ensures rate { (entry : Entry) → entry_at at.now.entries place ≡ Some entry → result ≡ (field_of_bytes entry.dao).rate }
    ensures above_zero { 0 < result }
{
    Dao::read(&at.tree.entry(place).dao).ar
}

/// What a withdrawing cell counts since its deposit block, in shannons; none above the greatest u64. Damaged where its
/// row's block is not kept, or it does not hold what it occupies.
fn withdrawn(at: &TxAt<'_, '_, '_>, meta: &CellMeta, deposit: u32) -> Result<Option<u64>, Damage>
    requires placed { IsAtParent at.now }
    requires within { deposit < length at.now.entries }
    ensures withdrawn { (stored : List Stored) (rows : OutPoint → Option Row) (site : Site) (found : Found) (height : ℕ) → IsSiteOf stored at.now rows site
        → IsRowOf (blocks_of stored) at.now.parent site found meta.now → found.cell.height < height_at site
        → height < height_at site → deposit ≡ slice_index (branch_places (blocks_of stored) at.now.parent) height
        → IfOk result (λ counted. counted ≡ as_u64 (pos (rules.withdrawn site found.cell (Some height)))) }
    ensures undamaged { (stored : List Stored) (rows : OutPoint → Option Row) (site : Site) (found : Found) → IsSiteOf stored at.now rows site
        → IsRowOf (blocks_of stored) at.now.parent site found meta.now → found.cell.height < height_at site → IsSome found.cell.output.type_script
        → (damage : Damage) → result ≡ Err damage → ⊥ }
    ensures damage { (damage : Damage) → result ≡ Err damage → damage.area ≡ Log }
{
    if meta.block >= at.tree.len() || meta.occupied > meta.capacity {
        return Err(damage_of(at, meta));
    }
    let made_rate = rate_at(at, meta.block);
    let deposit_rate = rate_at(at, deposit);
    Ok(max_withdraw(meta.capacity, meta.occupied, made_rate, deposit_rate))
}

/// What a cell of a capacity counts that does not withdraw.
fn counted_plain(capacity: u64) -> Option<u64>
    ensures { result ≡ as_u64 (pos capacity) }
{
    Some(capacity)
}

/// What the input at a place counts, in shannons; none above the greatest u64. Damaged where its row's block is not kept
/// or not below the height, the copy is no output, or a withdrawing cell does not hold what it occupies.
fn counted(
    tx: &TxView<'_>,
    at: &TxAt<'_, '_, '_>,
    height: u64,
    headers: &[u32],
    i: usize,
    copy: &Resolved,
) -> Result<Option<u64>, Damage>
    requires placed { IsAtParent at.now }
    ensures counted { (stored : List Stored) (rows : OutPoint → Option Row) (site : Site) (found : Found) → IsSiteOf stored at.now rows site
        → height ≡ height_at site → headers.now ≡ map (slice_index (branch_places (blocks_of stored) at.now.parent)) (heights site tx.now)
        → IsRowOf (blocks_of stored) at.now.parent site found copy.now.row → IsCopyOf found.cell copy.now → IsTrue (withdraws_well site tx.now (i, found))
        → IfOk result (λ counted. counted ≡ as_u64 (pos (rules.counted site tx.now (i, found)))) }
    ensures undamaged { (stored : List Stored) (rows : OutPoint → Option Row) (site : Site) (found : Found) → IsSiteOf stored at.now rows site
        → height ≡ height_at site → headers.now ≡ map (slice_index (branch_places (blocks_of stored) at.now.parent)) (heights site tx.now)
        → IsRowOf (blocks_of stored) at.now.parent site found copy.now.row → IsCopyOf found.cell copy.now → IsTrue (withdraws_well site tx.now (i, found))
        → (damage : Damage) → result ≡ Err damage → ⊥ }
    ensures damage { (damage : Damage) → result ≡ Err damage → damage.area ≡ Log }
{
    let meta = &copy.meta;
    let made = match withdrawing_made(at, height, copy) {
        Ok(Some(made)) => made,
        Ok(None) => return Ok(counted_plain(meta.capacity)),
        Err(damage) => return Err(damage),
    };
    match deposit_place(tx, at, headers, i, made) {
        None => Ok(counted_plain(meta.capacity)),
        Some(deposit) => withdrawn(at, meta, deposit),
    }
}

/// What all inputs count, in shannons; none above the greatest u64. Damaged as `counted` is.
fn counted_in(
    tx: &TxView<'_>,
    at: &TxAt<'_, '_, '_>,
    copies: &[Resolved],
    headers: &[u32],
) -> Result<Option<u64>, Damage>
    requires placed { IsAtParent at.now }
    ensures counted { (stored : List Stored) (rows : OutPoint → Option Row) (site : Site) → IsSiteOf stored at.now rows site
        → AllZip (Copies (blocks_of stored) at.now.parent) (inputs site tx.now) copies.now → headers.now ≡ map (slice_index (branch_places (blocks_of stored) at.now.parent)) (heights site tx.now)
        → IsTrue (names_deposits site tx.now) → IfOk result (λ sum. sum ≡ as_u64 (pos (rules.counted_in site tx.now))) }
    ensures undamaged { (stored : List Stored) (rows : OutPoint → Option Row) (site : Site) → IsSiteOf stored at.now rows site
        → AllZip (Copies (blocks_of stored) at.now.parent) (inputs site tx.now) copies.now → headers.now ≡ map (slice_index (branch_places (blocks_of stored) at.now.parent)) (heights site tx.now)
        → IsTrue (names_deposits site tx.now) → (damage : Damage) → result ≡ Err damage → ⊥ }
    ensures damage { (damage : Damage) → result ≡ Err damage → damage.area ≡ Log }
{
    let height = at.height();
    let mut sum: u64 = 0;
    'inputs: for i in 0..copies.len() {
        let copy = &copies[i];
        let more = match counted(tx, at, height, headers, i, copy) {
            Ok(Some(more)) => more,
            Ok(None) => return Ok(None),
            Err(damage) => return Err(damage),
        };
        match sum.checked_add(more) {
            None => return Ok(None),
            Some(total) => sum = total,
        }
    }
    Ok(Some(sum))
}

/// What all outputs hold, in shannons; none above the greatest u64.
fn held_out(tx: &TxView<'_>) -> Option<u64>
    ensures { result ≡ as_u64 (pos (rules.held_out tx.now)) }
{
    let raw = tx.raw();
    let mut sum: u64 = 0;
    'outputs: for i in 0..raw.outputs_count() {
        match sum.checked_add(raw.outputs_item(i).capacity()) {
            None => return None,
            Some(total) => sum = total,
        }
    }
    Some(sum)
}

/// The capacities of copies, one for each input of a transaction.
fn capacities(tx: &TxView<'_>, copies: &[Resolved]) -> u128
    requires each { length copies.now ≡ length tx.now.raw.inputs }
    ensures sum { result ≡ sum_by (λ copy. copy.row.capacity) copies.now }
    ensures fits { result < 2 ^ 96 }
{
    let mut sum: u128 = 0;
    'copies: for i in 0..tx.raw().inputs_count() {
        let copy = &copies[i];
        sum += u128::from(copy.meta.capacity);
    }
    sum
}

/// What inputs count beyond their capacities.
fn beyond(counted: u64, capacities: u128) -> i128
    requires { capacities < 2 ^ 96 }
    ensures difference { result ≡ pos counted -ℤ pos capacities }
    ensures fits { nat_abs result < 2 ^ 96 }
{
    i128::from(counted) - capacities as i128
}

/// J27: both sums are at most the greatest u64, and the outputs hold no more than the inputs count; then the fee and the
/// interest. None where it is broken. Damaged where a row's block is none that the transaction sees, a copy is no output,
/// or a withdrawing cell does not hold what it occupies.
pub(crate) fn balance_of(
    tx: &TxView<'_>,
    at: &TxAt<'_, '_, '_>,
    copies: &[Resolved],
    headers: &[u32],
) -> Result<Option<Balance>, Damage>
    requires placed { IsAtParent at.now }
    requires each { length copies.now ≡ length tx.now.raw.inputs }
    ensures fits { IfOk result (λ balance. IfSome balance (λ it. nat_abs it.interest < 2 ^ 96)) }
    ensures balance { (stored : List Stored) (rows : OutPoint → Option Row) (site : Site) → IsSiteOf stored at.now rows site
        → AllZip (Copies (blocks_of stored) at.now.parent) (inputs site tx.now) copies.now → headers.now ≡ map (slice_index (branch_places (blocks_of stored) at.now.parent)) (heights site tx.now)
        → IsTrue (names_deposits site tx.now) → IfOk result (IsBalanceOf site tx.now) }
    ensures undamaged { (stored : List Stored) (rows : OutPoint → Option Row) (site : Site) → IsSiteOf stored at.now rows site
        → AllZip (Copies (blocks_of stored) at.now.parent) (inputs site tx.now) copies.now → headers.now ≡ map (slice_index (branch_places (blocks_of stored) at.now.parent)) (heights site tx.now)
        → IsTrue (names_deposits site tx.now) → (damage : Damage) → result ≡ Err damage → ⊥ }
    ensures damage { (damage : Damage) → result ≡ Err damage → damage.area ≡ Log }
{
    let counted = match counted_in(tx, at, copies, headers) {
        Ok(Some(counted)) => counted,
        Ok(None) => return Ok(None),
        Err(damage) => return Err(damage),
    };
    let Some(held) = held_out(tx) else {
        return Ok(None);
    };
    if held > counted {
        return Ok(None);
    }
    Ok(Some(Balance {
        fee: counted - held,
        interest: beyond(counted, capacities(tx, copies)),
    }))
}
