// J26: the headers that withdrawals from the Nervos DAO name.
ghost use Rattle.std.specs.Prelude.{◌≡◌, ◌<◌, ◌&&◌, ◌||◌, ◌==◌, not, ℕ, List, length, map, Some, None, Err, IfOk, IfSome, slice_get, slice_index, Option, if◌then◌else◌};
ghost use Rattle.std.specs.Option.{option_map, option_and_then};
ghost use Rattle.std.specs.List.{AllZip, list_all, list_any};
ghost use Rattle.std.specs.List.Sorted.{IsNonDecreasing, IsPermutation};
ghost use Rattle.chain_defs.specs.Schema.{OutPoint};
ghost use Rattle.chain_defs.specs.Cell.{Cell};
ghost use Rattle.chain_defs.specs.Row.{Row};
ghost use Rattle.cell_state.specs.Copies.{IsCopyOf};
ghost use Rattle.chain_defs.specs.Branch.{branch_places};
ghost use Rattle.outside.specs.declared.disk.Area.TheVariants.{Log};
ghost use Rattle.outside.specs.declared.disk.Damage.{Damage};
ghost use Rattle.outside.specs.declared.disk.ReadStop.TheVariants.{DiskFault, Damaged};
ghost use Rattle.chain_tree.specs.Told.{Stored, blocks_of};
ghost use Rattle.rule_defs.specs.Site.{Site, Found, height_at};
ghost use Rattle.rule_defs.specs.Resolving.{inputs, heights};
ghost use Rattle.rule_defs.specs.Withdrawals as rules;
ghost use Rattle.tx_rules.specs.At.{IsAtParent, IsSiteOf};
ghost use Rattle.tx_rules.specs.Outcome.{Copies};
ghost use Rattle.tx_rules.specs.Seen.{IsRowOf};

use crate::age::made_at;
use crate::arrays::array_of;
use crate::at::{TxAt, damage_of};
use cell_state::Resolved;
use epochs::Spec;
use mol_schema::{OutputView, ScriptView, TxView, WitnessArgsView};
use outside::{Damage, NoMemory, ReadStop};
use std::alloc::Global;

/// The hash type by which the DAO script is named: that of its type script.
const BY_TYPE: u8 = 1;

/// Whether a type script is the DAO's.
fn is_dao_script(spec: &Spec, type_script: &Option<ScriptView<'_>>) -> bool
    ensures { result ≡ rules.is_dao_script spec.now type_script.now }
{
    match type_script {
        None => false,
        Some(script) => {
            script.code_hash() == spec.dao_code_hash.as_slice() && script.hash_type() == BY_TYPE
        }
    }
}

fn are_all_zero(bytes: &[u8]) -> bool
    ensures { result ≡ list_all (λ byte. byte == 0) bytes.now }
{
    bytes.iter().all(|byte| *byte == 0)
}

/// Whether data is that of a withdrawing cell: 8 bytes that are not all zero.
fn has_withdrawing_data(content: &[u8]) -> bool
    ensures { result ≡ rules.has_withdrawing_data content.now }
{
    content.len() == 8 && !are_all_zero(content)
}

/// Of a withdrawing cell the height of the block that made it; none of any other. Damaged where the copy is no output, or
/// its row's block is not kept or not below that height.
pub(crate) fn withdrawing_made(
    at: &TxAt<'_, '_, '_>,
    height: u64,
    copy: &Resolved,
) -> Result<Option<u64>, Damage>
    requires placed { IsAtParent at.now }
    ensures made { (stored : List Stored) (rows : OutPoint → Option Row) (site : Site) (found : Found) → IsSiteOf stored at.now rows site
        → height ≡ height_at site → IsRowOf (blocks_of stored) at.now.parent site found copy.now.row → IsCopyOf found.cell copy.now
        → IfOk result (λ made. made ≡ (if rules.is_withdrawing site.spec found.cell then Some found.cell.height else None)) }
    ensures undamaged { (stored : List Stored) (rows : OutPoint → Option Row) (site : Site) (found : Found) → IsSiteOf stored at.now rows site
        → height ≡ height_at site → IsRowOf (blocks_of stored) at.now.parent site found copy.now.row → IsCopyOf found.cell copy.now
        → (damage : Damage) → result ≡ Err damage → ⊥ }
    ensures damage { (damage : Damage) → result ≡ Err damage → damage.area ≡ Log }
{
    let Some(output) = OutputView::read(&copy.output) else {
        return Err(damage_of(at, &copy.meta));
    };
    let spec = at.spec;
    if !is_dao_script(spec, &output.type_script()) || !has_withdrawing_data(&copy.content) {
        return Ok(None);
    }
    match made_at(at, height, &copy.meta) {
        Ok(made) => Ok(Some(made)),
        Err(damage) => Err(damage),
    }
}

/// The index that 8 bytes are.
fn index_in(bytes: &[u8]) -> Option<u64>
    ensures { result ≡ rules.index_in bytes.now }
{
    if bytes.len() != 8 {
        return None;
    }
    Some(u64::from_le_bytes(array_of(bytes)))
}

/// The index of the header dep of the deposit block of the input at a place, as its witness has it.
#[tactic(auto, unfolding(rule_defs::specs::Withdrawals::deposit_index))]
fn deposit_index(tx: &TxView<'_>, i: usize) -> Option<u64>
    ensures { result ≡ rules.deposit_index tx.now i }
{
    if i >= tx.witnesses_count() {
        return None;
    }
    let Some(args) = WitnessArgsView::read(tx.witnesses_item(i)) else {
        return None;
    };
    match args.input_type() {
        None => None,
        Some(bytes) => index_in(bytes),
    }
}

/// The place of the header dep that the witness of the input at a place names.
fn named_place(tx: &TxView<'_>, headers: &[u32], i: usize) -> Option<u32>
    ensures { result ≡ option_and_then (slice_get headers.now) (rules.deposit_index tx.now i) }
{
    let index = usize::try_from(deposit_index(tx, i)?).ok()?;
    headers.get(index).copied()
}

/// The place of the deposit block of the input at a place: that of the header dep that its witness names, where its
/// number is below the height of the block that made the cell.
pub(crate) fn deposit_place(
    tx: &TxView<'_>,
    at: &TxAt<'_, '_, '_>,
    headers: &[u32],
    i: usize,
    made: u64,
) -> Option<u32>
    requires placed { IsAtParent at.now }
    ensures within { IfSome result (λ place. place < length at.now.entries) }
    ensures deposit { (stored : List Stored) (rows : OutPoint → Option Row) (site : Site) (cell : Cell) → IsSiteOf stored at.now rows site
        → headers.now ≡ map (slice_index (branch_places (blocks_of stored) at.now.parent)) (heights site tx.now) → made ≡ cell.height
        → result ≡ option_map (slice_index (branch_places (blocks_of stored) at.now.parent)) (rules.deposit_height (heights site tx.now) tx.now i cell) }
{
    let Some(place) = named_place(tx, headers, i) else {
        return None;
    };
    if place < at.tree.len() && at.tree.entry(place).number < made {
        Some(place)
    } else {
        None
    }
}

/// Places in rising order, so that each withdrawing input takes a binary search.
fn in_order(alloc: Global, places: &[u32]) -> Result<Vec<u32>, NoMemory>
    ensures rising { IfOk result (λ ordered. IsNonDecreasing ordered.items) }
    ensures same { IfOk result (λ ordered. IsPermutation places.now ordered.items) }
{
    let mut ordered = places.to_vec(alloc)?;
    ordered.sort_unstable();
    Ok(ordered)
}

/// Whether a block is among the header deps, by their places in rising order.
fn is_named(ordered: &[u32], block: u32) -> bool
    requires rising { IsNonDecreasing ordered.now }
    ensures { result ≡ list_any (λ place. place == block) ordered.now }
{
    ordered.binary_search(&block).is_ok()
}

/// Whether the input at a place, if it withdraws, names its headers: that of the block that made its cell, and by its
/// witness the one of its deposit block. The places of the header deps come as they are named, and in rising order.
/// Damaged as `withdrawing_made` is.
fn withdraws_well(
    tx: &TxView<'_>,
    at: &TxAt<'_, '_, '_>,
    headers: &[u32],
    ordered: &[u32],
    i: usize,
    copy: &Resolved,
) -> Result<bool, Damage>
    requires placed { IsAtParent at.now }
    requires rising { IsNonDecreasing ordered.now }
    requires same { IsPermutation headers.now ordered.now }
    ensures well { (stored : List Stored) (rows : OutPoint → Option Row) (site : Site) (found : Found) → IsSiteOf stored at.now rows site
        → headers.now ≡ map (slice_index (branch_places (blocks_of stored) at.now.parent)) (heights site tx.now)
        → IsRowOf (blocks_of stored) at.now.parent site found copy.now.row → IsCopyOf found.cell copy.now
        → IfOk result (λ well. well ≡ rules.withdraws_well site tx.now (i, found)) }
    ensures undamaged { (stored : List Stored) (rows : OutPoint → Option Row) (site : Site) (found : Found) → IsSiteOf stored at.now rows site
        → IsRowOf (blocks_of stored) at.now.parent site found copy.now.row → IsCopyOf found.cell copy.now
        → (damage : Damage) → result ≡ Err damage → ⊥ }
    ensures damage { (damage : Damage) → result ≡ Err damage → damage.area ≡ Log }
{
    let made = match withdrawing_made(at, at.height(), copy) {
        Ok(Some(made)) => made,
        Ok(None) => return Ok(true),
        Err(damage) => return Err(damage),
    };
    let meta = &copy.meta;
    Ok(is_named(ordered, meta.block) && deposit_place(tx, at, headers, i, made).is_some())
}

/// Whether each input withdraws well, over copies of its inputs' cells. Damaged as `withdraws_well` is.
fn all_withdraw_well(
    tx: &TxView<'_>,
    at: &TxAt<'_, '_, '_>,
    copies: &[Resolved],
    headers: &[u32],
    ordered: &[u32],
) -> Result<bool, Damage>
    requires placed { IsAtParent at.now }
    requires rising { IsNonDecreasing ordered.now }
    requires same { IsPermutation headers.now ordered.now }
    ensures named { (stored : List Stored) (rows : OutPoint → Option Row) (site : Site) → IsSiteOf stored at.now rows site
        → AllZip (Copies (blocks_of stored) at.now.parent) (inputs site tx.now) copies.now → headers.now ≡ map (slice_index (branch_places (blocks_of stored) at.now.parent)) (heights site tx.now)
        → IfOk result (λ named. named ≡ rules.names_deposits site tx.now) }
    ensures undamaged { (stored : List Stored) (rows : OutPoint → Option Row) (site : Site) → IsSiteOf stored at.now rows site
        → AllZip (Copies (blocks_of stored) at.now.parent) (inputs site tx.now) copies.now → headers.now ≡ map (slice_index (branch_places (blocks_of stored) at.now.parent)) (heights site tx.now)
        → (damage : Damage) → result ≡ Err damage → ⊥ }
    ensures damage { (damage : Damage) → result ≡ Err damage → damage.area ≡ Log }
{
    'inputs: for i in 0..copies.len() {
        let copy = &copies[i];
        match withdraws_well(tx, at, headers, ordered, i, copy) {
            Ok(true) => {}
            Ok(false) => return Ok(false),
            Err(damage) => return Err(damage),
        }
    }
    Ok(true)
}

/// J26: each withdrawing input names its headers, over copies of its inputs' cells and the places of its header deps.
/// Damaged where a row's block is none that the transaction sees, or a copy is no output.
pub(crate) fn names_deposits(
    alloc: Global,
    tx: &TxView<'_>,
    at: &TxAt<'_, '_, '_>,
    copies: &[Resolved],
    headers: &[u32],
) -> Result<bool, ReadStop>
    requires placed { IsAtParent at.now }
    ensures named { (stored : List Stored) (rows : OutPoint → Option Row) (site : Site) → IsSiteOf stored at.now rows site
        → AllZip (Copies (blocks_of stored) at.now.parent) (inputs site tx.now) copies.now → headers.now ≡ map (slice_index (branch_places (blocks_of stored) at.now.parent)) (heights site tx.now)
        → IfOk result (λ named. named ≡ rules.names_deposits site tx.now) }
    ensures undamaged { (stored : List Stored) (rows : OutPoint → Option Row) (site : Site) → IsSiteOf stored at.now rows site
        → AllZip (Copies (blocks_of stored) at.now.parent) (inputs site tx.now) copies.now → headers.now ≡ map (slice_index (branch_places (blocks_of stored) at.now.parent)) (heights site tx.now)
        → (damage : Damage) → result ≡ Err (Damaged damage) → ⊥ }
    ensures damage { (damage : Damage) → result ≡ Err (Damaged damage) → damage.area ≡ Log }
    ensures no_fault { result ≡ Err DiskFault → ⊥ }
{
    let Ok(ordered) = in_order(alloc, headers) else {
        return Err(ReadStop::NoMemory);
    };
    match all_withdraw_well(tx, at, copies, headers, &ordered) {
        Ok(named) => Ok(named),
        Err(damage) => Err(ReadStop::Damaged(damage)),
    }
}
