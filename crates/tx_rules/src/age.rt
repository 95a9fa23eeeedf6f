// J23 and J24: how old the cells of a transaction are.
ghost use Rattle.std.specs.Prelude.{◌≡◌, ◌^◌, ◌<◌, ◌≤◌, ◌&&◌, true, List, length, map, Err, IfOk, Option};
ghost use Rattle.std.specs.List.{list_all, zip};
ghost use Rattle.chain_defs.specs.Schema.{OutPoint};
ghost use Rattle.chain_defs.specs.Row.{Row};
ghost use Rattle.chain_defs.specs.Since.{is_valid, is_met, metric_of};
ghost use Rattle.chain_defs.specs.Median.{median_time};
ghost use Rattle.outside.specs.declared.disk.Area.TheVariants.{Log};
ghost use Rattle.outside.specs.declared.disk.Damage.{Damage};
ghost use Rattle.chain_tree.specs.Told.{Stored, blocks_of};
ghost use Rattle.rule_defs.specs.Site.{Site, Found, height_at};
ghost use Rattle.rule_defs.specs.Age as rules;
ghost use Rattle.since_rules.specs.Fields.{is_timestamp};
ghost use Rattle.tx_rules.specs.At.{IsAtParent, IsSiteOf, AreSeen, found_row};
ghost use Rattle.tx_rules.specs.Seen.{IsRowOf};

use crate::at::{TxAt, damage_of};
use cell_state::{CellMeta, OutPoint};
use epochs::span_over;
use mol_schema::TxView;
use outside::Damage;
use since_rules::{SinceAt, counts_seconds, meets};

/// The height of the block that made a cell, which is at most that of the block that the transaction stands in.
/// Damaged where a row's block is not kept, or not below that height.
pub(crate) fn made_at(at: &TxAt<'_, '_, '_>, height: u64, meta: &CellMeta) -> Result<u64, Damage>
    requires placed { IsAtParent at.now }
    ensures at_most { IfOk result (λ made. made ≤ height) }
    ensures made { (stored : List Stored) (rows : OutPoint → Option Row) (site : Site) (found : Found) → IsSiteOf stored at.now rows site
        → height ≡ height_at site → IsRowOf (blocks_of stored) at.now.parent site found meta.now → IfOk result (λ made. made ≡ found.cell.height) }
    ensures undamaged { (stored : List Stored) (rows : OutPoint → Option Row) (site : Site) (found : Found) → IsSiteOf stored at.now rows site
        → height ≡ height_at site → IsRowOf (blocks_of stored) at.now.parent site found meta.now → (damage : Damage) → result ≡ Err damage → ⊥ }
    ensures damage { (damage : Damage) → result ≡ Err damage → damage.area ≡ Log }
{
    let kept = at.tree.len();
    if meta.block == kept {
        return Ok(height);
    }
    if meta.block > kept {
        return Err(damage_of(at, meta));
    }
    let number = at.tree.entry(meta.block).number;
    if number >= height {
        return Err(damage_of(at, meta));
    }
    Ok(number)
}

/// Whether a cell may be used: it is no cellbase output, or the span of maturity is over.
fn is_mature(at: &TxAt<'_, '_, '_>, height: u64, meta: &CellMeta) -> Result<bool, Damage>
    requires placed { IsAtParent at.now }
    requires fits { height < 2 ^ 24 }
    ensures mature { (stored : List Stored) (rows : OutPoint → Option Row) (site : Site) (found : Found) → IsSiteOf stored at.now rows site
        → height ≡ height_at site → IsRowOf (blocks_of stored) at.now.parent site found meta.now → IfOk result (λ mature. mature ≡ rules.is_mature site found) }
    ensures undamaged { (stored : List Stored) (rows : OutPoint → Option Row) (site : Site) (found : Found) → IsSiteOf stored at.now rows site
        → height ≡ height_at site → IsRowOf (blocks_of stored) at.now.parent site found meta.now → (damage : Damage) → result ≡ Err damage → ⊥ }
    ensures damage { (damage : Damage) → result ≡ Err damage → damage.area ≡ Log }
{
    if meta.tx != 0 {
        return Ok(true);
    }
    let made = match made_at(at, height, meta) {
        Ok(made) => made,
        Err(damage) => return Err(damage),
    };
    let spec = at.spec;
    Ok(made == 0 || span_over(spec.maturity, spec.epoch_length, made, height))
}

/// J23, of some cells: a cellbase output may be used once the span of maturity is over. Damaged where a row's block is
/// none that the transaction sees.
pub(crate) fn are_mature(
    at: &TxAt<'_, '_, '_>,
    found: &[(OutPoint, CellMeta)],
) -> Result<bool, Damage>
    requires placed { IsAtParent at.now }
    ensures mature { (stored : List Stored) (rows : OutPoint → Option Row) (site : Site) (founds : List Found) → IsSiteOf stored at.now rows site → AreSeen site founds
        → found.now ≡ map (found_row (blocks_of stored) at.now.parent) founds → IfOk result (λ mature. mature ≡ list_all (rules.is_mature site) founds) }
    ensures undamaged { (stored : List Stored) (rows : OutPoint → Option Row) (site : Site) (founds : List Found) → IsSiteOf stored at.now rows site → AreSeen site founds
        → found.now ≡ map (found_row (blocks_of stored) at.now.parent) founds → (damage : Damage) → result ≡ Err damage → ⊥ }
    ensures damage { (damage : Damage) → result ≡ Err damage → damage.area ≡ Log }
{
    let height = at.height();
    'rows: for i in 0..found.len() {
        match is_mature(at, height, &found[i].1) {
            Ok(true) => {}
            Ok(false) => return Ok(false),
            Err(damage) => return Err(damage),
        }
    }
    Ok(true)
}

/// The time from which a cell counts under the first edition, in milliseconds: the median time at the parent of the block that
/// made it, the genesis' own timestamp. `median` is the median time at the parent of the block that the transaction stands in.
/// Damaged where a row's block is not kept.
fn median_start(at: &TxAt<'_, '_, '_>, median: u64, meta: &CellMeta) -> Result<u64, Damage>
    requires placed { IsAtParent at.now }
    ensures start { (stored : List Stored) (rows : OutPoint → Option Row) (site : Site) (found : Found) → IsSiteOf stored at.now rows site
        → median ≡ median_time site.branch → IsRowOf (blocks_of stored) at.now.parent site found meta.now
        → IfOk result (λ start. start ≡ rules.median_start site.branch found.cell.height) }
    ensures undamaged { (stored : List Stored) (rows : OutPoint → Option Row) (site : Site) (found : Found) → IsSiteOf stored at.now rows site
        → median ≡ median_time site.branch → IsRowOf (blocks_of stored) at.now.parent site found meta.now
        → (damage : Damage) → result ≡ Err damage → ⊥ }
    ensures damage { (damage : Damage) → result ≡ Err damage → damage.area ≡ Log }
{
    let kept = at.tree.len();
    if meta.block == kept {
        return Ok(median);
    }
    if meta.block > kept {
        return Err(damage_of(at, meta));
    }
    let entry = at.tree.entry(meta.block);
    if meta.block == 0 {
        Ok(entry.timestamp)
    } else {
        Ok(at.tree.median(entry.parent))
    }
}

/// The same under the second edition: the timestamp of the block that made it. Damaged where a row's block is not kept.
fn block_start(at: &TxAt<'_, '_, '_>, meta: &CellMeta) -> Result<u64, Damage>
    requires placed { IsAtParent at.now }
    ensures start { (stored : List Stored) (rows : OutPoint → Option Row) (site : Site) (found : Found) → IsSiteOf stored at.now rows site
        → IsRowOf (blocks_of stored) at.now.parent site found meta.now → IfOk result (λ start. start ≡ rules.block_start site found.cell.height) }
    ensures undamaged { (stored : List Stored) (rows : OutPoint → Option Row) (site : Site) (found : Found) → IsSiteOf stored at.now rows site
        → IsRowOf (blocks_of stored) at.now.parent site found meta.now → (damage : Damage) → result ≡ Err damage → ⊥ }
    ensures damage { (damage : Damage) → result ≡ Err damage → damage.area ≡ Log }
{
    let kept = at.tree.len();
    if meta.block == kept {
        return Ok(at.timestamp());
    }
    if meta.block > kept {
        return Err(damage_of(at, meta));
    }
    Ok(at.tree.entry(meta.block).timestamp)
}

/// The time from which a cell counts, by the edition under which it is spent. Damaged where a row's block is not kept.
fn start_at(at: &TxAt<'_, '_, '_>, median: u64, meta: &CellMeta) -> Result<u64, Damage>
    requires placed { IsAtParent at.now }
    ensures start { (stored : List Stored) (rows : OutPoint → Option Row) (site : Site) (found : Found) → IsSiteOf stored at.now rows site
        → median ≡ median_time site.branch → IsRowOf (blocks_of stored) at.now.parent site found meta.now
        → IfOk result (λ start. start ≡ rules.start_at site found.cell.height) }
    ensures undamaged { (stored : List Stored) (rows : OutPoint → Option Row) (site : Site) (found : Found) → IsSiteOf stored at.now rows site
        → median ≡ median_time site.branch → IsRowOf (blocks_of stored) at.now.parent site found meta.now
        → (damage : Damage) → result ≡ Err damage → ⊥ }
    ensures damage { (damage : Damage) → result ≡ Err damage → damage.area ≡ Log }
{
    if at.is_second() {
        block_start(at, meta)
    } else {
        median_start(at, median, meta)
    }
}

/// The times that a since compares: the median time at the parent of the block that the transaction stands in, and the time
/// from which the cell of a row counts. Of a since that counts no seconds they are 0, and none is looked for. Damaged where a
/// row's block is not kept.
fn times_of(at: &TxAt<'_, '_, '_>, since: u64, meta: &CellMeta) -> Result<(u64, u64), Damage>
    requires placed { IsAtParent at.now }
    ensures times { (stored : List Stored) (rows : OutPoint → Option Row) (site : Site) (found : Found) → IsSiteOf stored at.now rows site
        → IsRowOf (blocks_of stored) at.now.parent site found meta.now → is_timestamp (metric_of since) ≡ true
        → IfOk result (λ times. (times.0 ≡ median_time site.branch) × (times.1 ≡ rules.start_at site found.cell.height)) }
    ensures undamaged { (stored : List Stored) (rows : OutPoint → Option Row) (site : Site) (found : Found) → IsSiteOf stored at.now rows site
        → IsRowOf (blocks_of stored) at.now.parent site found meta.now → (damage : Damage) → result ≡ Err damage → ⊥ }
    ensures damage { (damage : Damage) → result ≡ Err damage → damage.area ≡ Log }
{
    if !counts_seconds(since) {
        return Ok((0, 0));
    }
    let median = at.tree.median(at.parent);
    match start_at(at, median, meta) {
        Ok(start) => Ok((median, start)),
        Err(damage) => Err(damage),
    }
}

/// Whether a since is valid and met by the cell of a row, spent at this height. Damaged where a row's block is not kept, or
/// not below that height.
fn meets_since(
    at: &TxAt<'_, '_, '_>,
    height: u64,
    since: u64,
    meta: &CellMeta,
) -> Result<bool, Damage>
    requires placed { IsAtParent at.now }
    requires fits { height < 2 ^ 24 }
    ensures met { (stored : List Stored) (rows : OutPoint → Option Row) (site : Site) (found : Found) → IsSiteOf stored at.now rows site
        → height ≡ height_at site → IsRowOf (blocks_of stored) at.now.parent site found meta.now
        → IfOk result (λ met. met ≡ (is_valid since && is_met since (rules.spending site found))) }
    ensures undamaged { (stored : List Stored) (rows : OutPoint → Option Row) (site : Site) (found : Found) → IsSiteOf stored at.now rows site
        → height ≡ height_at site → IsRowOf (blocks_of stored) at.now.parent site found meta.now
        → (damage : Damage) → result ≡ Err damage → ⊥ }
    ensures damage { (damage : Damage) → result ≡ Err damage → damage.area ≡ Log }
{
    let made = match made_at(at, height, meta) {
        Ok(made) => made,
        Err(damage) => return Err(damage),
    };
    let (median, start) = match times_of(at, since, meta) {
        Ok(times) => times,
        Err(damage) => return Err(damage),
    };
    let spec = at.spec;
    let spending = SinceAt {
        number: height,
        median,
        made,
        start,
        length: spec.epoch_length,
    };
    Ok(meets(since, &spending).is_ok())
}

/// J24: the since of each input is valid and met, over the rows of its inputs. Damaged where a row's block is none that
/// the transaction sees.
pub(crate) fn meets_each_since(
    tx: &TxView<'_>,
    at: &TxAt<'_, '_, '_>,
    found: &[(OutPoint, CellMeta)],
) -> Result<bool, Damage>
    requires placed { IsAtParent at.now }
    requires each { length found.now ≡ length tx.now.raw.inputs }
    ensures met { (stored : List Stored) (rows : OutPoint → Option Row) (site : Site) (founds : List Found) → IsSiteOf stored at.now rows site → AreSeen site founds
        → found.now ≡ map (found_row (blocks_of stored) at.now.parent) founds → IfOk result (λ met. met ≡ list_all (rules.meets_since site) (zip tx.now.raw.inputs founds)) }
    ensures undamaged { (stored : List Stored) (rows : OutPoint → Option Row) (site : Site) (founds : List Found) → IsSiteOf stored at.now rows site → AreSeen site founds
        → found.now ≡ map (found_row (blocks_of stored) at.now.parent) founds → (damage : Damage) → result ≡ Err damage → ⊥ }
    ensures damage { (damage : Damage) → result ≡ Err damage → damage.area ≡ Log }
{
    let raw = tx.raw();
    let height = at.height();
    'inputs: for i in 0..found.len() {
        let since = raw.inputs_item(i).since();
        match meets_since(at, height, since, &found[i].1) {
            Ok(true) => {}
            Ok(false) => return Ok(false),
            Err(damage) => return Err(damage),
        }
    }
    Ok(true)
}
