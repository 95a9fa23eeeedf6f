// J22: the headers that are named.
ghost use Rattle.std.specs.Prelude.{◌≡◌, ◌≤◌, List, Some, length, IfOk, IfSome, IsSomeAnd, map, slice_index, Option};
ghost use Rattle.std.specs.Option.{option_map};
ghost use Rattle.std.specs.List.{AllZip};
ghost use Rattle.chain_defs.specs.Schema.{OutPoint};
ghost use Rattle.chain_defs.specs.Row.{Row};
ghost use Rattle.chain_defs.specs.Kept.{place_of};
ghost use Rattle.chain_defs.specs.Branch.{branch_places};
ghost use Rattle.chain_tree.specs.Entries.{entry_at, place_of_hash};
ghost use Rattle.chain_tree.specs.Told.{Stored, blocks_of};
ghost use Rattle.rule_defs.specs.Site.{Site};
ghost use Rattle.rule_defs.specs.Resolving.{header_heights, named_ancestor};
ghost use Rattle.rule_defs.specs.Resolving as rules;
ghost use Rattle.tx_rules.specs.At.{IsAtParent, IsSiteOf};

use crate::at::TxAt;
use crate::form::header_dep_at;
use epochs::span_over;
use mol_schema::TxView;
use outside::NoMemory;
use std::alloc::Global;

/// The ancestor with a hash: its place in the tree, and its height. None where no ancestor has it.
fn ancestor_with(at: &TxAt<'_, '_, '_>, hash: &[u8; 32]) -> Option<(u32, u64)>
    requires placed { IsAtParent at.now }
    ensures found { IfSome result (λ it. place_of_hash at.now.entries hash.now ≡ Some it.0) }
    ensures above { IfSome result (λ it. IsSomeAnd (entry_at at.now.entries at.now.parent) (λ parent. it.1 ≤ parent.number)) }
    ensures height { (stored : List Stored) (rows : OutPoint → Option Row) (site : Site) → IsSiteOf stored at.now rows site
        → option_map (λ it. it.1) result ≡ place_of site.branch hash.now }
    ensures place { (stored : List Stored) (rows : OutPoint → Option Row) (site : Site) → IsSiteOf stored at.now rows site
        → IfSome result (λ it. it.0 ≡ slice_index (branch_places (blocks_of stored) at.now.parent) it.1) }
{
    let Some(place) = at.tree.find(hash) else {
        return None;
    };
    let height = at.tree.entry(place).number;
    if height >= at.height() {
        return None;
    }
    if at.tree.ancestor(at.parent, height) != place {
        return None;
    }
    Some((place, height))
}

/// Whether the header of an ancestor may be named, by its height: under the first edition the span of maturity is over from
/// it, under the second it may be any.
fn may_be_named(at: &TxAt<'_, '_, '_>, height: u64) -> bool
    requires placed { IsAtParent at.now }
    requires above { IsSomeAnd (entry_at at.now.entries at.now.parent) (λ parent. height ≤ parent.number) }
    ensures { (stored : List Stored) (rows : OutPoint → Option Row) (site : Site) → IsSiteOf stored at.now rows site → result ≡ rules.may_be_named site height }
{
    let spec = at.spec;
    at.is_second() || span_over(spec.maturity, spec.epoch_length, height, at.height())
}

/// The place of a header dep in the tree. None where it is not the hash of an ancestor whose header may be named.
fn header_place(at: &TxAt<'_, '_, '_>, hash: &[u8; 32]) -> Option<u32>
    requires placed { IsAtParent at.now }
    ensures found { IfSome result (λ place. place_of_hash at.now.entries hash.now ≡ Some place) }
    ensures height { (stored : List Stored) (rows : OutPoint → Option Row) (site : Site) → IsSiteOf stored at.now rows site
        → result ≡ option_map (slice_index (branch_places (blocks_of stored) at.now.parent)) (named_ancestor site hash.now) }
{
    let Some((place, height)) = ancestor_with(at, hash) else {
        return None;
    };
    if may_be_named(at, height) {
        Some(place)
    } else {
        None
    }
}

/// The places of its header deps in the tree, in their order. None where one is not the hash of an ancestor whose
/// header may be named.
pub(crate) fn header_places(
    alloc: Global,
    tx: &TxView<'_>,
    at: &TxAt<'_, '_, '_>,
) -> Result<Option<Vec<u32>>, NoMemory>
    requires placed { IsAtParent at.now }
    ensures found { IfOk result (λ found. IfSome found (λ places. AllZip (λ hash place. place_of_hash at.now.entries hash ≡ Some place) tx.now.raw.header_deps places.items)) }
    ensures heights { (stored : List Stored) (rows : OutPoint → Option Row) (site : Site) → IsSiteOf stored at.now rows site
        → IfOk result (λ found. option_map (λ places. places.items) found ≡ option_map (map (slice_index (branch_places (blocks_of stored) at.now.parent))) (header_heights site tx.now)) }
{
    let mut places = Vec::new(alloc);
    'deps: for i in 0..tx.raw().header_deps_count() {
        match header_place(at, &header_dep_at(tx, i)) {
            None => return Ok(None),
            Some(place) => {
                if places.push(place).is_err() {
                    return Err(NoMemory);
                }
            }
        }
    }
    Ok(Some(places))
}
