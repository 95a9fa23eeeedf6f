// The rules on the genesis of a store.

ghost use Rattle.std.specs.Prelude.{◌≡◌, ◌+◌, ◌<◌, ◌^◌, [], Some, length, slice_get, unwrap_or, IfOk};
ghost use Rattle.std.specs.Option.{option_map};
ghost use Rattle.rule_defs.specs.Genesis as rules;
ghost use Rattle.chain_defs.specs.Dao.{occupied_by_type, is_rated as dao_is_rated};
ghost use Rattle.chain_defs.specs.Hashes.{transaction_hash};
ghost use Rattle.chain_defs.specs.Cell as cells;

use crate::number::read_u64;
use mol_schema::{BlockView, OutputView, RawTxView, TxView};
use outside::NoMemory;
use std::alloc::Global;
use std::collections::HashSet;
use view_hashes::{occupied_output, transaction_hash};

/// G2: its number is 0.
fn is_first(block: &BlockView<'_>) -> bool
    ensures { result ≡ rules.is_first block.now }
{
    block.header().number() == 0
}

/// G3: it has no uncles and no proposals.
fn has_no_uncles_or_proposals(block: &BlockView<'_>) -> bool
    ensures { result ≡ rules.has_no_uncles_or_proposals block.now }
{
    block.uncles_count() == 0 && block.proposals_count() == 0
}

/// G4: the C and the AR of its DAO field are above 0.
#[tactic(auto, unfolding(chain_defs::specs::Dao::field_of_bytes))]
fn is_rated(block: &BlockView<'_>) -> bool
    ensures { result ≡ dao_is_rated block.now.header.dao }
{
    let dao = block.header().dao();
    0 < read_u64(dao, 0) && 0 < read_u64(dao, 8)
}

/// G5: it has a transaction, and its transaction hashes are distinct.
fn has_transactions(alloc: Global, block: &BlockView<'_>) -> Result<bool, NoMemory>
    ensures { IfOk result (λ holds. holds ≡ rules.has_transactions block.now) }
{
    let count = block.transactions_count();
    let mut seen: HashSet<[u8; 32]> = HashSet::new(alloc);
    'later: for i in (0..count).rev() {
        let hash = transaction_hash(&block.transactions_item(i));
        if !seen.insert(hash)? {
            return Ok(false);
        }
    }
    Ok(0 < count)
}

fn pairs_data(transaction: &TxView<'_>) -> bool
    ensures { result ≡ cells.pairs_data transaction.now }
{
    let raw = transaction.raw();
    raw.outputs_data_count() == raw.outputs_count()
}

/// G6: each transaction has as many data as outputs.
fn all_pair_data(block: &BlockView<'_>) -> bool
    ensures { result ≡ rules.all_pair_data block.now }
{
    'transactions: for i in 0..block.transactions_count() {
        if !pairs_data(&block.transactions_item(i)) {
            return false;
        }
    }
    true
}

fn holds_its_own(output: &OutputView<'_>, content: &[u8]) -> bool
    requires { length content.now < 2 ^ 32 }
    ensures { result ≡ cells.holds_its_own output.now content.now }
{
    occupied_output(output, content) <= output.capacity()
}

/// The data of an output, or none where it is missing.
fn content<'a>(raw: &RawTxView<'a>, i: usize) -> &'a [u8]
    ensures value { result.now ≡ unwrap_or (slice_get raw.now.outputs_data i) [] }
    ensures fits { length result.now < 2 ^ 32 }
{
    if i < raw.outputs_data_count() {
        raw.outputs_data_item(i)
    } else {
        &[]
    }
}

fn outputs_hold_their_own(transaction: &TxView<'_>) -> bool
    ensures { result ≡ cells.outputs_hold_their_own transaction.now }
{
    let raw = transaction.raw();
    'outputs: for i in 0..raw.outputs_count() {
        if !holds_its_own(&raw.outputs_item(i), content(&raw, i)) {
            return false;
        }
    }
    true
}

/// G7: each output holds what it occupies with its data.
fn all_hold_capacity(block: &BlockView<'_>) -> bool
    ensures { result ≡ rules.all_hold_capacity block.now }
{
    'transactions: for i in 0..block.transactions_count() {
        if !outputs_hold_their_own(&block.transactions_item(i)) {
            return false;
        }
    }
    true
}

/// The first of G2 to G7 that a block breaks as the genesis of a store (docs/RULES.md, "The genesis"). Bytes that are no
/// block break G1.
#[tactic(auto, unfolding(chain_defs::specs::First::first_failing))]
pub fn judge_genesis(alloc: Global, block: &BlockView<'_>) -> Result<Option<u8>, NoMemory>
    ensures { IfOk result (λ broken. broken ≡ rules.broken_by (Some block.now)) }
{
    if !is_first(block) {
        return Ok(Some(2));
    }
    if !has_no_uncles_or_proposals(block) {
        return Ok(Some(3));
    }
    if !is_rated(block) {
        return Ok(Some(4));
    }
    if !has_transactions(alloc, block)? {
        return Ok(Some(5));
    }
    if !all_pair_data(block) {
        return Ok(Some(6));
    }
    if !all_hold_capacity(block) {
        return Ok(Some(7));
    }
    Ok(None)
}
