// J16 and J17: the cellbase of a block.
ghost use Rattle.std.specs.Prelude.{◌≡◌, ◌<◌, ◌^◌, ◌==◌, IfOk, Option, not, drop, is_some, length, map};
ghost use Rattle.std.specs.List.{list_all, list_any};
ghost use Rattle.chain_defs.specs.Schema.{OutPoint as an_out_point};
ghost use Rattle.chain_defs.specs.Cell.{Cell};
ghost use Rattle.chain_defs.specs.Hashes.{transaction_hash, are_distinct};
ghost use Rattle.rule_defs.specs.Cellbase as rules;
ghost use Rattle.block_judge.specs.ByRows.{AgreeOnLive};

use crate::known::{hash_at, hash_of};
use cell_state::{Cells, is_none_live};
use mol_schema::{BlockView, CellbaseWitnessView, OutPointView, RawTxView, TxView};
use outside::NoMemory;
use std::alloc::Global;
use std::collections::HashSet;

/// The index in the out-point that names no output.
const NULL_INDEX: u32 = 0xffff_ffff;

/// Whether an out-point names no output.
#[tactic(auto, unfolding(rule_defs::specs::Cellbase::null_index))]
fn is_null(o: &OutPointView<'_>) -> bool
    ensures { result ≡ rules.is_null o.now }
{
    o.tx_hash() == [0u8; 32].as_slice() && o.index() == NULL_INDEX
}

/// Whether a transaction has exactly one input, which names no output.
pub fn is_cellbase(tx: &TxView<'_>) -> bool
    ensures { result ≡ rules.is_cellbase tx.now }
{
    let raw = tx.raw();
    if raw.inputs_count() != 1 {
        return false;
    }
    is_null(&raw.inputs_item(0).previous_output())
}

/// Whether a transaction after the first is a cellbase.
fn has_later_cellbase(block: &BlockView<'_>) -> bool
    ensures { result ≡ list_any rules.is_cellbase (drop 1 block.now.transactions) }
{
    'later: for i in 1..block.transactions_count() {
        if is_cellbase(&block.transactions_item(i)) {
            return true;
        }
    }
    false
}

/// Whether no two hashes are equal.
fn are_hashes_distinct(alloc: Global, hashes: &[[u8; 32]]) -> Result<bool, NoMemory>
    ensures { IfOk result (λ distinct. distinct ≡ are_distinct hashes.now) }
{
    let mut seen: HashSet<[u8; 32]> = HashSet::new(alloc);
    'later: for i in (0..hashes.len()).rev() {
        if !seen.insert(hash_at(hashes, i))? {
            return Ok(false);
        }
    }
    Ok(true)
}

/// J16: the first transaction is a cellbase, no other is one, and the hashes of the transactions are distinct.
pub(crate) fn has_cellbase(
    alloc: Global,
    block: &BlockView<'_>,
    hashes: &[[u8; 32]],
) -> Result<bool, NoMemory>
    requires hashes { hashes.now ≡ map transaction_hash block.now.transactions }
    ensures { IfOk result (λ has. has ≡ rules.has_cellbase block.now) }
{
    if block.transactions_count() == 0 {
        return Ok(false);
    }
    if !is_cellbase(&block.transactions_item(0)) || has_later_cellbase(block) {
        return Ok(false);
    }
    are_hashes_distinct(alloc, hashes)
}

/// Whether each input has the block's number as its since.
fn has_sinces(raw: &RawTxView<'_>, number: u64) -> bool
    ensures { result ≡ list_all (rules.has_since number) raw.now.inputs }
{
    'inputs: for i in 0..raw.inputs_count() {
        if raw.inputs_item(i).since() != number {
            return false;
        }
    }
    true
}

/// Whether no output has a type script.
fn has_no_types(raw: &RawTxView<'_>) -> bool
    ensures { result ≡ list_all (λ output. not (is_some output.type_script)) raw.now.outputs }
{
    'outputs: for i in 0..raw.outputs_count() {
        if raw.outputs_item(i).type_script().is_some() {
            return false;
        }
    }
    true
}

/// Whether no output has data.
fn has_no_data(raw: &RawTxView<'_>) -> bool
    ensures { result ≡ list_all (λ content. length content == 0) raw.now.outputs_data }
{
    'data: for i in 0..raw.outputs_data_count() {
        if !raw.outputs_data_item(i).is_empty() {
            return false;
        }
    }
    true
}

/// Whether a transaction has at most one output, with no type script and no data.
fn has_plain_output(tx: &TxView<'_>) -> bool
    ensures { result ≡ rules.has_plain_output tx.now }
{
    let raw = tx.raw();
    let outputs = raw.outputs_count();
    outputs <= 1 && raw.outputs_data_count() == outputs && has_no_types(&raw) && has_no_data(&raw)
}

/// Whether the first witness is a canonical `CellbaseWitness`.
fn names_lock(tx: &TxView<'_>) -> bool
    ensures { result ≡ rules.names_lock tx.now }
{
    if tx.witnesses_count() == 0 {
        return false;
    }
    CellbaseWitnessView::read(tx.witnesses_item(0)).is_some()
}

/// Whether a transaction of this hash has the form of the cellbase of a block of this number, over the live cells of
/// the branch.
fn is_well_formed<C: Cells>(cells: &C, number: u64, tx: &TxView<'_>, hash: [u8; 32]) -> bool
    requires { hash ≡ transaction_hash tx.now }
    ensures { (live : an_out_point → Option Cell) → AgreeOnLive (C.rows cells.now) live
        → result ≡ rules.is_well_formed_cellbase live number tx.now }
{
    let raw = tx.raw();
    if raw.version() != 0 || raw.cell_deps_count() != 0 || raw.header_deps_count() != 0 {
        return false;
    }
    if !has_sinces(&raw, number) || !has_plain_output(tx) {
        return false;
    }
    is_none_live(hash, raw.outputs_count(), cells) && names_lock(tx)
}

/// J17: the cellbase has its form, over the live cells of the branch.
pub(crate) fn forms_cellbase<C: Cells>(
    cells: &C,
    block: &BlockView<'_>,
    hashes: &[[u8; 32]],
) -> bool
    requires hashes { hashes.now ≡ map transaction_hash block.now.transactions }
    ensures { (live : an_out_point → Option Cell) → AgreeOnLive (C.rows cells.now) live
        → result ≡ rules.forms_cellbase live block.now }
{
    if block.transactions_count() == 0 {
        return false;
    }
    let cellbase = block.transactions_item(0);
    let hash = hash_of(block, hashes, &cellbase, 0);
    is_well_formed(cells, block.header().number(), &cellbase, hash)
}
