// J18: what a transaction is by itself. Who makes it picks what it names, so that is sorted and not hashed.
ghost use Rattle.std.specs.Prelude.{◌≡◌, ◌<◌, ◌&&◌, ◌==◌, nat_lt, IfOk, Some, length, map, slice_get};
ghost use Rattle.chain_defs.specs.Shape.{encoded};
ghost use Rattle.chain_defs.specs.Schema.{cell_dep};
ghost use Rattle.chain_defs.specs.Hashes.{are_distinct};
ghost use Rattle.rule_defs.specs.TransactionRules as rules;

use crate::arrays::array_of;
use mol_schema::TxView;
use outside::NoMemory;
use std::alloc::Global;

/// The bytes of a cell dep.
fn dep_at(tx: &TxView<'_>, i: usize) -> [u8; 37]
    requires { i < length tx.now.raw.cell_deps }
    ensures { slice_get (map (encoded cell_dep) tx.now.raw.cell_deps) i ≡ Some result }
{
    array_of(tx.raw().cell_deps_item(i).bytes())
}

/// The bytes of the cell deps, in their order.
fn deps_of(alloc: Global, tx: &TxView<'_>) -> Result<Vec<[u8; 37]>, NoMemory>
    ensures { IfOk result (λ deps. deps.items ≡ map (encoded cell_dep) tx.now.raw.cell_deps) }
{
    let mut deps = Vec::with_capacity(alloc, tx.raw().cell_deps_count())?;
    'deps: for i in 0..tx.raw().cell_deps_count() {
        deps.push(dep_at(tx, i))?;
    }
    Ok(deps)
}

/// Whether no two cell deps are equal, by all their bytes.
fn are_deps_distinct(alloc: Global, tx: &TxView<'_>) -> Result<bool, NoMemory>
    ensures { IfOk result (λ distinct. distinct ≡ are_distinct (map (encoded cell_dep) tx.now.raw.cell_deps)) }
{
    let mut deps = deps_of(alloc, tx)?;
    Ok(sorted_keys::are_distinct(&mut deps))
}

/// The header dep at a place.
pub(crate) fn header_dep_at(tx: &TxView<'_>, i: usize) -> [u8; 32]
    requires { i < length tx.now.raw.header_deps }
    ensures { slice_get tx.now.raw.header_deps i ≡ Some result }
{
    array_of(tx.raw().header_deps_item(i))
}

/// The header deps, in their order.
fn header_deps_of(alloc: Global, tx: &TxView<'_>) -> Result<Vec<[u8; 32]>, NoMemory>
    ensures { IfOk result (λ deps. deps.items ≡ tx.now.raw.header_deps) }
{
    let mut deps = Vec::with_capacity(alloc, tx.raw().header_deps_count())?;
    'deps: for i in 0..tx.raw().header_deps_count() {
        deps.push(header_dep_at(tx, i))?;
    }
    Ok(deps)
}

/// Whether no two header deps are equal.
fn are_header_deps_distinct(alloc: Global, tx: &TxView<'_>) -> Result<bool, NoMemory>
    ensures { IfOk result (λ distinct. distinct ≡ are_distinct tx.now.raw.header_deps) }
{
    let mut deps = header_deps_of(alloc, tx)?;
    Ok(sorted_keys::are_distinct(&mut deps))
}

/// Whether it has version 0, an input, an output, and as many data as outputs.
fn has_parts(tx: &TxView<'_>) -> bool
    ensures { result ≡ ((tx.now.raw.version == 0) && nat_lt 0 (length tx.now.raw.inputs) && nat_lt 0 (length tx.now.raw.outputs)
        && (length tx.now.raw.outputs_data == length tx.now.raw.outputs)) }
{
    let raw = tx.raw();
    let outputs = raw.outputs_count();
    raw.version() == 0
        && raw.inputs_count() > 0
        && outputs > 0
        && raw.outputs_data_count() == outputs
}

/// J18: it has version 0, an input, an output, as many data as outputs, no two equal cell deps and no two equal header
/// deps.
pub(crate) fn has_form(alloc: Global, tx: &TxView<'_>) -> Result<bool, NoMemory>
    ensures { IfOk result (λ kept. kept ≡ rules.has_form tx.now) }
{
    if !has_parts(tx) {
        return Ok(false);
    }
    match are_deps_distinct(alloc, tx) {
        Ok(true) => are_header_deps_distinct(alloc, tx),
        Ok(false) => Ok(false),
        Err(NoMemory) => Err(NoMemory),
    }
}
