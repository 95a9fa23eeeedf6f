// J20: the cells that are spent.
ghost use Rattle.std.specs.Prelude.{◌≡◌, ◌<◌, IfOk, Some, None, length, map, slice_get};
ghost use Rattle.std.specs.Option.{option_map};
ghost use Rattle.chain_defs.specs.Shape.{encoded};
ghost use Rattle.chain_defs.specs.Schema.{out_point};
ghost use Rattle.rule_defs.specs.Resolving.{spends_each_once};
ghost use Rattle.tx_rules.specs.At as sites;

use crate::arrays::array_of;
use cell_state::{CellMeta, Cells, OutPoint, out_point_of};
use mol_schema::{OutPointView, TxView};
use outside::NoMemory;
use std::alloc::Global;

/// An out-point with its row. None where it has none.
pub(crate) fn find_row<C: Cells>(cells: &C, o: &OutPointView<'_>) -> Option<(OutPoint, CellMeta)>
    ensures { result ≡ sites.find_row (C.rows cells.now) o.now }
{
    let out_point = out_point_of(o);
    match cells.get(&out_point) {
        None => None,
        Some(meta) => Some((out_point, meta)),
    }
}

/// The rows of its inputs, in their order. None where one of them is not live.
pub(crate) fn live_inputs<C: Cells>(
    alloc: Global,
    tx: &TxView<'_>,
    cells: &C,
) -> Result<Option<Vec<(OutPoint, CellMeta)>>, NoMemory>
    ensures { IfOk result (λ found. option_map (λ rows. rows.items) found ≡ sites.named_rows (C.rows cells.now) tx.now) }
{
    let raw = tx.raw();
    let mut found = Vec::new(alloc);
    'inputs: for i in 0..raw.inputs_count() {
        match find_row(cells, &raw.inputs_item(i).previous_output()) {
            None => return Ok(None),
            Some(row) => found.push(row)?,
        }
    }
    Ok(Some(found))
}

/// The bytes of the out-point that an input spends.
fn spent_at(tx: &TxView<'_>, i: usize) -> [u8; 36]
    requires { i < length tx.now.raw.inputs }
    ensures { slice_get (map (λ input. encoded out_point input.previous_output) tx.now.raw.inputs) i ≡ Some result }
{
    array_of(tx.raw().inputs_item(i).previous_output().bytes())
}

/// The out-points that its inputs spend, in their order.
fn spent_by(alloc: Global, tx: &TxView<'_>) -> Result<Vec<[u8; 36]>, NoMemory>
    ensures { IfOk result (λ spent. spent.items ≡ map (λ input. encoded out_point input.previous_output) tx.now.raw.inputs) }
{
    let mut spent = Vec::with_capacity(alloc, tx.raw().inputs_count())?;
    'inputs: for i in 0..tx.raw().inputs_count() {
        spent.push(spent_at(tx, i))?;
    }
    Ok(spent)
}

/// Whether no two of its inputs spend one cell. Who makes the transaction picks what it names, so that is sorted and not
/// hashed.
pub(crate) fn are_inputs_distinct(alloc: Global, tx: &TxView<'_>) -> Result<bool, NoMemory>
    ensures { IfOk result (λ distinct. distinct ≡ spends_each_once tx.now) }
{
    let mut spent = spent_by(alloc, tx)?;
    Ok(sorted_keys::are_distinct(&mut spent))
}
