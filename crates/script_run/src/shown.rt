// A transaction as its scripts are shown it.
ghost use Rattle.std.specs.Prelude.{◌≡◌, ◌<◌, Some, None, Err, IfOk, IfErr, IfSome, length, slice_get};
ghost use Rattle.outside.specs.declared.disk.Area.TheVariants.{Log};
ghost use Rattle.outside.specs.declared.disk.ReadStop.TheVariants.{Damaged, NoMemory as no_memory};
ghost use Rattle.script_run.specs.Fitting as fitting;
ghost use Rattle.script_run.specs.Shown.{output_rows};

use crate::fitting::unfit;
use cell_state::{CellMeta, ResolvedTx, data_at, meta_of};
use chain_tree::Tree;
use mol_schema::{OutputView, TxView};
use outside::{Area, Damage, NoMemory, ReadStop};
use std::alloc::Global;
use std::marker::Model;

/// A transaction with what it resolves to, which fits, the rows of its outputs, so that each is hashed once, how many
/// blocks an epoch has, how many are kept, and whether code is found by the second edition.
#[derive(Drop)]
pub(crate) struct ShownTx<'a> {
    pub(crate) it: &'a ResolvedTx<'a>,
    pub(crate) outputs: Vec<CellMeta>,
    pub(crate) epoch_length: u32,
    pub(crate) kept: u32,
    pub(crate) second: bool,
}

impl<'a> Model for ShownTx<'a> {
    ghost use Rattle.std.specs.Prelude.{◌≡◌, ◌^◌, ◌<◌, length};
    ghost use Rattle.script_run.specs.Fitting.{Fits};
    ghost use Rattle.script_run.specs.Shown.{ShownTxValue, output_rows};

    ghost Value = { ShownTxValue };

    ghost view = { λ shown. record { it = shown.it.now; rows = shown.outputs.items; epoch_length = shown.epoch_length; kept = shown.kept; second = shown.second } };

    ghost invariant = { λ shown. (shown.outputs.items ≡ output_rows shown.it.now.tx) × Fits shown.kept shown.it.now × (length shown.it.now.inputs < 2 ^ 32) };
}

impl<'a> ShownTx<'a> {
    /// Damaged where what it resolves to does not fit, which is found before memory is asked for.
    pub(crate) fn of(
        alloc: Global,
        it: &'a ResolvedTx<'a>,
        tree: &Tree,
        epoch_length: u32,
        second: bool,
    ) -> Result<ShownTx<'a>, ReadStop>
        ensures unfit { IfSome (fitting.unfit tree.now.entries it.now) (λ at. result ≡ Err (Damaged (record { area = Log; at = at }))) }
        ensures fit { fitting.unfit tree.now.entries it.now ≡ None → IfErr result (λ stop. stop ≡ no_memory) }
        ensures it { IfOk result (λ shown. shown.it ≡ it.now) }
        ensures epoch_length { IfOk result (λ shown. shown.epoch_length ≡ epoch_length) }
        ensures second { IfOk result (λ shown. shown.second ≡ second) }
        ensures kept { IfOk result (λ shown. shown.kept ≡ length tree.now.entries) }
    {
        if let Some(at) = unfit(it, tree) {
            return Err(ReadStop::Damaged(Damage {
                area: Area::Log,
                at,
            }));
        }
        let Ok(outputs) = rows_of(alloc, &it.tx) else {
            return Err(ReadStop::NoMemory);
        };
        Ok(ShownTx {
            it,
            outputs,
            epoch_length,
            kept: tree.len(),
            second,
        })
    }
}

/// The row of each output of a transaction.
fn rows_of(alloc: Global, tx: &TxView<'_>) -> Result<Vec<CellMeta>, NoMemory>
    ensures { IfOk result (λ rows. rows.items ≡ output_rows tx.now) }
{
    let mut rows = Vec::new(alloc);
    'outputs: for i in 0..tx.raw().outputs_count() {
        rows.push(meta_of(0, 0, &output_at(tx, i), data_at(tx, i)))?;
    }
    Ok(rows)
}

/// The output at a place of a transaction.
pub(crate) fn output_at<'a>(tx: &TxView<'a>, i: usize) -> OutputView<'a>
    requires { i < length tx.now.raw.outputs }
    ensures { slice_get tx.now.raw.outputs i ≡ Some result }
{
    tx.raw().outputs_item(i)
}
