// What the outputs of transactions hold and occupy.
ghost use Rattle.std.specs.Prelude.{◌≡◌, ◌<◌, ◌^◌, length};
ghost use Rattle.chain_defs.specs.Cell.{occupied_by};
ghost use Rattle.rule_defs.specs.Capacity as capacity;
ghost use Rattle.rule_defs.specs.Field as field;
ghost use Rattle.supply_defs.specs.Step as steps;

use cell_state::data_at;
use mol_schema::{BlockView, OutputView, TxView};
use view_hashes::occupied_output;

/// What the outputs of a transaction occupy, in shannons. It has below 2^30 of them.
pub(crate) fn made_by(tx: &TxView<'_>) -> u128
    ensures made { result ≡ field.made_by tx.now }
    ensures fits { result < 2 ^ 94 }
{
    let raw = tx.raw();
    let mut made: u128 = 0;
    'outputs: for i in 0..raw.outputs_count() {
        made += u128::from(occupied_output(&raw.outputs_item(i), data_at(tx, i)));
    }
    made
}

/// What they hold, in shannons.
pub(crate) fn held_out(tx: &TxView<'_>) -> u128
    ensures held { result ≡ capacity.held_out tx.now }
    ensures fits { result < 2 ^ 94 }
{
    let raw = tx.raw();
    let mut held: u128 = 0;
    'outputs: for i in 0..raw.outputs_count() {
        held += u128::from(raw.outputs_item(i).capacity());
    }
    held
}

/// What the cellbase of a block pays, in shannons.
pub(crate) fn paid_by(block: &BlockView<'_>) -> u128
    ensures paid { result ≡ steps.paid_by block.now }
    ensures fits { result < 2 ^ 94 }
{
    if block.transactions_count() == 0 {
        return 0;
    }
    held_out(&block.transactions_item(0))
}
