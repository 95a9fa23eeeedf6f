// J25: the cells that are made.
ghost use Rattle.std.specs.Prelude.{◌≡◌, ◌^◌, ◌<◌, length, is_some};
ghost use Rattle.chain_defs.specs.Schema.{OutPoint};
ghost use Rattle.chain_defs.specs.Cell as cell_rules;
ghost use Rattle.chain_defs.specs.Hashes.{transaction_hash};
ghost use Rattle.rule_defs.specs.Site.{Site};
ghost use Rattle.rule_defs.specs.Capacity as rules;

use cell_state::{Cells, data_at, is_none_live};
use mol_schema::{OutputView, TxView};
use view_hashes::occupied;

/// Whether an output with its data holds what it occupies.
fn holds_its_own(output: &OutputView<'_>, content: &[u8]) -> bool
    requires { length content.now < 2 ^ 32 }
    ensures { result ≡ cell_rules.holds_its_own output.now content.now }
{
    let type_args = match output.type_script() {
        None => None,
        Some(script) => Some(script.args().len() as u32),
    };
    let lock_args = output.lock().args().len() as u32;
    occupied(lock_args, type_args, content.len() as u32) <= output.capacity()
}

/// Whether each output of a transaction holds what it occupies.
fn outputs_hold_their_own(tx: &TxView<'_>) -> bool
    ensures { result ≡ cell_rules.outputs_hold_their_own tx.now }
{
    let raw = tx.raw();
    'outputs: for i in 0..raw.outputs_count() {
        if !holds_its_own(&raw.outputs_item(i), data_at(tx, i)) {
            return false;
        }
    }
    true
}

/// J25: each output holds what it occupies, and none of their out-points is live. The transaction comes with its hash.
pub(crate) fn makes_good_cells<C: Cells>(tx: &TxView<'_>, hash: [u8; 32], cells: &C) -> bool
    requires { hash ≡ transaction_hash tx.now }
    ensures { (site : Site) → ((o : OutPoint) → is_some (C.rows cells.now o) ≡ is_some (site.cell o)) → result ≡ rules.makes_good_cells site tx.now }
{
    outputs_hold_their_own(tx) && is_none_live(hash, tx.raw().outputs_count(), cells)
}
