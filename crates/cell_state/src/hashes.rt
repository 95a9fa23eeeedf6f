// The hashes of scripts, data and transactions, what an output occupies, and the row of an output.
ghost use Rattle.std.specs.Prelude.{◌≡◌, ◌^◌, ◌<◌, length, take, ℕ};
ghost use Rattle.chain_defs.specs.Dao.{occupied_capacity};
ghost use Rattle.chain_defs.specs.Hashes.{transaction_hash};
ghost use Rattle.chain_defs.specs.Cell as cells;
ghost use Rattle.chain_defs.specs.Row.{row_of};

use crate::cells::CellMeta;
use mol_schema::{OutputView, ScriptView, TxView};
use view_hashes::{data_hash, occupied, script_hash};

/// The row of an output with its data, of the transaction at a place in the block at a place.
pub fn meta_of(e: u32, tx: u32, output: &OutputView<'_>, content: &[u8]) -> CellMeta
    requires { length content.now < 2 ^ 32 }
    ensures { (height : ℕ) → result ≡ row_of e (record { output = output.now; content = content.now; height = height; transaction = tx }) }
{
    meta_with(e, tx, output, content, script_hash(&output.lock()))
}

/// The same, where the hash of the output's lock is known.
pub fn meta_with(
    e: u32,
    tx: u32,
    output: &OutputView<'_>,
    content: &[u8],
    lock_hash: [u8; 32],
) -> CellMeta
    requires fits { length content.now < 2 ^ 32 }
    requires lock { lock_hash ≡ cells.script_hash output.now.lock }
    ensures { (height : ℕ) → result ≡ row_of e (record { output = output.now; content = content.now; height = height; transaction = tx }) }
{
    let lock = output.lock();
    let type_script = output.type_script();
    let type_args = match &type_script {
        None => None,
        Some(script) => Some(script.args().len() as u32),
    };
    let type_hash = match &type_script {
        None => None,
        Some(script) => Some(script_hash(script)),
    };
    CellMeta {
        block: e,
        tx,
        capacity: output.capacity(),
        occupied: occupied(lock.args().len() as u32, type_args, content.len() as u32),
        lock_hash,
        type_hash,
        data_hash: data_hash(content),
        data_len: content.len() as u32,
    }
}
