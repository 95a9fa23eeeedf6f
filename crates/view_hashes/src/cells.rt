// The hashes of scripts and data, and what an output occupies.
ghost use Rattle.std.specs.Prelude.{◌≡◌, ◌^◌, ◌<◌, length};
ghost use Rattle.chain_defs.specs.Dao.{occupied_capacity};
ghost use Rattle.chain_defs.specs.Cell as cells;

use blake2b_ckb::ckbhash;
use mol_schema::{OutputView, ScriptView};

/// The hash of a script (RFC 0022).
#[tactic(auto, unfolding(chain_defs::specs::Cell::script_hash))]
pub fn script_hash(script: &ScriptView<'_>) -> [u8; 32]
    ensures { result ≡ cells.script_hash script.now }
{
    ckbhash(script.bytes())
}

/// The hash of a cell's data; 32 zero bytes where the data is empty (RFC 0022).
#[tactic(auto, unfolding(chain_defs::specs::Cell::data_hash))]
pub fn data_hash(content: &[u8]) -> [u8; 32]
    ensures { result ≡ cells.data_hash content.now }
{
    if content.is_empty() {
        [0; 32]
    } else {
        ckbhash(content)
    }
}

/// What an output occupies, in shannons, by the lengths of its lock's args, of its type script's args, where there is
/// one, and of its data (RFC 0022): 10^8 shannons a byte.
pub fn occupied(lock_args: u32, type_args: Option<u32>, content: u32) -> u64
    ensures { result ≡ occupied_capacity lock_args type_args content }
{
    let by_type = match type_args {
        None => 0,
        Some(args) => 33 + u64::from(args),
    };
    (8 + 33 + u64::from(lock_args) + by_type + u64::from(content)) * 100_000_000
}

/// What an output occupies with its data, in shannons.
pub fn occupied_output(output: &OutputView<'_>, content: &[u8]) -> u64
    requires { length content.now < 2 ^ 32 }
    ensures { result ≡ cells.occupied_by output.now content.now }
{
    let type_args = match output.type_script() {
        None => None,
        Some(script) => Some(script.args().len() as u32),
    };
    occupied(
        output.lock().args().len() as u32,
        type_args,
        content.len() as u32,
    )
}
