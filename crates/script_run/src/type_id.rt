// TYPE_ID, a script that is a rule (RFC 0022, "Type ID").
ghost use Rattle.std.specs.Prelude.{◌≡◌, slice_get, Some, ◌<◌};
ghost use Rattle.verdict_defs.specs.Codes as codes;
ghost use Rattle.verdict_defs.specs.Scene.{Scene};
ghost use Rattle.verdict_defs.specs.TypeId as defs;

use crate::groups::Group;
use crate::items::input_at;
use blake2b_ckb::Hasher;
use mol_schema::{ScriptView, TxView};

/// Its cycles, which are taken before it is judged.
pub(crate) const TYPE_ID_CYCLES: u64 = 1_000_000;

/// 25 zero bytes and the letters TYPE_ID in ASCII.
const TYPE_ID_CODE_HASH: [u8; 32] = [
    0, 0, 0, 0, 0, 0, 0, 0, 0, 0, 0, 0, 0, 0, 0, 0, 0, 0, 0, 0, 0, 0, 0, 0, 0, 0x54, 0x59, 0x50,
    0x45, 0x5f, 0x49, 0x44,
];

const BY_TYPE: u8 = 1;

/// The exit codes of a TYPE_ID that is refused.
const NO_HASH: i8 = -1;

const MANY_CELLS: i8 = -2;

const OTHER_ARGS: i8 = -3;

#[tactic(auto, unfolding(verdict_defs::specs::Codes::type_id_code_hash))]
pub(crate) fn is_type_id(script: &ScriptView<'_>) -> bool
    ensures { result ≡ codes.is_type_id script.now }
{
    script.hash_type() == BY_TYPE && script.code_hash() == TYPE_ID_CODE_HASH.as_slice()
}

/// The bytes of the first input: none where there is none.
fn first_input<'a>(tx: &TxView<'a>) -> &'a [u8]
    ensures { result.now ≡ defs.input_bytes (slice_get tx.now.raw.inputs 0) }
{
    match input_at(tx, 0) {
        Some(input) => input.bytes(),
        None => &[],
    }
}

/// The args that the output at a place is given.
#[tactic(auto, unfolding(verdict_defs::specs::TypeId::new_type_id))]
fn new_type_id(tx: &TxView<'_>, place: u32) -> [u8; 32]
    ensures { (scene : Scene) → scene.transaction ≡ tx.now → result ≡ defs.new_type_id scene place }
{
    let mut hasher = Hasher::new();
    hasher.update(first_input(tx));
    hasher.update(&u64::from(place).to_le_bytes());
    hasher.finalize()
}

/// Whether the args are those of each output of the group.
fn is_new(tx: &TxView<'_>, group: &Group<'_>) -> bool
    ensures { (scene : Scene) → scene.transaction ≡ tx.now → result ≡ defs.is_new scene group.now.group }
{
    'outputs: for i in 0..group.outputs.len() {
        if group.script.args() != new_type_id(tx, group.outputs[i]).as_slice() {
            return false;
        }
    }
    true
}

/// The code with which it exits.
#[tactic(auto, unfolding(verdict_defs::specs::TypeId::type_id_exit))]
pub(crate) fn type_id_exit(tx: &TxView<'_>, group: &Group<'_>) -> i8
    ensures { (scene : Scene) → scene.transaction ≡ tx.now → result ≡ defs.type_id_exit scene group.now.group }
{
    if group.script.args().len() != 32 {
        return NO_HASH;
    }
    if group.inputs.len() > 1 || group.outputs.len() > 1 {
        return MANY_CELLS;
    }
    if group.inputs.is_empty() && !is_new(tx, group) {
        return OTHER_ARGS;
    }
    0
}
