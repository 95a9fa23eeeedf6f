// The cellbase of the block that is assembled.
ghost use Rattle.std.specs.Prelude.{◌≡◌, ◌<◌, ◌≤◌, ◌^◌, List, [], ◌∷◌, map, length, None, IfOk};
ghost use Rattle.chain_defs.specs.Shape.{IsEncoding, encoded, bytes, dynvec};
ghost use Rattle.chain_defs.specs.Schema as schema;
ghost use Rattle.pool_defs.specs.Start.{cellbase_with};

use mol_rows::{
    bytes_row, dynvec_of, fixvec_of, input_row, output_table, raw_table, transaction_table,
};
use mol_schema::{CellbaseWitnessView, ScriptView};
use outside::NoMemory;
use std::alloc::Global;

/// A fixvec of no item.
const NO_ITEMS: [u8; 4] = [0, 0, 0, 0];

/// A dynvec of no item.
const NO_PARTS: [u8; 4] = [4, 0, 0, 0];

/// The index in the out-point that names no output.
const NULL_INDEX: u32 = 0xffff_ffff;

/// More bytes than a lock has: it stands in an item of a run, of at most 2^20 bytes.
const LOCK_BOUND: usize = 1 << 28;

/// The cellbase at a height, by the encodings of its outputs, of their data and of its witness.
fn cellbase_of(
    alloc: Global,
    height: u64,
    outputs: &[u8],
    contents: &[u8],
    witness: &[u8],
) -> Result<Vec<u8>, NoMemory>
    requires outputs { length outputs.now < 2 ^ 29 }
    requires contents { length contents.now ≤ 12 }
    requires witness { length witness.now < 2 ^ 28 }
    ensures cellbase { (list : List schema.CellOutput) (w : schema.CellbaseWitness) → IsEncoding (dynvec schema.cell_output) outputs.now list
        → IsEncoding (dynvec bytes) contents.now (map (λ output. []) list) → IsEncoding schema.cellbase_witness witness.now w
        → IfOk result (λ bytes. IsEncoding schema.transaction bytes.items (cellbase_with height list w)) }
    ensures size { IfOk result (λ bytes. length bytes.items < 2 ^ 30) }
{
    let inputs = fixvec_of(alloc, &input_row(alloc, height, &[0; 32], NULL_INDEX)?)?;
    let raw = raw_table(alloc, 0, &NO_ITEMS, &NO_ITEMS, &inputs, outputs, contents)?;
    let witnesses = dynvec_of(alloc, &bytes_row(alloc, witness)?)?;
    transaction_table(alloc, &raw, &witnesses)
}

/// The cellbase at a height that has no output.
pub fn cellbase_alone(
    alloc: Global,
    height: u64,
    witness: &CellbaseWitnessView<'_>,
) -> Result<Vec<u8>, NoMemory>
    requires witness { length (encoded schema.cellbase_witness witness.now) < 2 ^ 28 }
    ensures cellbase { IfOk result (λ bytes. IsEncoding schema.transaction bytes.items (cellbase_with height [] witness.now)) }
    ensures size { IfOk result (λ bytes. length bytes.items < 2 ^ 30) }
{
    cellbase_of(alloc, height, &NO_PARTS, &NO_PARTS, witness.bytes())
}

/// The cellbase at a height that pays so many shannons to a lock.
pub fn cellbase_paying(
    alloc: Global,
    height: u64,
    lock: &ScriptView<'_>,
    capacity: u64,
    witness: &CellbaseWitnessView<'_>,
) -> Result<Vec<u8>, NoMemory>
    requires witness { length (encoded schema.cellbase_witness witness.now) < 2 ^ 28 }
    ensures cellbase { IfOk result (λ bytes. IsEncoding schema.transaction bytes.items
        (cellbase_with height (record { capacity = capacity; lock = lock.now; type_script = None } ∷ []) witness.now)) }
    ensures size { IfOk result (λ bytes. length bytes.items < 2 ^ 30) }
{
    let lock = lock.bytes();
    if lock.len() >= LOCK_BOUND {
        return Err(NoMemory);
    }
    let outputs = dynvec_of(alloc, &output_table(alloc, lock, capacity)?)?;
    let contents = dynvec_of(alloc, &NO_ITEMS)?;
    cellbase_of(alloc, height, &outputs, &contents, witness.bytes())
}
