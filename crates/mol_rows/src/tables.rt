// Tables and vectors, by the encodings of their parts.
ghost use Rattle.std.specs.Prelude.{◌≡◌, ◌+◌, ◌^◌, ◌<◌, List, [], ◌∷◌, ℕ, length, None, IfOk, OnOk, ◌++◌};
ghost use Rattle.chain_defs.specs.Molecule as molecule;
ghost use Rattle.chain_defs.specs.Shape as shape;
ghost use Rattle.chain_defs.specs.Shape.{encoded};
ghost use Rattle.chain_defs.specs.Schema as schema;
ghost use Rattle.mol_rows.specs.Rows.{HasLists, HasParts, BlockHasParts};

use crate::rows::bytes_row;
use mol_write::Builder;
use outside::NoMemory;
use std::alloc::Global;

/// The fixvec of one item.
#[tactic(auto, using(crate::proofs::Sizes::fixvec_of_one))]
pub fn fixvec_of(alloc: Global, item: &[u8]) -> Result<Vec<u8>, NoMemory>
    requires { length item.now < 2 ^ 30 }
    ensures bytes { IfOk result (λ bytes. bytes.items ≡ molecule.fixvec (item.now ∷ [])) }
    ensures size { IfOk result (λ bytes. length bytes.items ≡ 4 + length item.now) }
{
    let mut bytes = Vec::with_capacity(alloc, 4 + item.len())?;
    bytes.extend_from_slice(&1u32.to_le_bytes())?;
    bytes.extend_from_slice(item)?;
    Ok(bytes)
}

/// The dynvec of one item.
#[tactic(auto, using(crate::proofs::Sizes::length_of_dynvec))]
pub fn dynvec_of(alloc: Global, item: &[u8]) -> Result<Vec<u8>, NoMemory>
    requires { length item.now < 2 ^ 30 }
    ensures bytes { IfOk result (λ bytes. bytes.items ≡ molecule.dynvec (item.now ∷ [])) }
    ensures size { IfOk result (λ bytes. length bytes.items ≡ 8 + length item.now) }
{
    let mut items = Builder::new(alloc);
    items.push(item)?;
    items.dynvec()
}

/// The dynvec of two items.
#[tactic(auto, using(crate::proofs::Sizes::length_of_dynvec))]
pub fn dynvec_of_two(alloc: Global, first: &[u8], second: &[u8]) -> Result<Vec<u8>, NoMemory>
    requires first { length first.now < 2 ^ 20 }
    requires second { length second.now < 2 ^ 20 }
    ensures bytes { IfOk result (λ bytes. bytes.items ≡ molecule.dynvec (first.now ∷ second.now ∷ [])) }
    ensures size { IfOk result (λ bytes. length bytes.items ≡ 12 + length first.now + length second.now) }
{
    let mut items = Builder::new(alloc);
    items.push(first)?;
    items.push(second)?;
    items.dynvec()
}

/// A script, by its args.
#[tactic(auto, unfolding(chain_defs::specs::Schema::script), using(crate::proofs::Sizes::length_of_table))]
pub fn script_table(
    alloc: Global,
    code_hash: &[u8; 32],
    hash_type: u8,
    args: &[u8],
) -> Result<Vec<u8>, NoMemory>
    requires { length args.now < 2 ^ 20 }
    ensures bytes { IfOk result (λ bytes. bytes.items
        ≡ encoded schema.script (record { code_hash = code_hash.now; hash_type = hash_type; args = args.now })) }
    ensures size { IfOk result (λ bytes. length bytes.items ≡ 53 + length args.now) }
{
    let args = bytes_row(alloc, args)?;
    let mut fields = Builder::new(alloc);
    fields.push(code_hash)?;
    fields.push(&[hash_type])?;
    fields.push(&args)?;
    fields.table()
}

/// An output with no type script, by the encoding of its lock.
#[tactic(auto, unfolding(chain_defs::specs::Schema::cell_output), using(crate::proofs::Sizes::length_of_table))]
pub fn output_table(alloc: Global, lock: &[u8], capacity: u64) -> Result<Vec<u8>, NoMemory>
    requires { length lock.now < 2 ^ 30 }
    ensures bytes { (script : schema.Script) → lock.now ≡ encoded schema.script script → IfOk result (λ bytes. bytes.items
        ≡ encoded schema.cell_output (record { capacity = capacity; lock = script; type_script = None })) }
    ensures size { IfOk result (λ bytes. length bytes.items ≡ 24 + length lock.now) }
{
    let mut fields = Builder::new(alloc);
    fields.push(&capacity.to_le_bytes())?;
    fields.push(lock)?;
    fields.push(&[])?;
    fields.table()
}

/// A raw transaction, by the encodings of its lists.
#[tactic(auto, unfolding(chain_defs::specs::Schema::raw_transaction), using(crate::proofs::Sizes::length_of_table))]
pub fn raw_table(
    alloc: Global,
    version: u32,
    cell_deps: &[u8],
    header_deps: &[u8],
    inputs: &[u8],
    outputs: &[u8],
    outputs_data: &[u8],
) -> Result<Vec<u8>, NoMemory>
    requires cell_deps { length cell_deps.now < 2 ^ 29 }
    requires header_deps { length header_deps.now < 2 ^ 29 }
    requires inputs { length inputs.now < 2 ^ 29 }
    requires outputs { length outputs.now < 2 ^ 29 }
    requires outputs_data { length outputs_data.now < 2 ^ 29 }
    ensures bytes { (t : schema.RawTransaction) → version ≡ t.version → HasLists t cell_deps.now header_deps.now inputs.now outputs.now outputs_data.now
        → IfOk result (λ bytes. bytes.items ≡ encoded schema.raw_transaction t) }
    ensures size { IfOk result (λ bytes. length bytes.items
        ≡ 32 + length cell_deps.now + length header_deps.now + length inputs.now + length outputs.now + length outputs_data.now) }
{
    let mut fields = Builder::new(alloc);
    push_three(&mut fields, &version.to_le_bytes(), cell_deps, header_deps)?;
    push_three(&mut fields, inputs, outputs, outputs_data)?;
    fields.table()
}

/// A transaction, by the encodings of its raw part and of its witnesses.
#[tactic(auto, unfolding(chain_defs::specs::Schema::transaction), using(crate::proofs::Sizes::length_of_table))]
pub fn transaction_table(alloc: Global, raw: &[u8], witnesses: &[u8]) -> Result<Vec<u8>, NoMemory>
    requires raw { length raw.now < 2 ^ 31 }
    requires witnesses { length witnesses.now < 2 ^ 30 }
    ensures bytes { (t : schema.Transaction) → HasParts t raw.now witnesses.now → IfOk result (λ bytes. bytes.items ≡ encoded schema.transaction t) }
    ensures size { IfOk result (λ bytes. length bytes.items ≡ 12 + length raw.now + length witnesses.now) }
{
    let mut fields = Builder::new(alloc);
    fields.push(raw)?;
    fields.push(witnesses)?;
    fields.table()
}

/// The witness of a cellbase, by the encoding of its lock, and its message.
#[tactic(auto, unfolding(chain_defs::specs::Schema::cellbase_witness), using(crate::proofs::Sizes::length_of_table))]
pub fn cellbase_witness_table(
    alloc: Global,
    lock: &[u8],
    message: &[u8],
) -> Result<Vec<u8>, NoMemory>
    requires lock { length lock.now < 2 ^ 20 }
    requires message { length message.now < 2 ^ 20 }
    ensures bytes { (script : schema.Script) → lock.now ≡ encoded schema.script script → IfOk result (λ bytes. bytes.items
        ≡ encoded schema.cellbase_witness (record { lock = script; message = message.now })) }
    ensures size { IfOk result (λ bytes. length bytes.items ≡ 16 + length lock.now + length message.now) }
{
    let message = bytes_row(alloc, message)?;
    let mut fields = Builder::new(alloc);
    fields.push(lock)?;
    fields.push(&message)?;
    fields.table()
}

/// A block, by the encodings of its header and of its lists.
#[tactic(auto, unfolding(chain_defs::specs::Schema::block), using(crate::proofs::Sizes::length_of_table))]
pub fn block_table(
    alloc: Global,
    header: &[u8; 208],
    uncles: &[u8],
    transactions: &[u8],
    proposals: &[u8],
) -> Result<Vec<u8>, NoMemory>
    requires uncles { length uncles.now < 2 ^ 20 }
    requires transactions { length transactions.now < 2 ^ 24 }
    requires proposals { length proposals.now < 2 ^ 20 }
    ensures bytes { (b : schema.Block) → BlockHasParts b header.now uncles.now transactions.now proposals.now
        → IfOk result (λ bytes. bytes.items ≡ encoded schema.block b) }
{
    let mut fields = Builder::new(alloc);
    fields.push(header)?;
    fields.push(uncles)?;
    fields.push(transactions)?;
    fields.push(proposals)?;
    fields.table()
}

/// Appends three fields to the others.
fn push_three(
    fields: &mut Builder,
    first: &[u8],
    second: &[u8],
    third: &[u8],
) -> Result<(), NoMemory>
    requires { molecule.full_size fields.old + 12 + length first.now + length second.now + length third.now < 2 ^ 32 }
    ensures ok { OnOk result (fields.new ≡ fields.old ++ first.now ∷ second.now ∷ third.now ∷ []) }
    ensures size { OnOk result (molecule.full_size fields.new ≡ molecule.full_size fields.old + 12 + length first.now + length second.now + length third.now) }
{
    fields.push(first)?;
    fields.push(second)?;
    fields.push(third)?;
    Ok(())
}
