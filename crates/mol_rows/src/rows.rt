// Rows of one size, and bytes.
ghost use Rattle.std.specs.Prelude.{◌≡◌, ◌+◌, ◌^◌, ◌<◌, length, IfOk};
ghost use Rattle.chain_defs.specs.Shape as shape;
ghost use Rattle.chain_defs.specs.Shape.{encoded};
ghost use Rattle.chain_defs.specs.Schema as schema;

use outside::NoMemory;
use std::alloc::Global;

/// `Bytes`: their count, and they.
#[tactic(auto, using(crate::proofs::Sizes::bytes_after_count))]
pub fn bytes_row(alloc: Global, content: &[u8]) -> Result<Vec<u8>, NoMemory>
    requires { length content.now < 2 ^ 30 }
    ensures bytes { IfOk result (λ bytes. bytes.items ≡ encoded shape.bytes content.now) }
    ensures size { IfOk result (λ bytes. length bytes.items ≡ 4 + length content.now) }
{
    let mut bytes = Vec::with_capacity(alloc, 4 + content.len())?;
    bytes.extend_from_slice(&(content.len() as u32).to_le_bytes())?;
    bytes.extend_from_slice(content)?;
    Ok(bytes)
}

/// An input of a since and an out-point.
#[tactic(auto, unfolding(chain_defs::specs::Schema::out_point, chain_defs::specs::Schema::cell_input), using(crate::proofs::Sizes::input_row_parts))]
pub fn input_row(
    alloc: Global,
    since: u64,
    tx_hash: &[u8; 32],
    index: u32,
) -> Result<Vec<u8>, NoMemory>
    ensures bytes { IfOk result (λ bytes. bytes.items
        ≡ encoded schema.cell_input (record { since = since; previous_output = record { tx_hash = tx_hash.now; index = index } })) }
    ensures size { IfOk result (λ bytes. length bytes.items ≡ 44) }
{
    let mut bytes = Vec::with_capacity(alloc, 44)?;
    bytes.extend_from_slice(&since.to_le_bytes())?;
    bytes.extend_from_slice(tx_hash)?;
    bytes.extend_from_slice(&index.to_le_bytes())?;
    Ok(bytes)
}

/// A cell dep on an output of a transaction.
#[tactic(auto, unfolding(chain_defs::specs::Schema::out_point, chain_defs::specs::Schema::cell_dep), using(crate::proofs::Sizes::dep_row_parts))]
pub fn dep_row(
    alloc: Global,
    tx_hash: &[u8; 32],
    index: u32,
    dep_type: u8,
) -> Result<Vec<u8>, NoMemory>
    ensures bytes { IfOk result (λ bytes. bytes.items
        ≡ encoded schema.cell_dep (record { out_point = record { tx_hash = tx_hash.now; index = index }; dep_type = dep_type })) }
    ensures size { IfOk result (λ bytes. length bytes.items ≡ 37) }
{
    let mut bytes = Vec::with_capacity(alloc, 37)?;
    bytes.extend_from_slice(tx_hash)?;
    bytes.extend_from_slice(&index.to_le_bytes())?;
    bytes.extend_from_slice(&[dep_type])?;
    Ok(bytes)
}
