// The header of the block that is assembled.
ghost use Rattle.std.specs.Prelude.{◌≡◌, ◌+◌, ◌++◌, length, IfOk, OnOk};
ghost use Rattle.chain_defs.specs.Shape.{IsEncoding};
ghost use Rattle.chain_defs.specs.Schema as schema;
ghost use Rattle.pool_defs.specs.Start.{next_timestamp};
ghost use Rattle.pool_rows.specs.Header.{header_with};

use outside::NoMemory;
use std::alloc::Global;

/// What a header commits to its block by, with the DAO field.
#[derive(Clone, Copy, Debug, PartialEq, Eq)]
pub struct Commitments {
    pub transactions_root: [u8; 32],
    pub proposals_hash: [u8; 32],
    pub uncles_hash: [u8; 32],
    pub dao: [u8; 32],
}

/// The timestamp after a median time: above it, where a u64 is.
pub fn timestamp_after(median: u64) -> u64
    ensures { result ≡ next_timestamp median }
{
    match median.checked_add(1) {
        Some(next) => next,
        None => median,
    }
}

/// Puts a hash at the end of a row.
fn push_hash(row: &mut Vec<u8>, hash: &[u8; 32]) -> Result<(), NoMemory>
    ensures items { OnOk result (row.new.items ≡ row.old.items ++ hash.now) }
    ensures size { OnOk result (length row.new.items ≡ length row.old.items + 32) }
    ensures hash { IsEncoding schema.byte32 hash.now hash.now }
{
    row.extend_from_slice(hash)?;
    Ok(())
}

/// The header of version 0 and nonce 0 with these fields, in bytes.
pub fn header_row(
    alloc: Global,
    compact_target: u32,
    timestamp: u64,
    number: u64,
    epoch: u64,
    parent_hash: &[u8; 32],
    commitments: &Commitments,
) -> Result<Vec<u8>, NoMemory>
    ensures header { IfOk result (λ row. IsEncoding schema.header row.items (header_with compact_target timestamp number epoch parent_hash.now commitments.now)) }
    ensures size { IfOk result (λ row. length row.items ≡ 208) }
{
    let mut row = Vec::with_capacity(alloc, 208)?;
    row.extend_from_slice(&0u32.to_le_bytes())?;
    row.extend_from_slice(&compact_target.to_le_bytes())?;
    row.extend_from_slice(&timestamp.to_le_bytes())?;
    row.extend_from_slice(&number.to_le_bytes())?;
    row.extend_from_slice(&epoch.to_le_bytes())?;
    push_hash(&mut row, parent_hash)?;
    push_hash(&mut row, &commitments.transactions_root)?;
    push_hash(&mut row, &commitments.proposals_hash)?;
    push_hash(&mut row, &commitments.uncles_hash)?;
    push_hash(&mut row, &commitments.dao)?;
    row.extend_from_slice(&0u128.to_le_bytes())?;
    Ok(row)
}
