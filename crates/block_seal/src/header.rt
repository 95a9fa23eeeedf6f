// The header of a block with other commitments, and the block with another header.
ghost use Rattle.std.specs.Prelude.{◌≡◌, ◌+◌, ◌++◌, length, IfOk, OnOk};
ghost use Rattle.chain_defs.specs.Shape.{IsEncoding};
ghost use Rattle.chain_defs.specs.Schema as schema;
ghost use Rattle.block_seal.specs.Sealed.{with_header};
ghost use Rattle.block_seal.specs.Rows.{with_commitments};

use mol_schema::{BlockView, HeaderView, TableView};
use mol_write::Builder;
use outside::NoMemory;
use pool_rows::Commitments;
use std::alloc::Global;

/// Puts a hash at the end of a row.
fn push_hash(row: &mut Vec<u8>, hash: &[u8; 32]) -> Result<(), NoMemory>
    ensures items { OnOk result (row.new.items ≡ row.old.items ++ hash.now) }
    ensures size { OnOk result (length row.new.items ≡ length row.old.items + 32) }
    ensures hash { IsEncoding schema.byte32 hash.now hash.now }
{
    row.extend_from_slice(hash)?;
    Ok(())
}

/// The bytes of a header with these commitments.
pub(crate) fn header_row(
    alloc: Global,
    header: &HeaderView<'_>,
    commitments: &Commitments,
) -> Result<Vec<u8>, NoMemory>
    ensures header { IfOk result (λ row. IsEncoding schema.header row.items (with_commitments header.now commitments.now)) }
    ensures size { IfOk result (λ row. length row.items ≡ 208) }
{
    let mut row = Vec::with_capacity(alloc, header.bytes().len())?;
    row.extend_from_slice(&header.version().to_le_bytes())?;
    row.extend_from_slice(&header.compact_target().to_le_bytes())?;
    row.extend_from_slice(&header.timestamp().to_le_bytes())?;
    row.extend_from_slice(&header.number().to_le_bytes())?;
    row.extend_from_slice(&header.epoch().to_le_bytes())?;
    row.extend_from_slice(header.parent_hash())?;
    push_hash(&mut row, &commitments.transactions_root)?;
    push_hash(&mut row, &commitments.proposals_hash)?;
    push_hash(&mut row, &commitments.uncles_hash)?;
    push_hash(&mut row, &commitments.dao)?;
    row.extend_from_slice(&header.nonce().to_le_bytes())?;
    Ok(row)
}

/// The bytes of a block with another header, by the bytes of that.
pub(crate) fn block_row(
    alloc: Global,
    block: &BlockView<'_>,
    header: &[u8],
) -> Result<Vec<u8>, NoMemory>
    requires { length header.now ≡ 208 }
    ensures { (h : schema.Header) → IsEncoding schema.header header.now h → IfOk result (λ bytes. IsEncoding schema.block bytes.items (with_header block.now h)) }
{
    let fields = TableView::<4>::from_encoding(block.bytes());
    let mut rows = Builder::new(alloc);
    rows.push(header)?;
    rows.push(fields.field(1))?;
    rows.push(fields.field(2))?;
    rows.push(fields.field(3))?;
    rows.table()
}
