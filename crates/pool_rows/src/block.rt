// The block that is assembled, of its parts.
ghost use Rattle.std.specs.Prelude.{◌≡◌, ◌+◌, ◌*◌, ◌^◌, ◌<◌, ◌++◌, length, sum_by, IfOk, OnOk};
ghost use Rattle.chain_defs.specs.Shape.{IsEncoding, encoded, dynvec, fixvec};
ghost use Rattle.chain_defs.specs.Schema as schema;
ghost use Rattle.pool_defs.specs.Size.{size_with};
ghost use Rattle.pool_rows.specs.Block.{block_with};

use mol_schema::TxView;
use mol_write::Builder;
use outside::NoMemory;
use std::alloc::Global;

/// A dynvec of no uncle.
const NO_UNCLES: [u8; 4] = [4, 0, 0, 0];

/// The vector of transactions.
fn transactions_row(alloc: Global, transactions: &[TxView<'_>]) -> Result<Vec<u8>, NoMemory>
    requires size { 4 + sum_by (λ t. 4 + length (encoded schema.transaction t)) transactions.now < 2 ^ 32 }
    ensures transactions { IfOk result (λ bytes. IsEncoding (dynvec schema.transaction) bytes.items transactions.now) }
    ensures size { IfOk result (λ bytes. length bytes.items ≡ 4 + sum_by (λ t. 4 + length (encoded schema.transaction t)) transactions.now) }
{
    let mut items = Builder::new(alloc);
    'transactions: for tx in transactions {
        items.push(tx.bytes())?;
    }
    items.dynvec()
}

/// Puts a proposal id at the end of others.
fn push_id(bytes: &mut Vec<u8>, id: &[u8; 10]) -> Result<(), NoMemory>
    ensures items { OnOk result (bytes.new.items ≡ bytes.old.items ++ id.now) }
    ensures size { OnOk result (length bytes.new.items ≡ length bytes.old.items + 10) }
    ensures id { IsEncoding schema.proposal_short_id id.now id.now }
{
    bytes.extend_from_slice(id)?;
    Ok(())
}

/// The vector of proposal ids.
fn ids_row(alloc: Global, ids: &[[u8; 10]]) -> Result<Vec<u8>, NoMemory>
    requires size { 4 + 10 * length ids.now < 2 ^ 32 }
    ensures ids { IfOk result (λ bytes. IsEncoding (fixvec 10 schema.proposal_short_id) bytes.items ids.now) }
    ensures size { IfOk result (λ bytes. length bytes.items ≡ 4 + 10 * length ids.now) }
{
    let mut bytes = Vec::with_capacity(alloc, 4 + 10 * ids.len())?;
    bytes.extend_from_slice(&(ids.len() as u32).to_le_bytes())?;
    'ids: for id in ids {
        push_id(&mut bytes, id)?;
    }
    Ok(bytes)
}

/// The block of a header, by its encoding, with these transactions and proposal ids, and no uncles.
#[tactic(auto, unfolding(pool_defs::specs::Size::size_with))]
pub fn block_row(
    alloc: Global,
    header: &[u8],
    transactions: &[TxView<'_>],
    ids: &[[u8; 10]],
) -> Result<Vec<u8>, NoMemory>
    requires header { length header.now ≡ 208 }
    requires size { size_with transactions.now ids.now < 2 ^ 32 }
    ensures { (h : schema.Header) → IsEncoding schema.header header.now h → IfOk result (λ bytes. IsEncoding schema.block bytes.items (block_with h transactions.now ids.now)) }
{
    let listed = transactions_row(alloc, transactions)?;
    let ids = ids_row(alloc, ids)?;
    let mut fields = Builder::new(alloc);
    fields.push(header)?;
    fields.push(&NO_UNCLES)?;
    fields.push(&listed)?;
    fields.push(&ids)?;
    fields.table()
}
