// The hashes of transactions and blocks (RFC 0022, "Crypto Primitives" of RFC 0027).
ghost use Rattle.std.specs.Prelude.{◌≡◌, ◌<◌, ◌^◌, length, map, take, IfOk};
ghost use Rattle.chain_defs.specs.Hashes as hashes;
ghost use Rattle.chain_defs.specs.Kept as kept;

use blake2b_ckb::ckbhash;
use mol_schema::{BlockView, HeaderView, TxView};
use outside::NoMemory;
use std::alloc::Global;

/// The hash of a transaction: of its `RawTransaction`, without witnesses (RFC 0022).
#[tactic(auto, unfolding(chain_defs::specs::Hashes::transaction_hash))]
pub fn transaction_hash(transaction: &TxView<'_>) -> [u8; 32]
    ensures { result ≡ hashes.transaction_hash transaction.now }
{
    ckbhash(transaction.raw().bytes())
}

/// The hash of a transaction with its witnesses.
#[tactic(auto, unfolding(chain_defs::specs::Hashes::witness_hash))]
pub fn witness_hash(transaction: &TxView<'_>) -> [u8; 32]
    ensures { result ≡ hashes.witness_hash transaction.now }
{
    ckbhash(transaction.bytes())
}

/// The hashes of a block's transactions, the cellbase's among them, in their order.
pub fn transaction_hashes(alloc: Global, block: &BlockView<'_>) -> Result<Vec<[u8; 32]>, NoMemory>
    ensures hashes { IfOk result (λ list. list.items ≡ map hashes.transaction_hash block.now.transactions) }
    ensures fits { IfOk result (λ list. length list.items < 2 ^ 30) }
{
    let count = block.transactions_count();
    let mut list = Vec::with_capacity(alloc, count)?;
    'transactions: for i in 0..count {
        list.push(transaction_hash(&block.transactions_item(i)))?;
    }
    Ok(list)
}

/// The id by which a transaction is proposed, of its hash: the first ten bytes (RFC 0020, "proposal_short_id").
pub fn proposal_id(transaction_hash: &[u8; 32]) -> [u8; 10]
    ensures { result ≡ take 10 transaction_hash.now }
{
    let mut id = [0; 10];
    id.copy_from_slice(&transaction_hash[..10]);
    id
}

/// The hash of a header, which is that of its block.
#[tactic(auto, unfolding(chain_defs::specs::Kept::header_hash))]
pub fn header_hash(header: &HeaderView<'_>) -> [u8; 32]
    ensures { result ≡ kept.header_hash header.now }
{
    ckbhash(header.bytes())
}

/// The hash of a block is that of its header.
pub fn block_hash(block: &BlockView<'_>) -> [u8; 32]
    ensures { result ≡ kept.block_hash block.now }
{
    header_hash(&block.header())
}
