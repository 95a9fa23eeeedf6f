// The hashes of a block's transactions, which J12 makes and later rules read.
ghost use Rattle.std.specs.Prelude.{◌≡◌, ◌<◌, Some, length, map, slice_get};
ghost use Rattle.chain_defs.specs.Hashes.{transaction_hash};

use mol_schema::{BlockView, TxView};

/// The hash at a place.
pub(crate) fn hash_at(hashes: &[[u8; 32]], i: usize) -> [u8; 32]
    requires { i < length hashes.now }
    ensures { slice_get hashes.now i ≡ Some result }
{
    hashes[i]
}

/// The hash of the transaction at a place of a block.
pub(crate) fn hash_of(
    block: &BlockView<'_>,
    hashes: &[[u8; 32]],
    tx: &TxView<'_>,
    i: usize,
) -> [u8; 32]
    requires hashes { hashes.now ≡ map transaction_hash block.now.transactions }
    requires there { slice_get block.now.transactions i ≡ Some tx.now }
    ensures { result ≡ transaction_hash tx.now }
{
    hash_at(hashes, i)
}
