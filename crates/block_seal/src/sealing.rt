// A block is sealed.
ghost use Rattle.std.specs.Prelude.{◌≡◌, IfOk};
ghost use Rattle.chain_defs.specs.Shape.{IsEncoding};
ghost use Rattle.chain_defs.specs.Schema as schema;
ghost use Rattle.block_seal.specs.Sealed.{genesis_field, dao_of, committed, with_header, IsSealed};

use crate::header::{block_row, header_row};
use block_rules::{proposals_hash, transactions_root, uncles_hash};
use dao_math::Dao;
use mol_schema::BlockView;
use outside::NoMemory;
use pool_rows::Commitments;
use std::alloc::Global;
use supply::Totals;

/// The DAO field that stands in the header of a block.
fn dao_in(block: &BlockView<'_>) -> [u8; 32]
    ensures { result ≡ block.now.header.dao }
{
    let mut dao = [0; 32];
    dao.copy_from_slice(block.header().dao());
    dao
}

/// The field of a genesis, by its cells. None where it leaves u64.
fn genesis_field(block: &BlockView<'_>) -> Option<Dao>
    ensures { result ≡ genesis_field block.now }
{
    let totals = Totals::genesis(BlockView::from_encoding(block.bytes()));
    let field = Dao::read(&dao_in(block));
    let Ok(c) = u64::try_from(totals.live) else {
        return None;
    };
    let Ok(u) = u64::try_from(totals.occupied) else {
        return None;
    };
    Some(Dao { c, u, ..field })
}

/// The field that stands in the sealed block.
fn dao_of(block: &BlockView<'_>) -> Option<[u8; 32]>
    ensures { result ≡ dao_of block.now }
{
    if block.header().number() == 0 {
        match genesis_field(block) {
            Some(field) => Some(field.write()),
            None => None,
        }
    } else {
        Some(dao_in(block))
    }
}

/// The bytes of the block whose header has this field, and the root and the hashes of the block.
fn sealed_row(alloc: Global, block: &BlockView<'_>, dao: [u8; 32]) -> Result<Vec<u8>, NoMemory>
    ensures { IfOk result (λ bytes. IsEncoding schema.block bytes.items (with_header block.now (committed block.now dao))) }
{
    let commitments = Commitments {
        transactions_root: transactions_root(alloc, block)?,
        proposals_hash: proposals_hash(block),
        uncles_hash: uncles_hash(block),
        dao,
    };
    let header = header_row(alloc, &block.header(), &commitments)?;
    block_row(alloc, block, &header)
}

/// The bytes of the block whose header commits to it: to its transactions, proposals and uncles, and of a genesis to what its
/// cells hold and occupy, in shannons. None where these are above the greatest u64.
#[tactic(auto, unfolding(crate::specs::Sealed::sealed))]
pub fn seal(alloc: Global, block: &BlockView<'_>) -> Result<Option<Vec<u8>>, NoMemory>
    ensures { IfOk result (λ sealed. IsSealed block.now sealed) }
{
    match dao_of(block) {
        Some(dao) => Ok(Some(sealed_row(alloc, block, dao)?)),
        None => Ok(None),
    }
}
