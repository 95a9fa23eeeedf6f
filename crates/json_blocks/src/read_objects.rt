// Transactions, headers, uncles and blocks, read from their trees.
ghost use Rattle.std.specs.Prelude.{Bool};
ghost use Rattle.serde_json.specs.View.{view};
ghost use Rattle.json_blocks.specs.Reading.{Gives, header_with};

use crate::by_keys::Rows;
use crate::items::{ByteString, Hash, ShortId, U32, U64, U128};
use crate::lists::{Dynvec, Fixvec, Item};
use crate::read_parts::{Dep, Input, Output};
use crate::stop::JsonStop;
use serde_json::Value;
use std::alloc::Global;

/// A transaction.
pub(crate) struct Transaction;

impl Item for Transaction {
    ghost use Rattle.json_blocks.specs.Reading.{transaction_at};

    ghost reads_as = { transaction_at };

    #[tactic(auto, unfolding(crate::specs::Reading::transaction_at))]
    fn read(alloc: Global, value: &Value) -> Result<Vec<u8>, JsonStop> {
        let mut rows = Rows::of(alloc, value, true)?;
        rows.read::<Fixvec<Dep>>("cell_deps");
        rows.read::<Fixvec<Hash>>("header_deps");
        rows.read::<Fixvec<Input>>("inputs");
        rows.read::<Dynvec<Output>>("outputs");
        rows.read::<Dynvec<ByteString>>("outputs_data");
        rows.read::<U32>("version");
        rows.read::<Dynvec<ByteString>>("witnesses");
        rows.tables(&[5, 0, 1, 2, 3, 4], &[7, 6])
    }
}

/// A header whose uncles' hash stands at `extra_hash`, or at `uncles_hash`, each where its key belongs.
#[tactic(auto, unfolding(crate::specs::Reading::header_with))]
fn read_header_with(alloc: Global, value: &Value, is_extra: bool) -> Result<Vec<u8>, JsonStop>
    ensures { Gives (λ b. b.items) result (header_with is_extra (view value.now)) }
{
    let mut rows = Rows::of(alloc, value, true)?;
    rows.read::<U32>("compact_target");
    rows.read::<Hash>("dao");
    rows.read::<U64>("epoch");
    rows.read_hash_if(is_extra, "extra_hash");
    rows.read::<U128>("nonce");
    rows.read::<U64>("number");
    rows.read::<Hash>("parent_hash");
    rows.read::<Hash>("proposals_hash");
    rows.read::<U64>("timestamp");
    rows.read::<Hash>("transactions_root");
    rows.read_hash_if(!is_extra, "uncles_hash");
    rows.read::<U32>("version");
    rows.joined(&[11, 0, 8, 5, 2, 6, 9, 7, 3, 10, 1, 4])
}

/// A header.
pub(crate) struct Header;

impl Item for Header {
    ghost use Rattle.json_blocks.specs.Reading.{header_at};

    ghost reads_as = { header_at };

    #[tactic(auto, unfolding(crate::specs::Reading::header_at))]
    fn read(alloc: Global, value: &Value) -> Result<Vec<u8>, JsonStop> {
        match read_header_with(alloc, value, false) {
            Err(JsonStop::Bad) => read_header_with(alloc, value, true),
            usual => usual,
        }
    }
}

/// An uncle.
pub(crate) struct Uncle;

impl Item for Uncle {
    ghost use Rattle.json_blocks.specs.Reading.{uncle_at};

    ghost reads_as = { uncle_at };

    #[tactic(auto, unfolding(crate::specs::Reading::uncle_at))]
    fn read(alloc: Global, value: &Value) -> Result<Vec<u8>, JsonStop> {
        let mut rows = Rows::of(alloc, value, false)?;
        rows.read::<Header>("header");
        rows.read::<Fixvec<ShortId>>("proposals");
        rows.table(&[0, 1])
    }
}

/// A block.
pub(crate) struct Block;

impl Item for Block {
    ghost use Rattle.json_blocks.specs.Reading.{block_at};

    ghost reads_as = { block_at };

    #[tactic(auto, unfolding(crate::specs::Reading::block_at))]
    fn read(alloc: Global, value: &Value) -> Result<Vec<u8>, JsonStop> {
        let mut rows = Rows::of(alloc, value, false)?;
        rows.read::<Header>("header");
        rows.read::<Fixvec<ShortId>>("proposals");
        rows.read::<Dynvec<Transaction>>("transactions");
        rows.read::<Dynvec<Uncle>>("uncles");
        rows.table(&[0, 3, 2, 1])
    }
}
