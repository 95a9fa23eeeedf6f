//! A block's header.

ghost use Rattle.std.specs.Prelude.{◌≡◌, length};

use crate::number::{decode_u32, decode_u64, decode_u128};
use crate::view::{Row, View};
use std::marker::Model;

/// The row `Header`.
#[derive(Drop)]
pub struct Header;

impl Model for Header {
    ghost use Rattle.std.specs.Prelude.{[]};
    ghost use Rattle.chain_defs.specs.Schema as schema;

    ghost Value = { schema.Header };

    ghost view = { λ _. schema.header.decoding [] };
}

impl Row for Header {
    ghost use Rattle.chain_defs.specs.Schema.{header};
    ghost use Rattle.chain_defs.specs.Checked.{HasLength};
    ghost use Rattle.chain_defs.proofs.RowLaws.{header-check};

    ghost shape = { header };

    ghost IsChecked = { HasLength 208 };

    ghost is_check = { header-check };

    fn is_encoding(b: &[u8]) -> bool {
        b.len() == 208
    }
}

/// `struct Header`, 208 bytes.
pub type HeaderView<'a> = View<'a, Header>;

#[tactic(auto, unfolding(chain_defs::specs::Schema::header))]
impl<'a> View<'a, Header> {
    pub fn version(&self) -> u32
        ensures { result ≡ self.now.version }
    {
        decode_u32(&self.bytes[0..4])
    }

    pub fn compact_target(&self) -> u32
        ensures { result ≡ self.now.compact_target }
    {
        decode_u32(&self.bytes[4..8])
    }

    /// Milliseconds since 1970.
    pub fn timestamp(&self) -> u64
        ensures { result ≡ self.now.timestamp }
    {
        decode_u64(&self.bytes[8..16])
    }

    /// The block's height.
    pub fn number(&self) -> u64
        ensures { result ≡ self.now.number }
    {
        decode_u64(&self.bytes[16..24])
    }

    /// The epoch field: number, index and length in one.
    pub fn epoch(&self) -> u64
        ensures { result ≡ self.now.epoch }
    {
        decode_u64(&self.bytes[24..32])
    }

    pub fn parent_hash(&self) -> &'a [u8]
        ensures value { result.now ≡ self.now.parent_hash }
        ensures len { length result.now ≡ 32 }
    {
        &self.bytes[32..64]
    }

    pub fn transactions_root(&self) -> &'a [u8]
        ensures value { result.now ≡ self.now.transactions_root }
        ensures len { length result.now ≡ 32 }
    {
        &self.bytes[64..96]
    }

    pub fn proposals_hash(&self) -> &'a [u8]
        ensures value { result.now ≡ self.now.proposals_hash }
        ensures len { length result.now ≡ 32 }
    {
        &self.bytes[96..128]
    }

    pub fn uncles_hash(&self) -> &'a [u8]
        ensures value { result.now ≡ self.now.uncles_hash }
        ensures len { length result.now ≡ 32 }
    {
        &self.bytes[128..160]
    }

    pub fn dao(&self) -> &'a [u8]
        ensures value { result.now ≡ self.now.dao }
        ensures len { length result.now ≡ 32 }
    {
        &self.bytes[160..192]
    }

    pub fn nonce(&self) -> u128
        ensures { result ≡ self.now.nonce }
    {
        decode_u128(&self.bytes[192..208])
    }
}
