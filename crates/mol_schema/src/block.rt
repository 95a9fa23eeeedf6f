//! A block and its uncles.

ghost use Rattle.std.specs.Prelude.{◌≡◌, ◌<◌, Some, length, slice_get, ◌^◌};

use crate::check::{are_items, has_fields, is_list_of};
use crate::header::HeaderView;
use crate::parts::{field, item, items_len, list_item, list_len};
use crate::transaction::{Transaction, TxView};
use crate::view::{Row, View};
use std::marker::Model;

/// The row `UncleBlock`.
#[derive(Drop)]
pub struct UncleBlock;

impl Model for UncleBlock {
    ghost use Rattle.std.specs.Prelude.{[]};
    ghost use Rattle.chain_defs.specs.Schema as schema;

    ghost Value = { schema.UncleBlock };

    ghost view = { λ _. schema.uncle_block.decoding [] };
}

impl Row for UncleBlock {
    ghost use Rattle.chain_defs.specs.Schema.{uncle_block};
    ghost use Rattle.chain_defs.specs.Checked.{IsUncleBlock};
    ghost use Rattle.chain_defs.proofs.RowLaws.{uncle_block-check};

    ghost shape = { uncle_block };

    ghost IsChecked = { IsUncleBlock };

    ghost is_check = { uncle_block-check };

    fn is_encoding(b: &[u8]) -> bool {
        if !has_fields::<2>(b) {
            return false;
        }
        let header = field::<2>(b, 0);
        let proposals = field::<2>(b, 1);
        header.len() == 208 && are_items(proposals, 10)
    }
}

/// `table UncleBlock`: an uncle's header and the ids that it proposes.
pub type UncleView<'a> = View<'a, UncleBlock>;

#[tactic(auto, unfolding(chain_defs::specs::Schema::uncle_block))]
impl<'a> View<'a, UncleBlock> {
    pub fn header(&self) -> HeaderView<'a>
        ensures { result ≡ self.now.header }
    {
        HeaderView::from_checked(field::<2>(self.bytes, 0))
    }

    pub fn proposals_count(&self) -> usize
        ensures value { result ≡ length self.now.proposals }
        ensures fits { result < 2 ^ 32 }
    {
        items_len(field::<2>(self.bytes, 1), 10)
    }

    pub fn proposals_item(&self, i: usize) -> &'a [u8]
        requires { i < length self.now.proposals }
        ensures at { slice_get self.now.proposals i ≡ Some result.now }
        ensures len { length result.now ≡ 10 }
    {
        item(field::<2>(self.bytes, 1), 10, i)
    }
}

/// The row `Block`.
#[derive(Drop)]
pub struct Block;

impl Model for Block {
    ghost use Rattle.std.specs.Prelude.{[]};
    ghost use Rattle.chain_defs.specs.Schema as schema;

    ghost Value = { schema.Block };

    ghost view = { λ _. schema.block.decoding [] };
}

impl Row for Block {
    ghost use Rattle.chain_defs.specs.Schema.{block};
    ghost use Rattle.chain_defs.specs.Checked.{IsBlock};
    ghost use Rattle.chain_defs.proofs.RowLaws.{block-check};

    ghost shape = { block };

    ghost IsChecked = { IsBlock };

    ghost is_check = { block-check };

    fn is_encoding(b: &[u8]) -> bool {
        if !has_fields::<4>(b) {
            return false;
        }
        let header = field::<4>(b, 0);
        let uncles = field::<4>(b, 1);
        let transactions = field::<4>(b, 2);
        let proposals = field::<4>(b, 3);
        header.len() == 208
            && is_list_of::<UncleBlock>(uncles)
            && is_list_of::<Transaction>(transactions)
            && are_items(proposals, 10)
    }
}

/// `table Block`.
pub type BlockView<'a> = View<'a, Block>;

#[tactic(auto, unfolding(chain_defs::specs::Schema::block))]
impl<'a> View<'a, Block> {
    pub fn header(&self) -> HeaderView<'a>
        ensures { result ≡ self.now.header }
    {
        HeaderView::from_checked(field::<4>(self.bytes, 0))
    }

    pub fn uncles_count(&self) -> usize
        ensures value { result ≡ length self.now.uncles }
        ensures fits { result < 2 ^ 30 }
    {
        list_len(field::<4>(self.bytes, 1))
    }

    pub fn uncles_item(&self, i: usize) -> UncleView<'a>
        requires { i < length self.now.uncles }
        ensures { slice_get self.now.uncles i ≡ Some result }
    {
        UncleView::from_checked(list_item(field::<4>(self.bytes, 1), i))
    }

    pub fn transactions_count(&self) -> usize
        ensures value { result ≡ length self.now.transactions }
        ensures fits { result < 2 ^ 30 }
    {
        list_len(field::<4>(self.bytes, 2))
    }

    pub fn transactions_item(&self, i: usize) -> TxView<'a>
        requires { i < length self.now.transactions }
        ensures { slice_get self.now.transactions i ≡ Some result }
    {
        TxView::from_checked(list_item(field::<4>(self.bytes, 2), i))
    }

    pub fn proposals_count(&self) -> usize
        ensures value { result ≡ length self.now.proposals }
        ensures fits { result < 2 ^ 32 }
    {
        items_len(field::<4>(self.bytes, 3), 10)
    }

    pub fn proposals_item(&self, i: usize) -> &'a [u8]
        requires { i < length self.now.proposals }
        ensures at { slice_get self.now.proposals i ≡ Some result.now }
        ensures len { length result.now ≡ 10 }
    {
        item(field::<4>(self.bytes, 3), 10, i)
    }
}
