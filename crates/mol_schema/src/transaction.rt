//! A transaction, its outputs, and what its hash is of.

ghost use Rattle.std.specs.Prelude.{◌≡◌, ◌<◌, Some, length, slice_get, ◌^◌};

use crate::bytes::ByteVec;
use crate::check::{are_items, has_fields, is_list_of, is_option_of};
use crate::number::{decode_u32, decode_u64};
use crate::out_point::{DepView, InputView};
use crate::parts::{content, field, item, items_len, list_item, list_len};
use crate::script::{Script, ScriptView};
use crate::view::{Row, View};
use std::marker::Model;

/// The row `CellOutput`.
#[derive(Drop)]
pub struct CellOutput;

impl Model for CellOutput {
    ghost use Rattle.std.specs.Prelude.{[]};
    ghost use Rattle.chain_defs.specs.Schema as schema;

    ghost Value = { schema.CellOutput };

    ghost view = { λ _. schema.cell_output.decoding [] };
}

impl Row for CellOutput {
    ghost use Rattle.chain_defs.specs.Schema.{cell_output};
    ghost use Rattle.chain_defs.specs.Checked.{IsCellOutput};
    ghost use Rattle.chain_defs.proofs.RowLaws.{cell_output-check};

    ghost shape = { cell_output };

    ghost IsChecked = { IsCellOutput };

    ghost is_check = { cell_output-check };

    fn is_encoding(b: &[u8]) -> bool {
        if !has_fields::<3>(b) {
            return false;
        }
        let capacity = field::<3>(b, 0);
        let lock = field::<3>(b, 1);
        let type_script = field::<3>(b, 2);
        capacity.len() == 8 && Script::is_encoding(lock) && is_option_of::<Script>(type_script)
    }
}

/// `table CellOutput`.
pub type OutputView<'a> = View<'a, CellOutput>;

#[tactic(auto, unfolding(chain_defs::specs::Schema::cell_output))]
impl<'a> View<'a, CellOutput> {
    /// In shannons.
    pub fn capacity(&self) -> u64
        ensures { result ≡ self.now.capacity }
    {
        decode_u64(field::<3>(self.bytes, 0))
    }

    pub fn lock(&self) -> ScriptView<'a>
        ensures { result ≡ self.now.lock }
    {
        ScriptView::from_checked(field::<3>(self.bytes, 1))
    }

    /// The field `type`.
    pub fn type_script(&self) -> Option<ScriptView<'a>>
        ensures { result ≡ self.now.type_script }
    {
        let script = field::<3>(self.bytes, 2);
        if script.is_empty() {
            None
        } else {
            Some(ScriptView::from_checked(script))
        }
    }
}

/// The row `RawTransaction`.
#[derive(Drop)]
pub struct RawTransaction;

impl Model for RawTransaction {
    ghost use Rattle.std.specs.Prelude.{[]};
    ghost use Rattle.chain_defs.specs.Schema as schema;

    ghost Value = { schema.RawTransaction };

    ghost view = { λ _. schema.raw_transaction.decoding [] };
}

impl Row for RawTransaction {
    ghost use Rattle.chain_defs.specs.Schema.{raw_transaction};
    ghost use Rattle.chain_defs.specs.Checked.{IsRawTransaction};
    ghost use Rattle.chain_defs.proofs.RowLaws.{raw_transaction-check};

    ghost shape = { raw_transaction };

    ghost IsChecked = { IsRawTransaction };

    ghost is_check = { raw_transaction-check };

    fn is_encoding(b: &[u8]) -> bool {
        if !has_fields::<6>(b) {
            return false;
        }
        let version = field::<6>(b, 0);
        let cell_deps = field::<6>(b, 1);
        let header_deps = field::<6>(b, 2);
        let inputs = field::<6>(b, 3);
        let outputs = field::<6>(b, 4);
        let outputs_data = field::<6>(b, 5);
        version.len() == 4
            && are_items(cell_deps, 37)
            && are_items(header_deps, 32)
            && are_items(inputs, 44)
            && is_list_of::<CellOutput>(outputs)
            && is_list_of::<ByteVec>(outputs_data)
    }
}

/// `table RawTransaction`: what a transaction's hash is of.
pub type RawTxView<'a> = View<'a, RawTransaction>;

#[tactic(auto, unfolding(chain_defs::specs::Schema::raw_transaction))]
impl<'a> View<'a, RawTransaction> {
    pub fn version(&self) -> u32
        ensures { result ≡ self.now.version }
    {
        decode_u32(field::<6>(self.bytes, 0))
    }

    pub fn cell_deps_count(&self) -> usize
        ensures value { result ≡ length self.now.cell_deps }
        ensures fits { result < 2 ^ 32 }
    {
        items_len(field::<6>(self.bytes, 1), 37)
    }

    pub fn cell_deps_item(&self, i: usize) -> DepView<'a>
        requires { i < length self.now.cell_deps }
        ensures { slice_get self.now.cell_deps i ≡ Some result }
    {
        DepView::from_checked(item(field::<6>(self.bytes, 1), 37, i))
    }

    pub fn header_deps_count(&self) -> usize
        ensures value { result ≡ length self.now.header_deps }
        ensures fits { result < 2 ^ 32 }
    {
        items_len(field::<6>(self.bytes, 2), 32)
    }

    pub fn header_deps_item(&self, i: usize) -> &'a [u8]
        requires { i < length self.now.header_deps }
        ensures at { slice_get self.now.header_deps i ≡ Some result.now }
        ensures len { length result.now ≡ 32 }
    {
        item(field::<6>(self.bytes, 2), 32, i)
    }

    pub fn inputs_count(&self) -> usize
        ensures value { result ≡ length self.now.inputs }
        ensures fits { result < 2 ^ 32 }
    {
        items_len(field::<6>(self.bytes, 3), 44)
    }

    pub fn inputs_item(&self, i: usize) -> InputView<'a>
        requires { i < length self.now.inputs }
        ensures { slice_get self.now.inputs i ≡ Some result }
    {
        InputView::from_checked(item(field::<6>(self.bytes, 3), 44, i))
    }

    pub fn outputs_count(&self) -> usize
        ensures value { result ≡ length self.now.outputs }
        ensures fits { result < 2 ^ 30 }
    {
        list_len(field::<6>(self.bytes, 4))
    }

    pub fn outputs_item(&self, i: usize) -> OutputView<'a>
        requires { i < length self.now.outputs }
        ensures { slice_get self.now.outputs i ≡ Some result }
    {
        OutputView::from_checked(list_item(field::<6>(self.bytes, 4), i))
    }

    pub fn outputs_data_count(&self) -> usize
        ensures value { result ≡ length self.now.outputs_data }
        ensures fits { result < 2 ^ 30 }
    {
        list_len(field::<6>(self.bytes, 5))
    }

    pub fn outputs_data_item(&self, i: usize) -> &'a [u8]
        requires { i < length self.now.outputs_data }
        ensures at { slice_get self.now.outputs_data i ≡ Some result.now }
        ensures fits { length result.now < 2 ^ 32 }
    {
        content(list_item(field::<6>(self.bytes, 5), i))
    }
}

/// The row `Transaction`.
#[derive(Drop)]
pub struct Transaction;

impl Model for Transaction {
    ghost use Rattle.std.specs.Prelude.{[]};
    ghost use Rattle.chain_defs.specs.Schema as schema;

    ghost Value = { schema.Transaction };

    ghost view = { λ _. schema.transaction.decoding [] };
}

impl Row for Transaction {
    ghost use Rattle.chain_defs.specs.Schema.{transaction};
    ghost use Rattle.chain_defs.specs.Checked.{IsTransaction};
    ghost use Rattle.chain_defs.proofs.RowLaws.{transaction-check};

    ghost shape = { transaction };

    ghost IsChecked = { IsTransaction };

    ghost is_check = { transaction-check };

    fn is_encoding(b: &[u8]) -> bool {
        if !has_fields::<2>(b) {
            return false;
        }
        let raw = field::<2>(b, 0);
        let witnesses = field::<2>(b, 1);
        RawTransaction::is_encoding(raw) && is_list_of::<ByteVec>(witnesses)
    }
}

/// `table Transaction`.
pub type TxView<'a> = View<'a, Transaction>;

#[tactic(auto, unfolding(chain_defs::specs::Schema::transaction))]
impl<'a> View<'a, Transaction> {
    pub fn raw(&self) -> RawTxView<'a>
        ensures { result ≡ self.now.raw }
    {
        RawTxView::from_checked(field::<2>(self.bytes, 0))
    }

    pub fn witnesses_count(&self) -> usize
        ensures value { result ≡ length self.now.witnesses }
        ensures fits { result < 2 ^ 30 }
    {
        list_len(field::<2>(self.bytes, 1))
    }

    pub fn witnesses_item(&self, i: usize) -> &'a [u8]
        requires { i < length self.now.witnesses }
        ensures at { slice_get self.now.witnesses i ≡ Some result.now }
        ensures fits { length result.now < 2 ^ 32 }
    {
        content(list_item(field::<2>(self.bytes, 1), i))
    }
}
