//! What the witnesses of a transaction hold.

ghost use Rattle.std.specs.Prelude.{◌≡◌, ◌^◌, ◌<◌, length};
ghost use Rattle.std.specs.Option.{option_copied};

use crate::bytes::ByteVec;
use crate::check::{has_fields, is_option_of};
use crate::parts::{content, field, optional_content};
use crate::script::{Script, ScriptView};
use crate::view::{Row, View};
use std::marker::Model;

/// The row `CellbaseWitness`.
#[derive(Drop)]
pub struct CellbaseWitness;

impl Model for CellbaseWitness {
    ghost use Rattle.std.specs.Prelude.{[]};
    ghost use Rattle.chain_defs.specs.Schema as schema;

    ghost Value = { schema.CellbaseWitness };

    ghost view = { λ _. schema.cellbase_witness.decoding [] };
}

impl Row for CellbaseWitness {
    ghost use Rattle.chain_defs.specs.Schema.{cellbase_witness};
    ghost use Rattle.chain_defs.specs.Checked.{IsCellbaseWitness};
    ghost use Rattle.chain_defs.proofs.RowLaws.{cellbase_witness-check};

    ghost shape = { cellbase_witness };

    ghost IsChecked = { IsCellbaseWitness };

    ghost is_check = { cellbase_witness-check };

    fn is_encoding(b: &[u8]) -> bool {
        if !has_fields::<2>(b) {
            return false;
        }
        let lock = field::<2>(b, 0);
        let message = field::<2>(b, 1);
        Script::is_encoding(lock) && ByteVec::is_encoding(message)
    }
}

/// `table CellbaseWitness`: the first witness of a cellbase.
pub type CellbaseWitnessView<'a> = View<'a, CellbaseWitness>;

#[tactic(auto, unfolding(chain_defs::specs::Schema::cellbase_witness))]
impl<'a> View<'a, CellbaseWitness> {
    /// Whom the reward goes to.
    pub fn lock(&self) -> ScriptView<'a>
        ensures { result ≡ self.now.lock }
    {
        ScriptView::from_checked(field::<2>(self.bytes, 0))
    }

    pub fn message(&self) -> &'a [u8]
        ensures value { result.now ≡ self.now.message }
        ensures fits { length result.now < 2 ^ 32 }
    {
        content(field::<2>(self.bytes, 1))
    }
}

/// The row `WitnessArgs`.
#[derive(Drop)]
pub struct WitnessArgs;

impl Model for WitnessArgs {
    ghost use Rattle.std.specs.Prelude.{[]};
    ghost use Rattle.chain_defs.specs.Schema as schema;

    ghost Value = { schema.WitnessArgs };

    ghost view = { λ _. schema.witness_args.decoding [] };
}

impl Row for WitnessArgs {
    ghost use Rattle.chain_defs.specs.Schema.{witness_args};
    ghost use Rattle.chain_defs.specs.Checked.{IsWitnessArgs};
    ghost use Rattle.chain_defs.proofs.RowLaws.{witness_args-check};

    ghost shape = { witness_args };

    ghost IsChecked = { IsWitnessArgs };

    ghost is_check = { witness_args-check };

    fn is_encoding(b: &[u8]) -> bool {
        if !has_fields::<3>(b) {
            return false;
        }
        let lock = field::<3>(b, 0);
        let input_type = field::<3>(b, 1);
        let output_type = field::<3>(b, 2);
        is_option_of::<ByteVec>(lock)
            && is_option_of::<ByteVec>(input_type)
            && is_option_of::<ByteVec>(output_type)
    }
}

/// `table WitnessArgs`: what a witness gives the scripts.
pub type WitnessArgsView<'a> = View<'a, WitnessArgs>;

#[tactic(auto, unfolding(chain_defs::specs::Schema::witness_args))]
impl<'a> View<'a, WitnessArgs> {
    pub fn lock(&self) -> Option<&'a [u8]>
        ensures { option_copied result ≡ self.now.lock }
    {
        optional_content(field::<3>(self.bytes, 0))
    }

    pub fn input_type(&self) -> Option<&'a [u8]>
        ensures { option_copied result ≡ self.now.input_type }
    {
        optional_content(field::<3>(self.bytes, 1))
    }

    pub fn output_type(&self) -> Option<&'a [u8]>
        ensures { option_copied result ≡ self.now.output_type }
    {
        optional_content(field::<3>(self.bytes, 2))
    }
}
