//! The structs of a transaction: an out-point, an input, a cell dep.

ghost use Rattle.std.specs.Prelude.{◌≡◌, length};

use crate::number::{decode_u32, decode_u64};
use crate::view::{Row, View};
use std::marker::Model;

/// The row `OutPoint`.
#[derive(Drop)]
pub struct OutPoint;

impl Model for OutPoint {
    ghost use Rattle.std.specs.Prelude.{[]};
    ghost use Rattle.chain_defs.specs.Schema as schema;

    ghost Value = { schema.OutPoint };

    ghost view = { λ _. schema.out_point.decoding [] };
}

impl Row for OutPoint {
    ghost use Rattle.chain_defs.specs.Schema.{out_point};
    ghost use Rattle.chain_defs.specs.Checked.{HasLength};
    ghost use Rattle.chain_defs.proofs.RowLaws.{out_point-check};

    ghost shape = { out_point };

    ghost IsChecked = { HasLength 36 };

    ghost is_check = { out_point-check };

    fn is_encoding(b: &[u8]) -> bool {
        b.len() == 36
    }
}

/// `struct OutPoint`, 36 bytes: an output of a transaction.
pub type OutPointView<'a> = View<'a, OutPoint>;

#[tactic(auto, unfolding(chain_defs::specs::Schema::out_point))]
impl<'a> View<'a, OutPoint> {
    /// The transaction's hash, 32 bytes.
    pub fn tx_hash(&self) -> &'a [u8]
        ensures value { result.now ≡ self.now.tx_hash }
        ensures len { length result.now ≡ 32 }
    {
        &self.bytes[0..32]
    }

    /// The output's place in the transaction.
    pub fn index(&self) -> u32
        ensures { result ≡ self.now.index }
    {
        decode_u32(&self.bytes[32..36])
    }
}

/// The row `CellInput`.
#[derive(Drop)]
pub struct CellInput;

impl Model for CellInput {
    ghost use Rattle.std.specs.Prelude.{[]};
    ghost use Rattle.chain_defs.specs.Schema as schema;

    ghost Value = { schema.CellInput };

    ghost view = { λ _. schema.cell_input.decoding [] };
}

impl Row for CellInput {
    ghost use Rattle.chain_defs.specs.Schema.{cell_input};
    ghost use Rattle.chain_defs.specs.Checked.{HasLength};
    ghost use Rattle.chain_defs.proofs.RowLaws.{cell_input-check};

    ghost shape = { cell_input };

    ghost IsChecked = { HasLength 44 };

    ghost is_check = { cell_input-check };

    fn is_encoding(b: &[u8]) -> bool {
        b.len() == 44
    }
}

/// `struct CellInput`, 44 bytes: an out-point that is spent, and since when it may be.
pub type InputView<'a> = View<'a, CellInput>;

#[tactic(auto, unfolding(chain_defs::specs::Schema::cell_input))]
impl<'a> View<'a, CellInput> {
    pub fn since(&self) -> u64
        ensures { result ≡ self.now.since }
    {
        decode_u64(&self.bytes[0..8])
    }

    pub fn previous_output(&self) -> OutPointView<'a>
        ensures { result ≡ self.now.previous_output }
    {
        OutPointView::from_checked(&self.bytes[8..44])
    }
}

/// The row `CellDep`.
#[derive(Drop)]
pub struct CellDep;

impl Model for CellDep {
    ghost use Rattle.std.specs.Prelude.{[]};
    ghost use Rattle.chain_defs.specs.Schema as schema;

    ghost Value = { schema.CellDep };

    ghost view = { λ _. schema.cell_dep.decoding [] };
}

impl Row for CellDep {
    ghost use Rattle.chain_defs.specs.Schema.{cell_dep};
    ghost use Rattle.chain_defs.specs.Checked.{HasLength};
    ghost use Rattle.chain_defs.proofs.RowLaws.{cell_dep-check};

    ghost shape = { cell_dep };

    ghost IsChecked = { HasLength 37 };

    ghost is_check = { cell_dep-check };

    fn is_encoding(b: &[u8]) -> bool {
        b.len() == 37
    }
}

/// `struct CellDep`, 37 bytes: a cell that the scripts may read.
pub type DepView<'a> = View<'a, CellDep>;

#[tactic(auto, unfolding(chain_defs::specs::Schema::cell_dep))]
impl<'a> View<'a, CellDep> {
    pub fn out_point(&self) -> OutPointView<'a>
        ensures { result ≡ self.now.out_point }
    {
        OutPointView::from_checked(&self.bytes[0..36])
    }

    pub fn dep_type(&self) -> u8
        ensures { result ≡ self.now.dep_type }
    {
        self.bytes[36]
    }
}
