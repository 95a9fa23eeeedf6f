//! A list of out-points.

ghost use Rattle.std.specs.Prelude.{◌≡◌, ◌<◌, Some, length, slice_get, ◌^◌};

use crate::check::are_items;
use crate::out_point::OutPointView;
use crate::parts::{item, items_len};
use crate::view::{Row, View};
use std::marker::Model;

/// The row `OutPointVec`.
#[derive(Drop)]
pub struct OutPointVec;

impl Model for OutPointVec {
    ghost use Rattle.std.specs.Prelude.{List, []};
    ghost use Rattle.chain_defs.specs.Schema as schema;

    ghost Value = { List schema.OutPoint };

    ghost view = { λ _. [] };
}

impl Row for OutPointVec {
    ghost use Rattle.chain_defs.specs.Schema.{out_points};
    ghost use Rattle.chain_defs.specs.Checked.{IsItems};
    ghost use Rattle.chain_defs.proofs.RowLaws.{out_points-check};

    ghost shape = { out_points };

    ghost IsChecked = { IsItems 36 };

    ghost is_check = { out_points-check };

    fn is_encoding(b: &[u8]) -> bool {
        are_items(b, 36)
    }
}

/// `vector OutPointVec <OutPoint>`: what a dep group's cell holds.
pub type OutPointsView<'a> = View<'a, OutPointVec>;

impl<'a> View<'a, OutPointVec> {
    pub fn count(&self) -> usize
        ensures value { result ≡ length self.now }
        ensures fits { result < 2 ^ 32 }
    {
        items_len(self.bytes, 36)
    }

    pub fn item(&self, i: usize) -> OutPointView<'a>
        requires { i < length self.now }
        ensures { slice_get self.now i ≡ Some result }
    {
        OutPointView::from_checked(item(self.bytes, 36, i))
    }
}
