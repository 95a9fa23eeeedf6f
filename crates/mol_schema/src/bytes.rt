//! A `Bytes` by itself.

ghost use Rattle.std.specs.Prelude.{◌≡◌, ◌^◌, ◌<◌, length};

use crate::check::are_items;
use crate::parts::content;
use crate::view::{Row, View};
use std::marker::Model;

/// The row `Bytes`.
#[derive(Drop)]
pub struct ByteVec;

impl Model for ByteVec {
    ghost use Rattle.std.specs.Prelude.{ℕ, List, []};

    ghost Value = { List ℕ };

    ghost view = { λ _. [] };
}

impl Row for ByteVec {
    ghost use Rattle.chain_defs.specs.Shape.{bytes};
    ghost use Rattle.chain_defs.specs.Checked.{IsBytes};
    ghost use Rattle.chain_defs.proofs.Checks.{bytes-check};

    ghost shape = { bytes };

    ghost IsChecked = { IsBytes };

    ghost is_check = { bytes-check };

    fn is_encoding(b: &[u8]) -> bool {
        are_items(b, 1)
    }
}

/// `vector Bytes <byte>`. Contracts see it as what it holds.
pub type Bytes<'a> = View<'a, ByteVec>;

impl<'a> View<'a, ByteVec> {
    /// What it holds: all after the count.
    pub fn content(&self) -> &'a [u8]
        ensures value { result.now ≡ self.now }
        ensures fits { length result.now < 2 ^ 32 }
    {
        content(self.bytes)
    }
}
