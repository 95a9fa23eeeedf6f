ghost use Rattle.std.specs.Prelude.{◌≡◌, ℕ, ◌<◌, ◌↔◌, List, [], length, Some, IfSome, IsTrue, slice_get};
ghost use Rattle.chain_defs.specs.Molecule.{IsFixvec, fixvec};

use crate::layout::{is_counted, item_at};
use crate::little_endian::read_u32;
use std::marker::Model;

/// A fixvec in the caller's bytes. Contracts see the list of its items.
#[derive(Drop)]
pub struct FixView<'a> {
    bytes: &'a [u8],
    item: usize,
}

impl<'a> Model for FixView<'a> {
    ghost use Rattle.std.specs.Prelude.{ℕ, List};

    ghost Value = { List (List ℕ) };

    ghost use Rattle.chain_defs.specs.Molecule.{items_of_fixvec, IsFixvec};

    ghost view = { λ v. items_of_fixvec v.item v.bytes.now };

    ghost invariant = { λ v. IsFixvec v.item v.bytes.now (items_of_fixvec v.item v.bytes.now) };
}

/// The view of bytes that are a fixvec of items of `item` bytes each; the strict reading of RFC 0008.
pub fn check_fixvec(b: &[u8], item: usize) -> Option<FixView<'_>>
    ensures found { IfSome result (IsFixvec item b.now) }
    ensures only { (items : List (List ℕ)) → IsFixvec item b.now items → result ≡ Some items }
{
    if is_counted(b, item) {
        Some(FixView { bytes: b, item })
    } else {
        None
    }
}

impl<'a> FixView<'a> {
    /// The view of bytes that are known to be a fixvec of such items: nothing is checked again.
    pub fn from_encoding(b: &'a [u8], item: usize) -> Self
        requires { (items : List (List ℕ)) × IsFixvec item b.now items }
        ensures found { IsFixvec item b.now result }
        ensures only { (items : List (List ℕ)) → IsFixvec item b.now items → result ≡ items }
    {
        FixView { bytes: b, item }
    }

    /// The whole encoding.
    pub fn bytes(&self) -> &'a [u8]
        ensures { result.now ≡ fixvec self.now }
    {
        self.bytes
    }

    /// How many items there are.
    pub fn len(&self) -> usize
        ensures { result ≡ length self.now }
    {
        read_u32(self.bytes, 0)
    }

    pub fn is_empty(&self) -> bool
        ensures { IsTrue result ↔ (self.now ≡ []) }
    {
        self.len() == 0
    }

    /// Item `i`, from 0.
    pub fn item(&self, i: usize) -> &'a [u8]
        requires { i < length self.now }
        ensures { slice_get self.now i ≡ Some result.now }
    {
        item_at(self.bytes, self.item, i)
    }
}
