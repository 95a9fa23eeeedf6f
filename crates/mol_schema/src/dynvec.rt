ghost use Rattle.std.specs.Prelude.{◌≡◌, ℕ, ◌<◌, ◌↔◌, List, [], length, Some, IfSome, IsTrue, slice_get};
ghost use Rattle.chain_defs.specs.Molecule.{IsDynvec};

use crate::layout::{count_parts, is_laid_out, part};
use std::marker::Model;

/// A dynvec in the caller's bytes. Contracts see the list of its items.
#[derive(Drop)]
pub struct DynView<'a> {
    bytes: &'a [u8],
}

impl<'a> Model for DynView<'a> {
    ghost use Rattle.std.specs.Prelude.{ℕ, List};

    ghost Value = { List (List ℕ) };

    ghost use Rattle.chain_defs.specs.Molecule.{parts_of, IsDynvec};

    ghost view = { λ v. parts_of v.bytes.now };

    ghost invariant = { λ v. IsDynvec v.bytes.now (parts_of v.bytes.now) };
}

/// The view of bytes that are a dynvec; the strict reading of RFC 0008.
pub fn check_dynvec(b: &[u8]) -> Option<DynView<'_>>
    ensures found { IfSome result (IsDynvec b.now) }
    ensures only { (items : List (List ℕ)) → IsDynvec b.now items → result ≡ Some items }
{
    if is_laid_out(b) {
        Some(DynView { bytes: b })
    } else {
        None
    }
}

impl<'a> DynView<'a> {
    /// The view of bytes that are known to be a dynvec: nothing is checked again.
    pub fn from_encoding(b: &'a [u8]) -> Self
        requires { (items : List (List ℕ)) × IsDynvec b.now items }
        ensures found { IsDynvec b.now result }
        ensures only { (items : List (List ℕ)) → IsDynvec b.now items → result ≡ items }
    {
        DynView { bytes: b }
    }

    /// The whole encoding.
    pub fn bytes(&self) -> &'a [u8]
        ensures { IsDynvec result.now self.now }
    {
        self.bytes
    }

    /// How many items there are.
    pub fn len(&self) -> usize
        ensures { result ≡ length self.now }
    {
        count_parts(self.bytes)
    }

    pub fn is_empty(&self) -> bool
        ensures { IsTrue result ↔ (self.now ≡ []) }
    {
        self.bytes.len() == 4
    }

    /// Item `i`, from 0.
    pub fn item(&self, i: usize) -> &'a [u8]
        requires { i < length self.now }
        ensures { slice_get self.now i ≡ Some result.now }
    {
        part(self.bytes, count_parts(self.bytes), i)
    }
}
