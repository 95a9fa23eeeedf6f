ghost use Rattle.std.specs.Prelude.{◌≡◌, ℕ, ◌<◌, List, length, Some, IfSome, slice_get};
ghost use Rattle.chain_defs.specs.Molecule.{IsTable};

use crate::layout::{count_parts, has_count, is_laid_out_by, part};
use std::marker::Model;

/// A table of `N` fields in the caller's bytes. Contracts see the list of its fields.
#[derive(Drop)]
pub struct TableView<'a, const N: usize> {
    bytes: &'a [u8],
}

impl<'a, const N: usize> Model for TableView<'a, N> {
    ghost use Rattle.std.specs.Prelude.{ℕ, List};

    ghost Value = { List (List ℕ) };

    ghost use Rattle.chain_defs.specs.Molecule.{parts_of, IsTable};

    ghost view = { λ v. parts_of v.bytes.now };

    ghost invariant = { λ v. IsTable N v.bytes.now (parts_of v.bytes.now) };
}

/// The view of bytes that are a table of `N` fields; the strict reading of RFC 0008.
pub fn check_table<const N: usize>(b: &[u8]) -> Option<TableView<'_, N>>
    ensures found { IfSome result (IsTable N b.now) }
    ensures only { (fields : List (List ℕ)) → IsTable N b.now fields → result ≡ Some fields }
{
    if !has_count(b) {
        return None;
    }
    if count_parts(b) != N {
        return None;
    }
    if !is_laid_out_by(b, N) {
        return None;
    }
    Some(TableView { bytes: b })
}

impl<'a, const N: usize> TableView<'a, N> {
    /// The view of bytes that are known to be a table of `N` fields: nothing is checked again.
    pub fn from_encoding(b: &'a [u8]) -> Self
        requires { (fields : List (List ℕ)) × IsTable N b.now fields }
        ensures found { IsTable N b.now result }
        ensures only { (fields : List (List ℕ)) → IsTable N b.now fields → result ≡ fields }
    {
        TableView { bytes: b }
    }

    /// The whole encoding.
    pub fn bytes(&self) -> &'a [u8]
        ensures { IsTable N result.now self.now }
    {
        self.bytes
    }

    /// Field `i`, from 0.
    pub fn field(&self, i: usize) -> &'a [u8]
        requires { i < N }
        ensures { slice_get self.now i ≡ Some result.now }
    {
        part(self.bytes, N, i)
    }
}
