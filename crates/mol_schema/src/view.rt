//! A row of the schema, and its view: what all rows share.

ghost use Rattle.std.specs.Prelude.{◌≡◌, ◌↔◌, ℕ, List, Some, IsTrue};
ghost use Rattle.chain_defs.specs.Shape.{Shape, IsEncoding, decoded};
ghost use Rattle.chain_defs.specs.Checked.{IsCheckOf};

use crate::parts::whole;
use std::marker::{Model, PhantomData};

/// A row of the schema. The type has no use when the program runs: contracts see it as the row's value, of which
/// `shape` is the encoding and `IsChecked` what a read checks.
pub trait Row: Drop {
    ghost shape: { Shape Self };

    ghost IsChecked: { List ℕ → Type 0 };

    /// Whether the bytes encode a value of the row: each part by its shape.
    fn is_encoding(b: &[u8]) -> bool
        ensures { IsTrue result ↔ IsChecked b.now };

    ghost is_check: { IsCheckOf IsChecked shape };
}

/// A row of the schema in the caller's bytes. Contracts see it as the row's value.
#[derive(Drop)]
pub struct View<'a, R: Row> {
    pub(crate) bytes: &'a [u8],
    row: PhantomData<R>,
}

impl<'a, R: Row> Model for View<'a, R> {
    ghost Value = { R };

    ghost view = { λ v. R.shape.decoding v.bytes.now };

    ghost invariant = { λ v. R.IsChecked v.bytes.now };
}

impl<'a, R: Row> View<'a, R> {
    /// The view of bytes that encode a value of the row.
    pub fn read(b: &'a [u8]) -> Option<Self>
        ensures value { result ≡ decoded R.shape b.now }
        ensures exact { (v : R) → (result ≡ Some v) ↔ IsEncoding R.shape b.now v }
    {
        if R::is_encoding(b) {
            Some(Self::from_checked(b))
        } else {
            None
        }
    }

    /// The view of bytes that were checked before.
    pub(crate) fn from_checked(b: &'a [u8]) -> Self
        requires { R.IsChecked b.now }
        ensures { result ≡ R.shape.decoding b.now }
    {
        View {
            bytes: b,
            row: PhantomData,
        }
    }

    /// The view of bytes that are known to encode a value of the row: nothing is checked again.
    pub fn from_encoding(b: &'a [u8]) -> Self
        requires { (v : R) × IsEncoding R.shape b.now v }
        ensures { (v : R) → IsEncoding R.shape b.now v → result ≡ v }
    {
        Self::from_checked(b)
    }

    /// The whole encoding.
    pub fn bytes(&self) -> &'a [u8]
        ensures { IsEncoding R.shape result.now self.now }
    {
        whole(self.bytes)
    }
}
