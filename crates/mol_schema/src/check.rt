//! What a read checks, once, by kind of shape.

ghost use Rattle.std.specs.Prelude.{◌↔◌, IsTrue};
ghost use Rattle.chain_defs.specs.Molecule.{IsDynvec, parts_of};
ghost use Rattle.chain_defs.specs.Checked.{HasFields, IsItems, IsListOf, IsOptionOf};

use crate::parts::{list_item, list_len};
use crate::view::Row;
use crate::{check_dynvec, check_fixvec, check_table};

pub(crate) fn has_fields<const N: usize>(b: &[u8]) -> bool
    ensures { IsTrue result ↔ HasFields N b.now }
{
    check_table::<N>(b).is_some()
}

pub(crate) fn are_items(b: &[u8], size: usize) -> bool
    ensures { IsTrue result ↔ IsItems size b.now }
{
    check_fixvec(b, size).is_some()
}

fn is_list(b: &[u8]) -> bool
    ensures { IsTrue result ↔ IsDynvec b.now (parts_of b.now) }
{
    check_dynvec(b).is_some()
}

pub(crate) fn is_list_of<R: Row>(b: &[u8]) -> bool
    ensures { IsTrue result ↔ IsListOf R.IsChecked b.now }
{
    if !is_list(b) {
        return false;
    }
    for i in 0..list_len(b) {
        if !R::is_encoding(list_item(b, i)) {
            return false;
        }
    }
    true
}

pub(crate) fn is_option_of<R: Row>(b: &[u8]) -> bool
    ensures { IsTrue result ↔ IsOptionOf R.IsChecked b.now }
{
    b.is_empty() || R::is_encoding(b)
}
