//! The parts of bytes that are known to be an encoding. Nothing is checked again.

ghost use Rattle.std.specs.Prelude.{◌≡◌, ℕ, ◌^◌, ◌<◌, ◌==◌, if◌then◌else◌, None, Some, drop, length, slice_get, slice_index};
ghost use Rattle.std.specs.Option.{option_copied};
ghost use Rattle.chain_defs.specs.Molecule.{IsDynvec, items_of_fixvec, parts_of};
ghost use Rattle.chain_defs.specs.Shape.{table_field};
ghost use Rattle.chain_defs.specs.Checked.{HasFields, IsBytes, IsItems, IsOptionOf};

use crate::{DynView, FixView, TableView};

/// The same slice, with what its type says of the elements.
pub(crate) fn whole(bytes: &[u8]) -> &[u8]
    ensures same { result ≡ bytes.entry }
    ensures small { (i : ℕ) → slice_index bytes.now i < 256 }
{
    bytes
}

/// Field `i` of a table of `N` fields.
pub(crate) fn field<const N: usize>(table: &[u8], i: usize) -> &[u8]
    requires is_table { HasFields N table.now }
    requires within { i < N }
    ensures { result.now ≡ table_field table.now i }
{
    TableView::<N>::from_encoding(table).field(i)
}

/// How many items a dynvec has.
pub(crate) fn list_len(list: &[u8]) -> usize
    requires { IsDynvec list.now (parts_of list.now) }
    ensures value { result ≡ length (parts_of list.now) }
    ensures fits { result < 2 ^ 30 }
{
    DynView::from_encoding(list).len()
}

/// Item `i` of a dynvec.
pub(crate) fn list_item(list: &[u8], i: usize) -> &[u8]
    requires is_list { IsDynvec list.now (parts_of list.now) }
    requires within { i < length (parts_of list.now) }
    ensures at { slice_get (parts_of list.now) i ≡ Some result.now }
    ensures is { result.now ≡ table_field list.now i }
{
    DynView::from_encoding(list).item(i)
}

/// How many items of `size` bytes a fixvec has.
pub(crate) fn items_len(items: &[u8], size: usize) -> usize
    requires { IsItems size items.now }
    ensures value { result ≡ length (items_of_fixvec size items.now) }
    ensures fits { result < 2 ^ 32 }
{
    FixView::from_encoding(items, size).len()
}

/// Item `i` of a fixvec of items of `size` bytes.
pub(crate) fn item(items: &[u8], size: usize, i: usize) -> &[u8]
    requires are_items { IsItems size items.now }
    requires within { i < length (items_of_fixvec size items.now) }
    ensures at { slice_get (items_of_fixvec size items.now) i ≡ Some result.now }
    ensures len { length result.now ≡ size }
{
    FixView::from_encoding(items, size).item(i)
}

/// What a `Bytes` holds: all after its count.
pub(crate) fn content(bytes: &[u8]) -> &[u8]
    requires { IsBytes bytes.now }
    ensures value { result.now ≡ drop 4 bytes.now }
    ensures fits { length result.now < 2 ^ 32 }
{
    &bytes[4..]
}

/// What a `Bytes` holds, where there is one.
pub(crate) fn optional_content(bytes: &[u8]) -> Option<&[u8]>
    requires { IsOptionOf IsBytes bytes.now }
    ensures { option_copied result ≡ (if length bytes.now == 0 then None else Some (drop 4 bytes.now)) }
{
    if bytes.is_empty() {
        None
    } else {
        Some(content(bytes))
    }
}
