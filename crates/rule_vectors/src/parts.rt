// Tables, dynvecs and fixvecs of whatever parts.

use crate::formats::Answer;
use mol_schema::{check_dynvec, check_fixvec, check_table};

/// Whether the bytes are such a table or vector.
pub(crate) fn reads(view: &str, bytes: &[u8]) -> Option<bool> {
    if let Some(size) = view.strip_prefix("Fixvec/") {
        return Some(check_fixvec(bytes, size.parse().ok()?).is_some());
    }
    match view {
        "Table/0" => Some(check_table::<0>(bytes).is_some()),
        "Table/1" => Some(check_table::<1>(bytes).is_some()),
        "Table/2" => Some(check_table::<2>(bytes).is_some()),
        "Table/3" => Some(check_table::<3>(bytes).is_some()),
        "Dynvec" => Some(check_dynvec(bytes).is_some()),
        _ => None,
    }
}

/// A part, or their number.
pub(crate) fn field<'a>(
    view: &str,
    bytes: &'a [u8],
    accessor: &str,
    i: usize,
) -> Option<Answer<'a>> {
    match view {
        "Table/1" => field_of_table::<1>(bytes, accessor, i),
        "Table/2" => field_of_table::<2>(bytes, accessor, i),
        "Dynvec" => item_of_dynvec(bytes, accessor, i),
        _ => {
            let size = view.strip_prefix("Fixvec/")?;
            item_of_fixvec(bytes, size.parse().ok()?, accessor, i)
        }
    }
}

fn field_of_table<'a, const N: usize>(
    bytes: &'a [u8],
    accessor: &str,
    i: usize,
) -> Option<Answer<'a>> {
    let table = check_table::<N>(bytes)?;
    match accessor {
        "bytes" => Some(Answer::Bytes(table.bytes())),
        "field" if i < N => Some(Answer::Bytes(table.field(i))),
        _ => None,
    }
}

fn item_of_dynvec<'a>(bytes: &'a [u8], accessor: &str, i: usize) -> Option<Answer<'a>> {
    let list = check_dynvec(bytes)?;
    match accessor {
        "len" => Some(Answer::Number(list.len())),
        "item" if i < list.len() => Some(Answer::Bytes(list.item(i))),
        _ => None,
    }
}

fn item_of_fixvec<'a>(
    bytes: &'a [u8],
    size: usize,
    accessor: &str,
    i: usize,
) -> Option<Answer<'a>> {
    let list = check_fixvec(bytes, size)?;
    match accessor {
        "len" => Some(Answer::Number(list.len())),
        "item" if i < list.len() => Some(Answer::Bytes(list.item(i))),
        _ => None,
    }
}
