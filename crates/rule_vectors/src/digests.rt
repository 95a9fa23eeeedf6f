// The hash of a message, and the Merkle root of items.
use crate::formats::bytes_of;
use blake2b_ckb::ckbhash;
use cbmt::root;
use hex::FromHex;
use std::alloc::Global;

fn hash_in(digits: &str) -> Option<[u8; 32]> {
    <[u8; 32] as FromHex>::from_hex(digits).ok()
}

/// A message, and its hash.
pub(crate) fn agrees_on_message(alloc: Global, columns: &str) -> Option<bool> {
    let (message, wanted) = columns.split_once('\t')?;
    let wanted = hash_in(wanted)?;
    let message = bytes_of(alloc, message)?;
    Some(ckbhash(&message) == wanted)
}

/// Items with a comma between two, and their root.
pub(crate) fn agrees_on_root(alloc: Global, columns: &str) -> Option<bool> {
    let (items, wanted) = columns.split_once('\t')?;
    let wanted = hash_in(wanted)?;
    let items = items_of(alloc, items)?;
    Some(root_of(alloc, &items)? == wanted)
}

fn root_of(alloc: Global, items: &[[u8; 32]]) -> Option<[u8; 32]> {
    if items.len() >= 1 << 31 {
        return None;
    }
    root(alloc, items).ok()
}

fn items_of(alloc: Global, column: &str) -> Option<Vec<[u8; 32]>> {
    let mut items = Vec::new(alloc);
    if column == "-" {
        return Some(items);
    }
    for digits in column.split(',') {
        items.push(hash_in(digits)?).ok()?;
    }
    Some(items)
}
