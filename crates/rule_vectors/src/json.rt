// Blocks, transactions, scripts and what the first witness of a cellbase holds, as JSON.
use crate::formats::bytes_of;
use json_blocks::{
    JsonStop, cellbase_witness_from_json, cellbase_witness_to_json, from_json, script_from_json,
    script_to_json, to_json, transaction_from_json, transaction_to_json,
};
use mol_schema::{BlockView, CellbaseWitnessView, ScriptView, TxView};
use std::alloc::Global;

/// What a row has as JSON.
#[derive(Clone, Copy)]
pub(crate) enum Kind {
    Block,
    Transaction,
    Script,
    Witness,
}

/// The text of an item, if these are its bytes.
fn text_of(alloc: Global, kind: Kind, bytes: &[u8]) -> Option<Vec<u8>> {
    match kind {
        Kind::Block => to_json(alloc, &BlockView::read(bytes)?).ok(),
        Kind::Transaction => transaction_to_json(alloc, &TxView::read(bytes)?).ok(),
        Kind::Script => script_to_json(alloc, &ScriptView::read(bytes)?).ok(),
        Kind::Witness => cellbase_witness_to_json(alloc, &CellbaseWitnessView::read(bytes)?).ok(),
    }
}

/// The bytes of the item that a text is read as.
fn read(alloc: Global, kind: Kind, text: &[u8]) -> Result<Vec<u8>, JsonStop> {
    match kind {
        Kind::Block => from_json(alloc, text),
        Kind::Transaction => transaction_from_json(alloc, text),
        Kind::Script => script_from_json(alloc, text),
        Kind::Witness => cellbase_witness_from_json(alloc, text),
    }
}

/// An item, and its text, which is read as the item.
pub(crate) fn agrees_on_text(alloc: Global, kind: Kind, columns: &str) -> Option<bool> {
    let (item, wanted) = columns.split_once('\t')?;
    let bytes = bytes_of(alloc, item)?;
    let text = text_of(alloc, kind, &bytes)?;
    let back = read(alloc, kind, &text).ok()?;
    Some(text.as_slice() == wanted.as_bytes() && back.as_slice() == bytes.as_slice())
}

/// A block, which its text is read as.
pub(crate) fn comes_back(alloc: Global, columns: &str) -> Option<bool> {
    let bytes = bytes_of(alloc, columns)?;
    let text = text_of(alloc, Kind::Block, &bytes)?;
    let back = from_json(alloc, &text).ok()?;
    Some(back.as_slice() == bytes.as_slice())
}

/// A count and a block, whose text is made as often.
pub(crate) fn makes_again(alloc: Global, columns: &str) -> Option<bool> {
    let (count, block) = columns.split_once('\t')?;
    let count = count.parse::<u32>().ok()?;
    let bytes = bytes_of(alloc, block)?;
    let block = BlockView::read(&bytes)?;
    for _ in 0..count {
        if to_json(alloc, &block).ok()?.is_empty() {
            return Some(false);
        }
    }
    Some(true)
}

/// Whether no beginning of the text is read as an item.
fn is_uncut(alloc: Global, kind: Kind, text: &[u8]) -> Option<bool> {
    for end in 0..text.len() {
        match read(alloc, kind, &text[..end]) {
            Ok(_) => return Some(false),
            Err(JsonStop::Bad) => {}
            Err(JsonStop::NoMemory) => return None,
        }
    }
    Some(true)
}

/// A text in hex, and the item that it is read as, or `bad`. Or `uncut`: it is bad where it is cut short, at whatever
/// place.
pub(crate) fn agrees_on_item(alloc: Global, kind: Kind, columns: &str) -> Option<bool> {
    let (text, wanted) = columns.split_once('\t')?;
    let text = bytes_of(alloc, text)?;
    if wanted == "uncut" {
        return is_uncut(alloc, kind, &text);
    }
    match read(alloc, kind, &text) {
        Ok(item) => Some(item.as_slice() == bytes_of(alloc, wanted)?.as_slice()),
        Err(JsonStop::Bad) => Some(wanted == "bad"),
        Err(JsonStop::NoMemory) => None,
    }
}
