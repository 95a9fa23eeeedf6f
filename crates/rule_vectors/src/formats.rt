// Encodings that are read, hashes, roots, and blocks and their parts as JSON: the rows after the word `format`.
//
// Bytes are in hex, and `-` is for no bytes. Such a row is one of these:
//
// - a view, what its `read` answers (`some` or `none`), and bytes. `Table/N` and `Fixvec/SIZE` name a table of
//   `N` fields, and a fixvec of items of `SIZE` bytes;
// - a view, `uncut`, and bytes that it reads, but not where they are cut short, at whatever place;
// - a view that is no part of a block, an accessor, a place in a list or 0, bytes, and what the accessor gives; those of a block
//   and its parts show in its text;
// - `hash`, a message, and its hash;
// - `root`, items with a comma between two, and their Merkle root;
// - `json`, a block, and its text, which is read as the block;
// - `back`, a block, which its text is read as;
// - `again`, a count and a block, whose text is made as often;
// - `unjson`, a text in hex, and the block that it is read as, or `bad`. Or `uncut`: it is bad where it is cut short, at
//   whatever place;
// - `transaction` and `untransaction`, `script` and `unscript`, `witness` and `unwitness` as `json` and `unjson`, of a
//   transaction, of a script, and of what the first witness of a cellbase holds.
//
// The rows on encodings were made by programs that were written from RFC 0008 and the schema alone, or by hand from them.
// Those on hashes, roots and JSON come from outside. So do the last 18 of `unjson`; the others were made by a program that
// was written from docs/FORMATS.md alone, and agrees with 393 texts from outside. Those of `back` are the blocks of
// examples/, which tests/rows/sample_blocks.py writes. Those of transactions, scripts and witnesses are parts of the blocks of
// `json` with their texts, which tests/rows/json_items.py takes out and spoils.
use crate::json::Kind;
use crate::{digests, json, views};
use row_table::Row;
use std::alloc::{AllocError, Global};
use std::string::String;

/// What an accessor gives.
#[derive(Clone, Copy)]
pub(crate) enum Answer<'a> {
    Number(usize),
    Bytes(&'a [u8]),
    Nothing,
}

fn text(alloc: Global, answer: Answer) -> Result<String, AllocError> {
    match answer {
        Answer::Number(n) => format!(in alloc; "{n}"),
        Answer::Bytes([]) => format!(in alloc; "-"),
        Answer::Bytes(bytes) => hex::encode(alloc, bytes),
        Answer::Nothing => format!(in alloc; "none"),
    }
}

pub(crate) fn bytes_of(alloc: Global, digits: &str) -> Option<Vec<u8>> {
    if digits == "-" {
        return Some(Vec::new(alloc));
    }
    hex::decode(alloc, digits).ok()
}

/// Whether what the row calls answers as it says; None where it is no row.
pub(crate) fn agrees(alloc: Global, row: &mut Row) -> Option<bool> {
    match row.word() {
        "hash" => digests::agrees_on_message(alloc, row.rest()),
        "root" => digests::agrees_on_root(alloc, row.rest()),
        "json" => json::agrees_on_text(alloc, Kind::Block, row.rest()),
        "transaction" => json::agrees_on_text(alloc, Kind::Transaction, row.rest()),
        "script" => json::agrees_on_text(alloc, Kind::Script, row.rest()),
        "witness" => json::agrees_on_text(alloc, Kind::Witness, row.rest()),
        "back" => json::comes_back(alloc, row.rest()),
        "again" => json::makes_again(alloc, row.rest()),
        "unjson" => json::agrees_on_item(alloc, Kind::Block, row.rest()),
        "untransaction" => json::agrees_on_item(alloc, Kind::Transaction, row.rest()),
        "unscript" => json::agrees_on_item(alloc, Kind::Script, row.rest()),
        "unwitness" => json::agrees_on_item(alloc, Kind::Witness, row.rest()),
        view => agrees_on_view(alloc, view, row.rest()),
    }
}

/// Whether a view reads the bytes of a row, or gives what it has.
fn agrees_on_view(alloc: Global, view: &str, columns: &str) -> Option<bool> {
    let (word, rest) = columns.split_once('\t')?;
    match word {
        "some" => views::reads(view, &bytes_of(alloc, rest)?),
        "none" => Some(!views::reads(view, &bytes_of(alloc, rest)?)?),
        "uncut" => views::reads_uncut(view, &bytes_of(alloc, rest)?),
        _ => agrees_on_field(alloc, view, word, rest),
    }
}

fn agrees_on_field(alloc: Global, view: &str, accessor: &str, rest: &str) -> Option<bool> {
    let (place, rest) = rest.split_once('\t')?;
    let (digits, wanted) = rest.split_once('\t')?;
    let bytes = bytes_of(alloc, digits)?;
    let answer = views::field(view, &bytes, accessor, place.parse().ok()?)?;
    Some(text(alloc, answer).ok()?.as_str() == wanted)
}
