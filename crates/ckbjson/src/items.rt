// Items from JSON to bytes, and from bytes to JSON.
ghost use Rattle.std.specs.Prelude.{◌≡◌, ◌++◌, [], ◌∷◌, Err, IfOk};
ghost use Rattle.chain_defs.specs.Schema as schema;
ghost use Rattle.json_blocks.specs.declared.stop.JsonStop.TheVariants.{Bad};
ghost use Rattle.json_defs.specs.Blocks as form;
ghost use Rattle.json_defs.specs.Laws.{IsNoText};
ghost use Rattle.ckbjson.specs.Items.{IsRead, IsNotRead, IsReadSealed, IsLineOf, IsShown, IsShownAs, IsShownSpecification};

use crate::words::Kind;
use block_seal::seal;
use json_blocks::{
    JsonStop, cellbase_witness_from_json, cellbase_witness_to_json, from_json, script_from_json,
    script_to_json, to_json, transaction_from_json, transaction_to_json,
};
use json_spec::{specification_from_json, specification_to_json};
use mol_schema::{BlockView, CellbaseWitnessView, ScriptView, TxView};
use outside::NoMemory;
use std::alloc::Global;

/// The bytes of the item that a text is read as.
pub(crate) fn read_item(alloc: Global, kind: Kind, text: &[u8]) -> Result<Vec<u8>, JsonStop>
    ensures found { IfOk result (λ bytes. IsRead kind text.now bytes.items) }
    ensures only { result ≡ Err Bad → IsNotRead kind text.now }
{
    match kind {
        Kind::Transaction => transaction_from_json(alloc, text),
        Kind::Block => from_json(alloc, text),
        Kind::Script => script_from_json(alloc, text),
        Kind::Witness => cellbase_witness_from_json(alloc, text),
        Kind::Specification => specification_from_json(alloc, text),
    }
}

/// The bytes of the block that a text is read as, with what its header commits to. None where its cells hold or occupy more
/// than a DAO field has room for.
pub(crate) fn read_sealed(alloc: Global, text: &[u8]) -> Result<Option<Vec<u8>>, JsonStop>
    ensures found { IfOk result (λ sealed. IsReadSealed text.now sealed) }
    ensures only { result ≡ Err Bad → IsNoText form.block schema.block text.now }
{
    match from_json(alloc, text) {
        Ok(bytes) => Ok(seal(alloc, &BlockView::from_encoding(&bytes))?),
        Err(stop) => Err(stop),
    }
}

/// The line of the item whose bytes these are, or None where they are of none.
pub(crate) fn show_item(
    alloc: Global,
    kind: Kind,
    bytes: &[u8],
) -> Result<Option<Vec<u8>>, NoMemory>
    ensures { IfOk result (λ shown. IsShown kind bytes.now shown) }
{
    match kind {
        Kind::Transaction => show_transaction(alloc, bytes),
        Kind::Block => show_block(alloc, bytes),
        Kind::Script => show_script(alloc, bytes),
        Kind::Witness => show_witness(alloc, bytes),
        Kind::Specification => show_specification(alloc, bytes),
    }
}

/// A text, with the end of its line.
fn line_of(mut text: Vec<u8>) -> Result<Option<Vec<u8>>, NoMemory>
    ensures { IfOk result (λ line. IsLineOf text.items line) }
{
    text.push(b'\n')?;
    Ok(Some(text))
}

fn show_transaction(alloc: Global, bytes: &[u8]) -> Result<Option<Vec<u8>>, NoMemory>
    ensures { IfOk result (λ shown. IsShownAs form.transaction schema.transaction bytes.now shown) }
{
    match TxView::read(bytes) {
        Some(transaction) => line_of(transaction_to_json(alloc, &transaction)?),
        None => Ok(None),
    }
}

fn show_block(alloc: Global, bytes: &[u8]) -> Result<Option<Vec<u8>>, NoMemory>
    ensures { IfOk result (λ shown. IsShownAs form.block schema.block bytes.now shown) }
{
    match BlockView::read(bytes) {
        Some(block) => line_of(to_json(alloc, &block)?),
        None => Ok(None),
    }
}

fn show_script(alloc: Global, bytes: &[u8]) -> Result<Option<Vec<u8>>, NoMemory>
    ensures { IfOk result (λ shown. IsShownAs form.script schema.script bytes.now shown) }
{
    match ScriptView::read(bytes) {
        Some(script) => line_of(script_to_json(alloc, &script)?),
        None => Ok(None),
    }
}

fn show_witness(alloc: Global, bytes: &[u8]) -> Result<Option<Vec<u8>>, NoMemory>
    ensures { IfOk result (λ shown. IsShownAs form.cellbase_witness schema.cellbase_witness bytes.now shown) }
{
    match CellbaseWitnessView::read(bytes) {
        Some(witness) => line_of(cellbase_witness_to_json(alloc, &witness)?),
        None => Ok(None),
    }
}

fn show_specification(alloc: Global, bytes: &[u8]) -> Result<Option<Vec<u8>>, NoMemory>
    ensures { IfOk result (λ shown. IsShownSpecification bytes.now shown) }
{
    match specification_to_json(alloc, bytes)? {
        Some(text) => line_of(text),
        None => Ok(None),
    }
}
