// The texts of blocks, transactions, scripts and of what witnesses hold.
ghost use Rattle.std.specs.Prelude.{◌≡◌, IfOk};
ghost use Rattle.serde_json.specs.Written.{compact_text};
ghost use Rattle.json_defs.specs.Blocks as form;
ghost use Rattle.json_defs.specs.Blocks.{text_of};

use crate::text::{Text, Written};
use mol_schema::{BlockView, CellbaseWitnessView, ScriptView, TxView};
use outside::NoMemory;
use std::alloc::Global;

/// The compact text of a tree that has some twice as many bytes as the encoding.
fn write_text<W: Written>(alloc: Global, item: &W, encoding: &[u8]) -> Result<Vec<u8>, NoMemory>
    ensures { IfOk result (λ text. text.items ≡ compact_text (W.tree item.now)) }
{
    let mut text = Text::with_capacity(alloc, 2 * encoding.len())?;
    item.write(&mut text);
    text.done()
}

/// The compact text of a block, with no space and no line feed (docs/FORMATS.md, Blocks as JSON).
pub fn to_json(alloc: Global, block: &BlockView<'_>) -> Result<Vec<u8>, NoMemory>
    ensures { IfOk result (λ text. text.items ≡ text_of form.block block.now) }
{
    write_text(alloc, block, block.bytes())
}

/// The compact text of a transaction.
pub fn transaction_to_json(alloc: Global, transaction: &TxView<'_>) -> Result<Vec<u8>, NoMemory>
    ensures { IfOk result (λ text. text.items ≡ text_of form.transaction transaction.now) }
{
    write_text(alloc, transaction, transaction.bytes())
}

/// The compact text of a script.
pub fn script_to_json(alloc: Global, script: &ScriptView<'_>) -> Result<Vec<u8>, NoMemory>
    ensures { IfOk result (λ text. text.items ≡ text_of form.script script.now) }
{
    write_text(alloc, script, script.bytes())
}

/// The compact text of what the first witness of a cellbase holds.
pub fn cellbase_witness_to_json(
    alloc: Global,
    witness: &CellbaseWitnessView<'_>,
) -> Result<Vec<u8>, NoMemory>
    ensures { IfOk result (λ text. text.items ≡ text_of form.cellbase_witness witness.now) }
{
    write_text(alloc, witness, witness.bytes())
}
