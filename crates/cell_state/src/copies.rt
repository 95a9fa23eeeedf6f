// Copies of old cells out of kept blocks.
ghost use Rattle.std.specs.Prelude.{◌≡◌, ◌^◌, ◌<◌, List, Some, Err, IfOk, IfSome, IsSome, length, slice_get};
ghost use Rattle.std.specs.Option.{option_map};
ghost use Rattle.chain_defs.specs.Shape.{decoded};
ghost use Rattle.chain_defs.specs.Schema.{cell_output};
ghost use Rattle.chain_defs.specs.Cell.{Cell, data_of};
ghost use Rattle.outside.specs.declared.disk.Area.TheVariants.{Log};
ghost use Rattle.outside.specs.declared.disk.Damage.{Damage};
ghost use Rattle.outside.specs.declared.disk.ReadStop.TheVariants.{DiskFault, Damaged};
ghost use Rattle.chain_tree.specs.Told.{Stored};
ghost use Rattle.chain_tree.specs.Reading.{HasRead, stop_of};
ghost use Rattle.cell_state.specs.Copies.{IsCopyOf, CopiesOutput, NamesOutput, output_in};

use crate::cells::{CellMeta, OutPoint, Resolved};
use chain_tree::Blocks;
use mol_schema::{BlockView, OutputView, TxView};
use outside::{Area, Damage, NoMemory, ReadStop};
use std::alloc::Global;

/// The data of an output: what stands at its place, no bytes where nothing does.
pub fn data_at<'a>(tx: &TxView<'a>, index: usize) -> &'a [u8]
    ensures data { result.now ≡ data_of tx.now index }
    ensures fits { length result.now < 2 ^ 32 }
{
    let raw = tx.raw();
    if index < raw.outputs_data_count() {
        raw.outputs_data_item(index)
    } else {
        &[]
    }
}

/// The output that a row names in a block, with its data: at the out-point's index, of the transaction at the row's
/// place. That its hash is the out-point's is not tried.
pub fn output_at<'a>(
    block: &BlockView<'a>,
    o: &OutPoint,
    meta: &CellMeta,
) -> Option<(OutputView<'a>, &'a [u8])>
    ensures { option_map (λ it. (it.0, it.1.now)) result ≡ output_in block.now meta.now.transaction o.now.index }
{
    if meta.tx as usize >= block.transactions_count() {
        return None;
    }
    let tx = block.transactions_item(meta.tx as usize);
    let raw = tx.raw();
    let index = o.index as usize;
    if index >= raw.outputs_count() {
        return None;
    }
    Some((raw.outputs_item(index), data_at(&tx, index)))
}

/// A copy of an output and of its data.
pub fn copy_of(
    alloc: Global,
    o: OutPoint,
    meta: CellMeta,
    output: &OutputView<'_>,
    content: &[u8],
) -> Result<Resolved, NoMemory>
    ensures out_point { IfOk result (λ copy. copy.out_point ≡ o) }
    ensures row { IfOk result (λ copy. copy.row ≡ meta) }
    ensures output { IfOk result (λ copy. IsSome (decoded cell_output copy.output)) }
    ensures copied { (cell : Cell) → output.now ≡ cell.output → content.now ≡ cell.content → IfOk result (IsCopyOf cell) }
{
    Ok(Resolved {
        out_point: o,
        meta,
        output: output.bytes().to_vec(alloc)?,
        content: content.to_vec(alloc)?,
    })
}

/// A copy of the output that a row names in its block, which begins at a place of LOG.
fn copy_in(
    alloc: Global,
    block: &BlockView<'_>,
    o: OutPoint,
    meta: CellMeta,
    at: u64,
) -> Result<Resolved, ReadStop>
    ensures out_point { IfOk result (λ copy. copy.out_point ≡ o) }
    ensures row { IfOk result (λ copy. copy.row ≡ meta) }
    ensures output { IfOk result (λ copy. IsSome (decoded cell_output copy.output)) }
    ensures copied { (cell : Cell) → output_in block.now meta.transaction o.index ≡ Some (cell.output, cell.content) → IfOk result (IsCopyOf cell) }
    ensures exact { IfOk result (CopiesOutput (output_in block.now meta.transaction o.index)) }
    ensures undamaged { (cell : Cell) → output_in block.now meta.transaction o.index ≡ Some (cell.output, cell.content)
        → (damage : Damage) → result ≡ Err (Damaged damage) → ⊥ }
    ensures place { (damage : Damage) → result ≡ Err (Damaged damage) → damage ≡ record { area = Log; at = at } }
    ensures unread { result ≡ Err DiskFault → ⊥ }
{
    let Some((output, content)) = output_at(block, &o, &meta) else {
        return Err(ReadStop::Damaged(Damage {
            area: Area::Log,
            at,
        }));
    };
    match copy_of(alloc, o, meta, &output, content) {
        Ok(copy) => Ok(copy),
        Err(NoMemory) => Err(ReadStop::NoMemory),
    }
}

/// Copies the bytes of an old cell, whose block begins at a place of LOG. Where the row names no output, which never comes
/// over blocks that tell it, there is damage at that place.
pub fn fetch<B: Blocks>(
    alloc: Global,
    blocks: &mut B,
    o: OutPoint,
    meta: CellMeta,
    at: u64,
) -> Result<Resolved, ReadStop>
    requires within { meta.block < B.count blocks.old }
    ensures read { HasRead B.told B.count B.loans_of B.faults B.damages blocks.old blocks.new (stop_of result) }
    ensures out_point { IfOk result (λ copy. copy.out_point ≡ o) }
    ensures row { IfOk result (λ copy. copy.row ≡ meta) }
    ensures output { IfOk result (λ copy. IsSome (decoded cell_output copy.output)) }
    ensures copied { (stored : List Stored) (cell : Cell) → B.told blocks.old ≡ Some stored → NamesOutput stored o meta cell → IfOk result (IsCopyOf cell) }
    ensures undamaged { (stored : List Stored) (cell : Cell) → B.told blocks.old ≡ Some stored → NamesOutput stored o meta cell
        → (damage : Damage) → result ≡ Err (Damaged damage) → ⊥ }
    ensures exact { (stored : List Stored) (made : Stored) → B.told blocks.old ≡ Some stored → slice_get stored meta.block ≡ Some made
        → IfOk result (CopiesOutput (output_in made.block meta.transaction o.index)) }
    ensures place { IsSome (B.told blocks.old) → (damage : Damage) → result ≡ Err (Damaged damage) → damage ≡ record { area = Log; at = at } }
    ensures in_hand { (damage : Damage) → result ≡ Err (Damaged damage) → IfSome (B.in_hand blocks.new) (λ e. (e ≡ meta.block) × (damage ≡ record { area = Log; at = at })) }
{
    match blocks.bring(meta.block) {
        Ok(()) => {}
        Err(stop) => return Err(stop),
    }
    let block = blocks.block();
    match copy_in(alloc, &block, o, meta, at) {
        Ok(copy) => Ok(copy),
        Err(stop) => {
            blocks.report(stop);
            Err(stop)
        }
    }
}
