// The ids that a block and its uncles propose, one after another.
ghost use Rattle.std.specs.Prelude.{◌≡◌, ◌<◌, ◌++◌, List, length, Some, Err, IfOk, OnOk, slice_get};
ghost use Rattle.std.specs.List.{flat_map};
ghost use Rattle.std.specs.Option.{option_map};
ghost use Rattle.outside.specs.declared.disk.Damage.{Damage};
ghost use Rattle.outside.specs.declared.disk.ReadStop.TheVariants.{Damaged};
ghost use Rattle.chain_defs.specs.Kept.{block_at};
ghost use Rattle.chain_tree.specs.Told.{Stored, blocks_of};
ghost use Rattle.chain_tree.specs.Reading.{HasRead, stop_of};
ghost use Rattle.rule_defs.specs.Window as window;

use chain_tree::{Blocks, Tree};
use mol_schema::{BlockView, UncleView};
use outside::{Damage, NoMemory, ReadStop};
use std::alloc::Global;

/// A proposal id of a block.
fn own_id(block: &BlockView<'_>, i: usize) -> [u8; 10]
    requires { i < length block.now.proposals }
    ensures { slice_get block.now.proposals i ≡ Some result }
{
    let mut id = [0; 10];
    id.copy_from_slice(block.proposals_item(i));
    id
}

/// A proposal id of an uncle.
fn uncle_id(uncle: &UncleView<'_>, i: usize) -> [u8; 10]
    requires { i < length uncle.now.proposals }
    ensures { slice_get uncle.now.proposals i ≡ Some result }
{
    let mut id = [0; 10];
    id.copy_from_slice(uncle.proposals_item(i));
    id
}

/// Puts the block's own ids after those that are there.
fn put_own(ids: &mut Vec<[u8; 10]>, block: &BlockView<'_>) -> Result<(), NoMemory>
    ensures { OnOk result (ids.new.items ≡ ids.old.items ++ block.now.proposals) }
{
    'ids: for i in 0..block.proposals_count() {
        ids.push(own_id(block, i))?;
    }
    Ok(())
}

/// Puts the ids of an uncle after them.
fn put_of_uncle(ids: &mut Vec<[u8; 10]>, uncle: &UncleView<'_>) -> Result<(), NoMemory>
    ensures { OnOk result (ids.new.items ≡ ids.old.items ++ uncle.now.proposals) }
{
    'ids: for i in 0..uncle.proposals_count() {
        ids.push(uncle_id(uncle, i))?;
    }
    Ok(())
}

/// Puts those of all uncles that the block embeds.
fn put_of_uncles(ids: &mut Vec<[u8; 10]>, block: &BlockView<'_>) -> Result<(), NoMemory>
    ensures { OnOk result (ids.new.items ≡ ids.old.items ++ flat_map (λ uncle. uncle.proposals) block.now.uncles) }
{
    'uncles: for i in 0..block.uncles_count() {
        put_of_uncle(ids, &block.uncles_item(i))?;
    }
    Ok(())
}

/// Puts the ids that the block and its uncles propose after those that are there.
pub(crate) fn put_ids(ids: &mut Vec<[u8; 10]>, block: &BlockView<'_>) -> Result<(), NoMemory>
    ensures { OnOk result (ids.new.items ≡ ids.old.items ++ window.proposed_ids block.now) }
{
    put_own(ids, block)?;
    put_of_uncles(ids, block)
}

/// The ids that the block and its uncles propose.
fn ids_of(alloc: Global, block: &BlockView<'_>) -> Result<Vec<[u8; 10]>, NoMemory>
    ensures { IfOk result (λ ids. ids.items ≡ window.proposed_ids block.now) }
{
    let mut ids = Vec::new(alloc);
    put_ids(&mut ids, block)?;
    Ok(ids)
}

/// The ids that the kept block at a place and its uncles propose, one after another. Damaged where the source finds the
/// block damaged.
pub fn ids_at<B: Blocks>(
    alloc: Global,
    tree: &Tree,
    blocks: &mut B,
    place: u32,
) -> Result<Vec<[u8; 10]>, ReadStop>
    requires within { place < length tree.now.entries }
    requires counts { B.count blocks.old ≡ length tree.now.entries }
    ensures read { HasRead B.told B.count B.loans_of B.faults B.damages blocks.old blocks.new (stop_of result) }
    ensures ids { (stored : List Stored) → B.told blocks.old ≡ Some stored
        → IfOk result (λ ids. option_map window.proposed_ids (block_at (blocks_of stored) place) ≡ Some ids.items) }
    ensures undamaged { (stored : List Stored) → B.told blocks.old ≡ Some stored → (damage : Damage) → result ≡ Err (Damaged damage) → ⊥ }
{
    match blocks.bring(place) {
        Ok(()) => {}
        Err(stop) => return Err(stop),
    }
    match ids_of(alloc, &blocks.block()) {
        Ok(ids) => Ok(ids),
        Err(_) => Err(ReadStop::NoMemory),
    }
}
