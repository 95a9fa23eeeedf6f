// Which ids a block proposes.
ghost use Rattle.std.specs.Prelude.{◌≡◌, ◌<◌, List, Some, Err, IfOk, length};
ghost use Rattle.std.specs.List.{list_any};
ghost use Rattle.std.specs.Str.{bytes_eq};
ghost use Rattle.outside.specs.declared.disk.Damage.{Damage};
ghost use Rattle.outside.specs.declared.disk.ReadStop.TheVariants.{Damaged};
ghost use Rattle.chain_defs.specs.Kept.{block_at};
ghost use Rattle.chain_tree.specs.Told.{Stored, blocks_of};
ghost use Rattle.chain_tree.specs.Reading.{HasRead, stop_of};
ghost use Rattle.rule_defs.specs.Window as window;

use chain_tree::{Blocks, Tree};
use mol_schema::{BlockView, UncleView};
use outside::{Damage, ReadStop};

/// Whether the id is among the block's own.
fn is_own(block: &BlockView<'_>, id: &[u8]) -> bool
    ensures { result ≡ list_any (λ other. bytes_eq other id.now) block.now.proposals }
{
    'ids: for i in 0..block.proposals_count() {
        if block.proposals_item(i) == id {
            return true;
        }
    }
    false
}

/// Whether the id is among those of an uncle.
fn is_of_uncle(uncle: &UncleView<'_>, id: &[u8]) -> bool
    ensures { result ≡ list_any (λ other. bytes_eq other id.now) uncle.now.proposals }
{
    'ids: for i in 0..uncle.proposals_count() {
        if uncle.proposals_item(i) == id {
            return true;
        }
    }
    false
}

/// Whether the id is among those of one of the uncles that the block embeds.
fn is_of_uncles(block: &BlockView<'_>, id: &[u8]) -> bool
    ensures { result ≡ list_any (λ uncle. list_any (λ other. bytes_eq other id.now) uncle.proposals) block.now.uncles }
{
    'uncles: for i in 0..block.uncles_count() {
        if is_of_uncle(&block.uncles_item(i), id) {
            return true;
        }
    }
    false
}

/// Whether the block or one of its uncles proposes the id.
fn proposes(block: &BlockView<'_>, id: &[u8]) -> bool
    ensures { result ≡ window.proposes id.now (Some block.now) }
{
    is_own(block, id) || is_of_uncles(block, id)
}

/// The same for a kept block. Damaged where the source finds it damaged.
pub(crate) fn is_proposed_at<B: Blocks>(
    tree: &Tree,
    blocks: &mut B,
    place: u32,
    id: &[u8],
) -> Result<bool, ReadStop>
    requires within { place < length tree.now.entries }
    requires counts { B.count blocks.old ≡ length tree.now.entries }
    ensures read { HasRead B.told B.count B.loans_of B.faults B.damages blocks.old blocks.new (stop_of result) }
    ensures proposes { (stored : List Stored) → B.told blocks.old ≡ Some stored
        → IfOk result (λ is. is ≡ window.proposes id.now (block_at (blocks_of stored) place)) }
    ensures undamaged { (stored : List Stored) → B.told blocks.old ≡ Some stored → (damage : Damage) → result ≡ Err (Damaged damage) → ⊥ }
{
    match blocks.bring(place) {
        Ok(()) => {}
        Err(stop) => return Err(stop),
    }
    let block = blocks.block();
    Ok(proposes(&block, id))
}
