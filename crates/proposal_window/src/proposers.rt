// The earliest proposer of an id.
ghost use Rattle.std.specs.Prelude.{◌≡◌, ◌+◌, ◌-◌, ◌<◌, ◌≤◌, List, length, Some, Err, IfOk, IsSomeAnd};
ghost use Rattle.outside.specs.declared.disk.Damage.{Damage};
ghost use Rattle.outside.specs.declared.disk.ReadStop.TheVariants.{Damaged};
ghost use Rattle.chain_defs.specs.Branch.{branch};
ghost use Rattle.chain_tree.specs.Entries.{entry_at};
ghost use Rattle.chain_tree.specs.Blocks.{IndexesBlocks};
ghost use Rattle.chain_tree.specs.Told.{Stored, blocks_of};
ghost use Rattle.chain_tree.specs.Reading.{HasRead, stop_of};
ghost use Rattle.rule_defs.specs.Window as window;

use crate::proposing::is_proposed_at;
use chain_tree::{Blocks, Tree};
use epochs::Spec;
use outside::ReadStop;

/// The heights of the window of a height: the lowest, and the one after the highest.
pub(crate) fn window_of(spec: &Spec, height: u64) -> (u64, u64)
    ensures low { result.0 ≡ height - spec.now.w_far }
    ensures end { result.1 ≡ height + 1 - spec.now.w_close }
    ensures below { result.1 ≤ height }
{
    let low = height.saturating_sub(u64::from(spec.w_far));
    // w_close is at least 1
    let end = height.saturating_sub(u64::from(spec.w_close - 1));
    (low, end)
}

/// The lowest height, from w_far to w_close before this one, at which the block of the parent's branch or one of its
/// uncles proposes the id. None where none of them does. Damaged where the source finds one of these blocks damaged.
pub fn earliest<B: Blocks>(
    spec: &Spec,
    tree: &Tree,
    blocks: &mut B,
    parent: u32,
    id: &[u8; 10],
    height: u64,
) -> Result<Option<u64>, ReadStop>
    requires parent { parent < length tree.now.entries }
    requires counts { B.count blocks.old ≡ length tree.now.entries }
    requires height { IsSomeAnd (entry_at tree.now.entries parent) (λ entry. height ≤ entry.number + 1) }
    ensures read { HasRead B.told B.count B.loans_of B.faults B.damages blocks.old blocks.new (stop_of result) }
    ensures earliest { (stored : List Stored) → B.told blocks.old ≡ Some stored → IndexesBlocks (blocks_of stored) tree.now.entries
        → IfOk result (λ found. found ≡ window.earliest spec.now (branch (blocks_of stored) parent) id.now height) }
    ensures undamaged { (stored : List Stored) → B.told blocks.old ≡ Some stored → IndexesBlocks (blocks_of stored) tree.now.entries
        → (damage : Damage) → result ≡ Err (Damaged damage) → ⊥ }
{
    let (low, end) = window_of(spec, height);
    'window: for proposer in low..end {
        let place = tree.ancestor(parent, proposer);
        match is_proposed_at(tree, blocks, place, id) {
            Ok(true) => return Ok(Some(proposer)),
            Ok(false) => {}
            Err(stop) => return Err(stop),
        }
    }
    Ok(None)
}
