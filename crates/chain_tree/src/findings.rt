// The damage that is found of kept blocks: how it is counted and named, and that which a reader finds.
ghost use Rattle.std.specs.Prelude.{◌≡◌, ◌<◌, Some, length};
ghost use Rattle.outside.specs.Causes.{counted};
ghost use Rattle.outside.specs.declared.disk.Damage as disk;
ghost use Rattle.outside.specs.declared.disk.ReadStop.TheVariants.{Damaged};
ghost use Rattle.chain_tree.specs.Damages.{IsAtRecord};
ghost use Rattle.chain_tree.specs.Reading.{HasRead};

use crate::blocks::Blocks;
use crate::tree::Tree;
use outside::{Area, Damage, ReadStop};

/// How often damage was found and where last, after a stop. It counts as far as a count goes.
pub fn noted(found: u64, last: Option<Damage>, stop: ReadStop) -> (u64, Option<Damage>)
    ensures next { (damage : disk.Damage) → stop ≡ Damaged damage → result ≡ (counted found, Some damage) }
    ensures same { ((damage : disk.Damage) → stop ≡ Damaged damage → ⊥) → result ≡ (found, last) }
{
    match stop {
        ReadStop::Damaged(damage) => (found.saturating_add(1), Some(damage)),
        ReadStop::DiskFault => (found, last),
        ReadStop::NoMemory => (found, last),
    }
}

/// What a reader answers who finds that a kept block is not what the tree or the rows say: damage at the block's record,
/// which the source takes as found.
pub fn damaged_at<B: Blocks>(tree: &Tree, blocks: &mut B, place: u32) -> ReadStop
    requires within { place < length tree.now.entries }
    ensures read { HasRead B.told B.count B.loans_of B.faults B.damages blocks.old blocks.new (Some result) }
    ensures damage { (damage : disk.Damage) × (result ≡ Damaged damage) }
    ensures at_record { (damage : disk.Damage) → result ≡ Damaged damage → IsAtRecord tree.now.entries place damage }
    ensures in_hand { B.in_hand blocks.new ≡ B.in_hand blocks.old }
{
    let stop = ReadStop::Damaged(Damage {
        area: Area::Log,
        at: tree.entry(place).at,
    });
    blocks.report(stop);
    stop
}
