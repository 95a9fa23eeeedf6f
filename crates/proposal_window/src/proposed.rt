// All ids that a window proposes. Who proposes picks them, so they are sorted and not hashed.
ghost use Rattle.std.specs.Prelude.{◌≡◌, ◌+◌, ◌<◌, ◌≤◌, ◌||◌, List, ℕ, length, is_some, Some, Err, IfOk, OnOk, IsSomeAnd};
ghost use Rattle.std.specs.List.{list_any};
ghost use Rattle.std.specs.Str.{bytes_eq};
ghost use Rattle.outside.specs.declared.disk.Damage.{Damage};
ghost use Rattle.outside.specs.declared.disk.ReadStop.TheVariants.{Damaged};
ghost use Rattle.chain_defs.specs.Kept.{block_at};
ghost use Rattle.chain_defs.specs.Branch.{branch};
ghost use Rattle.chain_tree.specs.Entries.{entry_at};
ghost use Rattle.chain_tree.specs.Blocks.{IndexesBlocks};
ghost use Rattle.chain_tree.specs.Told.{Stored, blocks_of};
ghost use Rattle.chain_tree.specs.Reading.{HasRead, stop_of};
ghost use Rattle.rule_defs.specs.Window as window;

use crate::ids::put_ids;
use crate::proposers::window_of;
use chain_tree::{Blocks, Tree};
use epochs::Spec;
use outside::{Damage, ReadStop};
use sorted_keys::SortedKeys;
use std::alloc::Global;
use std::marker::Model;

/// The ids that the blocks of a window and their uncles propose. Clauses see them as a list, in any order.
#[derive(Drop)]
pub struct Proposed {
    ids: SortedKeys<10>,
}

impl Model for Proposed {
    ghost use Rattle.std.specs.Prelude.{List, ℕ};

    ghost Value = { List (List ℕ) };

    ghost view = { λ proposed. proposed.ids };
}

/// Puts the ids that a kept block and its uncles propose after those that are there. Damaged where the source finds the block
/// damaged.
fn put_at<B: Blocks>(
    ids: &mut Vec<[u8; 10]>,
    tree: &Tree,
    blocks: &mut B,
    place: u32,
) -> Result<(), ReadStop>
    requires within { place < length tree.now.entries }
    requires counts { B.count blocks.old ≡ length tree.now.entries }
    ensures read { HasRead B.told B.count B.loans_of B.faults B.damages blocks.old blocks.new (stop_of result) }
    ensures put { (stored : List Stored) → B.told blocks.old ≡ Some stored → OnOk result ((id : List ℕ) → list_any (bytes_eq id) ids.new.items
        ≡ (list_any (bytes_eq id) ids.old.items || window.proposes id (block_at (blocks_of stored) place))) }
    ensures undamaged { (stored : List Stored) → B.told blocks.old ≡ Some stored → (damage : Damage) → result ≡ Err (Damaged damage) → ⊥ }
{
    match blocks.bring(place) {
        Ok(()) => {}
        Err(stop) => return Err(stop),
    }
    let block = blocks.block();
    match put_ids(ids, &block) {
        Ok(()) => Ok(()),
        Err(_) => Err(ReadStop::NoMemory),
    }
}

impl Proposed {
    /// What the window of a height proposes, on the parent's branch: each of its blocks is read once. Damaged where the
    /// source finds one of them damaged.
    pub fn of<B: Blocks>(
        alloc: Global,
        spec: &Spec,
        tree: &Tree,
        blocks: &mut B,
        parent: u32,
        height: u64,
    ) -> Result<Proposed, ReadStop>
        requires parent { parent < length tree.now.entries }
        requires counts { B.count blocks.old ≡ length tree.now.entries }
        requires height { IsSomeAnd (entry_at tree.now.entries parent) (λ entry. height ≤ entry.number + 1) }
        ensures read { HasRead B.told B.count B.loans_of B.faults B.damages blocks.old blocks.new (stop_of result) }
        ensures proposed { (stored : List Stored) → B.told blocks.old ≡ Some stored → IndexesBlocks (blocks_of stored) tree.now.entries
            → IfOk result (λ proposed. (id : List ℕ) → list_any (bytes_eq id) proposed ≡ is_some (window.earliest spec.now (branch (blocks_of stored) parent) id height)) }
        ensures undamaged { (stored : List Stored) → B.told blocks.old ≡ Some stored → IndexesBlocks (blocks_of stored) tree.now.entries
            → (damage : Damage) → result ≡ Err (Damaged damage) → ⊥ }
    {
        let (low, end) = window_of(spec, height);
        let mut ids: Vec<[u8; 10]> = Vec::new(alloc);
        'window: for proposer in low..end {
            let place = tree.ancestor(parent, proposer);
            match put_at(&mut ids, tree, blocks, place) {
                Ok(()) => {}
                Err(stop) => return Err(stop),
            }
        }
        Ok(Proposed {
            ids: SortedKeys::of(ids),
        })
    }

    /// Whether an id is one of them.
    pub fn contains(&self, id: &[u8; 10]) -> bool
        ensures { result ≡ list_any (bytes_eq id.now) self.now }
    {
        self.ids.contains(id)
    }
}
