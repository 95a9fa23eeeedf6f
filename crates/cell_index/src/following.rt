// From what stands for one place's branch to what stands for another's.
ghost use Rattle.std.specs.Prelude.{◌≡◌, ◌<◌, ℕ, List, length, Some, Err, IfOk, IsSome, slice_get};
ghost use Rattle.chain_defs.specs.Schema.{Block};
ghost use Rattle.outside.specs.declared.disk.Damage.{Damage};
ghost use Rattle.outside.specs.declared.disk.ReadStop.TheVariants.{Damaged};
ghost use Rattle.chain_tree.specs.Blocks.{IndexesBlocks};
ghost use Rattle.chain_tree.specs.Damages.{IsAtRecord};
ghost use Rattle.chain_tree.specs.Told.{Stored, blocks_of};
ghost use Rattle.chain_tree.specs.Reading.{HasRead, stop_of};
ghost use Rattle.cell_state.specs.Moves.{IsPathUp, IsOnTheWay, AreOnTheWay};
ghost use Rattle.cell_index.specs.Follow.{IsStep, CanBeFollowed};

use cell_state::parent_in;
use chain_tree::{Blocks, Tree};
use outside::ReadStop;
use std::alloc::Global;

/// What stands for the branch of a kept block, and is moved to that of its parent or of a child.
pub(crate) trait Follows: Drop {
    /// What it is asked to stand for.
    ghost What: { Type 0 };

    ghost stands: { What → List Block → ℕ → Self → Type 0 };

    /// With the kept block at a place taken, which is not the genesis. Damaged where the source finds it damaged, or what it
    /// changes does not fit.
    fn taken<B: Blocks>(
        self,
        alloc: Global,
        tree: &Tree,
        blocks: &mut B,
        place: u32,
    ) -> Result<Self, ReadStop>
        requires later { 0 < place }
        requires within { place < length tree.now.entries }
        requires counts { B.count blocks.old ≡ length tree.now.entries }
        ensures read { HasRead B.told B.count B.loans_of B.faults B.damages blocks.old blocks.new (stop_of result) }
        ensures stands { (what : What) (stored : List Stored) (parent : ℕ) → B.told blocks.old ≡ Some stored → IsStep stored parent place
            → stands what (blocks_of stored) parent self → IfOk result (stands what (blocks_of stored) place) }
        ensures undamaged { (what : What) (stored : List Stored) (parent : ℕ) → B.told blocks.old ≡ Some stored → IsStep stored parent place
            → stands what (blocks_of stored) parent self → (damage : Damage) → result ≡ Err (Damaged damage) → ⊥ }
        ensures at_record { IsSome (B.told blocks.old) → (damage : Damage) → result ≡ Err (Damaged damage) → IsAtRecord tree.now.entries place damage };

    /// With the kept block at a place taken back, which is not the genesis. Damaged as before.
    fn taken_back<B: Blocks>(
        self,
        alloc: Global,
        tree: &Tree,
        blocks: &mut B,
        place: u32,
    ) -> Result<Self, ReadStop>
        requires later { 0 < place }
        requires within { place < length tree.now.entries }
        requires counts { B.count blocks.old ≡ length tree.now.entries }
        ensures read { HasRead B.told B.count B.loans_of B.faults B.damages blocks.old blocks.new (stop_of result) }
        ensures stands { (what : What) (stored : List Stored) (parent : ℕ) → B.told blocks.old ≡ Some stored → IsStep stored parent place
            → stands what (blocks_of stored) place self → IfOk result (stands what (blocks_of stored) parent) }
        ensures undamaged { (what : What) (stored : List Stored) (parent : ℕ) → B.told blocks.old ≡ Some stored → IsStep stored parent place
            → stands what (blocks_of stored) place self → (damage : Damage) → result ≡ Err (Damaged damage) → ⊥ }
        ensures at_record { IsSome (B.told blocks.old) → (damage : Damage) → result ≡ Err (Damaged damage) → IsAtRecord tree.now.entries place damage };
}

/// Takes blocks back from one place down to the fork with another. Answers what stands there, the fork, and the places after it
/// on the branch of the other, the last first. The later of two places is not on the branch of the earlier one, so it is
/// always the later one that goes down to its parent.
fn go_down<S: Follows, B: Blocks>(
    alloc: Global,
    first: S,
    tree: &Tree,
    blocks: &mut B,
    from: u32,
    to: u32,
) -> Result<(S, u32, Vec<u32>), ReadStop>
    requires from { from < length tree.now.entries }
    requires to { to < length tree.now.entries }
    requires counts { B.count blocks.old ≡ length tree.now.entries }
    ensures read { HasRead B.told B.count B.loans_of B.faults B.damages blocks.old blocks.new (stop_of result) }
    ensures within { IfOk result (λ it. (i place : ℕ) → slice_get it.2.items i ≡ Some place → (0 < place) × (place < length tree.now.entries)) }
    ensures on_way { (kept : List Block) → IndexesBlocks kept tree.now.entries → IfOk result (λ it. AreOnTheWay kept from to it.2.items) }
    ensures path { (kept : List Block) → IndexesBlocks kept tree.now.entries → IfOk result (λ it. IsPathUp kept to it.2.items it.1) }
    ensures stands { (what : S.What) (stored : List Stored) → B.told blocks.old ≡ Some stored → IndexesBlocks (blocks_of stored) tree.now.entries
        → CanBeFollowed stored from to → S.stands what (blocks_of stored) from first → IfOk result (λ it. S.stands what (blocks_of stored) it.1 it.0) }
    ensures undamaged { (what : S.What) (stored : List Stored) → B.told blocks.old ≡ Some stored → IndexesBlocks (blocks_of stored) tree.now.entries
        → CanBeFollowed stored from to → S.stands what (blocks_of stored) from first → (damage : Damage) → result ≡ Err (Damaged damage) → ⊥ }
    ensures at_record { (kept : List Block) → IndexesBlocks kept tree.now.entries → IsSome (B.told blocks.old) → (damage : Damage) → result ≡ Err (Damaged damage)
        → (place : ℕ) × (IsOnTheWay kept from to place × IsAtRecord tree.now.entries place damage) }
{
    let mut standing = first;
    let mut up = Vec::new(alloc);
    let mut low = from;
    let mut high = to;
    'down: while low != high {
        if low < high {
            match up.push(high) {
                Ok(()) => {}
                Err(_) => return Err(ReadStop::NoMemory),
            }
            match parent_in(tree, high) {
                Some(parent) => high = parent,
                None => unreachable!(),
            }
        } else {
            standing = match standing.taken_back(alloc, tree, blocks, low) {
                Ok(next) => next,
                Err(stop) => return Err(stop),
            };
            match parent_in(tree, low) {
                Some(parent) => low = parent,
                None => unreachable!(),
            }
        }
    }
    Ok((standing, low, up))
}

/// What stands for the branch of one place, moved to that of another: down to their fork, a block taken back each step, and up
/// from there, a block taken each step. It looks at the blocks on the way and at nothing else. Damaged, at its record, where
/// the source finds a block on the way damaged, or what it changes does not fit.
pub(crate) fn moved<S: Follows, B: Blocks>(
    alloc: Global,
    first: S,
    tree: &Tree,
    blocks: &mut B,
    from: u32,
    to: u32,
) -> Result<S, ReadStop>
    requires from { from < length tree.now.entries }
    requires to { to < length tree.now.entries }
    requires counts { B.count blocks.old ≡ length tree.now.entries }
    ensures read { HasRead B.told B.count B.loans_of B.faults B.damages blocks.old blocks.new (stop_of result) }
    ensures stands { (what : S.What) (stored : List Stored) → B.told blocks.old ≡ Some stored → IndexesBlocks (blocks_of stored) tree.now.entries
        → CanBeFollowed stored from to → S.stands what (blocks_of stored) from first → IfOk result (S.stands what (blocks_of stored) to) }
    ensures undamaged { (what : S.What) (stored : List Stored) → B.told blocks.old ≡ Some stored → IndexesBlocks (blocks_of stored) tree.now.entries
        → CanBeFollowed stored from to → S.stands what (blocks_of stored) from first → (damage : Damage) → result ≡ Err (Damaged damage) → ⊥ }
    ensures at_record { (kept : List Block) → IndexesBlocks kept tree.now.entries → IsSome (B.told blocks.old) → (damage : Damage) → result ≡ Err (Damaged damage)
        → (place : ℕ) × (IsOnTheWay kept from to place × IsAtRecord tree.now.entries place damage) }
{
    let (fork, _, up) = match go_down(alloc, first, tree, blocks, from, to) {
        Ok(down) => down,
        Err(stop) => return Err(stop),
    };
    let mut standing = fork;
    let count = up.len();
    'up: for i in 0..count {
        let place = up[count - i - 1];
        standing = match standing.taken(alloc, tree, blocks, place) {
            Ok(next) => next,
            Err(stop) => return Err(stop),
        };
    }
    Ok(standing)
}
