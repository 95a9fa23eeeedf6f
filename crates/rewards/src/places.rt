// Where the blocks of a branch are kept.
ghost use Rattle.std.specs.Prelude.{◌≡◌, ◌^◌, ◌<◌, ◌≤◌, List, Some, length, slice_get, IsSomeAnd};
ghost use Rattle.chain_defs.specs.Schema.{Block};
ghost use Rattle.chain_defs.specs.Branch.{branch_places};
ghost use Rattle.chain_tree.specs.Entries.{entry_at};
ghost use Rattle.chain_tree.specs.Blocks.{IndexesBlocks};

use chain_tree::Tree;

/// The place of the block at a height above the genesis, on the branch of the parent.
pub(crate) fn place_at(tree: &Tree, parent: u32, height: u64) -> u32
    requires later { 1 ≤ height }
    requires height { IsSomeAnd (entry_at tree.now.entries parent) (λ entry. height ≤ entry.number) }
    ensures within { result < length tree.now.entries }
    ensures later { 0 < result }
    ensures fits { height < 2 ^ 32 }
    ensures of_blocks { (kept : List Block) → IndexesBlocks kept tree.now.entries → slice_get (branch_places kept parent) height ≡ Some result }
{
    let place = tree.ancestor(parent, height);
    // no number is above its place, and the genesis alone has number 0
    let kept = tree.len();
    prove!(0 < place && place < kept);
    place
}
