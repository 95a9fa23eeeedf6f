// The parent of a kept block.
ghost use Rattle.std.specs.Prelude.{◌≡◌, ◌<◌, List, IfSome, IsSome, length};
ghost use Rattle.chain_defs.specs.Schema.{Block};
ghost use Rattle.chain_defs.specs.Kept.{parent_place};
ghost use Rattle.chain_tree.specs.Entries.{parent_of};
ghost use Rattle.chain_tree.specs.Blocks.{IndexesBlocks};

use chain_tree::Tree;

/// The place of the parent of the block at a place. None for the genesis, and where no block is kept.
pub fn parent_in(tree: &Tree, place: u32) -> Option<u32>
    ensures parent { result ≡ parent_of tree.now.entries place }
    ensures earlier { IfSome result (λ parent. parent < place) }
    ensures within { IfSome result (λ parent. parent < length tree.now.entries) }
    ensures some { 0 < place → place < length tree.now.entries → IsSome result }
    ensures of_blocks { (kept : List Block) → IndexesBlocks kept tree.now.entries → result ≡ parent_place kept place }
{
    if tree.len() <= place || place == 0 {
        return None;
    }
    Some(tree.entry(place).parent)
}
