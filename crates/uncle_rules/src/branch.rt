// The branch of a place.
ghost use Rattle.std.specs.Prelude.{◌≡◌, ◌<◌, List, length};
ghost use Rattle.chain_defs.specs.Schema.{Block};
ghost use Rattle.chain_defs.specs.Branch.{branch_places};
ghost use Rattle.chain_tree.specs.Blocks.{IndexesBlocks};
ghost use Rattle.uncle_rules.specs.Known.{is_on};

use chain_tree::Tree;

/// Whether a place is on the branch of a parent: only the one with its number can be it.
pub(crate) fn is_on_branch(tree: &Tree, parent: u32, place: u32) -> bool
    requires { parent < length tree.now.entries }
    ensures { (kept : List Block) → IndexesBlocks kept tree.now.entries → result ≡ is_on (branch_places kept parent) place }
{
    if tree.len() <= place {
        return false;
    }
    let number = tree.entry(place).number;
    if tree.entry(parent).number < number {
        return false;
    }
    tree.ancestor(parent, number) == place
}
