// What the verdict looks at in a block, and what the tree keeps of it.
ghost use Rattle.std.specs.Prelude.{◌≡◌};
ghost use Rattle.chain_defs.specs.Kept.{block_hash};
ghost use Rattle.chain_tree.specs.Blocks.{Describes};

use chain_tree::Entry;
use mol_schema::BlockView;

/// The hash that it names as its parent's.
pub(crate) fn parent_hash(block: &BlockView<'_>) -> [u8; 32]
    ensures { result ≡ block.now.header.parent_hash }
{
    let mut hash = [0u8; 32];
    hash.copy_from_slice(block.header().parent_hash());
    hash
}

/// The entry of a block with this hash on a kept parent. Where its record lies is not known yet.
pub(crate) fn entry_on(block: &BlockView<'_>, hash: [u8; 32], parent: u32) -> Entry
    requires { hash ≡ block_hash block.now }
    ensures describes { Describes block.now result }
    ensures parent { result.parent ≡ parent }
{
    Entry::of_header(&block.header(), hash, parent, 0, 0)
}
