// The laws of the tree.

ghost use Rattle.chain_defs.specs.Root.{InnerIsHashOfChildren, OuterIsItem};

/// States what the nodes of the tree are (RFC 0006): each inner node is the hash of its two children, each
/// other node is an item. It does nothing.
pub fn root_laws()
    ensures inner { InnerIsHashOfChildren }
    ensures outer { OuterIsItem }
{}
