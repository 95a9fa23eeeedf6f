//! The Merkle root of a list of hashes (RFC 0006), as a block's header has it of its transactions.
//!
//! The contract of use: where there is memory, `root` gives the `root` of the items that `chain_defs`
//! defines: 32 zero bytes for no item, the item itself for one, and otherwise node 0 of the complete
//! binary Merkle tree over CKB's hash; `root_laws` has what the nodes of that tree are. Proofs of membership are
//! left to others.
#![tactic(auto)]

mod laws;
mod tree;

pub use laws::root_laws;
pub use tree::root;
