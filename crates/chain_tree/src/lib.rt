//! The tree of the kept blocks: for each an entry, at the place at which it joined.
//!
//! [`Tree`] is the contract of use. Its clauses see the list of the entries, and beside it how many more can be
//! added without an allocation (`spare`). `find` answers the place of a hash, `ancestor` the place of a height on a
//! branch, `tip` that of the tip; for every kept list of `chain_defs` that the entries index (`IndexesBlocks`), these
//! are `place_of`, `branch_places` and `tip_place`. `add` needs a place that `reserve` made, and takes no memory.
//! [`Blocks`] is the trait by which the rules read the bytes of kept blocks and their exts; a source that tells them
//! gives just these. Where they lie, and whether a block may join, is left to the layers above. [`ByDigest`] is how maps
//! hash keys that are digests, here and above.
#![tactic(auto)]

mod ancestors;
mod blocks;
mod digest;
mod entry;
mod findings;
mod median;
mod tree;

pub use blocks::Blocks;
pub use digest::{ByDigest, DigestHasher};
pub use entry::Entry;
pub use findings::{damaged_at, noted};
pub use tree::Tree;
