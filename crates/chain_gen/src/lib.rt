//! The generated chain: a specification, a genesis and blocks after it, by a seed and a count.
//!
//! The contract of use: where there is memory, `make` gives the encodings of what `gen_defs` defines, byte for byte. That
//! the blocks join a node rests on digests that differ, and is not proved.
#![tactic(auto)]

mod growth;
mod heights;
mod start;
mod transactions;

pub use growth::{Made, make};
