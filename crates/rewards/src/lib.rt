//! What a branch gives to a block of it (docs/RULES.md, "The reward").
//!
//! [`reward`] is the contract of use: over a tree and a source of kept blocks whose exts have their own fees it answers the
//! reward of a block, exactly by `rule_defs`, where the branch has all blocks that may commit what the block proposed. It
//! reads the block itself twice; where this or its uncles propose something, it also reads w_far - w_close + 1 blocks after it,
//! each twice, and, where they commit one of these ids, w_far - w_close before it, each once. It hashes no transaction, and
//! holds the ids of two blocks and those that are committed. Which block a
//! cellbase pays, and to which lock, is left to others.
#![tactic(auto)]

mod amounts;
mod committed;
mod fees;
mod parts;
mod places;
mod proposals;
mod starts;

pub use parts::reward;
