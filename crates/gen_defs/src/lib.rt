//! The generated chain: a specification, a genesis and the blocks after it, all of them fixed by a seed and a count. The lists
//! and the DAO field of a block depend on its height alone, on both sides of a fork; which block is the parent of which is a
//! walk over the blocks.
//!
//! Definitions, and laws as contracts of functions that do nothing: [`start_laws`], [`field_laws`], [`walk_laws`] and
//! [`reward_laws`] say what they are for; the genesis keeps G1 to G7 ([`genesis_laws`]), and the next block of a branch keeps
//! J31 and J32 where what the branch commits is found on it ([`rule_laws`]).
#![tactic(auto)]

mod genesis;
mod laws;

pub use genesis::{genesis_laws, rule_laws};
pub use laws::{field_laws, reward_laws, start_laws, walk_laws};
