//! The rule on the uncles of a block, J15 (docs/RULES.md, "Uncles").
//!
//! [`uncles_ok`] is the contract of use: over a tree and an index of the uncles that kept blocks embed it answers whether
//! each uncle of a block keeps the rule, exactly by `has_uncles` of `rule_defs`. It reads no kept block. [`Uncles`] is
//! that index: it grows with each block that joins, after `reserve` without memory. Whether a block joins is left to the
//! layers above.
#![tactic(auto)]

mod branch;
mod header;
mod index;
mod proposals;
mod rule;

pub use index::Uncles;
pub use rule::uncles_ok;
