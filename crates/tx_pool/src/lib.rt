//! A block that is assembled of transactions, after a kept block (docs/RULES.md, "A block that is assembled").
//!
//! [`assemble`] is the contract of use: over a context and a source of kept blocks with their fees it answers what becomes of
//! each item, the block, and the first rule that the block breaks, exactly by `assembled` of `pool_defs`. What a rule says is
//! asked of the crates that judge blocks and transactions. A transaction is judged once, after those that stand in the
//! block by then, and the block once more at the end; all else is linear in the bytes of the items.
#![tactic(auto)]

mod assembling;
mod cellbase;
mod draft;
mod sealing;

pub use assembling::{Assembled, assemble};
