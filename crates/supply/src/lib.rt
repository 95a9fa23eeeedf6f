//! Running totals of what a chain has issued, along a branch (docs/RULES.md, "The reward"): in live cells, unpaid, burned.
//!
//! [`Totals`] is the contract of use: of a genesis, with one block more or one less, of a whole branch, and what is left of
//! the DAO field after them, each exactly by `supply_defs` over a tree and a source of kept blocks that have joined. A step
//! reads its block once, for the fees and the cellbase, and beside that what `rewards` reads for the one reward that falls
//! due; no cell is looked up. That what is left stays the same along a branch is the law of `supply_defs`.
#![tactic(auto)]

mod due;
mod fees;
mod outputs;
mod step;
mod totals;

pub use totals::Totals;
