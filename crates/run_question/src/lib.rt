//! The questions: `check` and `assemble`.
//!
//! [`question`] opens the store, reads a whole input, and prints what `report_defs` defines of its items over the chain that the
//! disk keeps, whose blocks stay as they were. A question more is a function that finds its answer (`answer_to`). [`assemble`]
//! tells what becomes of each item in a block over a node, the bytes of the block, and the first rule that it breaks; how it is
//! put together is left to `tx_pool`.
#![tactic(auto)]

mod assembling;
mod assembly;
mod lines;
mod over_blocks;
mod over_disk;
mod questions;

pub use assembling::assemble;
pub use pool_defs::Line;
pub use questions::{answer_of_trial, check, judge_item, question};
pub use tx_pool::Assembled;
