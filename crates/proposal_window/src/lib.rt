//! The proposal window of a branch (docs/RULES.md, "A block").
//!
//! [`earliest`] is the contract of use: over a tree and a source of kept blocks it answers the earliest proposer of an id
//! for a height, exactly by `rule_defs`. It reads at most w_far - w_close + 1 blocks, copies nothing of them, and takes
//! no memory. [`Proposed`] is for many ids at one height: it reads each of these blocks once, and has the ids that they
//! propose. [`ids_at`] lists those of one kept block. What is done with the answer is left to others.
#![tactic(auto)]

mod ids;
mod proposed;
mod proposers;
mod proposing;

pub use ids::ids_at;
pub use proposed::Proposed;
pub use proposers::earliest;
