//! The judge of a node: [`Rules`] says what is to become of an item by the rules J1 to J32, as `import` of `node_store` asks it,
//! and [`check`] judges a transaction alone after the tip.
//!
//! By which rules a block is judged is left to `block_judge`. An item is a block, or J1; a block is new, and on a kept
//! parent, or J3; then it is judged at sight, and over the live cells, which go to its parent's branch and back unless it
//! becomes the tip.
#![tactic(auto)]

mod checking;
mod deciding;
mod entry;
mod over_disk;

pub use block_judge::JudgeStop;
pub use checking::check;
pub use deciding::Rules;
