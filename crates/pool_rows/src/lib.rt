//! A block that is assembled, in bytes (docs/RULES.md, "A block that is assembled"): its cellbase, its header, and the whole.
//!
//! The contract of use: where there is memory, each call gives the encoding of the value that `pool_defs` defines, which is a
//! value of its shape. What the parts are is left to the caller.
#![tactic(auto)]

mod block;
mod cellbase;
mod header;

pub use block::block_row;
pub use cellbase::{cellbase_alone, cellbase_paying};
pub use header::{Commitments, header_row, timestamp_after};
