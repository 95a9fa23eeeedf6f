//! Forms of `Source`, `Sink` and `Disk` in memory, which fail at the calls that they are set to, and `NoDisk`. `MemDisk` is
//! `Crashing`: it can be left as a crash leaves it.
//!
//! They are for programs of vectors and for chains that are made in memory; what they say shows that what the traits
//! of `outside` say can be met. Of the program's crates only `made_chain` uses them.
#![tactic(auto)]

mod areas;
mod choices;
mod failure_plan;
mod history;
mod mem_disk;
mod memory;
mod no_disk;
mod tears;

pub use mem_disk::MemDisk;
pub use memory::{MemSink, MemSource};
pub use no_disk::NoDisk;
