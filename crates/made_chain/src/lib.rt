//! The generated chain, imported into a node over a disk in memory, and counted: [`counts_of`] imports it once, and
//! [`soak_counts_of`] in sessions over one store, each of which a crash ends; [`play`] plays such a list of sessions.
//!
//! The chain is made by `chain_gen`, judged by who is handed in, and kept by `node_store`; the disk and the count of steps are
//! this crate's own.
#![tactic(auto)]

mod counting;
mod outcome;
mod plan;
mod playing;
mod soaking;

pub use counting::counts_of;
pub use outcome::{End, Played};
pub use plan::Session;
pub use playing::{play, session};
pub use soaking::soak_counts_of;
