//! The bytes of a store on the disk: the log by its records and its grammar, where they end, what they say, and a log at rest;
//! and snapshots, the live cells of a branch as an area of the disk keeps them, with their gates, and when an area is that of
//! some kept blocks. Which blocks may join is left to `store_defs`, and how both are read and written to `log_file` and
//! `snapshots`.
//!
//! Definitions, and their laws as contracts of functions that do nothing: [`record_laws`], [`log_laws`] and [`edition_laws`];
//! [`bytes_of_snapshots`], [`snapshots_stay`], [`areas_in_turn`] and [`sound_areas`].
#![tactic(auto)]

mod areas;
mod grammar;

pub use areas::{areas_in_turn, bytes_of_snapshots, snapshots_stay, sound_areas};
pub use grammar::{edition_laws, log_laws, record_laws};
