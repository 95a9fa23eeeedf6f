//! The queries: `tip`, `header`, `json`, `epoch`, `audit`, `cell`, `list` and `dao`.
//!
//! [`query`] opens the store, prints the answer that `report_defs` defines over the chain that the disk keeps, and only
//! reads a disk whose log is at rest. [`answer_to`] finds the answer over a node that is open, and leaves it for the next; a
//! query more is a function there.
#![tactic(auto)]

mod audit;
mod dao;
mod lines;
mod list;
mod over_blocks;
mod over_disk;
mod queries;

pub use lines::{header_line, none_line};
pub use queries::{answer_to, line_or_stop, query};
