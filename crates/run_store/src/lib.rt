//! Opening the store that a command works on.
//!
//! [`open`] answers the node of what the disk reads as, or the status that the run ends with, and says what it leaves of
//! the disk, now and at each moment. [`status_of_reading`] is the status of a stop of reading after it. What a query, a
//! question or an import does with the node is theirs.
#![tactic(auto)]

mod store;

pub use store::{open, status_of_reading};
