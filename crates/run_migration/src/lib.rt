//! The command `migrate`.
//!
//! [`migrate`] opens the store, gives it an edition where it may have one, and prints what became of that, as `report_defs`
//! defines it over the chain that the disk keeps. When it may, and how the edition comes into the log, is left to
//! `node_store`.
#![tactic(auto)]

mod migration;

pub use migration::migrate;
