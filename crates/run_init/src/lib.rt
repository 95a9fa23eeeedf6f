//! The command `init`.
//!
//! [`init`] reads a specification and a genesis and makes the store of them, where the disk has none; where it has one, or a
//! rule is broken, the disk stays as it was. Its report is the one that `report_defs` defines. The rules on both are
//! left to `node_store`.
#![tactic(auto)]

mod lines;
mod making;

pub use making::init;
