//! The simulations: `make` and `soak`.
//!
//! [`simulate`] prints what is counted of a generated chain that was imported in memory, once or again and again, by the
//! report that `report_defs` defines. It reads nothing and calls no disk of its caller's. The chain and its imports are left to `made_chain`.
#![tactic(auto)]

mod lines;
mod simulation;

pub use simulation::simulate;
