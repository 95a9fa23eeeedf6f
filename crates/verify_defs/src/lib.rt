//! What is wrong first of an image of the disk (docs/STORE.md, "Whether a store is sound"), as definitions: the place and the
//! cause. [`Fault`] and [`Cause`] are shared by code and definitions; [`log_laws`] says of LOG that nothing is wrong exactly where
//! it is sound. That an image of which something is wrong is not sound stands in `verify_laws`.
#![tactic(auto)]

mod fault;
mod laws;

pub use fault::{Cause, ExtPart, Fault};
pub use laws::log_laws;
