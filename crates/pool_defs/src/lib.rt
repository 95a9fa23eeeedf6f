//! The block that is assembled of a list of transactions, after the last block of the best branch: what becomes of each of
//! them, the block, and the rule that it breaks. Definitions, the enum that code and definitions share, and the laws that
//! say what may be relied on, as contracts of [`assembly_laws`] and [`joining_laws`].
#![tactic(auto)]

mod laws;
mod line;

pub use laws::{assembly_laws, joining_laws};
pub use line::Line;
