//! Laws over the reports of `report_defs`, as contracts of functions that do nothing: a run has at most one, and what `assemble`
//! prints ends in a block that would join, or in a rule for which there is none; and a block which is assembled and breaks no
//! rule is canonical, and so joins ([`canonical_laws`]). Of a text: what code decodes to is read back from it ([`decoded_texts`]).
//!
//! The report of a text is a relation, so the first says that it pins what is written as a function would. No crate of the
//! program cites them, so that none of them waits for their proofs.
#![tactic(auto)]

mod canonical;
mod laws;
mod texts;

pub use canonical::canonical_laws;
pub use laws::{assembly_laws, report_laws};
pub use texts::decoded_texts;
