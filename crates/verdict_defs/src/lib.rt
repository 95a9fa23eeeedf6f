//! The judgement of blocks and transactions, as definitions: the scripts of a transaction with their groups and codes (RFC
//! 0009; RFC 0022), and J28 to J30 over their runs (`ScriptRules`); all rules on a block that stands on a branch, J4 to J32,
//! as rows of one list, those of a dry run of one transaction, and what a record keeps beside a block that joins (`Rules`,
//! `Ext`); the verdict on an item over the kept blocks, as a frame around these rules, with what is kept after it (`Verdict`,
//! `Chain`), and what comes of a transaction that is judged alone (`Trial`).
//!
//! [`Failure`], [`Verdict`] and [`Trial`] are shared by code and definitions. What the verdict is for is said by
//! [`verdict_laws`].
#![tactic(auto)]

mod failure;
mod laws;
mod trial;
mod verdict;

pub use failure::Failure;
pub use laws::verdict_laws;
pub use trial::Trial;
pub use verdict::Verdict;
