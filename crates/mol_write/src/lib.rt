//! Molecule's encodings (RFC 0008), written from their parts: table, dynvec and fixvec.
//!
//! The contract of use: contracts see a [`Builder`] as the list of the fields that were pushed.
//! `table`, `dynvec` and `fixvec` give the encoding of exactly these (`IsTable`, `IsDynvec`,
//! `IsFixvec` of `chain_defs`), and these are the clauses by which `mol_schema` reads them back.
//! What the fields themselves are is left to the caller.
#![tactic(auto)]

mod builder;

pub use builder::Builder;
