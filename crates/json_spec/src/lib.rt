//! A chain's specification as JSON (docs/FORMATS.md, A specification as JSON).
//!
//! `specification_from_json` gives the 100 bytes of the specification that a text is read as, and Bad where there is none;
//! `specification_to_json` the text of such bytes. `Form` of the specs has the table of its keys, as `json_defs` has those of
//! blocks, and `specification_laws` what is true of it. Whether a specification keeps S1 to S7 is left to `epochs`.
#![tactic(auto)]

mod laws;
mod maturity;
mod read;
mod span;
mod write;

pub use laws::specification_laws;
pub use read::specification_from_json;
pub use span::span_of;
pub use write::specification_to_json;
