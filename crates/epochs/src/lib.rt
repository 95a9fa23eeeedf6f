//! The chain specification and the arithmetic of epochs (RFC 0020, RFC 0017): the epoch and the epoch
//! field of a block, its shares of the rewards, and spans of epochs as fractions.
//!
//! `Spec::read` answers the fields of 100 bytes exactly where they keep S1 to S7, and otherwise the first
//! rule that they break; a `Spec` keeps S2 to S7 wherever there is one. The other calls are exact, and
//! allocate nothing. When a since is met is left to `since_rules`, what a share does to the DAO field to
//! `dao_math`.
#![tactic(auto)]

mod epoch_values;
mod issuance;
mod number;
mod specification;

pub use epoch_values::{Epoch, epoch_of, field, parts, span_over, well_formed};
pub use issuance::{primary, share};
pub use specification::Spec;
