//! The scripts of a transaction, run group by group (RFC 0009; RFC 0022; docs/RULES.md, "Script groups").
//!
//! [`run_groups`] is the contract of use: over a transaction with what it resolves to, and a source of kept blocks, it
//! answers the cycles that its scripts take within a budget, or the first failure, exactly by `outcome_of` of
//! `verdict_defs`. Scripts are shown parts of the transaction and of the cells as they lie; what is computed or read for
//! them, a hash, a number or a header, stands in a few bytes of its own. What the transaction resolves to is left to
//! `tx_rules`, which rule a failure breaks to the layers above. [`watch_groups`] runs the same groups by a [`Watcher`], which
//! looks at them as they run: what it leaves of the source is proved of it, and not what the watcher sees.
#![tactic(auto)]

mod bytes;
mod codes;
mod fitting;
mod groups;
mod items;
mod running;
mod shown;
mod sources;
mod stop;
mod type_id;
mod watching;
mod world;

pub use groups::Group;
pub use running::run_groups;
pub use stop::ScriptStop;
pub use watching::{GroupEnd, Terms, Watcher, watch_groups};
