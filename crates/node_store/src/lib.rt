//! The node over a disk: the kept blocks of a store, and how they grow by one item after another.
//!
//! [`Node`] is the contract of use. Its clauses see a `Chain` of `verdict_defs`, and where the records of its log end: `open`
//! answers the chain that a store keeps; `import` answers the verdict on an item, as a [`Judging`] says it, and where it joins
//! keeps it and puts its record on the disk, so that at each moment a crash leaves the chain before the item or after it;
//! `judge` answers that verdict and keeps nothing; `migrate` gives the store an edition of the rules from an epoch on, where its tip stands before it; `tip`,
//! `tree` and `state` tell what is kept, and `header`, `block`, `live`, `fetch` and `counted` what queries ask of the best branch.
//! [`judge`] accepts a specification and a genesis, and [`NewStore`] makes a store of them.
//!
//! What is looked up of the kept blocks is [`Kept`], which needs no disk. [`Store`] is a source of kept blocks by their places in
//! the log, over a [`Cache`] of those that were used last, and each call over the disk makes one, in over_disk.rt. The judge by the rules is in `node_core`, so that neither waits for the other's proofs. How records lie in the
//! log is left to `log_file`. Laws on which this rests, that stored blocks are canonical and can be taken back, are contracts of
//! functions that do nothing: [`kept_blocks`], [`own_exts`], [`fees_of_joined`], [`way_of_joined`] and [`rows_of_joined`].
#![tactic(auto)]

mod area;
mod body;
mod cache;
mod decision;
mod gathering;
mod joined;
mod joining;
mod judging;
mod kept;
mod laws;
mod migration;
mod moving;
mod new_store;
mod node;
mod over_disk;
mod queries;
mod reading;
mod recorded;
mod snapshot;
mod store;
mod trying;

pub use body::KeptBody;
pub use cache::Cache;
pub use decision::{Decision, Joining};
pub use joined::{fees_of_joined, kept_blocks, own_exts, rows_of_joined, way_of_joined};
pub use judging::Judging;
pub use kept::{Kept, is_above_tip};
pub use laws::store_laws;
pub use log_file::LogStop;
pub use new_store::{NewStop, NewStore, judge};
pub use node::{HELD, Node};
pub use queries::{Fetched, HeaderAt, Live};
pub use recorded::Recorded;
pub use store::Store;
pub use store_defs::Moved;
