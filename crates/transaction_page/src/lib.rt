//! The page that explains why a transaction is refused: the place, what was found there and what is wanted; and of each
//! script group how it ended.
//!
//! [`explain`] appends what is found of a transaction that was judged at a [`Site`], after the tip or in a block, to a [`Page`];
//! [`page_of_bytes`] is the page of bytes that are none. What `explain` leaves of its source of kept blocks is proved, and that
//! it is safe. No clause says what a page says, and tests compare it with that of a model. The page of a block is left to
//! `explanation`.
#![tactic(auto)]

mod age;
mod bytes;
mod canonical;
mod cells;
mod deps;
mod form;
mod groups;
mod history;
mod page;
mod rules;
mod site;
mod transaction;

pub use bytes::page_of_bytes;
pub use canonical::explain_block_bytes;
pub use page::Page;
pub use site::{OwnBlock, Site, entry_at, hash_from, is_on_branch, median_of};
pub use transaction::{Judged, explain, push_rule};
