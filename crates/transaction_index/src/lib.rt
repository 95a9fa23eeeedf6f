//! Where a branch committed its transactions, by their hashes.
//!
//! A [`TransactionIndex`] has a [`Row`] for each, and finds the first of a hash by halving: whichever hashes are picked, a
//! look-up among n takes log n steps. It keeps 40 bytes for each row.
#![tactic(auto)]

mod index;
mod row;

pub use index::TransactionIndex;
pub use row::Row;
