//! The page that explains why a block is refused, and both pages over a node: the place, what was found there and what is
//! wanted; and of each script group how it ended.
//!
//! [`page_of_transaction`] makes the page of a transaction that was judged after the tip, [`page_of_block`] that of a block
//! that was judged on its parent. What they leave of the disk is proved: it is only read; and that they are safe. No clause
//! says what a page says, and tests compare it with that of a model. What is found of a transaction is left to
//! `transaction_page`.
#![tactic(auto)]

mod after_tip;
mod block;
mod commitments;
mod header;
mod in_block;
mod on_parent;
mod over_disk;
mod payment;
mod uncles;

pub use after_tip::page_of_transaction;
pub use block::JudgedBlock;
pub use on_parent::page_of_block;
