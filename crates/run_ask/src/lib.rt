//! `ckbask`: many questions over one opening.
//!
//! [`ask`] opens the store, answers each line of the input before it reads the next, and promises what `ask_defs` defines of the
//! text, of the order of reading and writing, and of the disk, which it only reads once the store is open. A question more is a
//! variant of `Ask` and a function that finds its answer (`answer_to` in answers.rt). Queries are run_query's and `check` is
//! run_question's.
#![tactic(auto)]

mod answers;
mod asking;
mod committed;
mod finding;
mod next;
mod over_blocks;
mod over_disk;
mod text;
mod words;

pub use asking::ask;
