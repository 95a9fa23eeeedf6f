//! What the programs beside `ckbdev` share, which read one input and write one answer: their words, the whole input up to a
//! limit, the answer, and the number that a run ends with.
//!
//! `read_input` gives what its source gave, to its end, and `write_answer` has its sink take all of it; a fault comes only where
//! the stream counted one. What is made of an input is left to the programs.
#![tactic(auto)]

mod status;
mod streams;
mod words;

pub use status::Status;
pub use streams::{read_input, write_answer};
pub use words::words_of;
