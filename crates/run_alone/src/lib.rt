//! The commands without a store: `exec`, `asm`, `dis` and `unjson`.
//!
//! [`standalone`] reads a file and writes what is said of it: for every source and sink its report is the one that
//! `report_defs` defines for the bytes that the source gave, which it reads to their end or to a byte past the longest file.
//! How a program runs is left to `program_run`, assembly to `rv_text`, and a block's text to `json_blocks`.
#![tactic(auto)]

mod files;
mod lines;

pub use files::standalone;
