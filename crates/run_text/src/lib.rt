//! What the commands of a run have in common: the words, an input item by item, lines, and what the sink takes.
//!
//! [`command_of`] is the command that a run's words ask for, by the grammar of `report_defs`; [`command_alone`], [`command_with`]
//! and [`command_at`] are those of a name with so many arguments. [`next_item`] reads the next item of
//! an input, or says how the reading ends, and [`read_whole`] an input that is read to its end. [`write_text`] hands a text to
//! a sink, [`write_bytes`] and [`write_answer`] answer a status after it, and [`write_early_end`] tells of an input that ends
//! early; their contracts say what the sink took and whether its count of faults rose. Lines are put together by the functions
//! of `lines.rt`; those of a command stand with it. `Output` and `Store` among the definitions are the words of every command's
//! contract.
#![tactic(auto)]

mod lines;
mod next;
mod output;
mod whole;
mod words;

pub use lines::{
    closing_of_end, hash_line, number_line, numbered_line, numbers_line, push_hash, push_hex,
    push_number, push_total,
};
pub use next::{Next, has_more, next_item};
pub use output::{Answer, status_of_end, write_answer, write_bytes, write_early_end, write_text};
pub use whole::{Whole, read_whole};
pub use words::{command_alone, command_at, command_of, command_with, hash_of_word};
