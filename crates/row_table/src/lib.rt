//! A table of tests on standard input: its rows, and how many of them agree.
//!
//! A row is a line: a word, and after it a column for each argument and for what is wanted, with a tab between two.
//! A line that begins with `#` tells what follows.
#![tactic(auto)]

mod row;

pub use row::Row;
use std::alloc::Global;
use std::io;

/// What the rows act on.
pub trait Subject {
    /// Whether what the row calls answers as it says; None where it is no row.
    fn agrees(&mut self, alloc: Global, row: &mut Row<'_>) -> Option<bool>;
}

/// Tries each row of the standard input, prints those that differ and how many agree, and answers whether all do.
pub fn all_agree<S: Subject>(rt: HostRuntime, subject: &mut S) -> io::Result<bool> {
    let text = io::read_to_string(rt.alloc(), rt.stdin())?;
    all_lines_agree(rt, subject, &text)
}

fn all_lines_agree<S: Subject>(rt: HostRuntime, subject: &mut S, text: &str) -> io::Result<bool> {
    let mut rows = 0u64;
    let mut agreed = 0u64;
    for line in text.lines() {
        if line.starts_with('#') {
            continue;
        }
        rows = rows.saturating_add(1);
        if subject.agrees(rt.alloc(), &mut Row::new(line)) == Some(true) {
            agreed = agreed.saturating_add(1);
        } else {
            println!(rt; "row {rows} differs: {line}")?;
        }
    }
    println!(rt; "{agreed} of {rows} rows agree")?;
    Ok(agreed == rows)
}
