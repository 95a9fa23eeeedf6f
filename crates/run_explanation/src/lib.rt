//! One item explained: what `check` or `import` says of it, and below that the page that says why.
//!
//! [`explain`] opens the store, reads its whole input, which is a transaction or a block, judges it, and writes the line of
//! `check` or `import` with a page below it. Its contract says by the reports of `report_defs` that the text begins with that
//! line, and that the store keeps what it kept, at each moment. The page is made by `explanation`, and no clause says what it
//! says.
#![tactic(auto)]

mod asked;
mod blocks;
mod explaining;
mod said;
mod transactions;

pub use asked::{Asked, Wanted};
pub use explaining::explain;
pub use report_defs::Status;
