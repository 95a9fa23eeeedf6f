//! The rules on one transaction after the cellbase, J18 to J27 (docs/RULES.md, "A block").
//!
//! [`resolve`] is the contract of use: over a tree, the live cells that the transaction sees and a source of kept
//! blocks it answers the least of these rules that is broken, exactly by `rule_defs`, and otherwise the transaction with
//! copies of the cells of its inputs and deps, its fee and its interest. What it answers of J18 to J20 stands on the
//! transaction, its proposal and the rows of its inputs alone, whatever the source tells. It copies the cells of the
//! inputs where J18 to J25 are kept, those of the deps where all are, and no other. Whether the transaction's id is
//! proposed (J19) is told beside it; what its scripts say (J28 to J30) is left to others.
//!
//! Its work is linear in the transaction and the cells that it names, the members of a dep group with them, but for
//! four things. What it names is sorted to see that nothing is named twice, n log n. A kept block is read whole: once for
//! all cells of inputs that it made, once for all those of deps, and once for each dep group that it made; both times the
//! cells are sorted by their blocks, n log n. A header dep takes a walk of the logarithm of its height; J26 sorts the places
//! of all of them, and searches them once for each withdrawing input, n log n. Live cells and headers are looked up in hash
//! tables.
#![tactic(auto)]

mod age;
mod arrays;
mod at;
mod capacity;
mod copying;
mod deps;
mod form;
mod headers;
mod inputs;
mod outputs;
mod resolving;
mod withdrawals;

pub use at::{Own, TxAt};
pub use resolving::{JudgedTx, TxOk, TxStop, resolve};
