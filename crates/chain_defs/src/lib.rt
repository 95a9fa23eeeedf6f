//! What the bytes of the chain mean, and the kept blocks by their places, as definitions alone, which every other crate but
//! the machine's cites. A file is a subject:
//!
//! - `Molecule`, `Shape`, `Schema`: the encodings of RFC 0008, and the values of CKB's blockchain.mol. `Checked`: what a
//!   strict read checks of bytes; `proofs/RowLaws.antt` has the law of each row: this holds exactly where the bytes encode a
//!   value of it.
//! - `CkbHash`, `Root`: the hash of a message, after RFC 7693, and the Merkle root of hashes, after RFC 0006.
//! - `First`, `Fold`: the first of a list of rules that is broken; items judged one after the other, each over what the items
//!   before it left. How an item is judged and what it leaves are parameters.
//! - `Specification`, `Epochs`, `Since`, `Dao`: the fields of the chain specification, and formulas over whole numbers without
//!   bounds, for a chain whose epochs have one length.
//! - `Hashes`, `Kept`, `Branch`, `Tip`, `Median`: the kept blocks of a chain by their places, parents, branches, the tip and
//!   the median time.
//! - `Cell`, `Events`, `Row`, `Ext`: what the blocks of a branch make and spend as a list of events, the live cells after it,
//!   their rows, and the ext of a block with its bytes. `Fits`, `Fit`: what of canonical blocks fits them. `Undo`: which rows a
//!   block spends of those before it, and what comes of putting them back over the rows after it. `LiveCells`, `ByLock`: the
//!   live cells as a list, and those of one lock.
//!
//! What they are for is said by laws, as contracts of functions that do nothing: [`first_failing_laws`], [`epoch_laws`],
//! [`since_laws`], [`kept_laws`], [`branch_laws`], [`tip_laws`], [`median_laws`] and [`forks`]; of cells [`block_events`],
//! [`live_cells`], [`live_rows`], [`listed_cells`], [`bytes_of_exts`], [`canonical`], [`spent_rows`] and [`taking_back`].
#![tactic(auto)]

mod cells;
mod chain;
mod exts;
mod first;
mod fits;
mod fork;
mod time;
mod undo;

pub use cells::{block_events, listed_cells, live_cells, live_rows};
pub use chain::{branch_laws, kept_laws, median_laws, tip_laws};
pub use exts::bytes_of_exts;
pub use first::first_failing_laws;
pub use fits::canonical;
pub use fork::forks;
pub use time::{epoch_laws, occupied_examples, since_laws};
