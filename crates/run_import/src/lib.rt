//! The commands `import` and `watch`.
//!
//! [`import`] opens the store, judges each item that the source gives, keeps what joins, and writes the item's line before it
//! reads the next; where a lock is watched, an index of the live cells by lock follows the tip, and the line ends with the lock's
//! balance. Its contract says by the report of `report_defs` what is written, what a stop at any moment leaves of the
//! store and of its records, and how many steps it takes. Judging is left to `node_core`, keeping to `node_store`.
#![tactic(auto)]

mod importing;
mod lines;
mod watching;

pub use importing::import;
pub use lines::item_line;
