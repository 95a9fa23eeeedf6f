//! Cells as the node handles them, and the live cells of a branch in memory: how they go from one branch to another.
//!
//! Contracts see a [`CellMeta`] as a `Row` of `chain_defs`, and [`Cells`] as a function from out-points to rows.
//! [`fetch`] copies the output and the data that a row names, exactly, over a [`Blocks`](chain_tree::Blocks) that
//! tells; [`Ext`] is read and written by its form, [`read_row`] and [`put_row`] are for one row, [`fee_in`] takes a fee
//! out of an ext's bytes, and [`ListBlocks`] is a `Blocks` in memory, which tells its blocks and never fails. What a
//! transaction may do with cells is left to `tx_rules`.
//!
//! [`State`] is the contract of use: clauses see its rows. `apply`, `undo` and `genesis` move it by one block; [`go_to`] moves it
//! from the rows of one kept block's branch to those of another's, down by the rows of exts and up by the blocks, and
//! [`genesis_cells`] gives those of the genesis. [`State::left_by`] has what one block leaves of the cells that it makes. What
//! blocks make and spend is defined in `chain_defs`.
#![tactic(auto)]

mod applying;
mod cells;
mod copies;
mod events;
mod ext;
mod hashes;
mod last_script;
mod list_blocks;
mod listing;
mod made;
mod moving;
mod odd;
mod parent;
mod passes;
mod row;
mod slots;
mod state;
mod taking_back;
mod undoing;

pub use applying::genesis_cells;
pub use cells::{CellMeta, Cells, OutPoint, Resolved, ResolvedTx, is_none_live, out_point_of};
pub use copies::{copy_of, data_at, fetch, output_at};
pub use ext::{Ext, fee_in};
pub use hashes::{meta_of, meta_with};
pub use last_script::LastScript;
pub use list_blocks::{ListBlocks, copied_ids};
pub use moving::go_to;
pub use odd::Odd;
pub use parent::parent_in;
pub use row::{ROW_SIZE, put_row, read_row};
pub use state::{State, outputs_in};
