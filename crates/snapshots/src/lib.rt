//! Snapshots on the disk (docs/STORE.md, "A snapshot"): the live cells of a branch are written to an area and read back, so
//! that a crash at any moment leaves there no open gate, or a whole snapshot.
//!
//! The contract of use: [`write`] takes its memory, closes the gate of the area by [`close`], and puts a snapshot after it, in four
//! more calls of the disk; both say of each moment what a crash may leave. [`number`] tells which snapshot an area holds, and [`read`]
//! answers its number, its tip and a [`State`](cell_state::State) with its rows, exactly, or that the area is damaged; that it is
//! what was written is a law, [`snapshot_laws`]. When a snapshot is written, and which of two is loaded, is left to the layer above.
#![tactic(auto)]

mod area;
mod body;
mod closing;
mod head;
mod laws;
mod loading;
mod reading;
mod writing;

pub use area::area_of;
pub use closing::close;
pub use head::number;
pub use laws::snapshot_laws;
pub use reading::read;
pub use writing::write;
