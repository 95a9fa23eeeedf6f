//! That what is wrong first of an image of the disk (`verify_defs`) says that the image is not sound, as the contract of
//! [`fault_laws`], which does nothing. It rests on what `node_store` says of the rows of a snapshot of blocks that have joined.
#![tactic(auto)]

mod laws;

pub use laws::fault_laws;
