//! What `ckbask` answers: the lines of its input, what a line asks, the answer over a chain, and what the one call over a source, a
//! sink and a disk promises. Definitions, and the enum that code and definitions share.
#![tactic(auto)]

mod ask;

pub use ask::Ask;
