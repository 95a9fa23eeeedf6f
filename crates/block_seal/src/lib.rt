//! A block whose header commits to it (docs/RULES.md, "What the header commits to"), whatever it committed to before.
//!
//! `seal` is the contract of use: the bytes of the block with the root and the hashes that J11, J12 and J14 ask for, and of a
//! genesis with what its cells hold and occupy in its DAO field, by `sealed` of the specs; none where a u64 holds one of these
//! no more. `sealing_laws` says that such a block breaks none of the three. All else of the block stays, and no other rule
//! is asked.
#![tactic(auto)]

mod header;
mod laws;
mod sealing;

pub use laws::sealing_laws;
pub use sealing::seal;
