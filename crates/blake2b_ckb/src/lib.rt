//! CKB's hash, BLAKE2b with the personalization "ckb-default-hash", over a message that comes whole
//! or in pieces. It takes no memory.
//!
//! The contract of use: where a [`Hasher`] holds a message (`Holds`), `update` makes it hold the
//! message with the piece at its end, and `finalize` gives `ckbhash` of the message that it holds,
//! which `chain_defs` defines after RFC 7693. `ckbhash` gives it for bytes that lie in one slice.
#![tactic(auto)]

mod compression;
mod hasher;

pub use hasher::{Hasher, ckbhash};
