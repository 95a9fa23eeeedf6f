//! What follows of a view alone: the hashes of transactions, headers, blocks, scripts and data, the id by which a
//! transaction is proposed, and what an output occupies. All crates that need one take it from here.
//!
//! The contracts cite the definitions of `chain_defs` and `chain_defs`. The hash itself is `blake2b_ckb`'s, and the bytes
//! that it is taken of are those that the views of `mol_schema` borrow.
#![tactic(auto)]

mod cells;
mod items;

pub use cells::{data_hash, occupied, occupied_output, script_hash};
pub use items::{
    block_hash, header_hash, proposal_id, transaction_hash, transaction_hashes, witness_hash,
};
