//! Rows of the schema (docs/FORMATS.md, "The schema"), written from their parts: scripts, outputs, inputs, cell deps, the witness of a
//! cellbase, and the tables of a transaction and of a block, by the encodings of what they are made of.
//!
//! The contract of use: where there is memory, each call gives the encoding of the value that `chain_defs` defines, and all
//! but `block_table` its size. Whether a value keeps the rules of a chain is left to the caller.
#![tactic(auto)]

mod rows;
mod tables;

pub use rows::{bytes_row, dep_row, input_row};
pub use tables::{
    block_table, cellbase_witness_table, dynvec_of, dynvec_of_two, fixvec_of, output_table,
    raw_table, script_table, transaction_table,
};
