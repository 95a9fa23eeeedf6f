//! Blocks as JSON, as definitions alone: a table of rows for each object, by which it is written and read.
//!
//! - `Form`: how numbers, bytes, lists and objects stand in a tree of JSON. `Blocks`: the objects of a block.
//! - `Laws`: what is true of the tables, so that a text tells its block.
//!
//! How they are computed is left to `json_blocks`, which also states the laws.
#![tactic(auto)]
