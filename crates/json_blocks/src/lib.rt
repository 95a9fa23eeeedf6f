//! Blocks, transactions, scripts and what the first witness of a cellbase holds, as JSON.
//!
//! `to_json` writes a block as one compact text: `block.tree` of `json_defs` is the tree, one row for each key,
//! and the text is serde_json's own of that tree. It is written from the block's view, with no tree in memory.
//! `from_json` reads a text by the same rows: it gives the encoding of the block that the text is read as, and Bad where
//! there is none. serde_json makes the tree. The other items have calls of their own, which say the same. `form_laws`,
//! `reading_laws` and `item_laws` say what is true of the rows and of texts.
//! What a block has to keep is left to the rules above.
#![tactic(auto)]

mod by_keys;
mod digits;
mod fields;
mod items;
mod laws;
mod leaves;
mod list_rows;
mod lists;
mod objects;
mod parts;
mod read;
mod read_objects;
mod read_parts;
mod reading;
mod stop;
mod text;
mod write;

pub use by_keys::Rows;
pub use items::{Hash, U32, U64};
pub use laws::{form_laws, item_laws, reading_laws};
pub use lists::Item;
pub use read::{
    cellbase_witness_from_json, from_json, read_text, script_from_json, transaction_from_json,
};
pub use stop::JsonStop;
pub use text::Text;
pub use write::{cellbase_witness_to_json, script_to_json, to_json, transaction_to_json};
