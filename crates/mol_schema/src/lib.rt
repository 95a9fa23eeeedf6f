//! The rows of CKB's blockchain.mol, read strictly and in place (RFC 0008): one view, [`View`], for all of them, each row with its
//! check and its accessors, over the fixvecs, dynvecs and tables that they are made of.
//!
//! `View::read` answers a view exactly where bytes are the canonical encoding of a value, and contracts see it as that value;
//! nothing is copied. What the encodings are is said by `chain_defs`.
#![tactic(auto)]

mod block;
mod bytes;
mod check;
mod dynvec;
mod fixvec;
mod header;
mod layout;
mod little_endian;
mod number;
mod out_point;
mod out_points;
mod parts;
mod script;
mod table;
mod transaction;
mod view;
mod witness;

pub use block::{BlockView, UncleView};
pub use bytes::Bytes;
pub use dynvec::{DynView, check_dynvec};
pub use fixvec::{FixView, check_fixvec};
pub use header::HeaderView;
pub use out_point::{DepView, InputView, OutPointView};
pub use out_points::OutPointsView;
pub use script::ScriptView;
pub use table::{TableView, check_table};
pub use transaction::{OutputView, RawTxView, TxView};
pub use view::{Row, View};
pub use witness::{CellbaseWitnessView, WitnessArgsView};
