//! What the disk holds: what ties a log to blocks that joined, the kept blocks of an image, and which images are sound.
//!
//! Definitions, and laws as contracts of functions that do nothing: [`join_laws`], [`store_laws`] and [`image_laws`] say what
//! they are for, [`edition_laws`] what an edition leaves as it was; [`cells_of_joined`], [`headers_of_joined`], [`uncles_of_joined`] and [`exts_of_joined`] what is true of a chain
//! whose blocks joined, on which its node and a reader of a branch rely; and [`exts_of_blocks`] that the ext of a block which
//! may join holds what takes it back.
#![tactic(auto)]

mod exts;
mod images;
mod joined;
mod laws;
mod moved;
mod standing;

pub use exts::exts_of_blocks;
pub use images::image_laws;
pub use joined::{cells_of_joined, exts_of_joined, headers_of_joined, uncles_of_joined};
pub use laws::join_laws;
pub use moved::Moved;
pub use standing::{edition_laws, store_laws};
