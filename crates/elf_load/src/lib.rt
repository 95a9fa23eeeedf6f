//! A program as an ELF file: whether it is one, and its place in the machine's memory (ELF-64 Object File Format;
//! docs/MACHINE.md).
//!
//! `judge` looks at the headers alone, and is exact against `load_elf` of `machine_defs`: the program that the file holds,
//! or the number of the first of the conditions E 1 to E 8 that the file meets. `ValidElf::place` makes new memory that
//! of the program. Between the two a caller charges for the bytes that are to be copied. `load` is the two after one
//! another. What is done with the program is left to the layers above.
#![tactic(auto)]

mod field;
mod header;
mod judging;
mod laws;
mod loader;
mod placing;
mod segment;
mod stop;
mod touched;

pub use judging::{ValidElf, judge};
pub use laws::load_laws;
pub use loader::{Entry, load};
pub use stop::ElfStop;
