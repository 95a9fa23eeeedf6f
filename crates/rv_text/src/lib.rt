//! The texts of the assembler and the disassembler.
//!
//! - `word`: the full form that encodes an instruction. `show`: its text.
//! - `read_line`: the instruction whose text a line is, or none.
//! - `dis`: the listing of code. `assemble`: the words of a text. `elf_file`: the file of some code.
//! - `text_laws`: what a text, a word and the lines of a text tell is at most one.
//!
//! Each is exact against the definitions of `machine_defs`, over the instruction table of `machine_defs`. The commands that read
//! and print are left to the layer above.
#![tactic(auto)]

mod assembly;
mod encode;
mod file;
mod laws;
mod listing;
mod names;
mod read;
mod shown;
mod table;
mod text;

pub use assembly::{AssemblyStop, assemble};
pub use encode::word;
pub use file::elf_file;
pub use laws::text_laws;
pub use listing::dis;
pub use machine_defs::Ins;
pub use read::read_line;
pub use shown::show;
