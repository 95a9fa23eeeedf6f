//! The machine of CKB, as definitions: what the crates that decode, compute, run programs and write their text cite in their
//! contracts. It stands on nothing of the chain.
//!
//! - The instruction set, RV64IMC (RFC 0003) with the costs of RFC 0014. [`Ins`]: an instruction with its operands. [`Alu`]: an
//!   operation on two registers. `Instruction`: the fields of a word, and what an instruction costs. `Row`, `Table`,
//!   `Compressed`: the instruction table, a row for each form. `Decode`: the instruction that a word encodes.
//! - A machine: `Memory`, what is loaded, stored and fetched; `Step`, one step in its order; `Elf`, a program as an ELF file and
//!   the memory that it is loaded into; `Program`, a program from its first step to its end.
//! - The syscalls of a script (RFC 0009): `SyscallTable`; `World`, what a script may ask for; `Answer`, what each does to the
//!   machine.
//! - The texts of the assembler and the disassembler: `Text`, the text of an instruction and the full form that encodes it;
//!   `Assembly`, the words of a text and its first bad line; `File`, the ELF file of some code; `Listing`, the listing of code.
//!
//! Laws as contracts of functions that do nothing: [`table_laws`] and [`syscall_laws`]; those of the texts (`TextLaws`) are
//! stated by `rv_text`, which computes them.
#![tactic(auto)]

mod alu;
mod ins;
mod memory;
mod operands;
mod outcome;
mod step;
mod syscall;
mod table;

pub use alu::Alu;
pub use ins::Ins;
pub use memory::{MEMORY_SIZE, MemFault, PAGE_COUNT, PAGE_SIZE, PageKind, Width};
pub use operands::Operands;
pub use outcome::Outcome;
pub use step::Step;
pub use syscall::syscall_laws;
pub use table::table_laws;
