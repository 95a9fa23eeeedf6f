//! A program run step by step, and the page of how it ended: the instruction, the last jumps, the registers, and the last
//! syscalls.
//!
//! [`trace`] runs a machine over a world as `run` of `vm_sys` does, one step at a time, and notes its jumps and its syscalls
//! in a [`Notes`]; each text that the program prints by syscall 2177 goes to a [`Listener`] as it is printed. What it leaves
//! of the world is proved, and that it is safe; no clause says what a page shows.
#![tactic(auto)]

mod calls;
mod jumps;
mod page;
mod symbols;
mod text;
mod tracing;

pub use page::{bad_elf, page_of, push_calls, spent_loading};
pub use symbols::Symbols;
pub use tracing::{Ended, Listener, Notes, TraceStop, Unheard, trace};
