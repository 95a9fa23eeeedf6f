//! The program of a file, run to its end within a budget in cycles.
//!
//! What came of the file is `execution` of `machine_defs`: by [`execute_in`] with the syscalls over a world that surrounds the
//! script, and by [`execute`] with those of a program that runs alone. The file is judged, its loading paid for, and only
//! then is memory taken: [`start`], which both go through. How a file is read and a line written is left to `run_alone`.
#![tactic(auto)]

mod program;

pub use program::{Execution, OutOfMemory, Started, Stopped, execute, execute_in, start};
