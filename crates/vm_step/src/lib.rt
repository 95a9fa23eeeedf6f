//! The machine that runs: one step of it, and the steps up to an ECALL (RFC 0003; RFC 0014 for the cycles).
//!
//! `Machine::step` is exact against `step_of` of `machine_defs`, for every state of the machine: its clause `steps`
//! says the answer, the program counter, each register, memory and the cycles. Out of memory for a page that
//! is stored to is the one answer that the definitions do not have; the clause `room` says where it never
//! comes. `Machine::run` makes the steps up to the first whose answer is not `Went`, exact against `stop_of`.
//! `charge` adds cycles that no instruction costs. What an ECALL does, and how a program ends, is left
//! to the layer above, and `run_laws` has the laws that its loop is proved with.
#![tactic(auto)]

mod costs;
mod effect;
mod execute;
mod extension;
mod fault;
mod laws;
mod machine;
mod place;

pub use laws::run_laws;
pub use machine::Machine;
pub use machine_defs::Step;
