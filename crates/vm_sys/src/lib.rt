//! The syscalls of a script on the machine that runs it, and its run to the end (RFC 0009).
//!
//! [`handle`] answers an ECALL: it reads the call from the registers, asks a [`World`] for the item that the call loads,
//! and leaves the result in the machine, exact against `syscall` of `machine_defs`. [`run`] is the loop over it: a machine's
//! run to its end, exact against `run` of `machine_defs` with that answer to ECALL. Want of memory for a page that is
//! written, and a world that cannot be read, are the answers that the definitions do not have. What surrounds a script
//! is left to the layers above; of a program that runs alone it is [`Alone`].
#![tactic(auto)]

mod call;
mod loading;
mod running;
mod syscall;
mod world;

pub use call::Call;
pub use running::run;
pub use syscall::{Sys, handle};
pub use world::{Alone, Found, World};
