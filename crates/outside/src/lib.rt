//! The outside: where bytes come from, where text goes, and the disk of three areas, each as a trait
//! whose clauses say what its calls do and what a crash may leave.
//!
//! A layer above is generic over `Source`, `Sink` and `Disk` and learns of them by these clauses alone:
//! content only where the object tells it, and a failure only where its count of faults rose (`HasCause`).
//! `read_full` and `write_all` carry the loops over short reads and short writes, `write_durably` a write and
//! the sync after it. Streams and files of the machine are left to `outside_os`, forms in memory to `outside_mem`.
#![tactic(auto)]

mod disk;
mod durable;
mod fault;
mod laws;
mod steps;
mod stream;

pub use disk::{Area, Damage, Disk, ReadStop, WriteStop};
pub use durable::write_durably;
pub use fault::{Failed, NoMemory};
pub use laws::disk_laws;
pub use steps::Steps;
pub use stream::{Sink, Source, read_full, write_all};
