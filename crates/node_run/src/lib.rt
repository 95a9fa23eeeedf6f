//! One run of the program: its words, and its commands over a source, a sink and a disk; and lists of runs.
//!
//! [`run`] is the one call. Its contract says what the sink takes, how far the source is read, how the
//! run ends and what it leaves of the disk, by the report that `report_defs` defines, for every source,
//! sink and disk and for any list of runs before it. Each class of commands has a crate and a contract of its
//! own, by which `run` is proved: `run_init`, `run_import`, `run_migration`, `run_query`, `run_question`, `run_alone` and
//! `run_simulation`. Streams and files of the machine are left to `outside_os`, and `main` to the program `ckbdev`.
//!
//! [`run_all`] calls `run` for each call of a list over one disk that crashes between them, and its contract is what any list of
//! runs promises, each stopped anywhere, by the clauses of `run` alone. A stop at a moment is a run whose source, sink and disk
//! fail from that moment on, and the crash after it. A call may be without a stop: then the next run finds the disk as this one
//! left it.
#![tactic(auto)]

mod list;
mod top;

pub use list::{Call, Stop, run_all};
pub use report_defs::Status;
pub use top::run;
