//! What a run of the program prints and how it ends: the statuses, the grammar of words, how an input is cut into items, the
//! lines, and the report of a whole run. Definitions, the enums that code and definitions share, and laws as contracts of
//! functions that do nothing; among them what an import of a list leaves over what imports of prefixes of it left, as the
//! sessions of `soak` are ([`soak_laws`]).
#![tactic(auto)]

mod command;
mod counts;
mod dao;
mod end;
mod items;
mod reports;
mod soak;
mod status;
mod words;

pub use command::{Command, Query, Question, Simulation, Standalone};
pub use counts::Counts;
pub use dao::DaoState;
pub use end::End;
pub use items::item_laws;
pub use reports::status_laws;
pub use soak::soak_laws;
pub use status::Status;
pub use words::word_laws;
