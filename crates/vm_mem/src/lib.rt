//! The memory of the machine: 4,194,304 bytes in pages of data and of code (RFC 0003).
//!
//! Contracts see a `Memory` as the list of its bytes and of its pages' kinds, and `load`, `store`, `fetch`,
//! `instruction`, `copy_in`, `clear` and `set_code` are exact against the accesses of `machine_defs`, with the fault that
//! comes first. `instruction` keeps what it decoded: no page is written and run, which `code_laws` states.
//! A page takes memory of its own at its first store, and a store to pages that have it takes none.
//! `load`, `store` and `fetch` are short where the bytes lie in one page, and are put into their callers;
//! the rest of each is a function of its own. What an instruction does with memory, and what lies in it at
//! the start, is left to the layers above.
#![tactic(auto)]

mod buffer;
mod kept;
mod laws;
mod memory;
mod paged;
mod pages;
mod slot;
mod stop;

pub use kept::{Kept, kept_form};
pub use laws::{code_laws, store_laws};
pub use machine_defs::{MemFault, PageKind, Width};
pub use memory::Memory;
pub use rv_decode::Ins;
pub use slot::Slot;
pub use stop::MemStop;
