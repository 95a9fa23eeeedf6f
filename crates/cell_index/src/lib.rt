//! The live cells of a branch by the hash of their lock: an index of all, and the balance of one.
//!
//! [`Index`] is the contract of use: [`Index::of`] makes it of the live cells of a branch, [`Index::follow`] moves it to the branch
//! of another kept block, by the blocks on the way alone, and then [`Index::cells`] lists the cells of one lock and [`Index::total`]
//! says how many they are and what they hold. [`Balance`] says the same of one lock, and [`Balance::follow`] moves it with no
//! hash of a transaction made. Which cells those are is defined in `chain_defs`, which are live is left to
//! `cell_state`.
#![tactic(auto)]

mod balance;
mod change;
mod counted;
mod following;
mod index;
mod stop;

pub use balance::Balance;
pub use counted::sum_in;
pub use index::Index;
