//! A block judged over its ancestors, by J4 to J32, and a transaction judged alone (docs/RULES.md, "A block").
//!
//! All is judged on a [`Context`]. [`judge_at_sight`] answers the first rule that a block breaks of those that ask for no
//! live cell, exactly by `broken_at_sight` of `verdict_defs`. Of a block that breaks none of them, [`judge`], over a source of
//! kept blocks with their fees, answers the first of all rules that it breaks, exactly by `first_broken`, or its ext. The
//! cells that the block makes and spends stand beside those of the branch, which it neither copies nor changes. [`dry_run`]
//! judges a transaction after the parent and answers its fee and its cycles; [`judge_appended`] judges one as the next of a
//! block that is put together, over the [`BlockCells`] that those before it leave. That an item is a block, new, and on a kept
//! parent (J1 to J3), and what becomes of it, is left to the layer above.
#![tactic(auto)]

mod all_transactions;
mod appending;
mod at_sight;
mod block_cells;
mod cellbase;
mod changes;
mod context;
mod ending;
mod judging;
mod known;
mod scripts;
mod spent;
mod stop;
mod transactions;

pub use appending::{BlockSoFar, judge_appended};
pub use at_sight::judge_at_sight;
pub use block_cells::BlockCells;
pub use cellbase::is_cellbase;
pub use context::{Context, NoCells};
pub use ending::{lock_of, made_in};
pub use judging::{dry_run, judge};
pub use stop::JudgeStop;
pub use transactions::PassedTransaction;
