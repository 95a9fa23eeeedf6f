//! The rules on a block's header, J4 to J8 (docs/RULES.md, "A block").
//!
//! `check` is the contract of use: over a tree of kept blocks and the place of the parent it answers the least
//! of these rules that a header breaks, exactly by `header_rules` of `rule_defs`, for every kept list that the
//! tree indexes. It takes no memory and walks up to 37 blocks. That the parent is kept (J3), and what the block
//! holds (J9 on), is left to others.
#![tactic(auto)]

mod rules;

pub use rules::check;
