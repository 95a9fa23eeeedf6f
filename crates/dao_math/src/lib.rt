//! The DAO field of a header and the interest of a withdrawal (RFC 0023), exact on all of 64 bits.
//!
//! `is_rated` answers whether C and AR are above 0, `next_field` the field after a block, `miner_share` the miner's part
//! of a secondary share, and `max_withdraw` what a withdrawing cell counts, each as the definitions of `chain_defs` have it
//! over whole numbers without bounds; None comes exactly where a result leaves u64. Nothing is allocated. Whose shares,
//! interest and capacities a block moves is left to the rules of the chain.
#![tactic(auto)]

mod dao_field;
mod movement;
mod withdrawal;

pub use dao_field::{Dao, is_rated};
pub use movement::{DaoMove, miner_share, next_field};
pub use withdrawal::max_withdraw;
