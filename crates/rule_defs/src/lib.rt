//! The chain's rules that need no machine, as rows of lists: on a block's header and on what it holds (`Header`, `Body`: J4 to
//! J14), on its uncles and its cellbase (`FamilyRules`: J15 to J17), on one transaction after the cellbase
//! (`TransactionRules`: J18 and J20 to J27), on when it may be committed (`Window`: J19), on what the block is paid and how
//! the DAO field moves (`RewardRules`: J31 and J32), and on the genesis of a store (`Genesis`: G1 to G7).
//!
//! Definitions; their laws as contracts of functions that do nothing: [`window_laws`], [`fee_laws`], [`reward_laws`] and
//! [`dao_laws`], with worked numbers as that of [`fee_examples`]. And the rules by name, which code and definitions share:
//! [`Rule::number`] is the number by which the definitions speak of a rule, `Display` prints it as `J12`, [`Rule::text`] is
//! its line in docs/RULES.md, and [`first_broken`] answers of a list of rules the first that is broken.
#![tactic(auto)]

mod first;
mod reward;
mod rule;
mod window;

pub use first::first_broken;
pub use reward::{dao_laws, fee_examples, fee_laws, reward_laws};
pub use rule::Rule;
pub use window::window_laws;
