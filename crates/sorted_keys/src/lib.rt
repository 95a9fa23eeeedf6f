//! Keys of one length in rising order: what stands in place of a hash table where a stranger picks the keys.
//!
//! [`are_distinct`] puts keys in order, and answers whether no two are equal. A [`SortedKeys`] has keys, and finds one by
//! halving. Neither takes memory, and n keys cost n log n whichever they are: the hasher of std's tables has a fixed seed, so
//! that keys can be picked which all fall into one place.
#![tactic(auto)]

mod distinct;
mod sorted;

pub use distinct::are_distinct;
pub use sorted::SortedKeys;
