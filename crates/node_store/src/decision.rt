// What is to become of an item.
use cell_state::Ext;
use chain_tree::Entry;
use verdict_defs::Verdict;

/// A block that can join: its entry, its ext, and the hashes of its transactions, which were made to judge it.
#[derive(Drop)]
pub struct Joining {
    /// Where its record lies is not known yet.
    pub entry: Entry,
    pub ext: Ext,
    /// Of its transactions, in their order.
    pub hashes: Vec<[u8; 32]>,
}

/// What is to become of an item.
#[derive(Drop)]
pub enum Decision {
    /// It can join.
    Joins(Joining),
    /// It stays out, with this verdict.
    Stays(Verdict),
}
