use report_defs::Query;

/// What a line asks of a store, but for a transaction that is to be judged.
#[derive(Clone, Copy)]
pub enum Ask {
    /// A query, in the words that it has in a run.
    Query(Query),
    /// `header`: the header of the kept block with a hash.
    Header { hash: [u8; 32] },
    /// `json`: the kept block with a hash, as JSON.
    Json { hash: [u8; 32] },
    /// `block`: the same, with the hashes of its transactions beside it.
    Block { hash: [u8; 32] },
    /// `branch`: whether the kept block with a hash is on the best branch.
    Branch { hash: [u8; 32] },
    /// `transaction`: where the best branch committed the transaction with a hash.
    Transaction { hash: [u8; 32] },
}
