/// What a live cell is to the Nervos DAO.
#[derive(Clone, Copy, Debug, PartialEq, Eq)]
pub enum DaoState {
    /// No cell of it, or one that is neither of these.
    NotDao,
    /// A deposit.
    Deposit,
    /// A withdrawing cell, whose data names a deposit block at this height, below its own.
    Withdrawing { deposit: u64 },
}
