/// What becomes of a transaction that is handed in for the block that is assembled.
#[derive(Clone, Copy, Debug, PartialEq, Eq)]
pub enum Line {
    /// It stands in the block: its fee in shannons, and the cycles that its scripts take.
    Commit(u64, u64),
    /// Its proposal id was put among those of the block.
    Propose,
    /// The first rule that it breaks, J1, J16, J18 or J20 to J30.
    Refused(u8),
    /// It is left for a later block: its id is in the block already, or its id or itself found no place there.
    Later,
}
