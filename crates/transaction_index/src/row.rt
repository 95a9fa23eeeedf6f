/// A transaction that a branch committed: its hash, and the number of the block and its place there.
#[derive(Clone, Copy)]
pub struct Row {
    pub hash: [u8; 32],
    /// A tree has fewer than 2^32 blocks, so the numbers of a branch are below that.
    pub number: u32,
    pub place: u32,
}
