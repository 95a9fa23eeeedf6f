/// What is counted of items that were imported, and of the chain after them.
#[derive(Clone, Copy, Debug, PartialEq, Eq)]
pub struct Counts {
    /// The items that joined.
    pub joined: u64,
    /// The height of the tip.
    pub height: u64,
    /// The live cells of the tip.
    pub cells: u64,
}
