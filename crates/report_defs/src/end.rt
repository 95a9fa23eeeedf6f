/// How the reading of an input item by item ends.
#[derive(Clone, Copy, Debug, PartialEq, Eq)]
pub enum End {
    /// No byte is left.
    AtEnd,
    /// The input ends inside an item.
    Cut,
    /// An item's size word is below 4 or above the limit of an item.
    BadSize,
    /// An item would end past the limit of the input.
    Extra,
}
