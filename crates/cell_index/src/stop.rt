// Why an index did not take a change.

/// Why an index did not take a change: what it has does not fit, or there was no memory.
#[derive(Clone, Copy)]
pub(crate) enum Stop {
    /// A cell that is to go is not there, or one that is to come is.
    Odd,
    NoMemory,
}
