/// What comes of a migration: of giving a store an edition, from an epoch on.
#[derive(Clone, Copy, Debug, PartialEq, Eq)]
pub enum Moved {
    /// It has this edition now.
    Done,
    /// It has none, and the epoch of its tip, which is this, is not below that one.
    TooEarly(u64),
    /// It has an edition, from this epoch on, and keeps it.
    Already(u64),
}
