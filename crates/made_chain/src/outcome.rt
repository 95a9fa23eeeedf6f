// What came of sessions.

/// How a session ended.
#[derive(Clone, Copy, Debug, PartialEq, Eq)]
pub enum End {
    /// The store was opened, and every item got a verdict.
    Whole,
    DiskFault,
    NoMemory,
}

/// What came of sessions, one entry for each.
#[derive(Drop)]
pub struct Played {
    /// How many of its items got a verdict.
    pub acked: Vec<u64>,
    pub ends: Vec<End>,
}
