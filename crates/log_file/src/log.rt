// A log and the records in it, by their places.

/// A log at rest, by the offset where its records end, in bytes.
#[derive(Debug, Drop)]
pub struct Log {
    pub place: u64,
}

/// A record in the log.
#[derive(Clone, Copy, Debug, PartialEq, Eq)]
pub struct Rec {
    /// 1 for the specification, 2 for the genesis, 3 for a block with its ext, 4 for the edition.
    pub kind: u8,
    /// The offset of its body in the log, in bytes.
    pub at: u64,
    /// The length of its body, in bytes.
    pub len: u32,
}
