// What a session is to do.

/// What a session imports, and how it is stopped.
#[derive(Drop)]
pub struct Session {
    /// Items, each a block, of fewer than 2^31 bytes.
    pub items: Vec<Vec<u8>>,
    /// How many calls of `write`, `cut` and `sync` the disk lets through before every call fails. None: it lets all through.
    pub pass: Option<u64>,
    /// Which of the images that a crash may leave is left.
    pub pick: u64,
}
