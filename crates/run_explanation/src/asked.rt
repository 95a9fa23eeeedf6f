// What is explained.

/// As what an item is judged.
#[derive(Clone, Copy, Debug, PartialEq, Eq)]
pub enum Asked {
    /// A transaction alone after the tip, as by `check`.
    Check,
    /// A block on its kept parent, as by `import`; it is not kept.
    Import,
}

/// What is asked for: as what the item is judged, and the script group whose page is shown also where it passed.
#[derive(Clone, Copy, Debug)]
pub struct Wanted {
    pub asked: Asked,
    pub group: Option<u32>,
}
