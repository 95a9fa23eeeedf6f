// What is found for a script, and its bytes.
ghost use Rattle.std.specs.Prelude.{◌≡◌};
ghost use Rattle.script_run.specs.Lookups.{bytes_of};

/// The bytes of an item: a part of the transaction or of a cell as it lies, or the few that are computed or read.
#[derive(Clone, Copy)]
pub(crate) enum Bytes<'a> {
    Slice(&'a [u8]),
    Hash([u8; 32]),
    Number([u8; 8]),
    Header([u8; 208]),
}

impl<'a> Bytes<'a> {
    pub(crate) fn as_slice(&self) -> &[u8]
        ensures { result.now ≡ bytes_of self.now }
    {
        match self {
            Bytes::Slice(bytes) => bytes,
            Bytes::Hash(bytes) => bytes,
            Bytes::Number(bytes) => bytes,
            Bytes::Header(bytes) => bytes,
        }
    }
}

/// What is shown of an output with its data.
#[derive(Clone, Copy)]
pub(crate) enum CellPart {
    Output,
    Data,
    Capacity,
    DataHash,
    Lock,
    LockHash,
    TypeScript,
    TypeHash,
    Occupied,
}

/// What is shown of a header.
#[derive(Clone, Copy)]
pub(crate) enum HeaderPart {
    Whole,
    EpochNumber,
    /// The number of the first block of its epoch.
    EpochStart,
    EpochLength,
}

/// What is shown of an input.
#[derive(Clone, Copy)]
pub(crate) enum InputPart {
    Whole,
    OutPoint,
    Since,
}

/// What a call loads. Of a cell, a header or an input a part, where there is the field that is asked for.
#[derive(Clone, Copy)]
pub(crate) enum Load {
    Transaction,
    Script,
    TxHash,
    ScriptHash,
    Cell(Option<CellPart>),
    Header(Option<HeaderPart>),
    Input(Option<InputPart>),
    Witness,
    /// It loads nothing.
    Nothing,
}

/// What a script is answered.
#[derive(Clone, Copy)]
pub(crate) enum Answer<'a> {
    Here(Bytes<'a>),
    /// The source does not have such items, or its end is at the index or before it.
    NoIndex,
    /// The source has the index, and there is no such item.
    Missing,
    /// There is no such source or field.
    Unknown,
}

/// What comes of a call, as far as no kept block is read.
#[derive(Clone, Copy)]
pub(crate) enum Lookup<'a> {
    Answered(Answer<'a>),
    /// The answer is in the header of the block at a place of the tree.
    InBlock(u32, HeaderPart),
}
