ghost use Rattle.std.specs.Prelude.{◌≡◌};
ghost use Rattle.report_defs.specs.Status.{status_number};

/// How a run ended.
#[derive(Clone, Copy, Debug, PartialEq, Eq)]
pub enum Status {
    /// All of the input that the command takes was read, and nothing below came.
    Done,
    /// As `Done`, and an item was refused, or found no room.
    SomeRefused,
    /// The words are not in the grammar.
    BadWords,
    /// Reading the input failed.
    InputFault,
    /// Writing the output failed.
    SinkFault,
    /// The disk failed.
    DiskFault,
    /// Memory ran out.
    NoMemory,
    /// The folder holds no store.
    NotAStore,
    /// The input ends before a needed item or inside an item.
    CutInput,
    /// An item's size is below 4 or above its limit.
    BadSize,
    /// There is a store already.
    StoreThere,
    /// The genesis breaks a rule.
    BadGenesis,
    /// Bytes follow what the command takes.
    ExtraInput,
    /// The store has no edition, and its tip has reached the epoch that it is to have one from.
    TooEarly,
    /// The store has an edition already.
    AlreadyMigrated,
}

impl Status {
    /// The exit status of the program.
    pub fn number(self) -> u8
        ensures { result ≡ status_number self }
    {
        match self {
            Status::Done => 0,
            Status::SomeRefused => 1,
            Status::BadWords => 2,
            Status::InputFault => 3,
            Status::SinkFault => 4,
            Status::DiskFault => 5,
            Status::NoMemory => 6,
            Status::NotAStore => 7,
            Status::CutInput => 8,
            Status::BadSize => 9,
            Status::StoreThere => 10,
            Status::BadGenesis => 11,
            Status::ExtraInput => 12,
            Status::TooEarly => 13,
            Status::AlreadyMigrated => 14,
        }
    }
}
