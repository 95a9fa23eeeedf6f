// What is wrong first of a store.
use outside::Damage;
use std::fmt;
use verdict_defs::Verdict;

/// The part of an ext that is not as its block's own has it: the first that differs.
#[derive(Clone, Copy, PartialEq, Eq)]
pub enum ExtPart {
    /// The count of its fees.
    FeeCount,
    /// The fee at this place, that of the first transaction after the cellbase at 0.
    Fee(u64),
    /// The count of its rows.
    RowCount,
    /// The row at this place.
    Row(u64),
}

impl fmt::Display for ExtPart {
    fn fmt<W: fmt::Write>(&self, f: &mut fmt::Formatter<W>) -> fmt::Result {
        match self {
            ExtPart::FeeCount => write!(f, "the count of fees"),
            ExtPart::Fee(place) => write!(f, "fee {place}"),
            ExtPart::RowCount => write!(f, "the count of rows"),
            ExtPart::Row(place) => write!(f, "row {place}"),
        }
    }
}

/// Why a store is not sound. A block is named by its place among the kept blocks, the genesis at 0.
#[derive(Clone, Copy, PartialEq, Eq)]
pub enum Cause {
    /// LOG stops being a log: a record that may not stand there, or none where one is missing.
    NoRecord,
    /// This block could not join over those before it: the verdict on it.
    StaysOut(u32, Verdict),
    /// What stands beside this block is not its own ext.
    OtherExt(u32, ExtPart),
    /// The area's gate is open, and it holds no snapshot of the kept blocks: another form, a tip that is no kept block, or a
    /// row that is none of one.
    NoSnapshot,
    /// The snapshot with this number belongs into the other area.
    OtherArea(u32),
    /// The snapshot's row of the out-point with this hash and index is another than that of the live cell, there is one and no
    /// such cell, or there is such a cell and no row.
    OtherRow([u8; 32], u32),
}

/// What is wrong first of a store, and where: a record by its body, an area of snapshots by its start.
#[derive(Clone, Copy, PartialEq, Eq)]
pub struct Fault {
    pub place: Damage,
    pub cause: Cause,
}
