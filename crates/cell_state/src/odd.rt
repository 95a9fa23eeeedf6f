// Why a block does not fit the live cells.
use crate::OutPoint;

/// Why a block does not fit the live cells: the first of its events that does not.
#[derive(Clone, Copy)]
pub enum Odd {
    /// It spends a cell that is not live.
    NotLive(OutPoint),
    /// It makes a cell with the out-point of one that is live.
    Live(OutPoint),
}
