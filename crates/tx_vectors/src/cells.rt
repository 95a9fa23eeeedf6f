//! Cells and answers of columns.

use cell_state::{CellMeta, meta_of};
use mol_schema::OutputView;
use std::alloc::Global;
use std::string::String;

/// Whether the answer is the one that is wanted; None where there is none.
pub(crate) fn is_text(answer: Option<String>, wanted: &str) -> Option<bool> {
    Some(answer?.as_str() == wanted)
}

/// What is kept of an output with its data, as that of a transaction of a block.
pub(crate) fn meta_in(block: u32, tx: u32, output: &[u8], content: &[u8]) -> Option<CellMeta> {
    if content.len() > u32::MAX as usize {
        return None;
    }
    Some(meta_of(block, tx, &OutputView::read(output)?, content))
}
