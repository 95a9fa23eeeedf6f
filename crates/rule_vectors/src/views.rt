// Views by their names.

use crate::formats::Answer;
use crate::{fields, parts};
use mol_schema::{
    BlockView, Bytes, CellbaseWitnessView, DepView, HeaderView, InputView, OutPointView,
    OutPointsView, OutputView, ScriptView, TxView, UncleView, WitnessArgsView,
};

/// Whether the view of this name reads the bytes.
pub(crate) fn reads(view: &str, bytes: &[u8]) -> Option<bool> {
    match view {
        "Bytes" => Some(Bytes::read(bytes).is_some()),
        "ScriptView" => Some(ScriptView::read(bytes).is_some()),
        "OutPointView" => Some(OutPointView::read(bytes).is_some()),
        "InputView" => Some(InputView::read(bytes).is_some()),
        "DepView" => Some(DepView::read(bytes).is_some()),
        "OutputView" => Some(OutputView::read(bytes).is_some()),
        "TxView" => Some(TxView::read(bytes).is_some()),
        "HeaderView" => Some(HeaderView::read(bytes).is_some()),
        "UncleView" => Some(UncleView::read(bytes).is_some()),
        "BlockView" => Some(BlockView::read(bytes).is_some()),
        "CellbaseWitnessView" => Some(CellbaseWitnessView::read(bytes).is_some()),
        "WitnessArgsView" => Some(WitnessArgsView::read(bytes).is_some()),
        "OutPointsView" => Some(OutPointsView::read(bytes).is_some()),
        _ => parts::reads(view, bytes),
    }
}

/// Whether the view reads the bytes, and none of their prefixes.
pub(crate) fn reads_uncut(view: &str, bytes: &[u8]) -> Option<bool> {
    for n in 0..bytes.len() {
        if reads(view, &bytes[..n])? {
            return Some(false);
        }
    }
    reads(view, bytes)
}

/// What an accessor gives of the bytes.
pub(crate) fn field<'a>(
    view: &str,
    bytes: &'a [u8],
    accessor: &str,
    place: usize,
) -> Option<Answer<'a>> {
    match view {
        "Bytes" => Some(Answer::Bytes(Bytes::read(bytes)?.content())),
        "CellbaseWitnessView" => fields::witness(&CellbaseWitnessView::read(bytes)?, accessor),
        "WitnessArgsView" => fields::args(&WitnessArgsView::read(bytes)?, accessor),
        "OutPointsView" => fields::out_points(&OutPointsView::read(bytes)?, accessor, place),
        _ => parts::field(view, bytes, accessor, place),
    }
}
