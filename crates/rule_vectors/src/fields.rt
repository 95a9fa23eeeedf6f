// The accessors of the views that no block is made of, by their names.

use crate::formats::Answer;
use mol_schema::{CellbaseWitnessView, OutPointsView, WitnessArgsView};

fn option(bytes: Option<&[u8]>) -> Answer<'_> {
    match bytes {
        Some(bytes) => Answer::Bytes(bytes),
        None => Answer::Nothing,
    }
}

pub(crate) fn witness<'a>(view: &CellbaseWitnessView<'a>, accessor: &str) -> Option<Answer<'a>> {
    match accessor {
        "lock" => Some(Answer::Bytes(view.lock().bytes())),
        "message" => Some(Answer::Bytes(view.message())),
        _ => None,
    }
}

pub(crate) fn args<'a>(view: &WitnessArgsView<'a>, accessor: &str) -> Option<Answer<'a>> {
    match accessor {
        "lock" => Some(option(view.lock())),
        "input_type" => Some(option(view.input_type())),
        "output_type" => Some(option(view.output_type())),
        _ => None,
    }
}

pub(crate) fn out_points<'a>(
    view: &OutPointsView<'a>,
    accessor: &str,
    i: usize,
) -> Option<Answer<'a>> {
    match accessor {
        "count" => Some(Answer::Number(view.count())),
        "item" if i < view.count() => Some(Answer::Bytes(view.item(i).bytes())),
        _ => None,
    }
}
