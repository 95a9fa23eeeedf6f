// The sources that a syscall loads from (RFC 0009, "source").
ghost use Rattle.std.specs.Prelude.{◌≡◌, slice_get};
ghost use Rattle.std.specs.Option.{option_map};
ghost use Rattle.verdict_defs.specs.Sources as defs;
ghost use Rattle.script_run.specs.Places.{target_meaning, place_meaning, source_meaning};

use crate::groups::Group;

#[derive(Clone, Copy)]
enum Source {
    Inputs,
    Outputs,
    CellDeps,
    HeaderDeps,
    GroupInputs,
    GroupOutputs,
    GroupCellDeps,
    GroupHeaderDeps,
}

/// Where an item stands in the transaction.
#[derive(Clone, Copy)]
pub(crate) enum Place {
    Input(usize),
    Output(usize),
    CellDep(usize),
    HeaderDep(usize),
}

/// What a source and an index name.
#[derive(Clone, Copy)]
pub(crate) enum Target {
    NoSource,
    NoIndex,
    At(Place),
}

/// The source of a number; any other number is none.
#[tactic(auto, unfolding(verdict_defs::specs::Sources::source_of, verdict_defs::specs::Sources::sources))]
fn source_of(number: u64) -> Option<Source>
    ensures { option_map source_meaning result ≡ defs.source_of number }
{
    match number {
        1 => Some(Source::Inputs),
        2 => Some(Source::Outputs),
        3 => Some(Source::CellDeps),
        4 => Some(Source::HeaderDeps),
        0x0100_0000_0000_0001 => Some(Source::GroupInputs),
        0x0100_0000_0000_0002 => Some(Source::GroupOutputs),
        0x0100_0000_0000_0003 => Some(Source::GroupCellDeps),
        0x0100_0000_0000_0004 => Some(Source::GroupHeaderDeps),
        _ => None,
    }
}

/// The place that a group has for an index.
fn member(places: &[u32], index: u64) -> Option<usize>
    ensures { result ≡ slice_get places.now index }
{
    let at = index as usize;
    if at < places.len() {
        Some(places[at] as usize)
    } else {
        None
    }
}

/// The place of an index of a source, whether or not an item stands there.
fn place_of(group: &Group<'_>, source: Source, index: u64) -> Option<Place>
    ensures { option_map place_meaning result ≡ defs.place_in_source group.now.group (source_meaning source) index }
{
    match source {
        Source::Inputs => Some(Place::Input(index as usize)),
        Source::Outputs => Some(Place::Output(index as usize)),
        Source::CellDeps => Some(Place::CellDep(index as usize)),
        Source::HeaderDeps => Some(Place::HeaderDep(index as usize)),
        Source::GroupInputs => member(&group.inputs, index).map(Place::Input),
        Source::GroupOutputs => member(&group.outputs, index).map(Place::Output),
        Source::GroupCellDeps => None,
        Source::GroupHeaderDeps => None,
    }
}

/// What a call's source and index name. A source that there is not comes before an index.
pub(crate) fn target_of(group: &Group<'_>, source: u64, index: u64) -> Target
    ensures { target_meaning result ≡ option_map (λ it. defs.place_in_source group.now.group it index) (defs.source_of source) }
{
    match source_of(source) {
        None => Target::NoSource,
        Some(source) => match place_of(group, source, index) {
            None => Target::NoIndex,
            Some(place) => Target::At(place),
        },
    }
}
