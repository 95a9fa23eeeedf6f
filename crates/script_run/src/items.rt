// What a script is shown, as far as no kept block is read (RFC 0009; docs/MACHINE.md, "What a script is shown").
ghost use Rattle.std.specs.Prelude.{◌≡◌, ℕ, ◌*◌, ◌^◌, ◌<◌, IsTrue, List, Option, Some, None, slice_get};
ghost use Rattle.std.specs.List.{All, AllZip};
ghost use Rattle.machine_defs.specs.World.{Here};
ghost use Rattle.std.specs.Option.{option_map, option_and_then};
ghost use Rattle.std.specs.Int.{w64, to_le_bytes};
ghost use Rattle.chain_defs.specs.Schema.{Header};
ghost use Rattle.chain_defs.specs.Cell.{data_of};
ghost use Rattle.verdict_defs.specs.Scene.{Scene, ShownCell};
ghost use Rattle.verdict_defs.specs.Items as defs;
ghost use Rattle.verdict_defs.specs.Items.{OutputWithData, answer, field, cell_fields, header_fields, input_fields, item_at, listed, output_of, whole};
ghost use Rattle.script_run.specs.Fitting.{is_typed};
ghost use Rattle.script_run.specs.Lookups.{TellsOutput, IsFound, IsOfKept, ShowsHeaders, cell_part, header_among, header_part, input_part, item_of, items_of, load_meaning};
ghost use Rattle.script_run.specs.Places.{place_meaning};
ghost use Rattle.script_run.specs.Shown.{GroupValue, IsShownAs, Shows, output_rows};

use crate::bytes::{Answer, Bytes, CellPart, HeaderPart, InputPart, Load, Lookup};
use crate::fitting::output_of;
use crate::groups::Group;
use crate::shown::{ShownTx, output_at};
use crate::sources::{Place, Target, target_of};
use cell_state::{CellMeta, Resolved, ResolvedTx, data_at};
use mol_schema::{InputView, OutputView, TxView};
use vm_sys::Call;

/// What a call asks for. A source or a field that there is not comes first, then an index, then what is missing.
pub(crate) fn look_up<'a>(tx: &ShownTx<'a>, group: &Group<'a>, call: &Call) -> Lookup<'a>
    ensures found { (headers : ℕ → Option Header) (scene : Scene) → Shows tx.now.it scene → ShowsHeaders headers tx.now.it scene → scene.epoch_length ≡ tx.now.epoch_length
        → IsFound headers tx.now.epoch_length (items_of scene group.now call.now) result }
    ensures kept { IsOfKept tx.now.kept result }
{
    let it = tx.it;
    match load_of(call) {
        Load::Transaction => Lookup::Answered(slice(it.tx.bytes())),
        Load::Script => Lookup::Answered(slice(group.script.bytes())),
        Load::TxHash => Lookup::Answered(Answer::Here(Bytes::Hash(it.hash))),
        Load::ScriptHash => Lookup::Answered(Answer::Here(Bytes::Hash(group.hash))),
        Load::Cell(part) => Lookup::Answered(cell(tx, group, call, part)),
        Load::Header(part) => header(it, group, call, part),
        Load::Input(part) => Lookup::Answered(input(it, group, call, part)),
        Load::Witness => Lookup::Answered(witness(it, group, call)),
        Load::Nothing => Lookup::Answered(Answer::Unknown),
    }
}

/// What a call loads, by its number.
fn load_of(call: &Call) -> Load
    ensures { (scene : Scene) (it : GroupValue) → items_of scene it call.now ≡ load_meaning scene it call.now result }
{
    match call.number {
        2051 => Load::Transaction,
        2052 => Load::Script,
        2061 => Load::TxHash,
        2062 => Load::ScriptHash,
        2071 => Load::Cell(Some(CellPart::Output)),
        2072 => Load::Header(Some(HeaderPart::Whole)),
        2073 => Load::Input(Some(InputPart::Whole)),
        2074 => Load::Witness,
        2081 => Load::Cell(cell_field(call.field)),
        2082 => Load::Header(header_field(call.field)),
        2083 => Load::Input(input_field(call.field)),
        2091 => Load::Cell(Some(CellPart::Data)),
        2092 => Load::Cell(Some(CellPart::Data)),
        _ => Load::Nothing,
    }
}

// ---- Fields

#[tactic(auto, unfolding(verdict_defs::specs::Items::cell_fields))]
fn cell_field(number: u64) -> Option<CellPart>
    ensures { option_map cell_part result ≡ field cell_fields number }
{
    match number {
        0 => Some(CellPart::Capacity),
        1 => Some(CellPart::DataHash),
        2 => Some(CellPart::Lock),
        3 => Some(CellPart::LockHash),
        4 => Some(CellPart::TypeScript),
        5 => Some(CellPart::TypeHash),
        6 => Some(CellPart::Occupied),
        _ => None,
    }
}

#[tactic(auto, unfolding(verdict_defs::specs::Items::header_fields))]
fn header_field(number: u64) -> Option<HeaderPart>
    ensures { (length : ℕ) → option_map (λ part h. Some (header_part length part h)) result ≡ field (header_fields length) number }
{
    match number {
        0 => Some(HeaderPart::EpochNumber),
        1 => Some(HeaderPart::EpochStart),
        2 => Some(HeaderPart::EpochLength),
        _ => None,
    }
}

#[tactic(auto, unfolding(verdict_defs::specs::Items::input_fields))]
fn input_field(number: u64) -> Option<InputPart>
    ensures { option_map input_part result ≡ field input_fields number }
{
    match number {
        0 => Some(InputPart::OutPoint),
        1 => Some(InputPart::Since),
        _ => None,
    }
}

// ---- Cells

/// A part of the cell that a call names, where there is such a part.
fn cell<'a>(tx: &ShownTx<'a>, group: &Group<'_>, call: &Call, part: Option<CellPart>) -> Answer<'a>
    ensures { (scene : Scene) → Shows tx.now.it scene
        → listed group.now.group call.now (defs.cell_at scene) (option_map cell_part part) ≡ item_of result }
{
    let Some(part) = part else {
        return Answer::Unknown;
    };
    let it = tx.it;
    match target_of(group, call.source, call.index) {
        Target::NoSource => Answer::Unknown,
        Target::NoIndex => Answer::NoIndex,
        Target::At(place) => cell_at(it, &tx.outputs, place, part),
    }
}

fn cell_at<'a>(
    tx: &'a ResolvedTx<'a>,
    rows: &[CellMeta],
    place: Place,
    part: CellPart,
) -> Answer<'a>
    requires rows { rows.now ≡ output_rows tx.now.tx }
    requires inputs { All (λ copy. IsTrue (is_typed copy)) tx.now.inputs }
    requires deps { All (λ copy. IsTrue (is_typed copy)) tx.now.deps }
    ensures { (scene : Scene) → Shows tx.now scene
        → item_at (defs.cell_at scene) (cell_part part) (Some (place_meaning place)) ≡ item_of result }
{
    match place {
        Place::Input(i) => part_of_copy(&tx.inputs, i, part),
        Place::Output(i) => part_of_output(&tx.tx, rows, i, part),
        Place::CellDep(i) => part_of_copy(&tx.deps, i, part),
        Place::HeaderDep(_) => Answer::NoIndex,
    }
}

/// A part of the cell at a place of a list of copies.
fn part_of_copy<'a>(copies: &'a [Resolved], i: usize, part: CellPart) -> Answer<'a>
    requires { All (λ copy. IsTrue (is_typed copy)) copies.now }
    ensures { (cells : List ShownCell) → AllZip IsShownAs copies.now cells
        → answer (option_map (λ cell. cell_part part (output_of cell)) (slice_get cells i)) ≡ item_of result }
{
    if i >= copies.len() {
        return Answer::NoIndex;
    }
    let copy = &copies[i];
    part_of(&output_of(copy), &copy.content, &copy.meta, part)
}

/// A part of an output of a transaction.
fn part_of_output<'a>(tx: &TxView<'a>, rows: &[CellMeta], i: usize, part: CellPart) -> Answer<'a>
    requires { rows.now ≡ output_rows tx.now }
    ensures { answer (option_map (λ output. cell_part part (record { output = output; content = data_of tx.now i })) (slice_get tx.now.raw.outputs i)) ≡ item_of result }
{
    if i >= rows.len() {
        return Answer::NoIndex;
    }
    let output = output_at(tx, i);
    part_of(&output, data_at(tx, i), &rows[i], part)
}

/// A part of an output with its data. Its hashes, and what it occupies, stand in its row.
fn part_of<'a>(
    output: &OutputView<'a>,
    content: &'a [u8],
    row: &CellMeta,
    part: CellPart,
) -> Answer<'a>
    ensures { (cell : OutputWithData) → output.now ≡ cell.output → content.now ≡ cell.content → TellsOutput row.now cell
        → answer (Some (cell_part part cell)) ≡ item_of result }
{
    match part {
        CellPart::Output => slice(output.bytes()),
        CellPart::Data => slice(content),
        CellPart::Capacity => number(output.capacity()),
        CellPart::DataHash => Answer::Here(Bytes::Hash(row.data_hash)),
        CellPart::Lock => slice(output.lock().bytes()),
        CellPart::LockHash => Answer::Here(Bytes::Hash(row.lock_hash)),
        CellPart::TypeScript => match output.type_script() {
            None => Answer::Missing,
            Some(script) => slice(script.bytes()),
        },
        CellPart::TypeHash => match row.type_hash {
            None => Answer::Missing,
            Some(hash) => Answer::Here(Bytes::Hash(hash)),
        },
        CellPart::Occupied => number(row.occupied),
    }
}

fn slice(bytes: &[u8]) -> Answer<'_>
    ensures { Here bytes.now ≡ item_of result }
{
    Answer::Here(Bytes::Slice(bytes))
}

fn number<'a>(n: u64) -> Answer<'a>
    ensures { Here (to_le_bytes w64 n) ≡ item_of result }
{
    Answer::Here(Bytes::Number(n.to_le_bytes()))
}

// ---- Headers

/// A part of the header that a call names, where there is such a part.
fn header<'a>(
    tx: &ResolvedTx<'_>,
    group: &Group<'_>,
    call: &Call,
    part: Option<HeaderPart>,
) -> Lookup<'a>
    ensures found { (headers : ℕ → Option Header) (length : ℕ) (scene : Scene) → Shows tx.now scene → ShowsHeaders headers tx.now scene
        → IsFound headers length (listed group.now.group call.now (defs.header_at scene) (option_map (λ part h. Some (header_part length part h)) part)) result }
    ensures kept { (kept : ℕ) → All (λ place. place < kept) tx.now.headers → IsOfKept kept result }
{
    let Some(part) = part else {
        return Lookup::Answered(Answer::Unknown);
    };
    match target_of(group, call.source, call.index) {
        Target::NoSource => Lookup::Answered(Answer::Unknown),
        Target::NoIndex => Lookup::Answered(Answer::NoIndex),
        Target::At(place) => header_at(tx, place, part),
    }
}

fn header_at<'a>(tx: &ResolvedTx<'_>, place: Place, part: HeaderPart) -> Lookup<'a>
    ensures found { (headers : ℕ → Option Header) (length : ℕ) (scene : Scene) → ShowsHeaders headers tx.now scene
        → IsFound headers length (item_at (defs.header_at scene) (λ h. Some (header_part length part h)) (Some (place_meaning place))) result }
    ensures kept { (kept : ℕ) → All (λ place. place < kept) tx.now.headers → IsOfKept kept result }
{
    match place {
        Place::Input(i) => header_of_copy(&tx.headers, &tx.inputs, i, part),
        Place::Output(_) => Lookup::Answered(Answer::NoIndex),
        Place::CellDep(i) => header_of_copy(&tx.headers, &tx.deps, i, part),
        Place::HeaderDep(i) => header_of_dep(&tx.headers, i, part),
    }
}

/// A part of the header of the block that made the cell at a place of a list of copies, where the block is among those
/// of the header deps.
fn header_of_copy<'a>(places: &[u32], copies: &[Resolved], i: usize, part: HeaderPart) -> Lookup<'a>
    ensures found { (headers : ℕ → Option Header) (length : ℕ) (cells : List ShownCell) (shown : List Header) → AllZip (λ place it. headers place ≡ Some it) places.now shown
        → AllZip (λ copy cell. cell.header ≡ header_among places.now headers copy.row.block) copies.now cells
        → IsFound headers length (answer (option_map (λ cell. option_and_then (λ h. Some (header_part length part h)) cell.header) (slice_get cells i))) result }
    ensures kept { (kept : ℕ) → All (λ place. place < kept) places.now → IsOfKept kept result }
{
    if i >= copies.len() {
        return Lookup::Answered(Answer::NoIndex);
    }
    let place = made_in(&copies[i]);
    if places.contains(&place) {
        Lookup::InBlock(place, part)
    } else {
        Lookup::Answered(Answer::Missing)
    }
}

/// The place of the block that made a cell.
fn made_in(copy: &Resolved) -> u32
    ensures { result ≡ copy.now.row.block }
{
    copy.meta.block
}

/// A part of the header of a header dep.
fn header_of_dep<'a>(places: &[u32], i: usize, part: HeaderPart) -> Lookup<'a>
    ensures found { (headers : ℕ → Option Header) (length : ℕ) (shown : List Header) → AllZip (λ place it. headers place ≡ Some it) places.now shown
        → IsFound headers length (answer (option_map (λ h. Some (header_part length part h)) (slice_get shown i))) result }
    ensures kept { (kept : ℕ) → All (λ place. place < kept) places.now → IsOfKept kept result }
{
    if i >= places.len() {
        return Lookup::Answered(Answer::NoIndex);
    }
    Lookup::InBlock(places[i], part)
}

// ---- Inputs and witnesses

/// A part of the input that a call names, where there is such a part.
fn input<'a>(
    tx: &ResolvedTx<'a>,
    group: &Group<'_>,
    call: &Call,
    part: Option<InputPart>,
) -> Answer<'a>
    ensures { (scene : Scene) → Shows tx.now scene
        → listed group.now.group call.now (defs.input_at scene) (option_map input_part part) ≡ item_of result }
{
    let Some(part) = part else {
        return Answer::Unknown;
    };
    match target_of(group, call.source, call.index) {
        Target::NoSource => Answer::Unknown,
        Target::NoIndex => Answer::NoIndex,
        Target::At(Place::Input(i)) => part_of_input(&tx.tx, i, part),
        Target::At(Place::Output(_)) => Answer::NoIndex,
        Target::At(Place::CellDep(_)) => Answer::NoIndex,
        Target::At(Place::HeaderDep(_)) => Answer::NoIndex,
    }
}

/// The input at a place of a transaction.
pub(crate) fn input_at<'a>(tx: &TxView<'a>, i: usize) -> Option<InputView<'a>>
    ensures { result ≡ slice_get tx.now.raw.inputs i }
{
    let raw = tx.raw();
    if i < raw.inputs_count() {
        Some(raw.inputs_item(i))
    } else {
        None
    }
}

fn part_of_input<'a>(tx: &TxView<'a>, i: usize, part: InputPart) -> Answer<'a>
    ensures { answer (option_map (input_part part) (slice_get tx.now.raw.inputs i)) ≡ item_of result }
{
    let Some(input) = input_at(tx, i) else {
        return Answer::NoIndex;
    };
    match part {
        InputPart::Whole => slice(input.bytes()),
        InputPart::OutPoint => slice(input.previous_output().bytes()),
        InputPart::Since => number(input.since()),
    }
}

/// The witness at the place that a call names, whatever the count of inputs and of outputs.
fn witness<'a>(tx: &ResolvedTx<'a>, group: &Group<'_>, call: &Call) -> Answer<'a>
    ensures { (scene : Scene) → Shows tx.now scene
        → listed group.now.group call.now (defs.witness_at scene) (whole (λ witness. witness)) ≡ item_of result }
{
    match target_of(group, call.source, call.index) {
        Target::NoSource => Answer::Unknown,
        Target::NoIndex => Answer::NoIndex,
        Target::At(Place::Input(i)) => witness_at(&tx.tx, i),
        Target::At(Place::Output(i)) => witness_at(&tx.tx, i),
        Target::At(Place::CellDep(_)) => Answer::NoIndex,
        Target::At(Place::HeaderDep(_)) => Answer::NoIndex,
    }
}

fn witness_at<'a>(tx: &TxView<'a>, i: usize) -> Answer<'a>
    ensures { answer (option_map Some (slice_get tx.now.witnesses i)) ≡ item_of result }
{
    if i >= tx.witnesses_count() {
        return Answer::NoIndex;
    }
    slice(tx.witnesses_item(i))
}
