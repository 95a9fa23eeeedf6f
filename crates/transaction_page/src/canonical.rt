// J1: where bytes stop being a canonical item of the kind that is asked for.
ghost use Rattle.std.specs.Prelude.{◌<◌, ◌≤◌, length};

use crate::page::Page;
use mol_schema::{BlockView, OutputView, RawTxView, ScriptView, TxView, UncleView};

/// What a part of an item is to be.
#[derive(Clone, Copy)]
enum Kind {
    Block,
    Header,
    Uncles,
    Uncle,
    Transactions,
    Ids,
    Transaction,
    Raw,
    Version,
    CellDeps,
    HeaderDeps,
    Inputs,
    Outputs,
    Output,
    Capacity,
    Script,
    OptionalScript,
    CodeHash,
    HashType,
    Bytes,
    ListOfBytes,
}

/// How it is encoded (RFC 0008).
#[derive(Clone, Copy)]
enum Form {
    /// So many bytes.
    Fixed(usize),
    /// A vector of items of so many bytes.
    Vector(usize),
    /// A vector of items of this kind.
    Items(Kind),
    /// A table of so many fields.
    Table(usize),
}

/// What is wrong with the encoding of a part.
#[derive(Clone, Copy)]
enum Fault {
    /// So many bytes, and not so many.
    Length(usize, usize),
    /// Its size, which is to be how many bytes there are.
    Size(usize, usize),
    /// So many items of so many bytes.
    Count(usize, usize),
    /// The first offset of a table, which says how many fields there are, and what it is to be.
    Fields(usize, usize),
    /// An offset that is none.
    Offset(usize),
}

/// A part of an item: its kind, its bytes, and where they begin.
#[derive(Clone, Copy)]
struct Part<'a> {
    kind: Kind,
    bytes: &'a [u8],
    at: usize,
}

/// A part of a part: its name, and its place where it is an item.
#[derive(Clone, Copy)]
struct Inner<'a> {
    name: &'static str,
    place: Option<usize>,
    part: Part<'a>,
}

fn form_of(kind: Kind) -> Form {
    match kind {
        Kind::Block => Form::Table(4),
        Kind::Header => Form::Fixed(208),
        Kind::Uncles => Form::Items(Kind::Uncle),
        Kind::Uncle => Form::Table(2),
        Kind::Transactions => Form::Items(Kind::Transaction),
        Kind::Ids => Form::Vector(10),
        Kind::Transaction => Form::Table(2),
        Kind::Raw => Form::Table(6),
        Kind::Version => Form::Fixed(4),
        Kind::CellDeps => Form::Vector(37),
        Kind::HeaderDeps => Form::Vector(32),
        Kind::Inputs => Form::Vector(44),
        Kind::Outputs => Form::Items(Kind::Output),
        Kind::Output => Form::Table(3),
        Kind::Capacity => Form::Fixed(8),
        Kind::Script => Form::Table(3),
        Kind::OptionalScript => Form::Table(3),
        Kind::CodeHash => Form::Fixed(32),
        Kind::HashType => Form::Fixed(1),
        Kind::Bytes => Form::Vector(1),
        Kind::ListOfBytes => Form::Items(Kind::Bytes),
    }
}

/// A field of a table, by its place.
fn field_of(kind: Kind, i: usize) -> (&'static str, Kind) {
    match (kind, i) {
        (Kind::Block, 0) => ("header", Kind::Header),
        (Kind::Block, 1) => ("uncles", Kind::Uncles),
        (Kind::Block, 2) => ("transactions", Kind::Transactions),
        (Kind::Block, _) => ("proposals", Kind::Ids),
        (Kind::Uncle, 0) => ("header", Kind::Header),
        (Kind::Uncle, _) => ("proposals", Kind::Ids),
        (Kind::Transaction, 0) => ("raw", Kind::Raw),
        (Kind::Transaction, _) => ("witnesses", Kind::ListOfBytes),
        (Kind::Raw, 0) => ("version", Kind::Version),
        (Kind::Raw, 1) => ("cell_deps", Kind::CellDeps),
        (Kind::Raw, 2) => ("header_deps", Kind::HeaderDeps),
        (Kind::Raw, 3) => ("inputs", Kind::Inputs),
        (Kind::Raw, 4) => ("outputs", Kind::Outputs),
        (Kind::Raw, _) => ("outputs_data", Kind::ListOfBytes),
        (Kind::Output, 0) => ("capacity", Kind::Capacity),
        (Kind::Output, 1) => ("lock", Kind::Script),
        (Kind::Output, _) => ("type_", Kind::OptionalScript),
        (_, 0) => ("code_hash", Kind::CodeHash),
        (_, 1) => ("hash_type", Kind::HashType),
        (_, _) => ("args", Kind::Bytes),
    }
}

/// A number of four bytes, little-endian; 0 where they are not there.
fn number_at(bytes: &[u8], at: usize) -> usize {
    if at > bytes.len() || bytes.len() - at < 4 {
        return 0;
    }
    let mut four = [0u8; 4];
    four.copy_from_slice(&bytes[at..at + 4]);
    u32::from_le_bytes(four) as usize
}

/// The bytes from one place to another, where both are there.
fn between(bytes: &[u8], start: usize, end: usize) -> &[u8] {
    if start > end || end > bytes.len() {
        return &bytes[..0];
    }
    &bytes[start..end]
}

/// How many offsets a table or a vector of items has, by the first of them.
fn offsets_of(bytes: &[u8]) -> usize {
    if bytes.len() <= 4 {
        return 0;
    }
    (number_at(bytes, 4) / 4).saturating_sub(1)
}

/// Where an item or a field begins: at the end of the last one there is the end.
fn start_of(bytes: &[u8], i: usize) -> usize {
    if i < offsets_of(bytes) {
        number_at(bytes, i.saturating_mul(4).saturating_add(4))
    } else {
        bytes.len()
    }
}

fn item_of(bytes: &[u8], i: usize) -> &[u8] {
    between(
        bytes,
        start_of(bytes, i),
        start_of(bytes, i.saturating_add(1)),
    )
}

/// What is wrong with a vector of items of so many bytes.
fn fault_of_vector(bytes: &[u8], item: usize) -> Option<Fault> {
    let count = number_at(bytes, 0);
    let needs = count.saturating_mul(item).saturating_add(4);
    if bytes.len() < 4 || needs != bytes.len() {
        return Some(Fault::Count(count, item));
    }
    None
}

/// What is wrong with the size and the offsets of a table or of a vector of items, and where.
fn fault_of_offsets(bytes: &[u8], fields: Option<usize>) -> Option<(usize, Fault)> {
    let size = number_at(bytes, 0);
    if bytes.len() < 4 || size != bytes.len() {
        return Some((0, Fault::Size(size, bytes.len())));
    }
    let first = number_at(bytes, 4);
    if let Some(count) = fields {
        let wanted = count.saturating_mul(4).saturating_add(4);
        if first != wanted {
            return Some((4, Fault::Fields(first, wanted)));
        }
    } else if bytes.len() == 4 {
        return None;
    }
    if first % 4 != 0 || first < 8 || first > bytes.len() {
        return Some((4, Fault::Offset(first)));
    }
    'offsets: for i in 0..offsets_of(bytes) {
        if start_of(bytes, i) > start_of(bytes, i.saturating_add(1)) {
            let at = i
                .saturating_mul(4)
                .saturating_add(8)
                .min(first.saturating_sub(4));
            return Some((at, Fault::Offset(number_at(bytes, at))));
        }
    }
    None
}

/// What is wrong with the encoding of a part itself, and how far from its start. Of its own parts nothing is said.
fn fault_of(part: &Part<'_>) -> Option<(usize, Fault)> {
    match form_of(part.kind) {
        Form::Fixed(size) => {
            if part.bytes.len() == size {
                None
            } else {
                Some((0, Fault::Length(part.bytes.len(), size)))
            }
        }
        Form::Vector(item) => match fault_of_vector(part.bytes, item) {
            Some(fault) => Some((0, fault)),
            None => None,
        },
        Form::Items(_) => fault_of_offsets(part.bytes, None),
        Form::Table(fields) => fault_of_offsets(part.bytes, Some(fields)),
    }
}

/// Whether an item of a vector, or a field that is no vector of items, is canonical.
fn is_good_item(kind: Kind, bytes: &[u8]) -> bool {
    match kind {
        Kind::Block => BlockView::read(bytes).is_some(),
        Kind::Uncle => UncleView::read(bytes).is_some(),
        Kind::Transaction => TxView::read(bytes).is_some(),
        Kind::Raw => RawTxView::read(bytes).is_some(),
        Kind::Output => OutputView::read(bytes).is_some(),
        Kind::Script => ScriptView::read(bytes).is_some(),
        Kind::OptionalScript => bytes.is_empty() || ScriptView::read(bytes).is_some(),
        _ => fault_of(&Part { kind, bytes, at: 0 }).is_none(),
    }
}

/// Whether a part is canonical.
fn is_good(kind: Kind, bytes: &[u8]) -> bool {
    match form_of(kind) {
        Form::Items(item) => {
            if fault_of_offsets(bytes, None).is_some() {
                return false;
            }
            'items: for i in 0..offsets_of(bytes) {
                if !is_good_item(item, item_of(bytes, i)) {
                    return false;
                }
            }
            true
        }
        _ => is_good_item(kind, bytes),
    }
}

/// What a part of a part is to be, with its name.
fn inner_kind(kind: Kind, i: usize) -> (&'static str, Kind) {
    match form_of(kind) {
        Form::Items(item) => ("item", item),
        _ => field_of(kind, i),
    }
}

/// The first part of a part, whose own encoding is good, that is not canonical.
fn first_bad<'a>(part: &Part<'a>) -> Option<Inner<'a>> {
    'parts: for i in 0..offsets_of(part.bytes) {
        let (name, kind) = inner_kind(part.kind, i);
        let bytes = item_of(part.bytes, i);
        if !is_good(kind, bytes) {
            let place = match form_of(part.kind) {
                Form::Items(_) => Some(i),
                _ => None,
            };
            let at = part.at.saturating_add(start_of(part.bytes, i));
            return Some(Inner {
                name,
                place,
                part: Part { kind, bytes, at },
            });
        }
    }
    None
}

fn push_fault(page: &mut Page, at: usize, fault: Fault) {
    page.add("byte ");
    page.count(at);
    page.add("\nfound ");
    match fault {
        Fault::Length(found, wanted) => push_two(page, "", found, " bytes\nwanted ", wanted),
        Fault::Size(found, wanted) => push_two(page, "size ", found, "\nwanted ", wanted),
        Fault::Count(count, item) => {
            push_two(
                page,
                "so many items: ",
                count,
                "\nwanted as many as there are bytes for, of ",
                item,
            )
        }
        Fault::Fields(found, wanted) => push_two(page, "first offset ", found, "\nwanted ", wanted),
        Fault::Offset(found) => {
            page.add("offset ");
            page.count(found);
            page.add("\nwanted offsets in order, within the bytes");
        }
    }
    page.add("\n");
}

fn push_two(page: &mut Page, before: &str, found: usize, between: &str, wanted: usize) {
    page.add(before);
    page.count(found);
    page.add(between);
    page.count(wanted);
}

/// The most parts within each other.
const DEPTH: usize = 8;

/// Appends where an item stops being canonical: the names of the parts, from without, and the byte.
fn explain(page: &mut Page, kind: Kind, item: &[u8]) {
    let mut part = Part {
        kind,
        bytes: item,
        at: 0,
    };
    page.add("place ");
    'parts: for _ in 0..DEPTH {
        if let Some((at, fault)) = fault_of(&part) {
            push_fault(page, part.at.saturating_add(at), fault);
            return;
        }
        let Some(inner) = first_bad(&part) else {
            break;
        };
        page.add(inner.name);
        if let Some(place) = inner.place {
            page.add(" ");
            page.count(place);
        }
        page.add(", ");
        part = inner.part;
    }
    page.add("byte ");
    page.count(part.at);
    page.add("\n");
}

/// Appends the place of J1 in what is to be a transaction.
pub(crate) fn explain_transaction_bytes(page: &mut Page, item: &[u8]) {
    if BlockView::read(item).is_some() {
        page.add("found a canonical Block\nwanted a canonical Transaction\n");
        return;
    }
    explain(page, Kind::Transaction, item);
}

/// Appends the place of J1 in what is to be a block.
pub fn explain_block_bytes(page: &mut Page, item: &[u8]) {
    if TxView::read(item).is_some() {
        page.add("found a canonical Transaction\nwanted a canonical Block\n");
        return;
    }
    explain(page, Kind::Block, item);
}
