// J21 and J22: the cell deps and the header deps.
ghost use Rattle.std.specs.Prelude.{◌≡◌, ◌<◌, ◌≤◌, length};
ghost use Rattle.chain_tree.specs.Reading.{HasRead, stop_of};

use crate::age::first_mature;
use crate::cells::{copied, push_lost};
use crate::page::Page;
use crate::site::{Site, entry_at, hash_from, is_on_branch};
use cell_state::{CellMeta, Cells, OutPoint, out_point_of};
use chain_tree::Blocks;
use mol_schema::{DepView, OutPointsView, TxView};
use outside::{NoMemory, ReadStop};
use std::alloc::Global;

/// The dep types.
const CODE: u8 = 0;

const DEP_GROUP: u8 = 1;

/// A resolved dep: of which cell dep, and as which member of its group.
#[derive(Clone, Copy)]
pub(crate) struct DepRow {
    pub(crate) dep: usize,
    pub(crate) member: Option<usize>,
    pub(crate) o: OutPoint,
    pub(crate) meta: CellMeta,
}

/// What is wrong with a cell dep.
#[derive(Clone, Copy)]
enum DepFault {
    /// A cell that is not live, the dep's own or that of a member.
    Lost { member: Option<usize>, o: OutPoint },
    /// No such dep type.
    Type(u8),
    /// The data of a group is no list of out-points.
    NoList(OutPoint),
    /// It is an empty one.
    Empty(OutPoint),
}

/// A cell dep that is not there, by its place, and why.
#[derive(Clone, Copy)]
struct WrongDep {
    dep: usize,
    fault: DepFault,
}

/// The resolved deps up to the first cell dep that is not there, and what is wrong with that.
#[derive(Drop)]
pub(crate) struct DepRows {
    pub(crate) rows: Vec<DepRow>,
    fault: Option<WrongDep>,
}

/// Adds the members of a group, by its data.
fn add_members<C: Cells>(
    site: &Site<'_, '_, '_, '_, '_, C>,
    rows: &mut Vec<DepRow>,
    dep: usize,
    group: OutPoint,
    content: &[u8],
) -> Result<Option<DepFault>, NoMemory> {
    let Some(members) = OutPointsView::read(content) else {
        return Ok(Some(DepFault::NoList(group)));
    };
    if members.count() == 0 {
        return Ok(Some(DepFault::Empty(group)));
    }
    'members: for i in 0..members.count() {
        let o = out_point_of(&members.item(i));
        let Some(meta) = site.row(&o) else {
            return Ok(Some(DepFault::Lost { member: Some(i), o }));
        };
        rows.push(DepRow {
            dep,
            member: Some(i),
            o,
            meta,
        })?;
    }
    Ok(None)
}

/// Adds the cells that a cell dep stands for.
fn add_dep<C: Cells, B: Blocks>(
    alloc: Global,
    site: &Site<'_, '_, '_, '_, '_, C>,
    blocks: &mut B,
    rows: &mut Vec<DepRow>,
    dep: usize,
    view: &DepView<'_>,
) -> Result<Option<DepFault>, ReadStop>
    requires counts { B.count blocks.old ≡ length site.now.tree.now.entries }
    ensures read { HasRead B.told B.count B.loans_of B.faults B.damages blocks.old blocks.new (stop_of result) }
{
    let o = out_point_of(&view.out_point());
    let Some(meta) = site.row(&o) else {
        return Ok(Some(DepFault::Lost { member: None, o }));
    };
    match view.dep_type() {
        CODE => match push_code(rows, dep, o, meta) {
            Ok(()) => Ok(None),
            Err(NoMemory) => Err(ReadStop::NoMemory),
        },
        DEP_GROUP => add_group(
            alloc,
            site,
            blocks,
            rows,
            dep,
            DepRow {
                dep,
                member: None,
                o,
                meta,
            },
        ),
        other => Ok(Some(DepFault::Type(other))),
    }
}

fn push_code(
    rows: &mut Vec<DepRow>,
    dep: usize,
    o: OutPoint,
    meta: CellMeta,
) -> Result<(), NoMemory> {
    rows.push(DepRow {
        dep,
        member: None,
        o,
        meta,
    })?;
    Ok(())
}

/// Adds the members of the group of a row.
fn add_group<C: Cells, B: Blocks>(
    alloc: Global,
    site: &Site<'_, '_, '_, '_, '_, C>,
    blocks: &mut B,
    rows: &mut Vec<DepRow>,
    dep: usize,
    group: DepRow,
) -> Result<Option<DepFault>, ReadStop>
    requires counts { B.count blocks.old ≡ length site.now.tree.now.entries }
    ensures read { HasRead B.told B.count B.loans_of B.faults B.damages blocks.old blocks.new (stop_of result) }
{
    let copy = match copied(alloc, site, blocks, group.o, group.meta) {
        Ok(Some(copy)) => copy,
        Ok(None) => return Ok(None),
        Err(stop) => return Err(stop),
    };
    match add_members(site, rows, dep, group.o, &copy.content) {
        Ok(fault) => Ok(fault),
        Err(NoMemory) => Err(ReadStop::NoMemory),
    }
}

/// The resolved deps of a transaction, up to the first cell dep that is not there.
pub(crate) fn dep_rows<C: Cells, B: Blocks>(
    alloc: Global,
    site: &Site<'_, '_, '_, '_, '_, C>,
    blocks: &mut B,
    tx: &TxView<'_>,
) -> Result<DepRows, ReadStop>
    requires counts { B.count blocks.old ≡ length site.now.tree.now.entries }
    ensures read { HasRead B.told B.count B.loans_of B.faults B.damages blocks.old blocks.new (stop_of result) }
{
    let raw = tx.raw();
    let mut rows = Vec::new(alloc);
    'deps: for i in 0..raw.cell_deps_count() {
        match add_dep(alloc, site, blocks, &mut rows, i, &raw.cell_deps_item(i)) {
            Ok(None) => {}
            Ok(Some(fault)) => {
                return Ok(DepRows {
                    rows,
                    fault: Some(WrongDep { dep: i, fault }),
                });
            }
            Err(stop) => {
                drop(rows);
                return Err(stop);
            }
        }
    }
    Ok(DepRows { rows, fault: None })
}

/// Appends the place of a cell dep, or of a member of its group.
pub(crate) fn push_dep(page: &mut Page, dep: usize, member: Option<usize>, o: &OutPoint) {
    page.add("place cell dep ");
    page.count(dep);
    if let Some(member) = member {
        page.add(", member ");
        page.count(member);
    }
    page.add(", cell ");
    page.out_point(o);
    page.add("\n");
}

/// J21: which cell dep is not there.
pub(crate) fn explain_deps<C: Cells, B: Blocks>(
    alloc: Global,
    page: &mut Page,
    site: &Site<'_, '_, '_, '_, '_, C>,
    blocks: &mut B,
    tx: &TxView<'_>,
) -> Result<(), ReadStop>
    requires counts { B.count blocks.old ≡ length site.now.tree.now.entries }
    ensures read { HasRead B.told B.count B.loans_of B.faults B.damages blocks.old blocks.new (stop_of result) }
{
    let found = match dep_rows(alloc, site, blocks, tx) {
        Ok(found) => found,
        Err(stop) => return Err(stop),
    };
    let came = match &found.fault {
        None => Ok(()),
        Some(wrong) => explain_wrong(page, site, blocks, wrong),
    };
    drop(found);
    came
}

/// The cell that is not live, where that is what is wrong.
fn lost_in(fault: &DepFault) -> Option<OutPoint> {
    match fault {
        DepFault::Lost { o, .. } => Some(*o),
        _ => None,
    }
}

fn explain_wrong<C: Cells, B: Blocks>(
    page: &mut Page,
    site: &Site<'_, '_, '_, '_, '_, C>,
    blocks: &mut B,
    wrong: &WrongDep,
) -> Result<(), ReadStop>
    requires counts { B.count blocks.old ≡ length site.now.tree.now.entries }
    ensures read { HasRead B.told B.count B.loans_of B.faults B.damages blocks.old blocks.new (stop_of result) }
{
    push_fault(page, wrong.dep, &wrong.fault);
    let Some(o) = lost_in(&wrong.fault) else {
        return Ok(());
    };
    match push_lost(page, site, blocks, &o) {
        Ok(()) => {
            page.add("wanted a live cell\n");
            Ok(())
        }
        Err(stop) => Err(stop),
    }
}

/// Appends the place, and what is wrong there; of a cell that is not live the place alone.
fn push_fault(page: &mut Page, dep: usize, fault: &DepFault) {
    match fault {
        DepFault::Lost { member, o } => push_dep(page, dep, *member, o),
        DepFault::Type(found) => {
            page.add("place cell dep ");
            page.count(dep);
            page.add("\nfound dep type ");
            page.number(u64::from(*found));
            page.add("\nwanted 0, a cell, or 1, a group\n");
        }
        DepFault::NoList(o) => {
            push_dep(page, dep, None, o);
            page.add("found data that is no list of out-points\nwanted a list of live cells\n");
        }
        DepFault::Empty(o) => {
            push_dep(page, dep, None, o);
            page.add("found an empty list\nwanted a list of live cells\n");
        }
    }
}

/// J22: which header dep is not the hash of an ancestor that may be named.
pub(crate) fn explain_headers<C: Cells>(
    page: &mut Page,
    site: &Site<'_, '_, '_, '_, '_, C>,
    tx: &TxView<'_>,
) {
    let raw = tx.raw();
    'deps: for i in 0..raw.header_deps_count() {
        let hash = hash_from(raw.header_deps_item(i));
        let place = site.tree.find(&hash);
        match place {
            None => {
                push_header(page, i, &hash);
                page.add("found no kept block with this hash\nwanted the hash of an ancestor\n");
                return;
            }
            Some(place) if !is_on_branch(site.tree, site.parent, place) => {
                push_header(page, i, &hash);
                page.add("found block ");
                page.number(crate::site::height_of(site.tree, place));
                page.add(" of another branch\nwanted the hash of an ancestor\n");
                return;
            }
            Some(place) => {
                let height = crate::site::height_of(site.tree, place);
                let first = first_mature(site, height);
                if !site.is_second() && site.height() < first {
                    push_header(page, i, &hash);
                    page.add("found block ");
                    page.number(height);
                    page.add(", named in block ");
                    page.number(site.height());
                    page.add("\nwanted block ");
                    page.number(first);
                    page.add(" or later, when the span maturity is over\n");
                    return;
                }
            }
        }
    }
}

fn push_header(page: &mut Page, i: usize, hash: &[u8; 32]) {
    page.add("place header dep ");
    page.count(i);
    page.add(", ");
    page.bytes(hash);
    page.add("\n");
}
