// J21: the cells that the cell deps stand for.
ghost use Rattle.std.specs.Prelude.{◌≡◌, ◌<◌, ℕ, List, Some, Err, length, IfOk, map};
ghost use Rattle.std.specs.Option.{option_map};
ghost use Rattle.chain_defs.specs.Schema.{CellOutput, Block};
ghost use Rattle.outside.specs.declared.disk.Area.TheVariants.{Log};
ghost use Rattle.outside.specs.declared.disk.Damage.{Damage};
ghost use Rattle.outside.specs.declared.disk.ReadStop.TheVariants.{DiskFault, Damaged};
ghost use Rattle.chain_tree.specs.Told.{Stored, blocks_of};
ghost use Rattle.chain_tree.specs.Reading.{HasRead, stop_of};
ghost use Rattle.chain_defs.specs.Cell.{Cell};
ghost use Rattle.chain_defs.specs.Row.{row_of};
ghost use Rattle.cell_state.specs.Copies.{NamesOutput, output_in};
ghost use Rattle.rule_defs.specs.Site.{Site};
ghost use Rattle.rule_defs.specs.Resolving.{cells_of_dep, dep_cells};
ghost use Rattle.tx_rules.specs.At.{IsAtParent, IsSiteOf, found_row, place_of_height};
ghost use Rattle.tx_rules.specs.Members.{Adds, rows_of, member_rows};

use crate::at::{Own, TxAt, damage_of};
use crate::inputs::find_row;
use cell_state::{CellMeta, Cells, OutPoint, output_at};
use chain_tree::Blocks;
use mol_schema::{BlockView, DepView, OutPointsView, TxView};
use outside::{NoMemory, ReadStop};
use std::alloc::Global;

/// The dep types: a cell, and a group of cells.
const CODE: u8 = 0;

const DEP_GROUP: u8 = 1;

/// Adds the rows of listed members, in their order. False where one of them is not live.
fn add_listed<C: Cells>(
    cells: &C,
    members: &OutPointsView<'_>,
    found: &mut Vec<(OutPoint, CellMeta)>,
) -> Result<bool, NoMemory>
    ensures { IfOk result (λ all. Adds found.old.items all found.new.items (rows_of (C.rows cells.now) members.now)) }
{
    'members: for i in 0..members.count() {
        match find_row(cells, &members.item(i)) {
            None => return Ok(false),
            Some(row) => found.push(row)?,
        }
    }
    Ok(true)
}

/// Adds the rows of the members of a dep group, by its data. False where this lists no member, or one that is not live.
fn add_group<C: Cells>(
    cells: &C,
    content: &[u8],
    found: &mut Vec<(OutPoint, CellMeta)>,
) -> Result<bool, NoMemory>
    ensures { IfOk result (λ all. Adds found.old.items all found.new.items (member_rows (C.rows cells.now) content.now)) }
{
    let Some(members) = OutPointsView::read(content) else {
        return Ok(false);
    };
    if members.count() == 0 {
        return Ok(false);
    }
    add_listed(cells, &members, found)
}

/// Adds the rows of the members of the dep group that a row names in its block. Damaged where it names no output there.
fn add_group_in<C: Cells>(
    at: &TxAt<'_, '_, '_>,
    cells: &C,
    block: &BlockView<'_>,
    o: &OutPoint,
    meta: &CellMeta,
    found: &mut Vec<(OutPoint, CellMeta)>,
) -> Result<bool, ReadStop>
    ensures rows { (output : CellOutput) (content : List ℕ) → output_in block.now meta.now.transaction o.now.index ≡ Some (output, content)
        → IfOk result (λ all. Adds found.old.items all found.new.items (member_rows (C.rows cells.now) content)) }
    ensures undamaged { (output : CellOutput) (content : List ℕ) → output_in block.now meta.now.transaction o.now.index ≡ Some (output, content)
        → (damage : Damage) → result ≡ Err (Damaged damage) → ⊥ }
    ensures damage { (damage : Damage) → result ≡ Err (Damaged damage) → damage.area ≡ Log }
    ensures no_fault { result ≡ Err DiskFault → ⊥ }
{
    let Some((_, content)) = output_at(block, o, meta) else {
        return Err(ReadStop::Damaged(damage_of(at, meta)));
    };
    match add_group(cells, content, found) {
        Ok(all) => Ok(all),
        Err(NoMemory) => Err(ReadStop::NoMemory),
    }
}

/// The same for a row of a kept block.
fn add_kept_group<C: Cells, B: Blocks>(
    at: &TxAt<'_, '_, '_>,
    cells: &C,
    blocks: &mut B,
    o: &OutPoint,
    meta: &CellMeta,
    found: &mut Vec<(OutPoint, CellMeta)>,
) -> Result<bool, ReadStop>
    requires within { meta.now.block < B.count blocks.old }
    ensures read { HasRead B.told B.count B.loans_of B.faults B.damages blocks.old blocks.new (stop_of result) }
    ensures rows { (stored : List Stored) (cell : Cell) → B.told blocks.old ≡ Some stored → NamesOutput stored o.now meta.now cell
        → IfOk result (λ all. Adds found.old.items all found.new.items (member_rows (C.rows cells.now) cell.content)) }
    ensures undamaged { (stored : List Stored) (cell : Cell) → B.told blocks.old ≡ Some stored → NamesOutput stored o.now meta.now cell
        → (damage : Damage) → result ≡ Err (Damaged damage) → ⊥ }
{
    match blocks.bring(meta.block) {
        Ok(()) => {}
        Err(stop) => return Err(stop),
    }
    let block = blocks.block();
    match add_group_in(at, cells, &block, o, meta, found) {
        Ok(all) => Ok(all),
        Err(stop) => {
            blocks.report(stop);
            Err(stop)
        }
    }
}

/// The same among the transactions of the block that is judged.
fn add_group_named<C: Cells>(
    at: &TxAt<'_, '_, '_>,
    cells: &C,
    own: &Own<'_, '_>,
    o: &OutPoint,
    meta: &CellMeta,
    found: &mut Vec<(OutPoint, CellMeta)>,
) -> Result<bool, ReadStop>
    ensures rows { (output : CellOutput) (content : List ℕ) → output_in own.now meta.now.transaction o.now.index ≡ Some (output, content)
        → IfOk result (λ all. Adds found.old.items all found.new.items (member_rows (C.rows cells.now) content)) }
    ensures undamaged { (output : CellOutput) (content : List ℕ) → output_in own.now meta.now.transaction o.now.index ≡ Some (output, content)
        → (damage : Damage) → result ≡ Err (Damaged damage) → ⊥ }
    ensures damage { (damage : Damage) → result ≡ Err (Damaged damage) → damage.area ≡ Log }
    ensures no_fault { result ≡ Err DiskFault → ⊥ }
{
    let Some((_, content)) = own.output_at(o, meta) else {
        return Err(ReadStop::Damaged(damage_of(at, meta)));
    };
    match add_group(cells, content, found) {
        Ok(all) => Ok(all),
        Err(NoMemory) => Err(ReadStop::NoMemory),
    }
}

/// The same for a row of the block that is judged.
fn add_own_group<C: Cells>(
    at: &TxAt<'_, '_, '_>,
    cells: &C,
    o: &OutPoint,
    meta: &CellMeta,
    found: &mut Vec<(OutPoint, CellMeta)>,
) -> Result<bool, ReadStop>
    ensures rows { (block : Block) (output : CellOutput) (content : List ℕ) → at.now.block ≡ Some block → meta.now.block ≡ length at.now.entries
        → output_in block meta.now.transaction o.now.index ≡ Some (output, content)
        → IfOk result (λ all. Adds found.old.items all found.new.items (member_rows (C.rows cells.now) content)) }
    ensures undamaged { (block : Block) (output : CellOutput) (content : List ℕ) → at.now.block ≡ Some block → meta.now.block ≡ length at.now.entries
        → output_in block meta.now.transaction o.now.index ≡ Some (output, content) → (damage : Damage) → result ≡ Err (Damaged damage) → ⊥ }
    ensures damage { (damage : Damage) → result ≡ Err (Damaged damage) → damage.area ≡ Log }
    ensures no_fault { result ≡ Err DiskFault → ⊥ }
{
    if meta.block != at.tree.len() {
        return Err(ReadStop::Damaged(damage_of(at, meta)));
    }
    match &at.block {
        None => Err(ReadStop::Damaged(damage_of(at, meta))),
        Some(own) => add_group_named(at, cells, own, o, meta, found),
    }
}

/// Adds the rows of the members of the dep group that a row names. Damaged where the row's block is none that the
/// transaction sees.
fn add_group_of<C: Cells, B: Blocks>(
    at: &TxAt<'_, '_, '_>,
    cells: &C,
    blocks: &mut B,
    o: &OutPoint,
    meta: &CellMeta,
    found: &mut Vec<(OutPoint, CellMeta)>,
) -> Result<bool, ReadStop>
    requires placed { IsAtParent at.now }
    requires counts { B.count blocks.old ≡ length at.now.entries }
    ensures read { HasRead B.told B.count B.loans_of B.faults B.damages blocks.old blocks.new (stop_of result) }
    ensures rows { (stored : List Stored) (site : Site) (cell : Cell) → B.told blocks.old ≡ Some stored → IsSiteOf stored at.now (C.rows cells.now) site
        → site.cell o.now ≡ Some cell → meta.now ≡ row_of (place_of_height (blocks_of stored) at.now.parent cell.height) cell
        → IfOk result (λ all. Adds found.old.items all found.new.items (member_rows (C.rows cells.now) cell.content)) }
    ensures undamaged { (stored : List Stored) (site : Site) (cell : Cell) → B.told blocks.old ≡ Some stored → IsSiteOf stored at.now (C.rows cells.now) site
        → site.cell o.now ≡ Some cell → meta.now ≡ row_of (place_of_height (blocks_of stored) at.now.parent cell.height) cell
        → (damage : Damage) → result ≡ Err (Damaged damage) → ⊥ }
{
    if meta.block < at.tree.len() {
        add_kept_group(at, cells, blocks, o, meta, found)
    } else {
        match add_own_group(at, cells, o, meta, found) {
            Ok(all) => Ok(all),
            Err(stop) => {
                blocks.report(stop);
                Err(stop)
            }
        }
    }
}

/// Adds the rows of the cells that a cell dep stands for. False where it does not resolve.
fn add_dep<C: Cells, B: Blocks>(
    at: &TxAt<'_, '_, '_>,
    cells: &C,
    blocks: &mut B,
    dep: &DepView<'_>,
    found: &mut Vec<(OutPoint, CellMeta)>,
) -> Result<bool, ReadStop>
    requires placed { IsAtParent at.now }
    requires counts { B.count blocks.old ≡ length at.now.entries }
    ensures read { HasRead B.told B.count B.loans_of B.faults B.damages blocks.old blocks.new (stop_of result) }
    ensures resolved { (stored : List Stored) (site : Site) → B.told blocks.old ≡ Some stored → IsSiteOf stored at.now (C.rows cells.now) site
        → IfOk result (λ all. Adds found.old.items all found.new.items (option_map (map (found_row (blocks_of stored) at.now.parent)) (cells_of_dep site dep.now))) }
    ensures undamaged { (stored : List Stored) (site : Site) → B.told blocks.old ≡ Some stored → IsSiteOf stored at.now (C.rows cells.now) site
        → (damage : Damage) → result ≡ Err (Damaged damage) → ⊥ }
{
    let Some(row) = find_row(cells, &dep.out_point()) else {
        return Ok(false);
    };
    match dep.dep_type() {
        CODE => match found.push(row) {
            Ok(()) => Ok(true),
            Err(_) => Err(ReadStop::NoMemory),
        },
        DEP_GROUP => add_group_of(at, cells, blocks, &row.0, &row.1, found),
        _ => Ok(false),
    }
}

/// The rows of its resolved deps: the cells in the order of the cell deps, a group as its members in its place. None
/// where one does not resolve.
pub(crate) fn resolved_deps<C: Cells, B: Blocks>(
    alloc: Global,
    tx: &TxView<'_>,
    at: &TxAt<'_, '_, '_>,
    cells: &C,
    blocks: &mut B,
) -> Result<Option<Vec<(OutPoint, CellMeta)>>, ReadStop>
    requires placed { IsAtParent at.now }
    requires counts { B.count blocks.old ≡ length at.now.entries }
    ensures read { HasRead B.told B.count B.loans_of B.faults B.damages blocks.old blocks.new (stop_of result) }
    ensures resolved { (stored : List Stored) (site : Site) → B.told blocks.old ≡ Some stored → IsSiteOf stored at.now (C.rows cells.now) site
        → IfOk result (λ found. option_map (λ rows. rows.items) found ≡ option_map (map (found_row (blocks_of stored) at.now.parent)) (dep_cells site tx.now)) }
    ensures undamaged { (stored : List Stored) (site : Site) → B.told blocks.old ≡ Some stored → IsSiteOf stored at.now (C.rows cells.now) site
        → (damage : Damage) → result ≡ Err (Damaged damage) → ⊥ }
{
    let raw = tx.raw();
    let mut found = Vec::new(alloc);
    'deps: for i in 0..raw.cell_deps_count() {
        match add_dep(at, cells, blocks, &raw.cell_deps_item(i), &mut found) {
            Ok(true) => {}
            Ok(false) => return Ok(None),
            Err(stop) => return Err(stop),
        }
    }
    Ok(Some(found))
}
