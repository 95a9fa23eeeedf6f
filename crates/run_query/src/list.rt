// The query `list`: the live cells of a lock.
ghost use Rattle.std.specs.Prelude.{◌≡◌, ◌++◌, map, codes, Err, IfOk, OnOk, string_bytes};
ghost use Rattle.std.specs.Fmt.{decimal};
ghost use Rattle.hex.specs.Hex.{encode_lower};
ghost use Rattle.std.specs.List.{concat, filter};
ghost use Rattle.cell_state.specs.State.{rows};
ghost use Rattle.node_store.specs.Kept.{AreRowsOfTip};
ghost use Rattle.report_defs.specs.Report as reports;
ghost use Rattle.report_defs.specs.Queries.{cells_at_tip, total_of, line_of_listed, lines_of_cells};
ghost use Rattle.report_defs.specs.Text as texts;
ghost use Rattle.report_defs.specs.declared.command.Query.TheVariants as queries;
ghost use Rattle.chain_defs.specs.ByLock.{capacity_of};
ghost use Rattle.run_query.specs.Queries.{is_of};

use cell_state::{CellMeta, OutPoint};
use itoa::Buffer;
use node_store::Node;
use outside::NoMemory;
use report_defs::Status;
use run_text::push_total;
use std::alloc::{AllocError, Global};

/// Of rows those whose lock has a hash.
fn of_lock(
    alloc: Global,
    rows: &[(OutPoint, CellMeta)],
    lock: &[u8; 32],
) -> Result<Vec<(OutPoint, CellMeta)>, AllocError>
    ensures { IfOk result (λ cells. cells.items ≡ filter (is_of lock.now) rows.now) }
{
    let mut cells = Vec::new(alloc);
    'rows: for listed in rows {
        if listed.1.lock_hash == *lock {
            cells.push((listed.0, listed.1))?;
        }
    }
    Ok(cells)
}

/// The live cells of the tip whose lock has a hash, in rising order of their out-points.
fn find_cells(
    alloc: Global,
    node: &Node,
    lock: &[u8; 32],
) -> Result<Vec<(OutPoint, CellMeta)>, NoMemory>
    ensures { AreRowsOfTip node.now.chain.blocks (rows node.now.cells) → IfOk result (λ it. it.items ≡ cells_at_tip lock.now node.now.chain) }
{
    // (there is a tip)
    let _tip = node.tree().tip();
    let rows = node.state().sorted(alloc)?;
    let cells = of_lock(alloc, &rows, lock)?;
    Ok(cells)
}

/// The hex digits of a hash.
fn digits_of(hash: &[u8; 32]) -> [u8; 64]
    ensures { result ≡ encode_lower hash.now }
{
    let mut digits = [0u8; 64];
    let _fits = hex::encode_to_slice(hash, &mut digits);
    digits
}

/// Adds a space and a number in decimal digits.
fn push_number(text: &mut Vec<u8>, number: u64) -> Result<(), AllocError>
    ensures { OnOk result (text.new.items ≡ text.old.items ++ codes " " ++ decimal number) }
{
    let mut buffer = Buffer::new();
    let digits = buffer.format(number);
    text.extend_from_slice(b" ")?;
    text.extend_from_slice(digits.as_bytes())?;
    Ok(())
}

/// Adds the line of a cell. Only the text takes memory, since the lines may be very many.
fn push_cell(text: &mut Vec<u8>, listed: &(OutPoint, CellMeta)) -> Result<(), AllocError>
    ensures { OnOk result (text.new.items ≡ text.old.items ++ line_of_listed listed.now) }
{
    let digits = digits_of(&listed.0.tx_hash);
    text.extend_from_slice(b"cell 0x")?;
    text.extend_from_slice(&digits)?;
    push_number(text, u64::from(listed.0.index))?;
    push_number(text, listed.1.capacity)?;
    text.extend_from_slice(b"\n")?;
    Ok(())
}

/// Adds the line of each cell.
fn push_cells(text: &mut Vec<u8>, cells: &[(OutPoint, CellMeta)]) -> Result<(), AllocError>
    ensures { OnOk result (text.new.items ≡ text.old.items ++ concat (map line_of_listed cells.now)) }
{
    'cells: for listed in cells {
        push_cell(text, listed)?;
    }
    Ok(())
}

/// What cells hold together, in shannons.
fn held_by(cells: &[(OutPoint, CellMeta)]) -> u128
    ensures { result ≡ capacity_of cells.now }
{
    let mut held = 0u128;
    'cells: for listed in cells {
        held += u128::from(listed.1.capacity);
    }
    held
}

/// The line of all cells.
fn line_of_all(alloc: Global, cells: &[(OutPoint, CellMeta)]) -> Result<String, AllocError>
    ensures { IfOk result (λ line. string_bytes line ≡ texts.total_line (total_of cells.now)) }
{
    let mut line = String::from_str(alloc, "total ")?;
    push_total(alloc, &mut line, cells.len() as u64, held_by(cells))?;
    line.push_str("\n")?;
    Ok(line)
}

/// The line of each cell, and that of all.
fn lines_of(alloc: Global, cells: &[(OutPoint, CellMeta)]) -> Result<Vec<u8>, AllocError>
    ensures { IfOk result (λ text. text.items ≡ lines_of_cells cells.now) }
{
    let mut text = Vec::new(alloc);
    push_cells(&mut text, cells)?;
    let total = line_of_all(alloc, cells)?;
    text.extend_from_slice(total.as_bytes())?;
    Ok(text)
}

/// The lines of the live cells of a lock.
pub fn list(alloc: Global, node: &Node, lock: &[u8; 32]) -> Result<Vec<u8>, Status>
    ensures text { AreRowsOfTip node.now.chain.blocks (rows node.now.cells) → IfOk result (λ text. text.items ≡ reports.answer_to_query (queries.Cells lock.now) node.now.chain) }
    ensures memory { (status : Status) → result ≡ Err status → status ≡ Status.NoMemory }
{
    let Ok(cells) = find_cells(alloc, node, lock) else {
        return Err(Status::NoMemory);
    };
    match lines_of(alloc, &cells) {
        Ok(text) => Ok(text),
        Err(_) => Err(Status::NoMemory),
    }
}
