// The bytes of a snapshot that stand after its gate.
ghost use Rattle.std.specs.Prelude.{◌≡◌, ◌+◌, ◌*◌, ◌^◌, ◌<◌, ◌≤◌, ◌++◌, length, map, IfOk, OnOk};
ghost use Rattle.std.specs.List.{All, concat};
ghost use Rattle.std.specs.Int.{w32, w64, to_le_bytes};
ghost use Rattle.chain_defs.specs.Ext.{row_bytes};
ghost use Rattle.cell_state.specs.State.{rows};
ghost use Rattle.chain_defs.specs.Fits.{FitsRow};
ghost use Rattle.disk_defs.specs.Snapshot.{body_bytes};
ghost use Rattle.snapshots.specs.Writing.{IsBodyOf};

use crate::head::HEAD_SIZE;
use cell_state::{CellMeta, OutPoint, ROW_SIZE, State, put_row};
use outside::NoMemory;
use std::alloc::Global;

/// States that a row fits its bytes. It does nothing.
fn fits(o: OutPoint, meta: CellMeta)
    ensures { FitsRow (o, meta) }
{}

/// Puts what stands before the rows, but for the gate, after what is there.
fn put_head(
    bytes: &mut Vec<u8>,
    number: u32,
    tip: u32,
    hash: &[u8; 32],
    count: u64,
) -> Result<(), NoMemory>
    ensures { OnOk result (bytes.new.items ≡ bytes.old.items ++ (to_le_bytes w32 number ++ to_le_bytes w32 tip ++ hash.now ++ to_le_bytes w64 count)) }
{
    bytes.extend_from_slice(&number.to_le_bytes())?;
    bytes.extend_from_slice(&tip.to_le_bytes())?;
    bytes.extend_from_slice(hash)?;
    bytes.extend_from_slice(&count.to_le_bytes())?;
    Ok(())
}

/// Puts rows after what is there.
fn put_rows(bytes: &mut Vec<u8>, rows: &[(OutPoint, CellMeta)]) -> Result<(), NoMemory>
    ensures written { OnOk result (bytes.new.items ≡ bytes.old.items ++ concat (map row_bytes rows.now)) }
    ensures fits { OnOk result (All FitsRow rows.now) }
{
    'rows: for (o, meta) in rows {
        fits(*o, *meta);
        put_row(bytes, o, meta)?;
    }
    Ok(())
}

/// What stands after the gate of the snapshot of a state, with this number, place and hash of the tip. Each row becomes bytes
/// once, in one buffer of just this size beside the sorted rows.
pub(crate) fn body_of(
    alloc: Global,
    number: u32,
    tip: u32,
    hash: &[u8; 32],
    state: &State,
) -> Result<Vec<u8>, NoMemory>
    ensures body { IfOk result (λ body. IsBodyOf number tip hash.now (rows state.now) body.items) }
    ensures few { IfOk result (λ body. length body.items ≤ 2 ^ 58) }
{
    let count = state.rows();
    let rows = match state.sorted(alloc) {
        Ok(rows) => rows,
        Err(NoMemory) => return Err(NoMemory),
    };
    let mut bytes = match Vec::with_capacity(alloc, HEAD_SIZE - 1 + ROW_SIZE * count as usize) {
        Ok(bytes) => bytes,
        Err(_) => return Err(NoMemory),
    };
    match put_body(&mut bytes, number, tip, hash, &rows) {
        Ok(()) => Ok(bytes),
        Err(NoMemory) => Err(NoMemory),
    }
}

/// Puts what stands after the gate of a snapshot after what is there.
fn put_body(
    bytes: &mut Vec<u8>,
    number: u32,
    tip: u32,
    hash: &[u8; 32],
    rows: &[(OutPoint, CellMeta)],
) -> Result<(), NoMemory>
    ensures written { OnOk result (bytes.new.items ≡ bytes.old.items ++ body_bytes (record { number = number; tip = tip; hash = hash.now; rows = rows.now })) }
    ensures fits { OnOk result (All FitsRow rows.now) }
{
    put_head(bytes, number, tip, hash, rows.len() as u64)?;
    put_rows(bytes, rows)?;
    Ok(())
}
