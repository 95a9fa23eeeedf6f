// The ext of a block: the fees of its transactions, and the rows of the cells that it spends.
ghost use Rattle.std.specs.Prelude.{◌≡◌, ◌+◌, ◌*◌, ◌^◌, ◌<◌, ◌≤◌, ◌++◌, Some, None, if◌then◌else◌, nat_le, length, map, is_some, IfOk, IfSome, IsTrue, OnOk};
ghost use Rattle.std.specs.List.{All, concat};
ghost use Rattle.std.specs.Int.{w32, w64, to_le_bytes};
ghost use Rattle.chain_defs.specs.Ext as exts;
ghost use Rattle.chain_defs.specs.Ext.{count_at, row_bytes, are_rows, ext_bytes, is_ext, fee_of};
ghost use Rattle.chain_defs.specs.Fits.{FitsRow, FitsExt};

use crate::cells::{CellMeta, OutPoint};
use crate::row::{ROW_SIZE, put_row, read_row, u32_at, u64_at};
use outside::NoMemory;
use std::alloc::Global;
use std::marker::Model;

/// What is kept beside a block. Clauses see an `Ext` of the definitions.
#[derive(Drop)]
pub struct Ext {
    /// Shannons, one for each transaction after the first, in their order.
    pub fees: Vec<u64>,
    /// The rows of the cells that the block spends and that were live before it, in the order of spending.
    pub spent: Vec<(OutPoint, CellMeta)>,
}

impl Model for Ext {
    ghost use Rattle.chain_defs.specs.Ext as exts;

    ghost Value = { exts.Ext };

    ghost view = { λ ext. record { fees = ext.fees.items; spent = ext.spent.items } };
}

impl Ext {
    /// The ext that the bytes hold: of those that fit their bytes the one that has these. None where they are not of its form.
    pub fn read(alloc: Global, b: &[u8]) -> Result<Option<Ext>, NoMemory>
        ensures found { IfOk result (λ ext. is_some ext ≡ is_ext b.now) }
        ensures bytes { IfOk result (λ ext. IfSome ext (λ it. ext_bytes it ≡ b.now)) }
        ensures fits { IfOk result (λ ext. IfSome ext FitsExt) }
        ensures exact { IfOk result (λ ext. (it : exts.Ext) → FitsExt it → ext_bytes it ≡ b.now → ext ≡ Some it) }
        ensures fees { IfOk result (λ ext. IfSome ext (λ it. length it.fees ≡ count_at b.now 0)) }
        ensures spent { IfOk result (λ ext. IfSome ext (λ it. length it.spent ≡ count_at b.now (4 + 8 * count_at b.now 0))) }
    {
        if b.len() < 4 {
            return Ok(None);
        }
        let fees = u32_at(b, 0) as usize;
        let rows_at = 4 + 8 * fees;
        if b.len() < rows_at + 4 {
            return Ok(None);
        }
        let rows = u32_at(b, rows_at) as usize;
        if b.len() != rows_at + 4 + ROW_SIZE * rows {
            return Ok(None);
        }
        let spent = match read_rows(alloc, &b[rows_at + 4..], rows) {
            Ok(Some(spent)) => spent,
            Ok(None) => return Ok(None),
            Err(NoMemory) => return Err(NoMemory),
        };
        match read_fees(alloc, &b[4..rows_at], fees) {
            Ok(fees) => Ok(Some(Ext { fees, spent })),
            Err(NoMemory) => Err(NoMemory),
        }
    }

    /// The bytes of the ext.
    pub fn write(&self, alloc: Global) -> Result<Vec<u8>, NoMemory>
        requires fees { length self.now.fees < 2 ^ 32 }
        requires spent { length self.now.spent < 2 ^ 32 }
        ensures bytes { IfOk result (λ bytes. bytes.items ≡ ext_bytes self.now) }
        ensures form { IfOk result (λ bytes. IsTrue (is_ext bytes.items)) }
    {
        let mut bytes = Vec::new(alloc);
        put_fees(&mut bytes, &self.fees)?;
        put_rows(&mut bytes, &self.spent)?;
        Ok(bytes)
    }
}

/// The fee of the transaction at a place in an ext's bytes, in shannons. None where the ext has no fee for it.
pub fn fee_in(ext: &[u8], tx: u32) -> Option<u64>
    requires form { IsTrue (is_ext ext.now) }
    requires paying { 1 ≤ tx }
    ensures { result ≡ (if nat_le tx (count_at ext.now 0) then Some (fee_of ext.now tx) else None) }
{
    if tx > u32_at(ext, 0) {
        return None;
    }
    Some(u64_at(ext, 8 * tx as usize - 4))
}

/// The fees that the bytes hold, side by side.
fn read_fees(alloc: Global, bytes: &[u8], count: usize) -> Result<Vec<u64>, NoMemory>
    requires { length bytes.now ≡ 8 * count }
    ensures bytes { IfOk result (λ fees. concat (map (to_le_bytes w64) fees.items) ≡ bytes.now) }
    ensures count { IfOk result (λ fees. length fees.items ≡ count) }
    ensures fits { IfOk result (λ fees. All (λ fee. fee < 2 ^ 64) fees.items) }
{
    let mut fees = Vec::with_capacity(alloc, count)?;
    'fees: for i in 0..count {
        fees.push(u64_at(bytes, 8 * i))?;
    }
    Ok(fees)
}

/// The rows that the bytes hold, side by side. None where one is not of its form.
fn read_rows(
    alloc: Global,
    bytes: &[u8],
    count: usize,
) -> Result<Option<Vec<(OutPoint, CellMeta)>>, NoMemory>
    requires { length bytes.now ≡ 161 * count }
    ensures found { IfOk result (λ rows. is_some rows ≡ are_rows count bytes.now) }
    ensures bytes { IfOk result (λ rows. IfSome rows (λ them. concat (map row_bytes them.items) ≡ bytes.now)) }
    ensures count { IfOk result (λ rows. IfSome rows (λ them. length them.items ≡ count)) }
    ensures fits { IfOk result (λ rows. IfSome rows (λ them. All FitsRow them.items)) }
{
    let mut rows = Vec::with_capacity(alloc, count)?;
    'rows: for i in 0..count {
        let Some(row) = read_row(&bytes[ROW_SIZE * i..ROW_SIZE * i + ROW_SIZE]) else {
            return Ok(None);
        };
        rows.push(row)?;
    }
    Ok(Some(rows))
}

/// Puts a count of fees and the fees after what is there.
fn put_fees(bytes: &mut Vec<u8>, fees: &[u64]) -> Result<(), NoMemory>
    requires { length fees.now < 2 ^ 32 }
    ensures { OnOk result (bytes.new.items ≡ bytes.old.items ++ to_le_bytes w32 (length fees.now) ++ concat (map (to_le_bytes w64) fees.now)) }
{
    bytes.extend_from_slice(&(fees.len() as u32).to_le_bytes())?;
    'fees: for fee in fees {
        bytes.extend_from_slice(&fee.to_le_bytes())?;
    }
    Ok(())
}

/// Puts a count of rows and the rows after what is there.
fn put_rows(bytes: &mut Vec<u8>, rows: &[(OutPoint, CellMeta)]) -> Result<(), NoMemory>
    requires { length rows.now < 2 ^ 32 }
    ensures written { OnOk result (bytes.new.items ≡ bytes.old.items ++ to_le_bytes w32 (length rows.now) ++ concat (map row_bytes rows.now)) }
    ensures size { OnOk result (length (concat (map row_bytes rows.now)) ≡ 161 * length rows.now) }
    ensures form { OnOk result (IsTrue (are_rows (length rows.now) (concat (map row_bytes rows.now)))) }
{
    bytes.extend_from_slice(&(rows.len() as u32).to_le_bytes())?;
    'rows: for (o, meta) in rows {
        put_row(bytes, o, meta)?;
    }
    Ok(())
}
