// A row with its out-point as bytes (docs/STORE.md, "The ext"), and the numbers in them.
ghost use Rattle.std.specs.Prelude.{◌≡◌, ◌+◌, ◌≤◌, ◌==◌, ◌++◌, length, is_some, IfSome, OnOk, IsTrue};
ghost use Rattle.std.specs.List.{list_all, slice_range};
ghost use Rattle.std.specs.Int.{w32, w64, to_le_bytes, from_le_bytes};
ghost use Rattle.chain_defs.specs.Ext as exts;
ghost use Rattle.chain_defs.specs.Fits.{FitsRow};

use crate::cells::{CellMeta, OutPoint};
use outside::NoMemory;

/// Bytes in a row with its out-point.
pub const ROW_SIZE: usize = 161;

/// The number that the four bytes from `at` on are.
pub(crate) fn u32_at(bytes: &[u8], at: usize) -> u32
    requires { at + 4 ≤ length bytes.now }
    ensures value { result ≡ exts.count_at bytes.now at }
    ensures bytes { to_le_bytes w32 result ≡ slice_range bytes.now at (at + 4) }
{
    let four = &bytes[at..at + 4];
    u32::from_le_bytes([four[0], four[1], four[2], four[3]])
}

/// The number that the eight bytes from `at` on are.
pub(crate) fn u64_at(bytes: &[u8], at: usize) -> u64
    requires { at + 8 ≤ length bytes.now }
    ensures value { result ≡ from_le_bytes w64 (slice_range bytes.now at (at + 8)) }
    ensures bytes { to_le_bytes w64 result ≡ slice_range bytes.now at (at + 8) }
{
    let eight = &bytes[at..at + 8];
    u64::from_le_bytes([
        eight[0], eight[1], eight[2], eight[3], eight[4], eight[5], eight[6], eight[7],
    ])
}

/// The hash that the 32 bytes from `at` on are.
fn hash_at(bytes: &[u8], at: usize) -> [u8; 32]
    requires { at + 32 ≤ length bytes.now }
    ensures { result ≡ slice_range bytes.now at (at + 32) }
{
    let mut hash = [0u8; 32];
    hash.copy_from_slice(&bytes[at..at + 32]);
    hash
}

fn is_zero(bytes: &[u8]) -> bool
    ensures { result ≡ list_all (λ b. b == 0) bytes.now }
{
    'bytes: for byte in bytes {
        if *byte != 0 {
            return false;
        }
    }
    true
}

/// The type hash in a row, or that it has none. None where the 33 bytes are neither.
fn type_hash_in(row: &[u8]) -> Option<Option<[u8; 32]>>
    requires { length row.now ≡ 161 }
    ensures found { is_some result ≡ exts.is_row row.now }
    ensures bytes { IfSome result (λ hash. exts.type_bytes hash ≡ slice_range row.now 92 125) }
{
    if row[92] == 1 {
        return Some(Some(hash_at(row, 93)));
    }
    if row[92] == 0 && is_zero(&row[93..125]) {
        return Some(None);
    }
    None
}

/// The row that 161 bytes hold, with its out-point. None where they are not of its form.
pub fn read_row(row: &[u8]) -> Option<(OutPoint, CellMeta)>
    requires { length row.now ≡ 161 }
    ensures found { is_some result ≡ exts.is_row row.now }
    ensures bytes { IfSome result (λ it. exts.row_bytes it ≡ row.now) }
    ensures fits { IfSome result FitsRow }
{
    let type_hash = type_hash_in(row)?;
    Some((
        OutPoint {
            tx_hash: hash_at(row, 0),
            index: u32_at(row, 32),
        },
        CellMeta {
            block: u32_at(row, 36),
            tx: u32_at(row, 40),
            capacity: u64_at(row, 44),
            occupied: u64_at(row, 52),
            lock_hash: hash_at(row, 60),
            type_hash,
            data_hash: hash_at(row, 125),
            data_len: u32_at(row, 157),
        },
    ))
}

/// Puts a type hash, or that there is none, after what is there.
fn put_type_hash(bytes: &mut Vec<u8>, hash: &Option<[u8; 32]>) -> Result<(), NoMemory>
    ensures written { OnOk result (bytes.new.items ≡ bytes.old.items ++ exts.type_bytes hash.now) }
    ensures size { OnOk result (length (exts.type_bytes hash.now) ≡ 33) }
{
    match hash {
        None => bytes.extend_from_slice(&[0; 33])?,
        Some(hash) => {
            bytes.push(1)?;
            bytes.extend_from_slice(hash)?;
        }
    }
    Ok(())
}

/// Puts what a row with its out-point begins with, up to its lock hash, after what is there.
fn put_fixed_fields(bytes: &mut Vec<u8>, o: &OutPoint, meta: &CellMeta) -> Result<(), NoMemory>
    ensures written { OnOk result (bytes.new.items ≡ bytes.old.items ++ (o.now.tx_hash ++ to_le_bytes w32 o.now.index ++ to_le_bytes w32 meta.now.block
        ++ to_le_bytes w32 meta.now.transaction ++ to_le_bytes w64 meta.now.capacity ++ to_le_bytes w64 meta.now.occupied)) }
    ensures hash { OnOk result (length o.now.tx_hash ≡ 32) }
{
    bytes.extend_from_slice(&o.tx_hash)?;
    bytes.extend_from_slice(&o.index.to_le_bytes())?;
    bytes.extend_from_slice(&meta.block.to_le_bytes())?;
    bytes.extend_from_slice(&meta.tx.to_le_bytes())?;
    bytes.extend_from_slice(&meta.capacity.to_le_bytes())?;
    bytes.extend_from_slice(&meta.occupied.to_le_bytes())?;
    Ok(())
}

/// Puts the 161 bytes of a row with its out-point after what is there.
pub fn put_row(bytes: &mut Vec<u8>, o: &OutPoint, meta: &CellMeta) -> Result<(), NoMemory>
    ensures written { OnOk result (bytes.new.items ≡ bytes.old.items ++ exts.row_bytes (o.now, meta.now)) }
    ensures size { OnOk result (length (exts.row_bytes (o.now, meta.now)) ≡ 161) }
    ensures form { OnOk result (IsTrue (exts.is_row (exts.row_bytes (o.now, meta.now)))) }
{
    put_fixed_fields(bytes, o, meta)?;
    bytes.extend_from_slice(&meta.lock_hash)?;
    put_type_hash(bytes, &meta.type_hash)?;
    bytes.extend_from_slice(&meta.data_hash)?;
    bytes.extend_from_slice(&meta.data_len.to_le_bytes())?;
    Ok(())
}
