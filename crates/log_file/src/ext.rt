// The form of an ext.

ghost use Rattle.std.specs.Prelude.{◌≡◌, ◌*◌, ◌==◌, length};
ghost use Rattle.std.specs.List.{list_all};
ghost use Rattle.chain_defs.specs.Ext as form;

use crate::number::read_count;

/// Bytes in a row.
const ROW_SIZE: usize = 161;

fn is_zero(bytes: &[u8]) -> bool
    ensures { result ≡ list_all (λ b. b == 0) bytes.now }
{
    'bytes: for byte in bytes {
        if *byte != 0 {
            return false;
        }
    }
    true
}

/// Whether the type hash of a row is there, or zero bytes in its place.
fn is_row(row: &[u8]) -> bool
    requires { length row.now ≡ 161 }
    ensures { result ≡ form.is_row row.now }
{
    row[92] == 1 || row[92] == 0 && is_zero(&row[93..125])
}

fn are_rows(bytes: &[u8], count: usize) -> bool
    requires { length bytes.now ≡ 161 * count }
    ensures { result ≡ form.are_rows count bytes.now }
{
    'rows: for i in 0..count {
        if !is_row(&bytes[ROW_SIZE * i..ROW_SIZE * i + ROW_SIZE]) {
            return false;
        }
    }
    true
}

/// Whether the bytes have the form of an ext (docs/STORE.md, "The ext"): a count of fees and the fees, a count of
/// rows and the rows, and nothing after them. Which block it is of is not looked at.
pub fn ext_form(b: &[u8]) -> bool
    ensures { result ≡ form.is_ext b.now }
{
    if b.len() < 4 {
        return false;
    }
    let rows_at = 4 + 8 * read_count(b, 0) as usize;
    if b.len() < rows_at + 4 {
        return false;
    }
    let rows = read_count(b, rows_at) as usize;
    b.len() == rows_at + 4 + ROW_SIZE * rows && are_rows(&b[rows_at + 4..], rows)
}
