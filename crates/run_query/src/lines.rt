// The lines of queries.
ghost use Rattle.std.specs.Prelude.{◌≡◌, ◌++◌, codes, string_bytes, IfOk, OnOk};
ghost use Rattle.std.specs.Fmt.{decimal, signed_decimal};
ghost use Rattle.report_defs.specs.Text as text;
ghost use Rattle.report_defs.specs.Queries.{amount_line};
ghost use Rattle.run_query.specs.Queries.{row_line};

use cell_state::CellMeta;
use epochs::Epoch;
use run_text::{numbered_line, numbers_line, push_hash, push_hex, push_number};
use std::alloc::{AllocError, Global};

/// The line of a tip of this number and hash.
pub fn tip_line(alloc: Global, number: u64, hash: &[u8; 32]) -> Result<String, AllocError>
    ensures { IfOk result (λ line. string_bytes line ≡ text.tip_line_of number hash.now) }
{
    numbered_line(alloc, "tip", number, hash)
}

/// The line of a header of 208 bytes at a height, whose block has this hash.
pub fn header_line(
    alloc: Global,
    height: u64,
    hash: &[u8; 32],
    bytes: &[u8],
) -> Result<String, AllocError>
    ensures { IfOk result (λ line. string_bytes line ≡ text.header_line height hash.now bytes.now) }
{
    let mut line = String::from_str(alloc, "header ")?;
    push_number(alloc, &mut line, height)?;
    line.push_str(" ")?;
    push_hash(alloc, &mut line, hash)?;
    line.push_str(" ")?;
    push_hex(alloc, &mut line, bytes)?;
    line.push_str("\n")?;
    Ok(line)
}

/// The line of an epoch.
pub fn epoch_line(alloc: Global, epoch: &Epoch) -> Result<String, AllocError>
    ensures { IfOk result (λ line. string_bytes line ≡ text.epoch_line epoch.now.number epoch.now.index epoch.now.length) }
{
    let mut line = String::from_str(alloc, "epoch ")?;
    push_number(alloc, &mut line, epoch.number)?;
    line.push_str(" ")?;
    push_number(alloc, &mut line, u64::from(epoch.index))?;
    line.push_str(" ")?;
    push_number(alloc, &mut line, u64::from(epoch.length))?;
    line.push_str("\n")?;
    Ok(line)
}

/// Adds the hash of a type script, where there is one.
fn push_type(
    alloc: Global,
    line: &mut String,
    type_hash: &Option<[u8; 32]>,
) -> Result<(), AllocError>
    ensures { OnOk result (string_bytes line.new ≡ string_bytes line.old ++ text.type_text type_hash.now) }
{
    match type_hash {
        None => line.push_str("-"),
        Some(hash) => push_hash(alloc, line, hash),
    }
}

/// The amounts of a live cell, and its height.
fn amounts_line(alloc: Global, meta: &CellMeta, height: u64) -> Result<String, AllocError>
    ensures { IfOk result (λ line. string_bytes line
        ≡ codes "live " ++ decimal meta.now.capacity ++ codes " " ++ decimal meta.now.occupied ++ codes " " ++ decimal height) }
{
    let mut line = String::from_str(alloc, "live ")?;
    push_number(alloc, &mut line, meta.capacity)?;
    line.push_str(" ")?;
    push_number(alloc, &mut line, meta.occupied)?;
    line.push_str(" ")?;
    push_number(alloc, &mut line, height)?;
    Ok(line)
}

/// The line of a live cell with this row, which was made at this height.
pub fn live_line(alloc: Global, meta: &CellMeta, height: u64) -> Result<String, AllocError>
    ensures { IfOk result (λ line. string_bytes line ≡ row_line meta.now height) }
{
    let mut line = amounts_line(alloc, meta, height)?;
    line.push_str(" ")?;
    push_hash(alloc, &mut line, &meta.lock_hash)?;
    line.push_str(" ")?;
    push_type(alloc, &mut line, &meta.type_hash)?;
    line.push_str(" ")?;
    push_hash(alloc, &mut line, &meta.data_hash)?;
    line.push_str(" ")?;
    push_number(alloc, &mut line, u64::from(meta.data_len))?;
    line.push_str("\n")?;
    Ok(line)
}

/// The line of a query that finds nothing.
pub fn none_line(alloc: Global) -> Result<String, AllocError>
    ensures { IfOk result (λ line. string_bytes line ≡ text.none_line) }
{
    String::from_str(alloc, "none\n")
}

/// The line of what a deposit of this height counts, if a u64 holds it.
pub fn deposit_line(alloc: Global, deposit: u64, amount: Option<u64>) -> Result<String, AllocError>
    ensures { IfOk result (λ line. string_bytes line ≡ amount_line (text.deposit_line deposit) amount) }
{
    match amount {
        None => String::from_str(alloc, "overflow\n"),
        Some(amount) => numbers_line(alloc, "deposit ", deposit, amount),
    }
}

/// The line of what a withdrawing cell counts, of a deposit of this height and made at this height, if a u64 holds it.
pub fn withdrawing_line(
    alloc: Global,
    deposit: u64,
    made: u64,
    amount: Option<u64>,
) -> Result<String, AllocError>
    ensures { IfOk result (λ line. string_bytes line ≡ amount_line (text.withdrawing_line deposit made) amount) }
{
    match amount {
        None => String::from_str(alloc, "overflow\n"),
        Some(amount) => {
            let mut line = String::from_str(alloc, "withdrawing ")?;
            push_number(alloc, &mut line, deposit)?;
            line.push_str(" ")?;
            push_number(alloc, &mut line, made)?;
            line.push_str(" ")?;
            push_number(alloc, &mut line, amount)?;
            line.push_str("\n")?;
            Ok(line)
        }
    }
}

/// The line of a live cell that is neither a deposit nor a withdrawing cell that names one.
pub fn not_dao_line(alloc: Global) -> Result<String, AllocError>
    ensures { IfOk result (λ line. string_bytes line ≡ text.not_dao_line) }
{
    String::from_str(alloc, "not dao\n")
}

/// Adds a number in decimal digits, after a sign where it is negative.
fn push_signed(alloc: Global, line: &mut String, number: i128) -> Result<(), AllocError>
    ensures { OnOk result (string_bytes line.new ≡ string_bytes line.old ++ signed_decimal number) }
{
    let digits = number.to_string(alloc)?;
    line.push_str(&digits)
}

/// The line of two balances, in shannons: of what was issued, and of what live cells occupy.
pub fn audit_line(alloc: Global, left: (i128, i128)) -> Result<String, AllocError>
    ensures { IfOk result (λ line. string_bytes line ≡ text.audit_line left.0 left.1) }
{
    let (supply, occupied) = left;
    let mut line = String::from_str(alloc, "audit ")?;
    push_signed(alloc, &mut line, supply)?;
    line.push_str(" ")?;
    push_signed(alloc, &mut line, occupied)?;
    line.push_str("\n")?;
    Ok(line)
}
