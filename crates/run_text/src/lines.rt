// What lines are made of, and the line of an early end.
ghost use Rattle.std.specs.Prelude.{◌≡◌, ◌++◌, codes, string_bytes, IfOk, OnOk};
ghost use Rattle.std.specs.Fmt.{decimal};
ghost use Rattle.report_defs.specs.Report as reports;
ghost use Rattle.report_defs.specs.Text as text;

use report_defs::End;
use std::alloc::{AllocError, Global};

/// Adds a hash: `0x` and its bytes in lower-case hex digits.
pub fn push_hash(alloc: Global, line: &mut String, hash: &[u8; 32]) -> Result<(), AllocError>
    ensures { OnOk result (string_bytes line.new ≡ string_bytes line.old ++ text.hash_text hash.now) }
{
    let digits = hex::encode(alloc, hash)?;
    line.push_str("0x")?;
    line.push_str(&digits)
}

/// Adds bytes: `0x` and two lower-case hex digits a byte.
pub fn push_hex(alloc: Global, line: &mut String, bytes: &[u8]) -> Result<(), AllocError>
    ensures { OnOk result (string_bytes line.new ≡ string_bytes line.old ++ text.hex_text bytes.now) }
{
    let digits = hex::encode(alloc, bytes)?;
    line.push_str("0x")?;
    line.push_str(&digits)
}

/// Adds a number in decimal digits.
pub fn push_number(alloc: Global, line: &mut String, number: u64) -> Result<(), AllocError>
    ensures { OnOk result (string_bytes line.new ≡ string_bytes line.old ++ decimal number) }
{
    let digits = number.to_string(alloc)?;
    line.push_str(&digits)
}

/// Adds how many cells there are, and what they hold together, in shannons.
pub fn push_total(
    alloc: Global,
    line: &mut String,
    count: u64,
    capacity: u128,
) -> Result<(), AllocError>
    ensures { OnOk result (string_bytes line.new ≡ string_bytes line.old ++ text.total_text (count, capacity)) }
{
    push_number(alloc, line, count)?;
    line.push_str(" ")?;
    let digits = capacity.to_string(alloc)?;
    line.push_str(&digits)
}

/// A word, a number and a hash.
pub fn numbered_line(
    alloc: Global,
    word: &str,
    number: u64,
    hash: &[u8; 32],
) -> Result<String, AllocError>
    ensures { IfOk result (λ line. string_bytes line
        ≡ word.now ++ codes " " ++ decimal number ++ codes " " ++ text.hash_text hash.now ++ text.line_feed) }
{
    let mut line = String::from_str(alloc, word)?;
    line.push_str(" ")?;
    push_number(alloc, &mut line, number)?;
    line.push_str(" ")?;
    push_hash(alloc, &mut line, hash)?;
    line.push_str("\n")?;
    Ok(line)
}

/// A text and a hash.
pub fn hash_line(alloc: Global, prefix: &str, hash: &[u8; 32]) -> Result<String, AllocError>
    ensures { IfOk result (λ line. string_bytes line ≡ prefix.now ++ text.hash_text hash.now ++ text.line_feed) }
{
    let mut line = String::from_str(alloc, prefix)?;
    push_hash(alloc, &mut line, hash)?;
    line.push_str("\n")?;
    Ok(line)
}

/// A text and a number.
pub fn number_line(alloc: Global, prefix: &str, number: u64) -> Result<String, AllocError>
    ensures { IfOk result (λ line. string_bytes line ≡ prefix.now ++ decimal number ++ text.line_feed) }
{
    let mut line = String::from_str(alloc, prefix)?;
    push_number(alloc, &mut line, number)?;
    line.push_str("\n")?;
    Ok(line)
}

/// A text and two numbers.
pub fn numbers_line(
    alloc: Global,
    prefix: &str,
    first: u64,
    second: u64,
) -> Result<String, AllocError>
    ensures { IfOk result (λ line. string_bytes line
        ≡ prefix.now ++ decimal first ++ codes " " ++ decimal second ++ text.line_feed) }
{
    let mut line = String::from_str(alloc, prefix)?;
    push_number(alloc, &mut line, first)?;
    line.push_str(" ")?;
    push_number(alloc, &mut line, second)?;
    line.push_str("\n")?;
    Ok(line)
}

/// What is said of an input whose reading ends so at this offset.
pub fn closing_of_end(alloc: Global, offset: u64, end: End) -> Result<String, AllocError>
    ensures { IfOk result (λ closing. string_bytes closing ≡ reports.closing_of_end offset end) }
{
    match end {
        End::AtEnd => Ok(String::new(alloc)),
        End::Cut => number_line(alloc, "cut ", offset),
        End::BadSize => number_line(alloc, "bad size ", offset),
        End::Extra => number_line(alloc, "extra ", offset),
    }
}
