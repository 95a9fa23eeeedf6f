// Hex digits, read in either case. What is read is written again and compared, so that it has one form.
ghost use Rattle.std.specs.Prelude.{◌≡◌, ◌≤◌, length, map, IfOk};
ghost use Rattle.std.specs.Str.{bytes_eq};
ghost use Rattle.hex.specs.Hex.{encode_lower};
ghost use Rattle.json_defs.specs.Form.{lower_digit};
ghost use Rattle.json_blocks.specs.Digits.{value_of, value_after, pairs_of};
ghost use Rattle.json_blocks.specs.Reading.{Gives, number_from, bytes_from};

use crate::leaves::{number_digits, put_digits};
use crate::stop::JsonStop;
use outside::NoMemory;
use std::alloc::Global;

/// The value of a digit. What is no digit has some value below 16.
fn value(digit: u8) -> u8
    ensures { result ≡ value_of digit }
{
    if digit < 64 {
        digit % 16
    } else {
        (digit % 16 + 9) % 16
    }
}

/// The digit in lower case.
fn lower(digit: u8) -> u8
    ensures { result ≡ lower_digit digit }
{
    if b'A' <= digit && digit <= b'F' {
        digit + 32
    } else {
        digit
    }
}

/// Whether the text is these digits, in either case.
fn is_text_of(text: &[u8], digits: &[u8]) -> bool
    ensures { result ≡ bytes_eq (map lower_digit text.now) digits.now }
{
    if text.len() != digits.len() {
        return false;
    }
    'digits: for i in 0..text.len() {
        if lower(text[i]) != digits[i] {
            return false;
        }
    }
    true
}

/// The number of at most 32 digits.
fn sum(digits: &[u8]) -> u128
    requires { length digits.now ≤ 32 }
    ensures { result ≡ value_after 0 digits.now }
{
    let mut n: u128 = 0;
    'digits: for digit in digits {
        n = n * 16 + u128::from(value(*digit));
    }
    n
}

/// The number of digits without leading zeros.
#[tactic(auto, unfolding(crate::specs::Reading::number_from))]
pub(crate) fn number_of(digits: &[u8]) -> Result<u128, JsonStop>
    ensures { Gives (λ n. n) result (number_from digits.now) }
{
    if digits.len() > 32 {
        return Err(JsonStop::Bad);
    }
    let n = sum(digits);
    let mut text = [0u8; 64];
    let start = number_digits(n, &mut text);
    if !is_text_of(digits, &text[start..]) {
        return Err(JsonStop::Bad);
    }
    Ok(n)
}

/// The bytes of pairs of digits, whatever the digits are.
fn pairs(alloc: Global, digits: &[u8]) -> Result<Vec<u8>, NoMemory>
    ensures { IfOk result (λ bytes. bytes.items ≡ pairs_of digits.now) }
{
    let mut bytes = Vec::with_capacity(alloc, digits.len() / 2)?;
    'pairs: for i in 0..digits.len() / 2 {
        bytes.push(value(digits[2 * i]) * 16 + value(digits[2 * i + 1]))?;
    }
    Ok(bytes)
}

/// The digits of bytes.
fn text(alloc: Global, bytes: &[u8]) -> Result<Vec<u8>, NoMemory>
    ensures { IfOk result (λ text. text.items ≡ encode_lower bytes.now) }
{
    let mut text = Vec::with_capacity(alloc, 2 * bytes.len())?;
    put_digits(&mut text, bytes)?;
    Ok(text)
}

/// The bytes of a text of two digits a byte.
#[tactic(auto, unfolding(crate::specs::Reading::bytes_from))]
pub(crate) fn bytes_of(alloc: Global, digits: &[u8]) -> Result<Vec<u8>, JsonStop>
    ensures { Gives (λ bytes. bytes.items) result (bytes_from digits.now) }
{
    let bytes = pairs(alloc, digits)?;
    let text = text(alloc, &bytes)?;
    if !is_text_of(digits, &text) {
        return Err(JsonStop::Bad);
    }
    Ok(bytes)
}
