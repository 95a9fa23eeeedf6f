// Epochs as they are written by hand. What is read is written again and compared, so that it has one form.
ghost use Rattle.std.specs.Prelude.{◌≡◌, ◌<◌, ◌^◌, ◌&&◌, not, nat_lt, string_bytes, IfOk};
ghost use Rattle.chain_defs.specs.Specification.{keeps_s6};
ghost use Rattle.json_blocks.specs.Reading.{Gives};
ghost use Rattle.json_spec.specs.Form as form;
ghost use Rattle.json_spec.specs.Reading.{is_mark, put_together, value_after, span_from};

use json_blocks::JsonStop;
use outside::NoMemory;
use std::alloc::Global;

/// A space or a slash.
fn is_mark(c: u8) -> bool
    ensures { result ≡ is_mark c }
{
    c == b' ' || c == b'/'
}

/// The number that stands alone, or those before, between and after the marks put together.
fn put_together(marks: u8, first: u128, second: u128, third: u128) -> u128
    requires first { first < 2 ^ 32 }
    requires second { second < 2 ^ 32 }
    requires third { third < 2 ^ 32 }
    ensures { result ≡ put_together marks first second third }
{
    if marks == 0 {
        third
    } else {
        first + second * (1 << 24) + third * (1 << 40)
    }
}

/// Whether an epoch value has no room for more, be it a number or a digit.
fn is_full(marks: u8, third: u128) -> bool
    ensures { result ≡ not (nat_lt marks 3 && nat_lt third (2 ^ 24)) }
{
    marks >= 3 || third >= 1 << 24
}

/// What a text makes of a value, whatever its characters are.
fn value_of(text: &[u8]) -> Option<u128>
    ensures { result ≡ value_after 0 0 0 0 text.now }
{
    let mut marks: u8 = 0;
    let mut first: u128 = 0;
    let mut second: u128 = 0;
    let mut third: u128 = 0;
    'characters: for c in text {
        if is_full(marks, third) {
            return None;
        }
        if is_mark(*c) {
            marks += 1;
            first = second;
            second = third;
            third = 0;
        } else {
            third = third * 10 + u128::from(c.saturating_sub(b'0'));
        }
    }
    Some(put_together(marks, first, second, third))
}

/// S6 of a value: it is well formed, and nothing stands above it.
fn keeps_s6(value: u128) -> bool
    ensures { result ≡ keeps_s6 value }
{
    let index = (value >> 24) % (1 << 16);
    let length = (value >> 40) % (1 << 16);
    value < 1 << 56 && (index < length || index == 0 && length == 0)
}

/// The text by hand of a value.
#[tactic(auto, unfolding(crate::specs::Form::span_text))]
fn span_text(alloc: Global, value: u128) -> Result<String, NoMemory>
    ensures { IfOk result (λ text. string_bytes text ≡ form.span_text value) }
{
    let number = value % (1 << 24);
    let index = (value >> 24) % (1 << 16);
    let length = (value >> 40) % (1 << 16);
    let mut text = number.to_string(alloc)?;
    if length != 0 {
        let index = index.to_string(alloc)?;
        let length = length.to_string(alloc)?;
        text.push_str(" ")?;
        text.push_str(&index)?;
        text.push_str("/")?;
        text.push_str(&length)?;
    }
    Ok(text)
}

/// The value whose text by hand this is.
#[tactic(auto, unfolding(crate::specs::Reading::span_from))]
pub fn span_of(alloc: Global, text: &[u8]) -> Result<u64, JsonStop>
    ensures { Gives (λ value. value) result (span_from text.now) }
{
    let Some(value) = value_of(text) else {
        return Err(JsonStop::Bad);
    };
    if !keeps_s6(value) {
        return Err(JsonStop::Bad);
    }
    let written = span_text(alloc, value)?;
    if written.as_str().as_bytes() != text {
        return Err(JsonStop::Bad);
    }
    Ok(value as u64)
}
