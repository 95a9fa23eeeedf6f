// The listing of code.
ghost use Rattle.std.specs.Prelude.{◌≡◌, ◌+◌, ◌-◌, ◌<◌, ◌≤◌, ◌++◌, length, slice_index, IfOk, IfSome, false};
ghost use Rattle.std.specs.Fmt.{digit_glyph};
ghost use Rattle.machine_defs.specs.Listing as listing;
ghost use Rattle.machine_defs.specs.Listing.{data_of, first_part, hex_byte, instruction_of, line, word_of};

use crate::shown::text_of;
use crate::text::Text;
use machine_defs::Ins;
use rv_decode::decode;
use std::alloc::{AllocError, Global};

/// The listing of code: a line for each instruction, with its offset in decimal and its text.
///
/// Two bytes that begin no instruction are `.half` and a number in hex, and a single last byte is `.byte`. Each line
/// ends with a line feed.
pub fn dis(alloc: Global, code: &[u8]) -> Result<Vec<u8>, AllocError>
    ensures { IfOk result (λ text. text.items ≡ listing.dis code.now) }
{
    let mut text = Vec::new(alloc);
    let mut at = 0;
    while at < code.len() {
        let (line, length) = line_of(at, &code[at..]);
        text.extend_from_slice(line.as_slice())?;
        at += length;
    }
    Ok(text)
}

/// The line of what stands at the start, and how many bytes that has.
fn line_of(offset: usize, code: &[u8]) -> (Text, usize)
    requires { 0 < length code.now }
    ensures text { result.0 ≡ line offset (first_part code.now).0 }
    ensures length { result.1 ≡ (first_part code.now).1 }
    ensures some { 0 < result.1 }
    ensures within { result.1 ≤ length code.now }
{
    let mut text = Text::new();
    text.append_number(offset as u64);
    text.push(b' ');
    let length = append_first_part(&mut text, code);
    text.push(b'\n');
    (text, length)
}

#[tactic(auto, unfolding(machine_defs::specs::Listing::first_part))]
fn append_first_part(text: &mut Text, code: &[u8]) -> usize
    requires some { 0 < length code.now }
    requires room { length text.old ≤ 21 }
    ensures text { text.new ≡ text.old ++ (first_part code.now).0 }
    ensures length { result ≡ (first_part code.now).1 }
    ensures some { 0 < result }
    ensures within { result ≤ length code.now }
    ensures room { length text.new ≤ length text.old + 80 }
{
    match instruction_of(code) {
        Some((i, length)) => {
            text.append(text_of(i).as_slice());
            usize::from(length)
        }
        None => append_data(text, code),
    }
}

fn append_data(text: &mut Text, code: &[u8]) -> usize
    requires some { 0 < length code.now }
    requires room { length text.old ≤ 21 }
    ensures text { text.new ≡ text.old ++ (data_of code.now).0 }
    ensures length { result ≡ (data_of code.now).1 }
    ensures some { 0 < result }
    ensures within { result ≤ length code.now }
    ensures room { length text.new ≤ length text.old + 80 }
{
    if code.len() == 1 {
        text.append(b".byte 0x");
        append_hex(text, code[0]);
        1
    } else {
        let (low, high) = (code[0], code[1]);
        text.append(b".half 0x");
        append_hex(text, high);
        append_hex(text, low);
        2
    }
}

fn append_hex(text: &mut Text, byte: u8)
    requires { length text.old ≤ 100 }
    ensures text { text.new ≡ text.old ++ hex_byte byte }
    ensures room { length text.new ≡ length text.old + 2 }
{
    text.push(hex_digit(byte / 16));
    text.push(hex_digit(byte % 16));
}

fn hex_digit(digit: u8) -> u8
    requires { digit < 16 }
    ensures { result ≡ digit_glyph false digit }
{
    if digit < 10 {
        b'0' + digit
    } else {
        b'a' - 10 + digit
    }
}

/// The instruction at the start, if one lies inside the code, and its length.
#[tactic(auto, unfolding(machine_defs::specs::Listing::instruction_of))]
fn instruction_of(code: &[u8]) -> Option<(Ins, u8)>
    ensures exact { result ≡ instruction_of code.now }
    ensures some { IfSome result (λ decoded. 0 < decoded.1) }
    ensures within { IfSome result (λ decoded. decoded.1 ≤ length code.now) }
{
    match decode(word_of(code)) {
        Some((i, length)) => {
            if usize::from(length) <= code.len() {
                Some((i, length))
            } else {
                None
            }
        }
        None => None,
    }
}

fn word_of(code: &[u8]) -> u32
    ensures { result ≡ word_of code.now }
{
    byte_of(code, 0)
        + byte_of(code, 1) * 0x100
        + byte_of(code, 2) * 0x1_0000
        + byte_of(code, 3) * 0x100_0000
}

fn byte_of(code: &[u8], at: usize) -> u32
    ensures byte { result ≡ slice_index code.now at }
    ensures bound { result < 256 }
{
    if at < code.len() {
        u32::from(code[at])
    } else {
        0
    }
}
