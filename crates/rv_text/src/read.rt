// The instruction whose text a line is.
ghost use Rattle.std.specs.Prelude.{◌≡◌, ◌*◌, ◌%◌, ◌≤◌, IfSome, MatchOption, Some, drop, length, take};
ghost use Rattle.machine_defs.specs.Instruction.{FitsFormat, sign_extended};
ghost use Rattle.machine_defs.specs.declared.ins.Ins.{Ins};
ghost use Rattle.machine_defs.specs.Text as texts;
ghost use Rattle.machine_defs.specs.Text.{IsWord};
ghost use Rattle.rv_text.specs.Reading.{filled, from_digit, has_minus, leading, next_number, numbers_in, signed, space_at};

use crate::encode::bits_of;
use crate::names::named;
use crate::shown::text_of;
use crate::table::form_of;
use machine_defs::{Ins, Operands};
use rv_decode::decode;

/// The numbers of a line in their order, and whether it has a minus.
#[derive(Clone, Copy)]
pub(crate) struct Numbers {
    pub(crate) first: u32,
    pub(crate) second: u32,
    pub(crate) third: u32,
    pub(crate) is_negative: bool,
}

/// The instruction whose text this line is, without its line feed. It takes no memory.
///
/// The text is to be that of `show`, byte by byte: no other space, sign, leading zero or upper case.
pub fn read_line(line: &[u8]) -> Option<Ins>
    ensures found { IfSome result (λ i. FitsFormat i × (line.now ≡ texts.show i)) }
    ensures every { (i : Ins) → FitsFormat i → line.now ≡ texts.show i → result ≡ Some i }
{
    let i = likely(line)?;
    if text_of(i).as_slice() == line {
        Some(i)
    } else {
        None
    }
}

/// The only instruction whose text the line can be.
fn likely(line: &[u8]) -> Option<Ins>
    ensures fits { IfSome result FitsFormat }
    ensures every { (i : Ins) → FitsFormat i → line.now ≡ texts.show i → result ≡ Some i }
{
    let (i, _) = decode(likely_word(line)?)?;
    Some(i)
}

/// Its word.
fn likely_word(line: &[u8]) -> Option<u32>
    ensures { (i : Ins) → FitsFormat i → line.now ≡ texts.show i → MatchOption result ⊥ (λ word. IsWord i word) }
{
    let (name, rest) = split_name(line);
    let Some(template) = named(name) else {
        return None;
    };
    let (_, fixed, blank) = form_of(template);
    match bits_of(filled(blank, numbers_in(rest))) {
        Some(bits) => Some(fixed.wrapping_add(bits)),
        None => None,
    }
}

/// What stands before the first space, and what follows from it on.
fn split_name(line: &[u8]) -> (&[u8], &[u8])
    ensures name { result.0.now ≡ take (space_at line.now) line.now }
    ensures rest { result.1.now ≡ drop (space_at line.now) line.now }
{
    let end = space_at(line);
    (&line[..end], &line[end..])
}

fn space_at(line: &[u8]) -> usize
    ensures at { result ≡ space_at line.now }
    ensures within { result ≤ length line.now }
{
    for (at, byte) in line.iter().enumerate() {
        if *byte == b' ' {
            return at;
        }
    }
    line.len()
}

fn from_digit(text: &[u8]) -> &[u8]
    ensures { result.now ≡ from_digit text.now }
{
    for (at, byte) in text.iter().enumerate() {
        if b'0' <= *byte && *byte <= b'9' {
            return &text[at..];
        }
    }
    &text[text.len()..]
}

fn leading(text: &[u8]) -> (u32, &[u8])
    ensures { (result.0, result.1.now) ≡ leading 0 text.now }
{
    let mut number = 0u32;
    for (at, byte) in text.iter().enumerate() {
        if *byte < b'0' || b'9' < *byte || number >= 10_000_000 {
            return (number, &text[at..]);
        }
        number = number * 10 + u32::from(*byte - b'0');
    }
    (number, &text[text.len()..])
}

fn next_number(text: &[u8]) -> (u32, &[u8])
    ensures { (result.0, result.1.now) ≡ next_number text.now }
{
    leading(from_digit(text))
}

#[tactic(auto, unfolding(crate::specs::Reading::has_minus))]
fn has_minus(text: &[u8]) -> bool
    ensures { result ≡ has_minus text.now }
{
    text.iter().any(|byte| *byte == b'-')
}

#[tactic(auto, unfolding(crate::specs::Reading::numbers_in))]
fn numbers_in(text: &[u8]) -> Numbers
    ensures { result ≡ numbers_in text.now }
{
    let (first, rest) = next_number(text);
    let (second, rest) = next_number(rest);
    let (third, _) = next_number(rest);
    Numbers {
        first,
        second,
        third,
        is_negative: has_minus(text),
    }
}

fn register(number: u32) -> u8
    ensures { result ≡ number % 32 }
{
    (number % 32) as u8
}

fn signed(is_negative: bool, number: u32) -> i64
    ensures { result ≡ signed is_negative number }
{
    if is_negative {
        0 - i64::from(number)
    } else {
        i64::from(number)
    }
}

#[tactic(auto, unfolding(machine_defs::specs::Instruction::sign_extended))]
fn upper(number: u32) -> i64
    ensures { result ≡ sign_extended 32 (number % 1048576 * 4096) }
{
    let bits = i64::from(number % 1_048_576) * 4096;
    if bits < 1 << 31 {
        bits
    } else {
        bits - (1 << 32)
    }
}

/// Operands of the template's form, with these numbers.
#[tactic(auto, unfolding(crate::specs::Reading::filled))]
fn filled(blank: Operands, numbers: Numbers) -> Operands
    ensures { result ≡ filled blank numbers }
{
    let a = register(numbers.first);
    let b = register(numbers.second);
    let c = register(numbers.third);
    let second = signed(numbers.is_negative, numbers.second);
    let third = signed(numbers.is_negative, numbers.third);
    match blank {
        Operands::Registers(_, _, _) => Operands::Registers(a, b, c),
        Operands::Immediate(_, _, _) => Operands::Immediate(a, b, third),
        Operands::Shift(_, _, _) => Operands::Shift(a, b, third),
        Operands::WordShift(_, _, _) => Operands::WordShift(a, b, third),
        Operands::Address(_, _, _) => Operands::Address(a, c, second),
        Operands::Store(_, _, _) => Operands::Store(c, a, second),
        Operands::Branch(_, _, _) => Operands::Branch(a, b, third),
        Operands::Jump(_, _) => Operands::Jump(a, second),
        Operands::Upper(_, _) => Operands::Upper(a, upper(numbers.second)),
        Operands::Bare => Operands::Bare,
    }
}
