// The word that encodes an instruction.
ghost use Rattle.std.specs.Prelude.{◌≡◌, ◌≢◌, ℕ, ◌+◌, ◌-◌, ◌*◌, ◌%◌, ◌^◌, ◌<◌, ◌≤◌, ◌↔◌, pos, ◌-ℤ◌, ◌≤ℤ◌, ◌<ℤ◌, IfSome, IsSome, MatchOption};
ghost use Rattle.machine_defs.specs.Instruction.{FitsFormat, IsShiftAmount, IsImmediate};
ghost use Rattle.machine_defs.specs.Text.{IsWord};
ghost use Rattle.rv_text.specs.Words.{FitsOperands, HasBits, HasPair, AreBitsOf, extended};

use crate::table::form_of;
use machine_defs::{Ins, Operands};

/// The word of the full form that encodes an instruction, with zeros where decoding does not look.
///
/// None comes exactly where the instruction does not fit its format. It takes no memory.
pub fn word(i: &Ins) -> Option<u32>
    ensures word { IfSome result (λ word. IsWord i.now word) }
    ensures fits { IsSome result ↔ FitsFormat i.now }
{
    let (_, fixed, operands) = form_of(*i);
    match bits_of(operands) {
        Some(bits) => Some(fixed.wrapping_add(bits)),
        None => None,
    }
}

/// The bits of the operands, if they fit.
pub(crate) fn bits_of(operands: Operands) -> Option<u32>
    ensures { MatchOption result (¬ FitsOperands operands) (λ bits. HasBits operands bits) }
{
    match operands {
        Operands::Registers(rd, rs1, rs2) => three(rd, rs1, rs2),
        Operands::Immediate(rd, rs1, imm) => immediate(rd, rs1, imm),
        Operands::Shift(rd, rs1, imm) => shift(64, rd, rs1, imm),
        Operands::WordShift(rd, rs1, imm) => shift(32, rd, rs1, imm),
        Operands::Address(rd, rs1, imm) => immediate(rd, rs1, imm),
        Operands::Store(rs1, rs2, imm) => store(rs1, rs2, imm),
        Operands::Branch(rs1, rs2, imm) => branch(rs1, rs2, imm),
        Operands::Jump(rd, imm) => jump(rd, imm),
        Operands::Upper(rd, imm) => upper(rd, imm),
        Operands::Bare => Some(0),
    }
}

/// The bits of a number in two's complement, if so many can hold it and it is a multiple of `unit`.
fn number_bits(width: u32, half: u32, unit: u32, imm: i64) -> Option<u32>
    requires half { 2 ^ (width - 1) ≡ half }
    requires span { 2 ^ width ≡ half + half }
    requires within { half ≤ 2 ^ 31 }
    requires unit { 0 < unit }
    ensures { MatchOption result (¬ IsImmediate width unit imm) (λ n. AreBitsOf width unit imm n) }
{
    bits_under(half, unit, imm)
}

/// The same, where the numbers end below `half`.
fn bits_under(half: u32, unit: u32, imm: i64) -> Option<u32>
    requires within { half ≤ 2 ^ 31 }
    requires unit { 0 < unit }
    ensures { MatchOption result ((n : ℕ) → n < half + half → n % unit ≡ 0 → imm ≢ extended half n) (λ n. (n < half + half) × (n % unit ≡ 0) × (imm ≡ extended half n)) }
{
    let half = i64::from(half);
    if imm < 0 - half || half <= imm {
        return None;
    }
    let n = wrapped(half as u64, imm);
    if n % unit == 0 { Some(n) } else { None }
}

/// A number that is in the range, in two's complement.
fn wrapped(half: u64, imm: i64) -> u32
    requires within { half ≤ 2 ^ 31 }
    requires low { (pos 0 -ℤ pos half) ≤ℤ imm }
    requires high { imm <ℤ pos half }
    ensures bound { result < half + half }
    ensures number { imm ≡ extended half result }
    ensures only { (n : ℕ) → n < half + half → imm ≡ extended half n → n ≡ result }
{
    if 0 <= imm {
        imm as u32
    } else {
        (half + half - imm.unsigned_abs()) as u32
    }
}

/// Two registers in the places of rd and rs1, and what stands above them.
fn pair(a: u8, b: u8, high: u32) -> Option<u32>
    requires { high % 2 ^ 20 ≡ 0 }
    ensures { MatchOption result (¬ ((a < 32) × (b < 32))) (λ bits. HasPair a b high bits) }
{
    if a < 32 && b < 32 {
        Some((u32::from(a) << 7) + (u32::from(b) << 15) + high)
    } else {
        None
    }
}

fn three(rd: u8, rs1: u8, rs2: u8) -> Option<u32>
    ensures { MatchOption result (¬ FitsOperands (Operands.Registers rd rs1 rs2)) (λ bits. HasBits (Operands.Registers rd rs1 rs2) bits) }
{
    if rs2 < 32 {
        pair(rd, rs1, u32::from(rs2) << 20)
    } else {
        None
    }
}

fn immediate(rd: u8, rs1: u8, imm: i64) -> Option<u32>
    ensures { MatchOption result (¬ FitsOperands (Operands.Immediate rd rs1 imm)) (λ bits. HasBits (Operands.Immediate rd rs1 imm) bits) }
{
    let n = number_bits(12, 2048, 1, imm)?;
    pair(rd, rs1, n << 20)
}

fn shift(limit: u32, rd: u8, rs1: u8, imm: i64) -> Option<u32>
    requires { limit ≤ 64 }
    ensures none { result ≡ None → ¬ (((rd < 32) × (rs1 < 32)) × IsShiftAmount limit imm) }
    ensures some { IfSome result (λ bits. (n : ℕ) × (n < limit) × (imm ≡ pos n) × HasPair rd rs1 (n * 1048576) bits) }
{
    if 0 <= imm && imm < i64::from(limit) {
        pair(rd, rs1, (imm as u32) << 20)
    } else {
        None
    }
}

fn store(rs1: u8, rs2: u8, imm: i64) -> Option<u32>
    ensures { MatchOption result (¬ FitsOperands (Operands.Store rs1 rs2 imm)) (λ bits. HasBits (Operands.Store rs1 rs2 imm) bits) }
{
    let n = number_bits(12, 2048, 1, imm)?;
    if rs2 < 32 {
        pair((n % 32) as u8, rs1, (u32::from(rs2) << 20) + (n / 32 << 25))
    } else {
        None
    }
}

fn branch(rs1: u8, rs2: u8, imm: i64) -> Option<u32>
    ensures { MatchOption result (¬ FitsOperands (Operands.Branch rs1 rs2 imm)) (λ bits. HasBits (Operands.Branch rs1 rs2 imm) bits) }
{
    let n = number_bits(13, 4096, 2, imm)?;
    let low = n / 2 % 16 * 2 + n / 2048 % 2;
    let high = n / 4096 * 64 + n / 32 % 64;
    if rs2 < 32 {
        pair(low as u8, rs1, (u32::from(rs2) << 20) + (high << 25))
    } else {
        None
    }
}

fn jump(rd: u8, imm: i64) -> Option<u32>
    ensures { MatchOption result (¬ FitsOperands (Operands.Jump rd imm)) (λ bits. HasBits (Operands.Jump rd imm) bits) }
{
    let n = number_bits(21, 1 << 20, 2, imm)?;
    let low = (n / 4096 % 256 << 12) + (n / 2048 % 2 << 20);
    let high = (n / 2 % 1024 << 21) + (n / 1_048_576 << 31);
    if rd < 32 {
        Some((u32::from(rd) << 7) + low + high)
    } else {
        None
    }
}

fn upper(rd: u8, imm: i64) -> Option<u32>
    ensures { MatchOption result (¬ FitsOperands (Operands.Upper rd imm)) (λ bits. HasBits (Operands.Upper rd imm) bits) }
{
    let n = number_bits(32, 1 << 31, 4096, imm)?;
    if rd < 32 {
        Some((u32::from(rd) << 7) + n)
    } else {
        None
    }
}
