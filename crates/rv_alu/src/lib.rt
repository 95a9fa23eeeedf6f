//! The operations on two registers of RV64I and its extension M (RFC 0003).
//!
//! `op` is exact against the values of `machine_defs`, for every operation and every two registers: it wraps,
//! shifts, compares and divides as the RISC-V manual says, and has no fault. Which registers an
//! instruction takes, and what it costs, is left to the machine above.
#![tactic(auto)]

ghost use Rattle.std.specs.Prelude.{◌≡◌, ◌%◌};
ghost use Rattle.std.specs.Int.{w64};
ghost use Rattle.machine_defs.specs.Alu.{value, signed_less, arithmetic_shift};

mod division;
mod laws;
mod product;
mod word;

pub use laws::alu_laws;
pub use machine_defs::Alu;

/// What the operation gives of two registers. A form with an immediate has it as `b`.
#[tactic(auto, using(crate::proofs::Wrapping::wrapped))]
#[inline(always)]
pub fn op(k: Alu, a: u64, b: u64) -> u64
    ensures { result ≡ value k a b }
{
    match k {
        Alu::Add => a.wrapping_add(b),
        Alu::Sub => a.wrapping_sub(b),
        Alu::Sll => a << (b % 64),
        Alu::Slt => signed_less(a, b),
        Alu::Sltu => u64::from(a < b),
        Alu::Xor => a ^ b,
        Alu::Srl => a >> (b % 64),
        Alu::Sra => arithmetic_shift(a, b),
        Alu::Or => a | b,
        Alu::And => a & b,
        Alu::Addw => word::extended(a.wrapping_add(b)),
        Alu::Subw => word::extended(a.wrapping_sub(b)),
        Alu::Sllw => word::extended(a << (b % 32)),
        Alu::Srlw => word::extended(word::low(a) >> (b % 32)),
        Alu::Sraw => word::arithmetic_shift(a, b),
        Alu::Mul => a.wrapping_mul(b),
        Alu::Mulh => product::high_signed(a, b),
        Alu::Mulhsu => product::high_signed_unsigned(a, b),
        Alu::Mulhu => product::high_unsigned(a, b),
        Alu::Div => division::quotient(a, b),
        Alu::Divu => division::unsigned_quotient(a, b),
        Alu::Rem => division::remainder(a, b),
        Alu::Remu => division::unsigned_remainder(a, b),
        Alu::Mulw => word::extended(a.wrapping_mul(b)),
        Alu::Divw => word::quotient(a, b),
        Alu::Divuw => word::unsigned_quotient(a, b),
        Alu::Remw => word::remainder(a, b),
        Alu::Remuw => word::unsigned_remainder(a, b),
    }
}

// 1 where a is below b as signed numbers.
#[tactic(auto, unfolding(machine_defs::specs::Alu::signed_less))]
fn signed_less(a: u64, b: u64) -> u64
    ensures { result ≡ signed_less a b }
{
    u64::from(a.cast_signed() < b.cast_signed())
}

// A shift to the right that fills up with the sign.
#[tactic(auto, unfolding(machine_defs::specs::Alu::arithmetic_shift))]
fn arithmetic_shift(a: u64, b: u64) -> u64
    ensures { result ≡ arithmetic_shift w64 a (b % 64) }
{
    (a.cast_signed() >> (b % 64)).cast_unsigned()
}
