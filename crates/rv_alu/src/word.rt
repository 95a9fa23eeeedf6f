// The W forms: they work on the low 32 bits of registers, and sign-extend a result of 32 bits.

ghost use Rattle.std.specs.Prelude.{◌≡◌, ◌%◌, ◌^◌, ◌<◌};
ghost use Rattle.std.specs.Int.{w32};
ghost use Rattle.machine_defs.specs.Alu.{extended, low, arithmetic_shift, quotient, remainder, unsigned_quotient, unsigned_remainder};

/// The low 32 bits.
pub(crate) fn low(a: u64) -> u64
    ensures { result ≡ low a }
{
    a % 0x1_0000_0000
}

/// The low 32 bits, sign-extended.
#[tactic(auto, unfolding(machine_defs::specs::Alu::extended))]
pub(crate) fn extended(a: u64) -> u64
    ensures { result ≡ extended a }
{
    i64::from(half(a).cast_signed()).cast_unsigned()
}

// The low 32 bits, as such a number.
fn half(a: u64) -> u32
    ensures { result ≡ low a }
{
    (a % 0x1_0000_0000) as u32
}

#[tactic(auto, unfolding(machine_defs::specs::Alu::extended, machine_defs::specs::Alu::arithmetic_shift))]
pub(crate) fn arithmetic_shift(a: u64, b: u64) -> u64
    ensures { result ≡ extended (arithmetic_shift w32 (low a) (b % 32)) }
{
    let shifted = half(a).cast_signed() >> (b % 32);
    extended(u64::from(shifted.cast_unsigned()))
}

pub(crate) fn quotient(a: u64, b: u64) -> u64
    ensures { result ≡ extended (quotient w32 (low a) (low b)) }
{
    extended(u64::from(half_quotient(half(a), half(b))))
}

pub(crate) fn remainder(a: u64, b: u64) -> u64
    ensures { result ≡ extended (remainder w32 (low a) (low b)) }
{
    extended(u64::from(half_remainder(half(a), half(b))))
}

pub(crate) fn unsigned_quotient(a: u64, b: u64) -> u64
    ensures { result ≡ extended (unsigned_quotient w32 (low a) (low b)) }
{
    extended(u64::from(half_unsigned_quotient(half(a), half(b))))
}

pub(crate) fn unsigned_remainder(a: u64, b: u64) -> u64
    ensures { result ≡ extended (unsigned_remainder (low a) (low b)) }
{
    extended(u64::from(half_unsigned_remainder(half(a), half(b))))
}

#[tactic(auto, unfolding(machine_defs::specs::Alu::quotient))]
fn half_quotient(a: u32, b: u32) -> u32
    ensures { result ≡ quotient w32 a b }
{
    if b == 0 {
        u32::MAX
    } else {
        a.cast_signed()
            .wrapping_div(b.cast_signed())
            .cast_unsigned()
    }
}

#[tactic(auto, unfolding(machine_defs::specs::Alu::remainder))]
fn half_remainder(a: u32, b: u32) -> u32
    ensures { result ≡ remainder w32 a b }
{
    if b == 0 {
        a
    } else {
        a.cast_signed()
            .wrapping_rem(b.cast_signed())
            .cast_unsigned()
    }
}

#[tactic(auto, unfolding(machine_defs::specs::Alu::unsigned_quotient))]
fn half_unsigned_quotient(a: u32, b: u32) -> u32
    ensures { result ≡ unsigned_quotient w32 a b }
{
    if b == 0 { u32::MAX } else { a / b }
}

#[tactic(auto, unfolding(machine_defs::specs::Alu::unsigned_remainder))]
fn half_unsigned_remainder(a: u32, b: u32) -> u32
    ensures { result ≡ unsigned_remainder a b }
{
    if b == 0 { a } else { a % b }
}
