// Division of 64 bits. Nothing faults: a divisor of 0 has a quotient and a remainder of its own.

ghost use Rattle.std.specs.Prelude.{◌≡◌};
ghost use Rattle.std.specs.Int.{w64};
ghost use Rattle.machine_defs.specs.Alu.{quotient, remainder, unsigned_quotient, unsigned_remainder};

#[tactic(auto, unfolding(machine_defs::specs::Alu::quotient))]
pub(crate) fn quotient(a: u64, b: u64) -> u64
    ensures { result ≡ quotient w64 a b }
{
    if b == 0 {
        u64::MAX
    } else {
        a.cast_signed()
            .wrapping_div(b.cast_signed())
            .cast_unsigned()
    }
}

#[tactic(auto, unfolding(machine_defs::specs::Alu::remainder))]
pub(crate) fn remainder(a: u64, b: u64) -> u64
    ensures { result ≡ remainder w64 a b }
{
    if b == 0 {
        a
    } else {
        a.cast_signed()
            .wrapping_rem(b.cast_signed())
            .cast_unsigned()
    }
}

#[tactic(auto, unfolding(machine_defs::specs::Alu::unsigned_quotient))]
pub(crate) fn unsigned_quotient(a: u64, b: u64) -> u64
    ensures { result ≡ unsigned_quotient w64 a b }
{
    if b == 0 { u64::MAX } else { a / b }
}

#[tactic(auto, unfolding(machine_defs::specs::Alu::unsigned_remainder))]
pub(crate) fn unsigned_remainder(a: u64, b: u64) -> u64
    ensures { result ≡ unsigned_remainder a b }
{
    if b == 0 { a } else { a % b }
}
