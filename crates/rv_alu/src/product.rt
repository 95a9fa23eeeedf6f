// The high 64 bits of a product.

ghost use Rattle.std.specs.Prelude.{◌≡◌, ◌*◌, ◌/◌, ◌^◌, ◌*ℤ◌, pos};
ghost use Rattle.std.specs.Int.{w64};
ghost use Rattle.machine_defs.specs.Alu.{high, signed};

pub(crate) fn high_signed(a: u64, b: u64) -> u64
    ensures { result ≡ high (signed w64 a *ℤ signed w64 b) }
{
    high(i128::from(a.cast_signed()) * i128::from(b.cast_signed()))
}

pub(crate) fn high_signed_unsigned(a: u64, b: u64) -> u64
    ensures { result ≡ high (signed w64 a *ℤ pos b) }
{
    high(i128::from(a.cast_signed()) * i128::from(b))
}

pub(crate) fn high_unsigned(a: u64, b: u64) -> u64
    ensures { result ≡ (a * b) / 2 ^ 64 }
{
    ((u128::from(a) * u128::from(b)) >> 64) as u64
}

#[tactic(auto, unfolding(machine_defs::specs::Alu::high))]
fn high(product: i128) -> u64
    ensures { result ≡ high product }
{
    ((product >> 64) as i64).cast_unsigned()
}
