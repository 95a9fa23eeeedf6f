// The fields of a word, and the numbers that they hold.

ghost use Rattle.std.specs.Prelude.{◌≡◌, ◌+◌, ◌-◌, ◌*◌, ◌^◌, ◌<◌, ◌≤◌};
ghost use Rattle.machine_defs.specs.Instruction.{bits, part, sign_extended};

/// Bits `high` to `low` of a word.
#[inline(always)]
pub(crate) fn bits(word: u32, high: u32, low: u32) -> u32
    requires order { low ≤ high }
    requires within { high < 32 }
    requires not_whole { high - low < 31 }
    ensures field { result ≡ bits high low word }
    ensures bound { result < 2 ^ (high - low + 1) }
{
    (word >> low) % (1 << (high - low + 1))
}

/// Bits `high` to `low` of a word, put where bit `place` is the lowest of them.
#[inline(always)]
pub(crate) fn part(word: u32, high: u32, low: u32, place: u32) -> u32
    requires order { low ≤ high }
    requires within { high < 32 }
    requires not_whole { high - low < 31 }
    requires fits { high - low + 1 + place ≤ 32 }
    ensures part { result ≡ part high low place word }
    ensures bound { result < 2 ^ (high - low + 1 + place) }
{
    bits(word, high, low) << place
}

/// The number that `width` bits stand for in two's complement.
#[inline(always)]
pub(crate) fn sign_extended(width: u32, n: u32) -> i64
    requires some { 0 < width }
    requires within { width ≤ 32 }
    requires bound { n < 2 ^ width }
    ensures { result ≡ sign_extended width n }
{
    let n = u64::from(n);
    let span = 1u64 << width;
    if n < span / 2 {
        n as i64
    } else {
        -((span - n) as i64)
    }
}
