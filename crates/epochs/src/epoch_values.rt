//! The epoch of a block, and epoch values: number, index and length in one number.

ghost use Rattle.std.specs.Prelude.{◌≡◌, ◌+◌, ◌^◌, ◌<◌, ◌≤◌, IsTrue};
ghost use Rattle.chain_defs.specs.Epochs.{epoch_number, epoch_index, epoch_value, epoch_field, value_number, value_index, value_length, is_well_formed, epochs_in, is_span_over};
ghost use Rattle.chain_defs.specs.Specification.{keeps_s2};

/// A block's place among the epochs: the epoch's number, the block's index there, the epoch's length.
#[derive(Clone, Copy, Debug, PartialEq, Eq)]
pub struct Epoch {
    pub number: u64,
    pub index: u32,
    pub length: u32,
}

/// The epoch of the block of height `number`, where each epoch has `length` blocks.
pub fn epoch_of(length: u32, number: u64) -> Epoch
    requires { IsTrue (keeps_s2 length) }
    ensures number { result.number ≡ epoch_number length number }
    ensures index { result.index ≡ epoch_index length number }
    ensures length { result.length ≡ length }
    ensures bounded { result.number ≤ number }
    ensures within { result.index < result.length }
{
    let blocks = u64::from(length);
    Epoch {
        number: number / blocks,
        index: (number % blocks) as u32,
        length,
    }
}

/// The epoch value of an epoch, as a header's epoch field has it.
pub fn field(e: Epoch) -> u64
    requires number { e.number < 2 ^ 24 }
    requires index { e.index < e.length }
    requires length { IsTrue (keeps_s2 e.length) }
    ensures value { result ≡ epoch_value e.number e.index e.length }
    ensures well_formed { IsTrue (is_well_formed result) }

    // Its parts are those of the epoch.
    ensures number { value_number result ≡ e.number }
    ensures index { value_index result ≡ e.index }
    ensures length { value_length result ≡ e.length }
{
    e.number + (u64::from(e.index) << 24) + (u64::from(e.length) << 40)
}

/// The parts of an epoch value. Bits 56 to 63 are not looked at.
pub fn parts(value: u64) -> Epoch
    ensures number { result.number ≡ value_number value }
    ensures index { result.index ≡ value_index value }
    ensures length { result.length ≡ value_length value }

    // The value is that of its parts.
    ensures value { value < 2 ^ 56 → epoch_value result.number result.index result.length ≡ value }
{
    Epoch {
        number: value % (1 << 24),
        index: ((value >> 24) % (1 << 16)) as u32,
        length: ((value >> 40) % (1 << 16)) as u32,
    }
}

/// Whether an epoch value has its index below its length, or both zero. Bits 56 to 63 are not looked at.
pub fn well_formed(value: u64) -> bool
    ensures { result ≡ is_well_formed value }
{
    let e = parts(value);
    e.index < e.length || (e.index == 0 && e.length == 0)
}

/// A fraction of epochs.
#[derive(Drop)]
struct Fraction {
    numerator: u64,
    denominator: u64,
}

/// What an epoch value stands for.
fn fraction_of(value: u64) -> Fraction
    ensures numerator { result.numerator ≡ (epochs_in value).numerator }
    ensures denominator { result.denominator ≡ (epochs_in value).denominator }
    ensures numerator_fits { result.numerator < 2 ^ 41 }
    ensures denominator_fits { result.denominator < 2 ^ 16 }
{
    let e = parts(value);
    if e.length == 0 {
        return Fraction {
            numerator: e.number,
            denominator: 1,
        };
    }
    let length = u64::from(e.length);
    Fraction {
        numerator: e.number * length + u64::from(e.index),
        denominator: length,
    }
}

/// Whether the span of `value` epochs is over from the block of height `made` to that of height `now`.
pub fn span_over(value: u64, length: u32, made: u64, now: u64) -> bool
    requires value { IsTrue (is_well_formed value) }
    requires length { IsTrue (keeps_s2 length) }
    requires made { made ≤ now }
    requires now { now < 2 ^ 24 }
    ensures { result ≡ is_span_over value length made now }
{
    let span = fraction_of(value);
    span.numerator * u64::from(length) <= (now - made) * span.denominator
}
