//! The fields of a since.

ghost use Rattle.std.specs.Prelude.{◌≡◌, ◌^◌, ◌<◌};
ghost use Rattle.chain_defs.specs.Since as rules;
ghost use Rattle.since_rules.specs.Fields.{meaning_of_any};

/// What the value of a since counts.
#[derive(Clone, Copy, Debug, PartialEq, Eq)]
pub(crate) enum Metric {
    BlockNumber,
    Epoch,
    Timestamp,
}

/// Bits 62 and 61.
pub(crate) fn metric_of(since: u64) -> Option<Metric>
    ensures { meaning_of_any result ≡ rules.metric_of since }
{
    match (since >> 61) % 4 {
        0 => Some(Metric::BlockNumber),
        1 => Some(Metric::Epoch),
        2 => Some(Metric::Timestamp),
        _ => None,
    }
}

/// Bit 63: whether the since counts from the block that made the cell.
pub(crate) fn is_relative(since: u64) -> bool
    ensures { result ≡ rules.is_relative since }
{
    (since >> 63) % 2 == 1
}

/// Bits 60 to 56.
pub(crate) fn reserved_of(since: u64) -> u64
    ensures { result ≡ rules.reserved_of since }
{
    (since >> 56) % (1 << 5)
}

/// Bits 55 to 0.
pub(crate) fn since_value(since: u64) -> u64
    ensures value { result ≡ rules.since_value since }
    ensures fits { result < 2 ^ 56 }
{
    since % (1 << 56)
}
