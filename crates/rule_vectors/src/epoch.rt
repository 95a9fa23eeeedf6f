// Rows of epochs and of the chain specification.
ghost use Rattle.std.specs.Prelude.{IsTrue, IfSome};
ghost use Rattle.chain_defs.specs.Specification.{keeps_s2};

use epochs::{Spec, epoch_of, field, parts, primary, share, span_over, well_formed};
use row_table::Row;
use std::alloc::Global;

fn spec_of(alloc: Global, row: &mut Row) -> Option<Spec> {
    Spec::read(&row.bytes(alloc)?).ok()
}

/// Blocks in an epoch.
fn length_of(row: &mut Row) -> Option<u32>
    ensures { IfSome result (λ length. IsTrue (keeps_s2 length)) }
{
    let length = row.short()?;
    if length >= 1 && length < 1 << 16 {
        Some(length)
    } else {
        None
    }
}

/// Blocks in an epoch, the height of a block, and its epoch field.
pub(crate) fn agrees_on_epoch(row: &mut Row) -> Option<bool> {
    let length = length_of(row)?;
    let epoch = epoch_of(length, row.number()?);
    let value = row.number()?;
    if epoch.number >= 1 << 24 {
        return None;
    }
    Some(field(epoch) == value && parts(value) == epoch)
}

/// An epoch value, and its three parts.
pub(crate) fn agrees_on_parts(row: &mut Row) -> Option<bool> {
    let epoch = parts(row.number()?);
    Some(
        epoch.number == row.number()?
            && epoch.index == row.short()?
            && epoch.length == row.short()?,
    )
}

pub(crate) fn agrees_on_form(row: &mut Row) -> Option<bool> {
    Some(well_formed(row.number()?) == row.is("yes", "no")?)
}

/// A span, blocks in an epoch, the heights of its first block and of now.
pub(crate) fn agrees_on_span(row: &mut Row) -> Option<bool> {
    let value = row.number()?;
    let length = length_of(row)?;
    let made = row.number()?;
    let now = row.number()?;
    if !well_formed(value) || made > now || now >= 1 << 24 {
        return None;
    }
    Some(span_over(value, length, made, now) == row.is("yes", "no")?)
}

/// Blocks in an epoch, the height of a block, the epoch's reward.
pub(crate) fn agrees_on_share(row: &mut Row) -> Option<bool> {
    let length = length_of(row)?;
    let number = row.number()?;
    let reward = row.number()?;
    Some(share(length, number, reward) == row.number()?)
}

/// The bytes of a specification, and the height of a block.
pub(crate) fn agrees_on_primary(alloc: Global, row: &mut Row) -> Option<bool> {
    let spec = spec_of(alloc, row)?;
    Some(primary(&spec, row.number()?) == row.number()?)
}

/// The epoch of an edition; it is `-` where there is none.
fn edition_of(row: &mut Row) -> Option<Option<u64>> {
    let word = row.word();
    if word == "-" {
        Some(None)
    } else {
        Some(Some(word.parse().ok()?))
    }
}

/// The bytes of a specification, its edition, and the height of a block.
pub(crate) fn agrees_on_edition(alloc: Global, row: &mut Row) -> Option<bool> {
    let spec = spec_of(alloc, row)?;
    let spec = spec.with_edition(edition_of(row)?);
    Some(spec.is_second_at(row.number()?) == row.is("yes", "no")?)
}
