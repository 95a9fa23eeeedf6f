// An input that is read whole.
ghost use Rattle.std.specs.Prelude.{◌≡◌, ◌^◌, ◌≤◌, Err, length, sum};
ghost use Rattle.outside.specs.Causes.{CountsFault};
ghost use Rattle.report_defs.specs.Items as items;
ghost use Rattle.run_text.specs.Items.{SourceGave};
ghost use Rattle.run_text.specs.Whole as wholes;
ghost use Rattle.run_text.specs.Whole.{IsReadWhole};

use crate::next::{Next, has_more, next_item};
use outside::Source;
use report_defs::{End, Status};
use std::alloc::Global;

/// What an input holds that has items within its limits and nothing after them: these, or its reading ends at an offset
/// where it should not.
#[derive(Drop)]
pub enum Whole {
    Items(Vec<Vec<u8>>),
    Early { end: End, offset: u64 },
}

/// Reads at most an item for each of these limits, of which the first `needed` must be there, and the end of the input, or up to
/// where it ends early. The status is `InputFault` or `NoMemory`.
pub fn read_whole<S: Source>(
    alloc: Global,
    input: &mut S,
    limits: &[usize],
    needed: usize,
) -> Result<Whole, Status>
    requires offsets { sum limits.now ≤ 2 ^ 62 }
    requires needed { needed ≤ length limits.now }
    ensures read { SourceGave (S.left input.old) (S.left input.new) (IsReadWhole limits.now needed (S.left input.new) result) }
    ensures faults { CountsFault (S.faults input.old) (S.faults input.new) (result ≡ Err Status.InputFault) }
{
    let mut items = Vec::new(alloc);
    let mut offset = 0u64;
    'items: for limit in limits {
        let item = match next_item(alloc, input, *limit, None, offset) {
            Ok(Next::Item(item)) => item,
            Ok(Next::End(end)) => {
                let end = end_after(needed, items.len(), end);
                return Ok(whole_at(items, offset, end));
            }
            Err(status) => return Err(status),
        };
        offset += item.len() as u64;
        match items.push(item) {
            Ok(()) => {}
            Err(_) => return Err(Status::NoMemory),
        }
    }
    let more = match has_more(input) {
        Ok(more) => more,
        Err(status) => return Err(status),
    };
    if more {
        return Ok(Whole::Early {
            end: End::Extra,
            offset,
        });
    }
    Ok(Whole::Items(items))
}

/// What is answered where the reading ends so at an offset, after these items.
fn whole_at(items: Vec<Vec<u8>>, offset: u64, end: End) -> Whole
    ensures { result ≡ wholes.whole_at items offset end }
{
    match end {
        End::AtEnd => Whole::Items(items),
        End::Cut => Whole::Early {
            end: End::Cut,
            offset,
        },
        End::BadSize => Whole::Early {
            end: End::BadSize,
            offset,
        },
        End::Extra => Whole::Early {
            end: End::Extra,
            offset,
        },
    }
}

/// How the reading ends after so many items, where the first `needed` must be there.
fn end_after(needed: usize, count: usize, end: End) -> End
    ensures { result ≡ items.end_after needed count end }
{
    if count < needed {
        end_of_needed(end)
    } else {
        end
    }
}

/// Where an item is needed, an input that ends between two items is cut.
fn end_of_needed(end: End) -> End
    ensures { result ≡ items.end_of_needed end }
{
    match end {
        End::AtEnd => End::Cut,
        End::Cut => End::Cut,
        End::BadSize => End::BadSize,
        End::Extra => End::Extra,
    }
}
