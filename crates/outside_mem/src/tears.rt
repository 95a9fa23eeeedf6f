// Other bytes where a crash may leave them.
ghost use Rattle.std.specs.Prelude.{◌≡◌, ◌⊎◌, ◌<◌, ◌≤◌, ◌+◌, List, ℕ, length};
ghost use Rattle.std.specs.Bool.{Decides};
ghost use Rattle.outside_mem.specs.MemoryDisk.{steps_of};
ghost use Rattle.outside_mem.specs.Remains.{LeavesIn, MayTear};

use crate::choices::Choices;
use crate::history::Recorded;
use outside::Area;

/// Puts other bytes into a part of each write of the area that no sync has followed.
pub(crate) fn tear(bytes: &mut Vec<u8>, area: Area, recorded: &[Recorded], choices: &mut Choices)
    requires { LeavesIn area (steps_of recorded.now) bytes.old.items }
    ensures { LeavesIn area (steps_of recorded.now) bytes.new.items }
{
    let mut rest = recorded;
    'calls: while let Some((last, earlier)) = rest.split_last() {
        match last {
            Recorded::Write(of, at, _, size) => {
                if is_same(*of, area) {
                    tear_range(bytes, area, recorded, *at as usize, *size, choices);
                }
            }
            Recorded::Cut(..) => {}
            Recorded::Sync(of) => {
                if is_same(*of, area) {
                    return;
                }
            }
            Recorded::Crash(_) => return,
        }
        rest = earlier;
    }
}

/// Puts other bytes into a part of a range, as far as it is there. The calls that were recorded let a crash leave any there.
fn tear_range(
    bytes: &mut Vec<u8>,
    area: Area,
    recorded: &[Recorded],
    at: usize,
    size: usize,
    choices: &mut Choices,
)
    requires torn { (i : ℕ) → at ≤ i → i < at + size → MayTear area (steps_of recorded.now) i }
    requires leaves { LeavesIn area (steps_of recorded.now) bytes.old.items }
    ensures { LeavesIn area (steps_of recorded.now) bytes.new.items }
{
    if at >= bytes.len() {
        return;
    }
    let end = size.min(bytes.len() - at);
    let from = choices.below(end + 1);
    let to = from + choices.below(end - from + 1);
    let mut i = from;
    'bytes: while i < to {
        bytes[at + i] = choices.below(256) as u8;
        i += 1;
    }
}

fn is_same(one: Area, other: Area) -> bool
    ensures { Decides result (one ≡ other) }
{
    one == other
}
