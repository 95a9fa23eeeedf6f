// The gate of an area is closed.
ghost use Rattle.std.specs.Prelude.{◌≡◌, IsSome, IfSome, OnOk};
ghost use Rattle.std.specs.Option.{option_map};
ghost use Rattle.outside.specs.Causes.{HasCause};
ghost use Rattle.outside.specs.Image.{InArea};
ghost use Rattle.outside.specs.Disk.{ComesBy, IsDurable, OthersRead, LeavesOnly};
ghost use Rattle.snapshots.specs.Writing.{close_area, IsGateClosed, IsAsItWasOrClosed, HasAnyArea};

use outside::{Area, Disk, Failed, write_durably};

/// Closes the gate of an area, and syncs it: after `Ok` a crash leaves no open gate there. An area without a byte takes a
/// byte 0, an open gate becomes 0, and any other first byte stays as it is.
pub fn close<D: Disk>(disk: &mut D, area: Area) -> Result<(), Failed>
    ensures closed { OnOk result (D.reads_as disk.new ≡ option_map (close_area area) (D.reads_as disk.old)) }
    ensures shut { IsSome (D.reads_as disk.old) → OnOk result (IsGateClosed area (D.reads_as disk.new) (D.images disk.new)) }
    // Where a crash would have left the area as it reads, it leaves it so at each moment, or without an open gate.
    ensures moments { IfSome (D.reads_as disk.old) (IsDurable area (D.images disk.old))
        → LeavesOnly D.moment D.left_since disk.old disk.new (ComesBy (InArea area IsAsItWasOrClosed) (D.images disk.old)) }
    // Whatever it would have left, it leaves the other areas as they were.
    ensures beside { LeavesOnly D.moment D.left_since disk.old disk.new (HasAnyArea area (D.images disk.old)) }
    ensures others { OthersRead area (D.reads_as disk.old) (D.reads_as disk.new) }
    ensures cause { HasCause (D.faults disk.old) (D.faults disk.new) result }
{
    let mut first = [0; 1];
    let n = match disk.read(area, 0, &mut first) {
        Ok(n) => n,
        Err(failed) => return Err(failed),
    };
    if n == 0 || first[0] == 1 {
        return write_durably(disk, area, 0, &[0]);
    }
    disk.sync(area)
}
