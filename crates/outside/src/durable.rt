// A write and the sync after it.
ghost use Rattle.std.specs.Prelude.{◌≡◌, length, IfSome, OnOk, OnErr};
ghost use Rattle.std.specs.Option.{option_map};
ghost use Rattle.outside.specs.Causes.{HasCause};
ghost use Rattle.outside.specs.Image.{InArea};
ghost use Rattle.outside.specs.Disk.{write_area, IsWithinLimit, BeginsWithin, Torn, ComesBy, Follows, IsDurable, OthersRead, LeavesOnly};

use crate::{Area, Disk, Failed};

/// Writes over what is there, and past the end, and syncs the area. At `Ok` a crash leaves what was written.
/// A crash at any moment of the call, and after `Failed`, leaves the area torn in the range alone.
pub fn write_durably<D: Disk>(disk: &mut D, area: Area, at: u64, piece: &[u8]) -> Result<(), Failed>
    requires limit { IsWithinLimit at (length piece.now) }
    requires within { IfSome (D.reads_as disk.old) (BeginsWithin area at) }
    ensures written { OnOk result (D.reads_as disk.new ≡ option_map (write_area area at piece.now) (D.reads_as disk.old)) }
    ensures durable { OnOk result (IfSome (D.reads_as disk.new) (IsDurable area (D.images disk.new))) }
    ensures others { OnErr result (OthersRead area (D.reads_as disk.old) (D.reads_as disk.new)) }
    ensures images { Follows (InArea area (Torn at (length piece.now))) (D.images disk.old) (D.images disk.new) }
    ensures moments { LeavesOnly D.moment D.left_since disk.old disk.new
        (ComesBy (InArea area (Torn at (length piece.now))) (D.images disk.old)) }
    ensures cause { HasCause (D.faults disk.old) (D.faults disk.new) result }
{
    disk.write(area, at, piece)?;
    disk.sync(area)?;
    Ok(())
}
