// What is done to the areas of the snapshots.
ghost use Rattle.std.specs.Prelude.{◌≡◌, IfSome, OnOk};
ghost use Rattle.std.specs.Option.{option_map};
ghost use Rattle.outside.specs.Causes.{HasCause};
ghost use Rattle.outside.specs.declared.disk.Area.TheVariants.{SnapA as snap_a_area, SnapB as snap_b_area};
ghost use Rattle.outside.specs.Image.{InArea};
ghost use Rattle.outside.specs.Disk.{cut_area, Cut, ComesBy, Follows, NoneNew, IsDurable, OthersRead, LeavesOnly};

use outside::{Area, Disk, Failed};

/// Syncs SNAP_A and SNAP_B, so that a crash leaves them as they read.
pub(crate) fn sync_snapshots<D: Disk>(disk: &mut D) -> Result<(), Failed>
    ensures same { D.reads_as disk.new ≡ D.reads_as disk.old }
    ensures snap_a { OnOk result (IfSome (D.reads_as disk.new) (IsDurable snap_a_area (D.images disk.new))) }
    ensures snap_b { OnOk result (IfSome (D.reads_as disk.new) (IsDurable snap_b_area (D.images disk.new))) }
    ensures images { NoneNew (D.images disk.old) (D.images disk.new) }
    ensures moments { LeavesOnly D.moment D.left_since disk.old disk.new (D.images disk.old) }
    ensures cause { HasCause (D.faults disk.old) (D.faults disk.new) result }
{
    disk.sync(Area::SnapA)?;
    disk.sync(Area::SnapB)?;
    Ok(())
}

/// Empties an area, so that a crash leaves it empty.
pub(crate) fn clear<D: Disk>(disk: &mut D, area: Area) -> Result<(), Failed>
    ensures cleared { OnOk result (D.reads_as disk.new ≡ option_map (cut_area area 0) (D.reads_as disk.old)) }
    ensures durable { OnOk result (IfSome (D.reads_as disk.new) (IsDurable area (D.images disk.new))) }
    ensures others { OthersRead area (D.reads_as disk.old) (D.reads_as disk.new) }
    ensures images { Follows (InArea area (Cut 0)) (D.images disk.old) (D.images disk.new) }
    ensures moments { LeavesOnly D.moment D.left_since disk.old disk.new (ComesBy (InArea area (Cut 0)) (D.images disk.old)) }
    ensures cause { HasCause (D.faults disk.old) (D.faults disk.new) result }
{
    match disk.cut(area, 0) {
        Ok(()) => {}
        Err(failed) => return Err(failed),
    }
    match disk.sync(area) {
        Ok(()) => Ok(()),
        Err(failed) => Err(failed),
    }
}
