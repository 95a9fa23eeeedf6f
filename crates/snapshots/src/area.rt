// Which area a snapshot goes to.
ghost use Rattle.std.specs.Prelude.{◌≡◌};
ghost use Rattle.disk_defs.specs.Snapshot as snapshots;
ghost use Rattle.snapshots.specs.Reading.{damage_in};
ghost use Rattle.outside.specs.declared.disk.ReadStop.TheVariants.{Damaged};

use outside::{Area, Damage, ReadStop};

/// The area of the snapshot with this number.
pub fn area_of(number: u32) -> Area
    ensures { result ≡ snapshots.area_of number }
{
    if number % 2 == 1 {
        Area::SnapA
    } else {
        Area::SnapB
    }
}

/// What stands in an area is no snapshot. Damage is named by where the snapshot begins.
pub(crate) fn damaged(area: Area) -> ReadStop
    ensures { result ≡ Damaged (damage_in area) }
{
    ReadStop::Damaged(Damage { area, at: 0 })
}
