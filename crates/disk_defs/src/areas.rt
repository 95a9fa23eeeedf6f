ghost use Rattle.disk_defs.specs.SnapshotLaws.{BytesDetermineSnapshots, OpensItsGate, FindsItself, StaysOfBlocks, StaysSound};
ghost use Rattle.disk_defs.specs.SnapshotLaws.{GoesByParity, NoneInTheLog, AreasTakeTurns};
ghost use Rattle.disk_defs.specs.SnapshotLaws.{ClosedIsSound, HeldIsSound, ItsBytesAreSound, SoundHoldsItsOwn, SoundHasItsNumber, IsOfItsTip, ListsItsRows};

/// States what bytes hold: a snapshot after an open gate, that of which they are made and no other, whatever stands after it.
/// It does nothing.
pub fn bytes_of_snapshots()
    ensures bytes_determine_snapshots { BytesDetermineSnapshots }
    ensures opens_its_gate { OpensItsGate }
    ensures finds_itself { FindsItself }
{}

/// States that a snapshot of kept blocks is one of these and one block more, and so that a sound area stays sound. It does
/// nothing.
pub fn snapshots_stay()
    ensures stays_of_blocks { StaysOfBlocks }
    ensures stays_sound { StaysSound }
{}

/// States to which area a snapshot goes: by its number to two of them in turn, never to the log. It does nothing.
pub fn areas_in_turn()
    ensures goes_by_parity { GoesByParity }
    ensures none_in_the_log { NoneInTheLog }
    ensures areas_take_turns { AreasTakeTurns }
{}

/// States which bytes of an area are sound: those without an open gate, and those that hold a snapshot of the kept blocks
/// which belongs there, and no others; and that a snapshot is one of the kept blocks by its tip and the rows of the tip's
/// branch. It does nothing.
pub fn sound_areas()
    ensures closed_is_sound { ClosedIsSound }
    ensures held_is_sound { HeldIsSound }
    ensures its_bytes_are_sound { ItsBytesAreSound }
    ensures sound_holds_its_own { SoundHoldsItsOwn }
    ensures sound_has_its_number { SoundHasItsNumber }
    ensures is_of_its_tip { IsOfItsTip }
    ensures lists_its_rows { ListsItsRows }
{}
