// The laws of what an image stands for, by its areas of snapshots.
ghost use Rattle.store_defs.specs.SnapshotLaws.{StaysSoundAfterAnItem, StandsByParts, StandsByItsLog, StandsWithoutSnapshots, StandsWithSoundArea, StandsWithClosedArea, StandsWithSnapshot};
ghost use Rattle.store_defs.specs.SnapshotLaws.{StandsWhereItSaysTheSame, SoundStandsForTheSame, StandsForWhatItKeeps, NumbersDiffer};

/// States that a sound area stays so after any item; that an image stands for a chain exactly where its log does and
/// both areas are sound, and so exactly where its log does while no gate is open; that it still stands for it with
/// other bytes in an area that are sound there; that what its log says tells for which; and that its two snapshots
/// have two numbers. It does nothing.
pub fn image_laws()
    ensures stays_sound_after_an_item { StaysSoundAfterAnItem }
    ensures stands_by_parts { StandsByParts }
    ensures stands_by_its_log { StandsByItsLog }
    ensures stands_without_snapshots { StandsWithoutSnapshots }
    ensures stands_with_sound_area { StandsWithSoundArea }
    ensures stands_with_closed_area { StandsWithClosedArea }
    ensures stands_with_snapshot { StandsWithSnapshot }
    ensures stands_where_it_says_the_same { StandsWhereItSaysTheSame }
    ensures sound_stands_for_the_same { SoundStandsForTheSame }
    ensures stands_for_what_it_keeps { StandsForWhatItKeeps }
    ensures numbers_differ { NumbersDiffer }
{}
