// The laws of what a crash may leave.
ghost use Rattle.outside.specs.DiskLaws.{TearsOnePart, TearsTheEnd, CutsTheEnd, TearsToTheWritten, CutsToAnyLength, KeepsOthers};

/// States what a write and a cut that no sync has followed may leave of an area: other bytes only in the range
/// that was written, and a prefix of what was cut; and that a call that was done, whole or in part, is among it.
/// It does nothing.
pub fn disk_laws()
    ensures tears_one_part { TearsOnePart }
    ensures tears_the_end { TearsTheEnd }
    ensures cuts_the_end { CutsTheEnd }
    ensures tears_to_the_written { TearsToTheWritten }
    ensures cuts_to_any_length { CutsToAnyLength }
    ensures keeps_others { KeepsOthers }
{}
