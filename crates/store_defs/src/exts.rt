ghost use Rattle.store_defs.specs.ExtLaws.{ExtsHoldSpentRows, ExtsTakeBack, KeptExtsTakeBack};

/// States that the rows of the ext of a block that may join are those that its events spend of the rows of its parent's
/// branch, and that these rows come before those of its own branch: with its ext it can be taken back. So can each block
/// of a chain that has joined. It does nothing.
pub fn exts_of_blocks()
    ensures hold_spent_rows { ExtsHoldSpentRows }
    ensures take_back { ExtsTakeBack }
    ensures kept_take_back { KeptExtsTakeBack }
{}
