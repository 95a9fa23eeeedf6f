ghost use Rattle.node_store.specs.Fees.{ExtsKeepFees};
ghost use Rattle.node_store.specs.ReorgLaws.{KeptAreCanonical, StoredAreCanonical, ExtsFit, JoinedExtsFit, JoinedCanBeTakenBack};
ghost use Rattle.node_store.specs.ReorgLaws.{CellsHoldTheirOwn, RowsAreKept, SnapshotRowsAreKept};

/// States that the blocks of a chain are canonical: with the genesis alone, after any item, and where an image stands for
/// it. It does nothing.
pub fn kept_blocks()
    ensures canonical { KeptAreCanonical }
    ensures canonical_in_store { StoredAreCanonical }
{}

/// States that over canonical blocks the ext of a canonical block that may join fits its bytes, and so do the own exts of
/// a chain that has joined. It does nothing.
pub fn own_exts()
    ensures fit { ExtsFit }
    ensures of_joined_fit { JoinedExtsFit }
{}

/// States that the ext of each kept block that has joined keeps the fees of its block's transactions. It does nothing.
pub fn fees_of_joined()
    ensures exts_keep_fees { ExtsKeepFees }
{}

/// States that each block of a chain of canonical blocks that has joined can be taken back with its own ext. It does
/// nothing.
pub fn way_of_joined()
    ensures can_be_taken_back { JoinedCanBeTakenBack }
{}

/// States of a chain of canonical blocks that has joined: each live cell of a branch holds what it occupies, so each row of
/// a branch, and each of a snapshot of the blocks, is one of a kept block and occupies at most its capacity. It does nothing.
pub fn rows_of_joined()
    ensures cells_hold_their_own { CellsHoldTheirOwn }
    ensures rows_are_kept { RowsAreKept }
    ensures snapshot_rows_are_kept { SnapshotRowsAreKept }
{}
