ghost use Rattle.store_defs.specs.JoinedLaws.{TypedCellsHoldTheirOwn, EventsFit, WhatJoinsFits, BranchesFit, BlocksAreRated, NumbersAreHeights, UnclesDiffer, UnclesAreNoAncestors, ExtsHoldFees};

/// States of a chain that has joined: on each of its branches the live cells with a type script hold what they occupy; the
/// events of a branch fit, from the genesis on; those of a block that may join it fit the cells that are live on its
/// parent's branch, and so do those of each kept block. It does nothing.
pub fn cells_of_joined()
    ensures typed_cells_hold_their_own { TypedCellsHoldTheirOwn }
    ensures events_fit { EventsFit }
    ensures what_joins_fits { WhatJoinsFits }
    ensures branches_fit { BranchesFit }
{}

/// States of a chain that has joined: the C and the AR of each block's DAO field are above 0, and the number of each block
/// of a branch is its height. It does nothing.
pub fn headers_of_joined()
    ensures blocks_are_rated { BlocksAreRated }
    ensures numbers_are_heights { NumbersAreHeights }
{}

/// States of a chain that has joined: along a branch no hash is embedded as an uncle twice, and no uncle has the hash of an
/// ancestor of the block that embeds it. It does nothing.
pub fn uncles_of_joined()
    ensures uncles_differ { UnclesDiffer }
    ensures uncles_are_no_ancestors { UnclesAreNoAncestors }
{}

/// States of a chain that has joined, with the own ext of each block beside it: each ext but that of the genesis holds the
/// fees of its block's transactions on the branch of the block's parent. It does nothing.
pub fn exts_of_joined()
    ensures exts_hold_fees { ExtsHoldFees }
{}
