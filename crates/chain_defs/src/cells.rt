ghost use Rattle.chain_defs.specs.CellLaws.{MakesAreOutputs, SpendsAreInputs, LivesByCounting, AppliesInOrder, GrowsByABlock, CellsAreOutputs, SeenCellsAreOutputs};
ghost use Rattle.chain_defs.specs.LiveCells.{ListsJustTheLive, ListsEachOnce};
ghost use Rattle.chain_defs.specs.ByLock.{ListsByLock};

/// States that a branch makes just the outputs of its blocks, each with its out-point and its data, and spends just
/// their inputs but those of the genesis and of each cellbase. It does nothing.
pub fn block_events()
    ensures makes { MakesAreOutputs }
    ensures spends { SpendsAreInputs }
{}

/// States that, where each event fits what is live before it, a cell is live exactly where more makes than spends name
/// it, and that a live cell is an output, with its out-point, of the block at its height, or of an earlier transaction
/// of the block that sees it. It does nothing.
pub fn live_cells()
    ensures by_counting { LivesByCounting }
    ensures are_outputs { CellsAreOutputs }
    ensures seen_are_outputs { SeenCellsAreOutputs }
{}

/// States that the rows after a block are the rows before it with its events applied in their order, and that
/// out-points that none of them names keep theirs. It does nothing.
pub fn live_rows()
    ensures in_order { AppliesInOrder }
    ensures by_a_block { GrowsByABlock }
{}

/// States that the list of live cells has just the cells that are live after its events, and no out-point twice, and that
/// the list of those of a branch that have one lock is just these with their rows, in rising order. It does nothing.
pub fn listed_cells()
    ensures just_the_live { ListsJustTheLive }
    ensures each_once { ListsEachOnce }
    ensures by_lock { ListsByLock }
{}
