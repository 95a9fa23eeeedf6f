ghost use Rattle.chain_defs.specs.UndoLaws.{SpendsRowsOnce, TakesBack};

/// States that the rows that events spend of those before them have no out-point twice, and just the rows that the
/// first event that names their out-point spends. It does nothing.
pub fn spent_rows()
    ensures once { SpendsRowsOnce }
{}

/// States that events that fit the rows before them can be taken back, with the rows that they spend, and that this
/// leaves the rows before them. It does nothing.
pub fn taking_back()
    ensures identity { TakesBack }
{}
