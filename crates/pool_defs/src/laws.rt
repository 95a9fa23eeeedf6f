// The laws of a block that is assembled.
ghost use Rattle.pool_defs.specs.Laws.{LinesStay, TransactionsKeepTheirRules, CommitsStand, BreaksFew, UnbrokenJoins};

/// States what becomes of the items: each has a line, which does not depend on the items after it; the transactions of the
/// block keep J18 to J30 in it; and one whose line is that of a commit stands there, pays its fee and takes its cycles. It
/// does nothing.
pub fn assembly_laws()
    ensures lines_stay { LinesStay }
    ensures transactions_keep_their_rules { TransactionsKeepTheirRules }
    ensures commits_stand { CommitsStand }
{}

/// States what becomes of the block: it breaks no rule but J2, J8, J9, J16, J17, J31 and J32; and where it breaks none, its
/// bytes are canonical and there is room, they join. It does nothing.
pub fn joining_laws()
    ensures breaks_few { BreaksFew }
    ensures unbroken_joins { UnbrokenJoins }
{}
