// The laws of the verdict.
ghost use Rattle.verdict_defs.specs.Laws.{JoinsExactly, KeepsWhatJoins, KeepingKeeps, KeptStays, JoinsOnItsBranch, AnswersExactly};

/// States that an item joins exactly where it is a canonical block, not kept yet, on a kept parent,
/// breaks no rule and there is room; that its block is then put at the end, and any other item leaves
/// what is kept; that blocks that were kept so are a kept list, which stays a prefix after any items;
/// that what can join can still do so after other items, whichever the tip is by then; and what an item
/// that does not join is answered. It does nothing.
pub fn verdict_laws()
    ensures joins_exactly { JoinsExactly }
    ensures keeps_what_joins { KeepsWhatJoins }
    ensures keeping_keeps { KeepingKeeps }
    ensures kept_stays { KeptStays }
    ensures joins_on_its_branch { JoinsOnItsBranch }
    ensures answers_exactly { AnswersExactly }
{}
