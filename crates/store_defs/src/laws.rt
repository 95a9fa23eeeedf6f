// The law of what a log takes.
ghost use Rattle.store_defs.specs.JoinLaws.{TakesWhatJoins};

/// States that a log takes what joins: the record of an item that can join a chain is one of its block,
/// where its ext has the right form. It does nothing.
pub fn join_laws()
    ensures takes_what_joins { TakesWhatJoins }
{}
