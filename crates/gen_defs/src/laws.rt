// The laws of generated chains.
ghost use Rattle.std.specs.Prelude.{◌≡◌};
ghost use Rattle.gen_defs.specs.Heights.{reward_of};
ghost use Rattle.gen_defs.specs.Paid.{PaysWhatIsGiven};
ghost use Rattle.gen_defs.specs.Laws.{IsReadBack, ParentsAreEarlier, TimesFollowHeights, FieldsAreNext};

/// States that the bytes of the specification keep S1 to S7 and read as its numbers, and how much the first block of a chain is
/// given, in shannons. It does nothing.
pub fn start_laws()
    ensures is_read_back { IsReadBack }
    ensures first_reward { reward_of 1 ≡ 100000213996 }
{}

/// States that each block is the child of one that was made before it, and that its timestamp follows from its height. It does
/// nothing.
pub fn walk_laws()
    ensures parents_are_earlier { ParentsAreEarlier }
    ensures times_follow_heights { TimesFollowHeights }
{}

/// States that the DAO field of a next block is there, up to 20,000 of them. It does nothing.
pub fn field_laws()
    ensures { FieldsAreNext }
{}

/// States that the reward of a height is what the rules give to its block, on a branch that has the fields of its heights and
/// pays its transfers, which is a premise. It does nothing.
pub fn reward_laws()
    ensures { PaysWhatIsGiven }
{}
