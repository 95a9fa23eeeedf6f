// The laws of rewards and of the DAO field.
ghost use Rattle.std.specs.Prelude.{◌≡◌};
ghost use Rattle.rule_defs.specs.Fees.{proposer_share, committer_share};
ghost use Rattle.rule_defs.specs.RewardLaws.{FeesAreShared, PaysItsFees, CommitsInItsWindow, PartStays, RatesNeverFall, StaysRated};

/// States that a fee is shared without a rest, and that what a block commits are the fees of its transactions, each with the
/// transaction's id. It does nothing.
pub fn fee_laws()
    ensures fees_are_shared { FeesAreShared }
    ensures pays_its_fees { PaysItsFees }
{}

/// States that a block may commit what another proposed exactly where that one stands in its window, and that what a block
/// is given stays the same on each longer branch, once the branch has all blocks that may commit what it proposed. It does
/// nothing.
pub fn reward_laws()
    ensures commits_in_its_window { CommitsInItsWindow }
    ensures part_stays { PartStays }
{}

/// States that C and AR of the DAO field never fall, so that a block which keeps J32 is rated where its parent is. It does
/// nothing.
pub fn dao_laws()
    ensures rates_never_fall { RatesNeverFall }
    ensures stays_rated { StaysRated }
{}

/// States how some fees are shared, in shannons. It does nothing.
pub fn fee_examples()
    ensures proposer { proposer_share 99 ≡ 39 }
    ensures committer { committer_share 99 ≡ 60 }
    ensures nothing { proposer_share 0 ≡ 0 }
    ensures below_ten { proposer_share 9 ≡ 3 }
    ensures ten { committer_share 10 ≡ 6 }
{}
