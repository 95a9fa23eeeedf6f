// The laws of kept blocks, branches and the tip.
ghost use Rattle.chain_defs.specs.Kept.{HashesDiffer};
ghost use Rattle.chain_defs.specs.Branch.{BranchesAreBranches, DistanceIsOffTheFork};
ghost use Rattle.chain_defs.specs.Tip.{TipsAreTips};
ghost use Rattle.chain_defs.specs.Median.{MediansAreMedians};

/// States that the hashes of kept blocks all differ. It does nothing.
pub fn kept_laws()
    ensures hashes_differ { HashesDiffer }
{}

/// States what a branch of kept blocks is: its blocks are kept, it begins with the genesis, ends with
/// its block, has one block a height, and each is the parent of the next. No other list is so. And
/// that the distance of two places counts the blocks after their fork. It does nothing.
pub fn branch_laws()
    ensures are_branches { BranchesAreBranches }
    ensures off_the_fork { DistanceIsOffTheFork }
{}

/// States what the tip is: its number is the greatest, and no earlier block has it. It does nothing.
pub fn tip_laws()
    ensures are_tips { TipsAreTips }
{}

/// States what a median is: of the numbers it is one, more than half are at most it, and at least half
/// at least it. No other number is so. It does nothing.
pub fn median_laws()
    ensures are_medians { MediansAreMedians }
{}
