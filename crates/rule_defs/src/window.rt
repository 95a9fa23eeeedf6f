// The law of the proposal window.
ghost use Rattle.rule_defs.specs.Window.{EarliestIsEarliest, UnclesOnlyAdd, EarliestStays};

/// States that the earliest proposer is the lowest height, from w_far to w_close before a height, at which the block of
/// the branch or one of its uncles proposes the id, that it stays the same on every longer branch, and that an uncle more
/// can only add to what is proposed. It does nothing.
pub fn window_laws()
    ensures is_earliest { EarliestIsEarliest }
    ensures uncles_only_add { UnclesOnlyAdd }
    ensures earliest_stays { EarliestStays }
{}
