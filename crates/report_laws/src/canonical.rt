// When a block that is assembled is canonical.
ghost use Rattle.report_laws.specs.CanonicalLaws.{UnbrokenIsCanonical, UnbrokenIsJoined, KeptIsInRange};

/// States that a block which is assembled and breaks no rule is canonical, and that it joins, where the numbers of the chain
/// are as bytes hold them; and that those of a chain which a store keeps are, but for its compact target. It does nothing.
pub fn canonical_laws()
    ensures unbroken_is_canonical { UnbrokenIsCanonical }
    ensures unbroken_is_joined { UnbrokenIsJoined }
    ensures kept_is_in_range { KeptIsInRange }
{}
