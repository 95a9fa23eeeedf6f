// The laws of sealed blocks.
ghost use Rattle.block_seal.specs.Sealed.{KeepsItsCommitments, KeepsTheGenesisRules};

/// States that a sealed block breaks none of J11, J12 and J14, and that of G2 to G7 sealing changes G4 alone. It does nothing.
pub fn sealing_laws()
    ensures commitments { KeepsItsCommitments }
    ensures genesis { KeepsTheGenesisRules }
{}
