// The laws of generated chains and of the chain's rules.
ghost use Rattle.gen_defs.specs.GenesisLaws.{PaysWhatIsOwed, HasItsField};
ghost use Rattle.gen_defs.specs.GenesisStart.{KeepsGenesisRules, AreOfSizes};

/// States that the next block of a generated chain keeps J31 and J32, on a branch that has the fields of its heights, pays its
/// transfers, names the lock and finds the coin, which are premises. It does nothing.
pub fn rule_laws()
    ensures pays_what_is_owed { PaysWhatIsOwed }
    ensures has_its_field { HasItsField }
{}

/// States that the bytes of the genesis keep G1 to G7, and how many bytes the specification and the genesis have. It does
/// nothing.
pub fn genesis_laws()
    ensures keeps_genesis_rules { KeepsGenesisRules }
    ensures are_of_sizes { AreOfSizes }
{}
