ghost use Rattle.chain_defs.specs.ForkLaws.{AnyTwoForkOnce};

/// States that any two kept blocks have a fork, and just one. It does nothing.
pub fn forks()
    ensures once { AnyTwoForkOnce }
{}
