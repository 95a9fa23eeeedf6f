// The law of the first fault.
ghost use Rattle.verify_laws.specs.Laws.{FaultIsNotSound};

/// States that an image of which something is wrong first is not sound. It does nothing.
pub fn fault_laws()
    ensures fault_is_not_sound { FaultIsNotSound }
{}
