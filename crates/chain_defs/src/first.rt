// The laws of the first rule that is broken.

ghost use Rattle.chain_defs.specs.First.{FindsTheFirst, FindsNone};

/// States what `first_failing` is: it gives a number exactly where the rule of that number is broken at some
/// place and all before it are kept, and none exactly where all are kept. It does nothing.
pub fn first_failing_laws()
    ensures finds_the_first { FindsTheFirst }
    ensures finds_none { FindsNone }
{}
