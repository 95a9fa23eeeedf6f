// The law of how an input is cut.

ghost use Rattle.report_defs.specs.Items.{SplitsAreOne};

/// States that an input has one split into items, which is that of the definition. It does nothing.
pub fn item_laws()
    ensures splits_are_one { SplitsAreOne }
{}
