// The laws of reports.
ghost use Rattle.report_defs.specs.Laws.{OneReport, WhatIsAssembledJoins};

use crate::canonical::canonical_laws;
use json_blocks::reading_laws;
use pool_defs::joining_laws;
use rv_text::text_laws;
use store_defs::store_laws;

/// States that words, an input and a store have at most one report, but for a `soak` of blocks of which two hashes are equal. It does
/// nothing.
pub fn report_laws()
    ensures one_report { OneReport }
{
    text_laws();
    reading_laws();
}

/// States that what `assemble` prints over the chain of a store with room ends in a block that would join there, or in one of the
/// rules for which there is none. It does nothing.
pub fn assembly_laws()
    ensures what_is_assembled_joins { WhatIsAssembledJoins }
{
    store_laws();
    joining_laws();
    canonical_laws();
}
