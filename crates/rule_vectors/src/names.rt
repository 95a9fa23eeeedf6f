//! The rules on a block by what they are printed as, and their lines.

use row_table::Row;
use rule_defs::Rule;
use std::alloc::Global;

/// Whether the rule that is printed as a row has it has the row's line.
pub(crate) fn agrees(alloc: Global, row: &mut Row<'_>) -> Option<bool> {
    let printed = row.word();
    for rule in Rule::all() {
        if rule.to_string(alloc).ok()?.as_str() == printed {
            return Some(rule.text() == row.rest());
        }
    }
    None
}
