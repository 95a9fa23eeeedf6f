// The first of a list of rules that is broken.
ghost use Rattle.std.specs.Prelude.{◌≡◌, map};
ghost use Rattle.std.specs.Option.{option_map};
ghost use Rattle.chain_defs.specs.First.{first_failing};
ghost use Rattle.rule_defs.specs.RuleNumber.{rule_number, numbered_row};

use crate::rule::Rule;

/// The first rule that is broken, of rows that say of each whether it is kept.
pub fn first_broken(rows: &[(Rule, bool)]) -> Option<Rule>
    ensures { option_map rule_number result ≡ first_failing (map numbered_row rows.now) }
{
    'rows: for i in 0..rows.len() {
        let (rule, kept) = rows[i];
        if !kept {
            return Some(rule);
        }
    }
    None
}
