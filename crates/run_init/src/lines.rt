// The lines of `init`.
ghost use Rattle.std.specs.Prelude.{◌≡◌, ◌++◌, codes, string_bytes, IfOk};
ghost use Rattle.report_defs.specs.Text as text;

use run_text::{hash_line, number_line};
use std::alloc::{AllocError, Global};

/// The line of the genesis of a new store.
pub fn genesis_line(alloc: Global, hash: &[u8; 32]) -> Result<String, AllocError>
    ensures { IfOk result (λ line. string_bytes line ≡ codes "genesis " ++ text.hash_text hash.now ++ text.line_feed) }
{
    hash_line(alloc, "genesis ", hash)
}

/// The line of a specification that breaks this rule.
pub fn bad_spec_line(alloc: Global, rule: u8) -> Result<String, AllocError>
    ensures { IfOk result (λ line. string_bytes line ≡ text.bad_spec_line rule) }
{
    number_line(alloc, "bad spec S", u64::from(rule))
}

/// The line of a genesis that breaks this rule.
pub fn bad_genesis_line(alloc: Global, rule: u8) -> Result<String, AllocError>
    ensures { IfOk result (λ line. string_bytes line ≡ text.bad_genesis_line rule) }
{
    number_line(alloc, "bad genesis G", u64::from(rule))
}
