// The lines of questions.
ghost use Rattle.std.specs.Prelude.{◌≡◌, None, string_bytes, IfOk};
ghost use Rattle.report_defs.specs.Assembly as assembly;
ghost use Rattle.report_defs.specs.Text as text;

use pool_defs::Line;
use run_text::{number_line, numbers_line, push_hex};
use std::alloc::{AllocError, Global};
use verdict_defs::Trial;

/// The line of a transaction that was judged alone.
pub fn trial_line(alloc: Global, tried: &Trial) -> Result<String, AllocError>
    ensures { IfOk result (λ line. string_bytes line ≡ text.trial_line tried.now) }
{
    match tried {
        Trial::Passes(fee, cycles) => numbers_line(alloc, "ok ", *fee, *cycles),
        Trial::Refused(rule) => number_line(alloc, "refused J", u64::from(*rule)),
    }
}

/// The line of an item of which a block is assembled.
pub fn pool_line(alloc: Global, line: Line) -> Result<String, AllocError>
    ensures { IfOk result (λ text. string_bytes text ≡ assembly.pool_line line) }
{
    match line {
        Line::Commit(fee, cycles) => numbers_line(alloc, "commit ", fee, cycles),
        Line::Propose => String::from_str(alloc, "propose\n"),
        Line::Refused(rule) => number_line(alloc, "refused J", u64::from(rule)),
        Line::Later => String::from_str(alloc, "later\n"),
    }
}

/// The line of a block that is not assembled, since it breaks this rule.
pub fn no_block_line(alloc: Global, rule: u8) -> Result<String, AllocError>
    ensures { IfOk result (λ line. string_bytes line ≡ assembly.no_block_line rule) }
{
    number_line(alloc, "no block J", u64::from(rule))
}

/// The line of a block that is assembled.
fn found_block_line(alloc: Global, block: &[u8]) -> Result<String, AllocError>
    ensures { IfOk result (λ line. string_bytes line ≡ assembly.block_line block.now None) }
{
    let mut line = String::from_str(alloc, "block ")?;
    push_hex(alloc, &mut line, block)?;
    line.push_str("\n")?;
    Ok(line)
}

/// The last line of what is assembled.
pub fn block_line(alloc: Global, block: &[u8], broken: Option<u8>) -> Result<String, AllocError>
    ensures { IfOk result (λ line. string_bytes line ≡ assembly.block_line block.now broken) }
{
    match broken {
        None => found_block_line(alloc, block),
        Some(rule) => no_block_line(alloc, rule),
    }
}
