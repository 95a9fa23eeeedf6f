// The lines of simulations.
ghost use Rattle.std.specs.Prelude.{◌≡◌, string_bytes, IfOk};
ghost use Rattle.report_defs.specs.Text as text;

use report_defs::Counts;
use run_text::push_number;
use std::alloc::{AllocError, Global};

/// The line of so many generated blocks that were imported once, by what is counted of them.
pub fn made_line(alloc: Global, count: u32, counted: &Counts) -> Result<String, AllocError>
    ensures { IfOk result (λ line. string_bytes line ≡ text.made_line count counted.now) }
{
    counts_line(alloc, "made ", count, counted)
}

/// The line of so many generated blocks that were imported again and again.
pub fn soak_line(alloc: Global, count: u32, counted: &Counts) -> Result<String, AllocError>
    ensures { IfOk result (λ line. string_bytes line ≡ text.soak_line count counted.now) }
{
    counts_line(alloc, "soak ", count, counted)
}

/// The line of so many generated blocks, by what was done with them and what is counted of them.
fn counts_line(
    alloc: Global,
    done: &str,
    count: u32,
    counted: &Counts,
) -> Result<String, AllocError>
    ensures { IfOk result (λ line. string_bytes line ≡ text.counts_line done.now count counted.now) }
{
    let mut line = String::from_str(alloc, done)?;
    push_number(alloc, &mut line, u64::from(count))?;
    line.push_str(" joined ")?;
    push_number(alloc, &mut line, counted.joined)?;
    line.push_str(" height ")?;
    push_number(alloc, &mut line, counted.height)?;
    line.push_str(" cells ")?;
    push_number(alloc, &mut line, counted.cells)?;
    line.push_str("\n")?;
    Ok(line)
}
