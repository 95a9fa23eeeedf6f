// The rows of an ext.
ghost use Rattle.std.specs.Prelude.{◌≡◌, ◌++◌, ◌∷◌, [], nat_lt, if◌then◌else◌, map, OnOk};
ghost use Rattle.std.specs.List.{filter};
ghost use Rattle.tx_rules.specs.Copying.{row_in};

use cell_state::{CellMeta, OutPoint, Resolved};
use outside::NoMemory;

/// Puts the row of an input after those that are there, if a kept block made it, of which there are `e`.
fn push_row(spent: &mut Vec<(OutPoint, CellMeta)>, input: &Resolved, e: u32) -> Result<(), NoMemory>
    ensures { OnOk result (spent.new.items ≡ spent.old.items ++ (if nat_lt input.now.row.block e then row_in input.now ∷ [] else [])) }
{
    if input.meta.block < e {
        spent.push((input.out_point, input.meta))?;
    }
    Ok(())
}

/// Puts the rows of the inputs that kept blocks made, of which there are `e`, after those that are there.
pub(crate) fn push_spent(
    spent: &mut Vec<(OutPoint, CellMeta)>,
    inputs: &[Resolved],
    e: u32,
) -> Result<(), NoMemory>
    ensures { OnOk result (spent.new.items ≡ spent.old.items ++ filter (λ it. nat_lt it.1.block e) (map row_in inputs.now)) }
{
    'inputs: for input in inputs {
        push_row(spent, input, e)?;
    }
    Ok(())
}
