// The rows of a snapshot, put into a state.
ghost use Rattle.std.specs.Prelude.{◌≡◌, ◌+◌, ◌*◌, ◌≤◌, List, Option, true, false, Some, None, length, IfOk, IfSome, OnErr};
ghost use Rattle.chain_defs.specs.Schema as schema;
ghost use Rattle.chain_defs.specs.Row.{Row};
ghost use Rattle.cell_state.specs.State.{rows};
ghost use Rattle.snapshots.specs.Rows.{is_after_last, IsNextRow, AreRows, HasRows};

use cell_state::{CellMeta, OutPoint, ROW_SIZE, State, read_row};
use outside::{NoMemory, Steps};
use std::alloc::Global;
use std::sync::ledger::Ledger;

/// Whether an out-point stands after the last one, where there is one.
fn is_after(last: &Option<OutPoint>, o: &OutPoint) -> bool
    ensures { result ≡ is_after_last last.now o.now }
{
    match last {
        None => true,
        Some(last) => {
            let by_hash = last.tx_hash.cmp(&o.tx_hash);
            let by_index = last.index.cmp(&o.index);
            by_hash.then(by_index).is_lt()
        }
    }
}

/// The row that these 161 bytes hold, where it may stand after the last one: its block is one of so many that are kept, and
/// what it occupies is within its capacity.
fn next_row(row: &[u8], kept: u32, last: &Option<OutPoint>) -> Option<(OutPoint, CellMeta)>
    requires { length row.now ≡ 161 }
    ensures found { IfSome result (IsNextRow kept last.now row.now) }
    ensures exact { (it : schema.OutPoint × Row) → IsNextRow kept last.now row.now it → result ≡ Some it }
{
    let Some((o, meta)) = read_row(row) else {
        return None;
    };
    if meta.block >= kept {
        return None;
    }
    if meta.occupied > meta.capacity {
        return None;
    }
    if is_after(last, &o) {
        Some((o, meta))
    } else {
        None
    }
}

/// Puts the rows that bytes hold, side by side, into a state with space for them, each in one step. False where they are not
/// rows of so many kept blocks in rising order.
fn load_rows<L: Ledger>(
    state: &mut State,
    bytes: &[u8],
    count: usize,
    kept: u32,
    steps: &mut Steps<L>,
) -> bool
    requires whole { length bytes.now ≡ 161 * count }
    requires spare { count ≤ state.old.spare }
    requires empty { (o : schema.OutPoint) → rows state.old o ≡ None }
    ensures loaded { result ≡ true → HasRows kept count bytes.now (rows state.new) }
    ensures refused { result ≡ false → (list : List (schema.OutPoint × Row)) → AreRows kept count bytes.now list → ⊥ }
    ensures steps { result ≡ true → steps.new ≡ steps.old + count }
    ensures later { steps.old ≤ steps.new }
    ensures most { steps.new ≤ steps.old + count }
{
    let mut last = None;
    'rows: for i in 0..count {
        let row = &bytes[ROW_SIZE * i..ROW_SIZE * i + ROW_SIZE];
        let Some((o, meta)) = next_row(row, kept, &last) else {
            return false;
        };
        state.load_row(o, meta, steps);
        last = Some(o);
    }
    true
}

/// A state with the rows that bytes hold, side by side, each in one step. None where they are not rows of so many kept blocks
/// in rising order.
pub(crate) fn state_of<L: Ledger>(
    alloc: Global,
    bytes: &[u8],
    count: usize,
    kept: u32,
    steps: &mut Steps<L>,
) -> Result<Option<State>, NoMemory>
    requires { length bytes.now ≡ 161 * count }
    ensures loaded { IfOk result (λ found. IfSome found (λ state. HasRows kept count bytes.now (rows state))) }
    ensures refused { IfOk result (λ found. found ≡ None → (list : List (schema.OutPoint × Row)) → AreRows kept count bytes.now list → ⊥) }
    ensures steps { IfOk result (λ found. IfSome found (λ _. steps.new ≡ steps.old + count)) }
    ensures later { steps.old ≤ steps.new }
    ensures most { steps.new ≤ steps.old + count }
    ensures err { OnErr result (steps.new ≡ steps.old) }
{
    let mut state = State::new(alloc);
    match state.reserve(count as u64) {
        Ok(()) => {}
        Err(NoMemory) => return Err(NoMemory),
    }
    if load_rows(&mut state, bytes, count, kept, steps) {
        Ok(Some(state))
    } else {
        Ok(None)
    }
}
