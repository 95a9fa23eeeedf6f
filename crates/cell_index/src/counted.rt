// Of listed rows those of one lock, as how many and what they hold.
ghost use Rattle.std.specs.Prelude.{◌≡◌, ◌<◌, ◌≤◌, ◌^◌, if◌then◌else◌};
ghost use Rattle.std.specs.List.{filter};
ghost use Rattle.cell_index.specs.Balance.{is_of, sum_of};

use cell_state::{CellMeta, OutPoint};

/// Whether a listed row has a lock, by its hash: one with its capacity, in shannons, or nothing.
fn sum_of_row(listed: &(OutPoint, CellMeta), lock: &[u8; 32]) -> (u64, u128)
    ensures count { result.0 ≡ (if is_of lock.now listed.now then 1 else 0) }
    ensures capacity { result.1 ≡ (if is_of lock.now listed.now then listed.now.1.capacity else 0) }
    ensures few { result.0 ≤ 1 }
    ensures most { result.1 < 2 ^ 64 }
{
    if listed.1.lock_hash == *lock {
        return (1, u128::from(listed.1.capacity));
    }
    (0, 0)
}

/// Of listed rows how many have a lock, by its hash, and what these hold together, in shannons.
pub fn sum_in(rows: &[(OutPoint, CellMeta)], lock: &[u8; 32]) -> (u64, u128)
    ensures { result ≡ sum_of (filter (is_of lock.now) rows.now) }
{
    let mut count = 0u64;
    let mut capacity = 0u128;
    'rows: for listed in rows {
        let one = sum_of_row(listed, lock);
        count += one.0;
        capacity += one.1;
    }
    (count, capacity)
}
