// The rows in rising order of their hashes.
ghost use Rattle.std.specs.Prelude.{◌≡◌, ℕ, List};
ghost use Rattle.transaction_index.specs.Rows.{first_row, by_hash, AreInOrder, is_before};

use crate::row::Row;
use std::cmp::Ordering;
use std::marker::Model;

/// Rows, of which the first with a hash is found by halving. Clauses see them as a list.
#[derive(Drop)]
pub struct TransactionIndex {
    rows: Vec<Row>,
}

/// The order of rows: by hash, and of one hash by the number of the block and the place there.
fn order(one: &Row, other: &Row) -> Ordering
    ensures { result ≡ by_hash one.now other.now }
{
    let in_order = one
        .number
        .cmp(&other.number)
        .then(one.place.cmp(&other.place));
    one.hash.cmp(&other.hash).then(in_order)
}

impl Model for TransactionIndex {
    ghost use Rattle.std.specs.Prelude.{List};
    ghost use Rattle.std.specs.List.Sorted.{IsSortedByKey};
    ghost use Rattle.std.specs.Ordering.{nat_cmp};
    ghost use Rattle.std.specs.Cmp.Lexicographic.{slice_cmp};
    ghost use Rattle.transaction_index.specs.declared.row.Row.{Row};

    ghost Value = { List Row };

    ghost view = { λ index. index.rows.items };

    ghost invariant = { λ index. IsSortedByKey (λ (row : Row). row.hash) (slice_cmp nat_cmp) index.rows.items };
}

impl TransactionIndex {
    /// These rows, which stand as on a branch: of those with one hash the first stays the first. It takes no memory.
    pub fn of(rows: Vec<Row>) -> TransactionIndex
        ensures { AreInOrder rows.items → (hash : List ℕ) → first_row result hash ≡ first_row rows.items hash }
    {
        let mut rows = rows;
        rows.sort_unstable_by(
            |one: &Row, other: &Row| -> Ordering
                ensures { result ≡ by_hash one.now other.now }
            { order(one, other) },
        );
        rows.shrink_to_fit();
        TransactionIndex { rows }
    }

    /// The first row with a hash.
    pub fn find(&self, hash: &[u8; 32]) -> Option<Row>
        ensures { result ≡ first_row self.now hash.now }
    {
        let at = self.rows.partition_point(
            |row: &Row| -> bool
                ensures { result ≡ is_before hash.entry.now row.now }
            { row.hash.cmp(hash).is_lt() },
        );
        if at >= self.rows.len() {
            return None;
        }
        let row = self.rows[at];
        if row.hash == *hash { Some(row) } else { None }
    }
}
