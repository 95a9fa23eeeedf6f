// Keys among which one is looked for.
ghost use Rattle.std.specs.Prelude.{◌≡◌, ℕ, List};
ghost use Rattle.std.specs.List.{list_any};
ghost use Rattle.std.specs.Str.{bytes_eq};

use std::marker::Model;

/// Keys of one length, in which one is found by halving. Clauses see them as a list, in any order.
#[derive(Drop)]
pub struct SortedKeys<const N: usize> {
    keys: Vec<[u8; N]>,
}

impl<const N: usize> Model for SortedKeys<N> {
    ghost use Rattle.std.specs.Prelude.{List, ℕ};
    ghost use Rattle.std.specs.List.Sorted.{IsSorted};
    ghost use Rattle.std.specs.Ordering.{nat_cmp};
    ghost use Rattle.std.specs.Cmp.Lexicographic.{slice_cmp};

    ghost Value = { List (List ℕ) };

    ghost view = { λ sorted. sorted.keys.items };

    ghost invariant = { λ sorted. IsSorted (slice_cmp nat_cmp) sorted.keys.items };
}

impl<const N: usize> SortedKeys<N> {
    /// These keys.
    pub fn of(keys: Vec<[u8; N]>) -> SortedKeys<N>
        ensures { (key : List ℕ) → list_any (bytes_eq key) result ≡ list_any (bytes_eq key) keys.entry.items }
    {
        let mut keys = keys;
        keys.sort_unstable();
        SortedKeys { keys }
    }

    /// Whether a key is one of them.
    pub fn contains(&self, key: &[u8; N]) -> bool
        ensures { result ≡ list_any (bytes_eq key.now) self.now }
    {
        self.keys.binary_search(key).is_ok()
    }
}
