//! What a withdrawing cell counts.

ghost use Rattle.std.specs.Prelude.{◌≡◌, ◌≤◌, ◌<◌, pos, IfSome};
ghost use Rattle.chain_defs.specs.Dao.{counted_capacity, as_u64};

/// What a withdrawing cell of capacity `c` and occupied capacity `o` counts, in shannons: what lies above
/// `o` has grown with the accumulated rate from that of the deposit block, `ar_m`, to that of the block
/// that made the withdrawing cell, `ar_n`. None where it is above the greatest u64.
pub fn max_withdraw(c: u64, o: u64, ar_n: u64, ar_m: u64) -> Option<u64>
    requires occupied { o ≤ c }
    requires rate { 0 < ar_m }
    ensures counted { result ≡ as_u64 (pos (counted_capacity c o ar_n ar_m)) }

    // Where the rate has not fallen, nothing is lost.
    ensures kept { ar_m ≤ ar_n → IfSome result (λ counted. c ≤ counted) }
{
    let grown = u128::from(c - o) * u128::from(ar_n) / u128::from(ar_m);
    u64::try_from(grown + u128::from(o)).ok()
}
