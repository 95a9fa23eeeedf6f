// Amounts in shannons, as far as a u64 goes.
ghost use Rattle.std.specs.Prelude.{◌≡◌, ◌+◌, ◌≤◌, ℕ, pos};
ghost use Rattle.chain_defs.specs.Dao.{as_u64};
ghost use Rattle.rule_defs.specs.Fees as fees;

/// The sum of two amounts. None stands for an amount above the greatest u64, and so for the sum with it.
pub(crate) fn plus(one: Option<u64>, other: Option<u64>) -> Option<u64>
    ensures { (m n : ℕ) → one ≡ as_u64 (pos m) → other ≡ as_u64 (pos n) → result ≡ as_u64 (pos (m + n)) }
{
    one?.checked_add(other?)
}

/// What of a fee is for the earliest proposer.
pub(crate) fn proposer_share(fee: u64) -> u64
    ensures share { result ≡ fees.proposer_share fee }
    ensures at_most { result ≤ fee }
{
    (4 * u128::from(fee) / 10) as u64
}

/// What of it is for the committer.
pub(crate) fn committer_share(fee: u64) -> u64
    ensures { result ≡ fees.committer_share fee }
{
    fee - proposer_share(fee)
}
