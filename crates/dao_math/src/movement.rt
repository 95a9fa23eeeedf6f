//! How a block moves the DAO field.

ghost use Rattle.std.specs.Prelude.{◌≡◌, ◌+◌, ◌*◌, ◌/◌, ◌<◌, ◌-ℤ◌, pos};
ghost use Rattle.chain_defs.specs.Dao as rules;
ghost use Rattle.chain_defs.specs.Dao.{as_u64};

use crate::dao_field::Dao;
use std::marker::Model;

/// What a block moves, in shannons.
#[derive(Clone, Copy, Debug, PartialEq, Eq)]
pub struct DaoMove {
    /// The block's shares of the primary and of the secondary reward.
    pub primary: u64,
    pub secondary: u64,
    /// What its withdrawals count beyond their capacities; below 0 where the rate has fallen.
    pub interest: i128,
    /// What the cells occupy that the block makes, and those that it spends.
    pub made: u128,
    pub freed: u128,
}

impl Model for DaoMove {
    ghost use Rattle.chain_defs.specs.Dao.{Movement};

    ghost Value = { Movement };

    ghost view = { λ move. record { primary = move.primary; secondary = move.secondary; interest = move.interest; made = move.made; freed = move.freed } };

    ghost inverse = { λ move. record { primary = move.primary; secondary = move.secondary; interest = move.interest; made = move.made; freed = move.freed } };
}

/// The field after a block. None where one of its four numbers is below 0 or above the greatest u64.
#[tactic(auto, unfolding(chain_defs::specs::Dao::next_field))]
pub fn next_field(old: &Dao, move_: &DaoMove) -> Option<Dao>
    requires { 0 < old.now.issued }
    ensures { result ≡ rules.next_field old.now move_.now }
{
    Some(Dao {
        c: next_issued(old, move_)?,
        ar: next_rate(old, move_.secondary)?,
        s: next_savings(old, move_)?,
        u: next_occupied(old.u, move_)?,
    })
}

/// The miner's part of the secondary share `s`, by the field before the block, in shannons.
pub fn miner_share(old: &Dao, s: u64) -> u128
    requires { 0 < old.now.issued }
    ensures { result ≡ rules.miner_part old.now s }
{
    u128::from(s) * u128::from(old.u) / u128::from(old.c)
}

fn next_issued(old: &Dao, move_: &DaoMove) -> Option<u64>
    ensures { result ≡ as_u64 (pos (rules.next_issued old.now move_.now)) }
{
    old.c
        .checked_add(move_.primary)?
        .checked_add(move_.secondary)
}

fn next_rate(old: &Dao, secondary: u64) -> Option<u64>
    requires { 0 < old.now.issued }
    ensures { result ≡ as_u64 (pos (old.now.rate + old.now.rate * secondary / old.now.issued)) }
{
    let growth = u128::from(old.ar) * u128::from(secondary) / u128::from(old.c);
    u64::try_from(u128::from(old.ar) + growth).ok()
}

/// Interest below 0 is a gain. The sum of all losses may leave 128 bits, so they are taken one by one.
fn next_savings(old: &Dao, move_: &DaoMove) -> Option<u64>
    requires { 0 < old.now.issued }
    ensures { result ≡ as_u64 (rules.next_savings old.now move_.now) }
{
    let gains = u128::from(old.s) + u128::from(move_.secondary);
    let interest = move_.interest.unsigned_abs();
    let (gains, interest) = if move_.interest < 0 {
        (gains + interest, 0)
    } else {
        (gains, interest)
    };
    let left = gains
        .checked_sub(miner_share(old, move_.secondary))?
        .checked_sub(interest)?;
    u64::try_from(left).ok()
}

/// What is made may leave 128 bits with what was occupied, so the difference is taken first.
fn next_occupied(occupied: u64, move_: &DaoMove) -> Option<u64>
    ensures { result ≡ as_u64 (pos (occupied + move_.now.made) -ℤ pos move_.now.freed) }
{
    if move_.made >= move_.freed {
        let more = u64::try_from(move_.made - move_.freed).ok()?;
        occupied.checked_add(more)
    } else {
        let less = u64::try_from(move_.freed - move_.made).ok()?;
        occupied.checked_sub(less)
    }
}
