// What the blocks of a height hold.
ghost use Rattle.std.specs.Prelude.{◌≡◌, ◌<◌, ◌≤◌, ◌+◌, ◌^◌, [], ◌∷◌, map, length, IfOk, IfSome, is_some, unwrap_or, if◌then◌else◌};
ghost use Rattle.chain_defs.specs.Root as merkle;
ghost use Rattle.chain_defs.specs.Molecule as molecule;
ghost use Rattle.chain_defs.specs.Hashes.{proposals_hash, proposal_id};
ghost use Rattle.chain_defs.specs.Dao.{next_field, miner_part};
ghost use Rattle.rule_defs.specs.Shares.{primary_at, secondary_at};
ghost use Rattle.gen_defs.specs.Heights as heights;
ghost use Rattle.gen_defs.specs.Start.{specification, coin_capacity};
ghost use Rattle.chain_gen.specs.Known.{IsTx, AreCommonToCells, outputs_of};
ghost use Rattle.chain_gen.specs.Content.{listed, after_height, KeepsHeights, IsContent};

use crate::start::{NO_ITEMS, specification};
use crate::transactions::{Coin, Common, Tx, cellbase, transfer, transferred};
use blake2b_ckb::ckbhash;
use cbmt::root;
use dao_math::{Dao, DaoMove, miner_share, next_field};
use epochs::{primary, share};
use mol_rows::{dynvec_of, dynvec_of_two, fixvec_of};
use outside::NoMemory;
use std::alloc::Global;

/// What a cell under the lock occupies that has no data, in shannons: 41 bytes.
const PLAIN_CELL: u128 = 4_100_000_000;

/// A reward is paid so many heights after its block.
const DELAY: u64 = 11;

/// The committer's and the proposer's share of a transfer's fee, in shannons.
const COMMITTER_SHARE: u64 = 600;

const PROPOSER_SHARE: u64 = 400;

/// What a branch comes to with its block at a height.
#[derive(Clone, Copy, Debug, PartialEq, Eq)]
pub(crate) struct After {
    pub(crate) coin: Coin,
    pub(crate) field: Dao,
}

/// What the blocks of a height hold, and what a branch comes to with them.
#[derive(Drop)]
pub(crate) struct Content {
    pub(crate) transactions: Vec<u8>,
    pub(crate) transactions_root: [u8; 32],
    pub(crate) proposals: Vec<u8>,
    pub(crate) proposals_hash: [u8; 32],
    pub(crate) after: After,
}

/// Whether the height commits a transfer.
fn commits(height: u64) -> bool
    ensures { result ≡ heights.commits height }
{
    height % 4 == 2 && height >= 6
}

/// Whether it proposes one.
fn proposes(height: u64) -> bool
    ensures { result ≡ heights.proposes height }
{
    height % 4 == 0 && height >= 4
}

/// Whether its cellbase pays a reward.
fn pays(height: u64) -> bool
    ensures { result ≡ heights.pays height }
{
    height > DELAY
}

/// What the block of a height moves.
fn movement(height: u64) -> DaoMove
    ensures { result ≡ heights.movement_at height }
{
    let spec = specification();
    let transferred = u128::from(commits(height)) * PLAIN_CELL;
    DaoMove {
        primary: primary(&spec, height),
        secondary: share(spec.epoch_length, height, spec.secondary_reward),
        interest: 0,
        made: u128::from(pays(height)) * PLAIN_CELL + transferred,
        freed: transferred,
    }
}

/// The DAO field after it, by the one before.
fn field_after(before: &Dao, height: u64) -> Dao
    requires { 0 < before.now.issued }
    ensures { result ≡ unwrap_or (next_field before.now (heights.movement_at height)) before.now }
{
    next_field(before, &movement(height)).unwrap_or(*before)
}

/// The reward of the block of a height, by the DAO field before it, in shannons.
fn reward(before: &Dao, height: u64) -> u64
    requires issued { coin_capacity ≤ before.now.issued }
    requires occupied { before.now.occupied < 2 ^ 64 }
    ensures { result ≡ heights.reward_by before.now height }
{
    shares(before, height)
        + u64::from(commits(height)) * COMMITTER_SHARE
        + u64::from(proposes(height)) * PROPOSER_SHARE
}

/// What of it is issued: the primary share, and the miner's part of the secondary share.
fn shares(before: &Dao, height: u64) -> u64
    requires issued { coin_capacity ≤ before.now.issued }
    requires occupied { before.now.occupied < 2 ^ 64 }
    ensures value { result ≡ primary_at specification height + miner_part before.now (secondary_at specification height) }
    ensures bounded { result < 2 ^ 60 }
{
    let spec = specification();
    let secondary = share(spec.epoch_length, height, spec.secondary_reward);
    primary(&spec, height) + miner_share(before, secondary) as u64
}

/// What a branch comes to with its block at a height.
fn after_at(after: &[After], height: u64) -> After
    requires kept { KeepsHeights after.now }
    requires within { height < length after.now }
    ensures { result ≡ after_height height }
{
    after[height as usize]
}

/// The reward that the cellbase at a height pays, in shannons. `after` has all heights before it.
fn reward_paid(after: &[After], height: u64) -> Option<u64>
    requires kept { KeepsHeights after.now }
    requires within { height ≤ length after.now }
    ensures { outputs_of result ≡ heights.cellbase_outputs height }
{
    if pays(height) {
        let paid = height - DELAY;
        Some(reward(&after_at(after, paid - 1).field, paid))
    } else {
        None
    }
}

/// The transfer that the height commits.
fn committed(
    alloc: Global,
    common: &Common,
    coin: &Coin,
    height: u64,
) -> Result<Option<Tx>, NoMemory>
    requires { AreCommonToCells common.now.lock.items common.now.genesis_hash }
    ensures there { IfOk result (λ transfer. is_some transfer ≡ heights.commits height) }
    ensures transfer { IfOk result (λ transfer. IfSome transfer (λ tx. IsTx (heights.transfer coin.now) tx.bytes.items tx.hash tx.witness_hash)) }
{
    if commits(height) {
        Ok(Some(transfer(alloc, common, coin)?))
    } else {
        Ok(None)
    }
}

/// The id that the height proposes.
fn proposed(
    alloc: Global,
    common: &Common,
    coin: &Coin,
    height: u64,
) -> Result<Option<[u8; 10]>, NoMemory>
    requires { AreCommonToCells common.now.lock.items common.now.genesis_hash }
    ensures { IfOk result (λ id. listed id ≡ (if heights.proposes height then proposal_id (heights.transfer coin.now) ∷ [] else [])) }
{
    if proposes(height) {
        let transfer = transfer(alloc, common, coin)?;
        let mut id = [0; 10];
        id.copy_from_slice(&transfer.hash[0..10]);
        Ok(Some(id))
    } else {
        Ok(None)
    }
}

/// The encoding of a block's transactions.
fn list_of(alloc: Global, cellbase: &Tx, transfer: &Option<Tx>) -> Result<Vec<u8>, NoMemory>
    requires cellbase { length cellbase.now.bytes.items ≤ 1000 }
    requires transfer { IfSome transfer.now (λ tx. length tx.bytes.items ≤ 1000) }
    ensures list { IfOk result (λ list. list.items ≡ molecule.dynvec (cellbase.now.bytes.items ∷ map (λ tx. tx.bytes.items) (listed transfer.now))) }
    ensures size { IfOk result (λ list. length list.items ≤ 2100) }
{
    match transfer {
        None => dynvec_of(alloc, &cellbase.bytes),
        Some(transfer) => dynvec_of_two(alloc, &cellbase.bytes, &transfer.bytes),
    }
}

/// The transactions root of a block.
fn root_of(alloc: Global, cellbase: &Tx, transfer: &Option<Tx>) -> Result<[u8; 32], NoMemory>
    ensures { IfOk result (λ hash. hash ≡ merkle.root (merkle.root (cellbase.now.hash ∷ map (λ tx. tx.hash) (listed transfer.now))
        ∷ merkle.root (cellbase.now.witness_hash ∷ map (λ tx. tx.witness_hash) (listed transfer.now)) ∷ [])) }
{
    match transfer {
        None => root(
            alloc,
            &[
                root(alloc, &[cellbase.hash])?,
                root(alloc, &[cellbase.witness_hash])?,
            ],
        ),
        Some(transfer) => root(
            alloc,
            &[
                root(alloc, &[cellbase.hash, transfer.hash])?,
                root(alloc, &[cellbase.witness_hash, transfer.witness_hash])?,
            ],
        ),
    }
}

/// The encoding of a block's proposals.
fn proposals_of(alloc: Global, id: &Option<[u8; 10]>) -> Result<Vec<u8>, NoMemory>
    ensures list { IfOk result (λ list. list.items ≡ molecule.fixvec (listed id.now)) }
    ensures size { IfOk result (λ list. length list.items ≤ 100) }
{
    match id {
        None => Ok(Vec::from_slice(alloc, &NO_ITEMS)?),
        Some(id) => fixvec_of(alloc, id),
    }
}

/// The hash of a block's proposals.
#[tactic(auto, unfolding(chain_defs::specs::Hashes::proposals_hash), using(crate::proofs::Parts::no_items))]
fn proposals_hash_of(id: &Option<[u8; 10]>) -> [u8; 32]
    ensures { result ≡ proposals_hash (listed id.now) }
{
    match id {
        None => [0; 32],
        Some(id) => ckbhash(id),
    }
}

/// The coin after a block that commits this.
fn coin_after(coin: &Coin, transfer: &Option<Tx>) -> Coin
    requires { IfSome transfer.now (λ tx. IsTx (heights.transfer coin.now) tx.bytes.items tx.hash tx.witness_hash) }
    ensures { result ≡ (if is_some transfer.now then heights.transferred coin.now else coin.now) }
{
    match transfer {
        None => *coin,
        Some(transfer) => transferred(coin, transfer),
    }
}

/// What the blocks of a height hold. `after` has all heights before it.
pub(crate) fn content_at(
    alloc: Global,
    common: &Common,
    after: &[After],
    height: u64,
) -> Result<Content, NoMemory>
    requires common { AreCommonToCells common.now.lock.items common.now.genesis_hash }
    requires kept { KeepsHeights after.now }
    requires above { 1 ≤ height }
    requires within { height ≤ length after.now }
    ensures { IfOk result (λ content. IsContent height content.transactions.items content.transactions_root content.proposals.items
        content.proposals_hash content.after) }
{
    let before = after_at(after, height - 1);
    let cellbase = cellbase(alloc, common, height, reward_paid(after, height))?;
    let transfer = committed(alloc, common, &before.coin, height)?;
    let coin = coin_after(&before.coin, &transfer);
    let id = proposed(alloc, common, &coin, height)?;
    Ok(Content {
        transactions: list_of(alloc, &cellbase, &transfer)?,
        transactions_root: root_of(alloc, &cellbase, &transfer)?,
        proposals: proposals_of(alloc, &id)?,
        proposals_hash: proposals_hash_of(&id),
        after: After {
            coin,
            field: field_after(&before.field, height),
        },
    })
}
