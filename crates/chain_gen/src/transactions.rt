// The transactions of a chain.
ghost use Rattle.std.specs.Prelude.{◌≡◌, ◌≤◌, [], map, length, IfOk};
ghost use Rattle.chain_defs.specs.Shape.{encoded, bytes, dynvec};
ghost use Rattle.chain_defs.specs.Schema as schema;
ghost use Rattle.mol_rows.specs.Rows.{HasParts};
ghost use Rattle.gen_defs.specs.Heights as heights;
ghost use Rattle.gen_defs.specs.Start as start;
ghost use Rattle.chain_gen.specs.Known.{IsTx, AreCommonToCells, outputs_of};

use crate::start::{NO_ITEMS, NO_PARTS, NULL_INDEX};
use blake2b_ckb::ckbhash;
use mol_rows::{
    bytes_row, cellbase_witness_table, dep_row, dynvec_of, fixvec_of, input_row, output_table,
    raw_table, transaction_table,
};
use outside::NoMemory;
use std::alloc::Global;
use std::marker::Model;

/// A transaction, with its hash and its hash with witnesses.
#[derive(Drop)]
pub(crate) struct Tx {
    pub(crate) bytes: Vec<u8>,
    pub(crate) hash: [u8; 32],
    pub(crate) witness_hash: [u8; 32],
}

/// The transaction of its two parts.
pub(crate) fn tx_of(alloc: Global, raw: &[u8], witnesses: &[u8]) -> Result<Tx, NoMemory>
    requires raw { length raw.now ≤ 800 }
    requires witnesses { length witnesses.now ≤ 100 }
    ensures { (t : schema.Transaction) → HasParts t raw.now witnesses.now → IfOk result (λ tx. IsTx t tx.bytes.items tx.hash tx.witness_hash) }
{
    let bytes = transaction_table(alloc, raw, witnesses)?;
    let witness_hash = ckbhash(&bytes);
    Ok(Tx {
        bytes,
        hash: ckbhash(raw),
        witness_hash,
    })
}

/// A cell under the lock that one transaction of four heights spends and makes again.
#[derive(Clone, Copy, Debug, PartialEq, Eq)]
pub(crate) struct Coin {
    pub(crate) hash: [u8; 32],
    pub(crate) index: u32,
    /// In shannons.
    pub(crate) capacity: u64,
}

impl Model for Coin {
    ghost Value = { heights.Coin };

    ghost view = { λ coin. record { out_point = record { tx_hash = coin.hash; index = coin.index }; capacity = coin.capacity } };

    ghost inverse = { λ coin. record { hash = coin.out_point.tx_hash; index = coin.out_point.index; capacity = coin.capacity } };
}

/// What the cells of a chain have in common: their lock, and the transaction that made the cell with its program.
#[derive(Drop)]
pub(crate) struct Common {
    pub(crate) lock: Vec<u8>,
    pub(crate) genesis_hash: [u8; 32],
}

/// The fee of a transfer, in shannons.
const FEE: u64 = 1000;

/// What the coin holds once it is transferred.
fn left_of(coin: &Coin) -> u64
    ensures { result ≡ heights.left_of coin.now }
{
    coin.capacity.saturating_sub(FEE)
}

/// The transfer of the coin.
pub(crate) fn transfer(alloc: Global, common: &Common, coin: &Coin) -> Result<Tx, NoMemory>
    requires { AreCommonToCells common.now.lock.items common.now.genesis_hash }
    ensures { IfOk result (λ tx. IsTx (heights.transfer coin.now) tx.bytes.items tx.hash tx.witness_hash) }
{
    let deps = fixvec_of(alloc, &dep_row(alloc, &common.genesis_hash, 0, 0)?)?;
    let inputs = fixvec_of(alloc, &input_row(alloc, 0, &coin.hash, coin.index)?)?;
    let outputs = dynvec_of(alloc, &output_table(alloc, &common.lock, left_of(coin))?)?;
    let data = dynvec_of(alloc, &NO_ITEMS)?;
    let raw = raw_table(alloc, 0, &deps, &NO_ITEMS, &inputs, &outputs, &data)?;
    tx_of(alloc, &raw, &NO_PARTS)
}

/// The coin after its transfer.
pub(crate) fn transferred(coin: &Coin, transfer: &Tx) -> Coin
    requires { IsTx (heights.transfer coin.now) transfer.now.bytes.items transfer.now.hash transfer.now.witness_hash }
    ensures { result ≡ heights.transferred coin.now }
{
    Coin {
        hash: transfer.hash,
        index: 0,
        capacity: left_of(coin),
    }
}

/// The outputs of a cellbase, and their data.
fn paid(alloc: Global, lock: &[u8], reward: Option<u64>) -> Result<(Vec<u8>, Vec<u8>), NoMemory>
    requires lock { lock.now ≡ encoded schema.script start.lock }
    requires size { length lock.now ≡ 53 }
    ensures outputs { IfOk result (λ lists. lists.0.items ≡ encoded (dynvec schema.cell_output) (outputs_of reward)) }
    ensures contents { IfOk result (λ lists. lists.1.items ≡ encoded (dynvec bytes) (map (λ output. []) (outputs_of reward))) }
    ensures outputs_size { IfOk result (λ lists. length lists.0.items ≤ 85) }
    ensures contents_size { IfOk result (λ lists. length lists.1.items ≤ 12) }
{
    match reward {
        None => Ok((
            Vec::from_slice(alloc, &NO_PARTS)?,
            Vec::from_slice(alloc, &NO_PARTS)?,
        )),
        Some(reward) => Ok((
            dynvec_of(alloc, &output_table(alloc, lock, reward)?)?,
            dynvec_of(alloc, &NO_ITEMS)?,
        )),
    }
}

/// The cellbase at a height, which pays this reward, in shannons.
pub(crate) fn cellbase(
    alloc: Global,
    common: &Common,
    height: u64,
    reward: Option<u64>,
) -> Result<Tx, NoMemory>
    requires { AreCommonToCells common.now.lock.items common.now.genesis_hash }
    ensures { outputs_of reward ≡ heights.cellbase_outputs height
        → IfOk result (λ tx. IsTx (heights.cellbase height) tx.bytes.items tx.hash tx.witness_hash) }
{
    let inputs = fixvec_of(alloc, &input_row(alloc, height, &[0; 32], NULL_INDEX)?)?;
    let (outputs, data) = paid(alloc, &common.lock, reward)?;
    let raw = raw_table(alloc, 0, &NO_ITEMS, &NO_ITEMS, &inputs, &outputs, &data)?;
    let witness = cellbase_witness_table(alloc, &common.lock, &[])?;
    let witnesses = dynvec_of(alloc, &bytes_row(alloc, &witness)?)?;
    tx_of(alloc, &raw, &witnesses)
}
