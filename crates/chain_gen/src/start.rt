// What a chain begins with: its specification, the lock of its cells, its genesis.
ghost use Rattle.std.specs.Prelude.{◌≡◌, length, IfOk};
ghost use Rattle.chain_defs.specs.Shape.{encoded};
ghost use Rattle.chain_defs.specs.Schema as schema;
ghost use Rattle.gen_defs.specs.Start as start;
ghost use Rattle.chain_gen.specs.Known.{IsTx};

use crate::growth::{HeaderFields, header};
use crate::transactions::{Tx, tx_of};
use blake2b_ckb::ckbhash;
use cbmt::root;
use dao_math::Dao;
use epochs::Spec;
use mol_rows::{
    bytes_row, dynvec_of_two, fixvec_of, input_row, output_table, raw_table, script_table,
};
use outside::NoMemory;
use rv_text::elf_file;
use std::alloc::Global;

/// li a7, 93; li a0, 0; ecall: the code exits with 0.
const CODE: [u8; 12] = [0x93, 0x08, 0xd0, 0x05, 0x13, 0x05, 0, 0, 0x73, 0, 0, 0];

const PROGRAM_CAPACITY: u64 = 17_300_000_000;

pub(crate) const COIN_CAPACITY: u64 = 1_000_000_000_000_000;

/// A fixvec of no item.
pub(crate) const NO_ITEMS: [u8; 4] = [0, 0, 0, 0];

/// A dynvec of no item.
pub(crate) const NO_PARTS: [u8; 4] = [4, 0, 0, 0];

pub(crate) const NULL_INDEX: u32 = 0xffff_ffff;

#[tactic(auto, unfolding(gen_defs::specs::Start::specification))]
pub(crate) fn specification() -> Spec
    ensures { result ≡ start.specification }
{
    Spec {
        compact_target: 0x20000000,
        epoch_length: 10,
        w_close: 2,
        w_far: 10,
        max_block_bytes: 597_000,
        max_proposals: 1_500,
        max_cycles: 1_000_000_000,
        maturity: 0,
        primary_reward: 1_000_000_000_000,
        secondary_reward: 100_000_000_000,
        halving_interval: 1_000,
        dao_code_hash: [0xda; 32],
        second_from: None,
    }
}

/// The 100 bytes of a specification.
#[tactic(auto, unfolding(gen_defs::specs::Start::specification_bytes))]
pub(crate) fn specification_bytes(alloc: Global, spec: &Spec) -> Result<Vec<u8>, NoMemory>
    ensures { IfOk result (λ bytes. bytes.items ≡ start.specification_bytes spec.now) }
{
    let mut bytes = Vec::with_capacity(alloc, 100)?;
    bytes.extend_from_slice(&100u32.to_le_bytes())?;
    bytes.extend_from_slice(&spec.compact_target.to_le_bytes())?;
    bytes.extend_from_slice(&spec.epoch_length.to_le_bytes())?;
    bytes.extend_from_slice(&spec.w_close.to_le_bytes())?;
    bytes.extend_from_slice(&spec.w_far.to_le_bytes())?;
    bytes.extend_from_slice(&spec.max_block_bytes.to_le_bytes())?;
    bytes.extend_from_slice(&spec.max_proposals.to_le_bytes())?;
    bytes.extend_from_slice(&spec.max_cycles.to_le_bytes())?;
    bytes.extend_from_slice(&spec.maturity.to_le_bytes())?;
    bytes.extend_from_slice(&spec.primary_reward.to_le_bytes())?;
    bytes.extend_from_slice(&spec.secondary_reward.to_le_bytes())?;
    bytes.extend_from_slice(&spec.halving_interval.to_le_bytes())?;
    bytes.extend_from_slice(&spec.dao_code_hash)?;
    Ok(bytes)
}

/// The program of the lock, as an ELF file.
fn program(alloc: Global) -> Result<Vec<u8>, NoMemory>
    ensures file { IfOk result (λ file. file.items ≡ start.program) }
    ensures size { IfOk result (λ file. length file.items ≡ 132) }
{
    Ok(elf_file(alloc, &CODE)?)
}

/// The lock of all cells.
pub(crate) fn lock(alloc: Global) -> Result<Vec<u8>, NoMemory>
    ensures lock { IfOk result (λ bytes. bytes.items ≡ encoded schema.script start.lock) }
    ensures size { IfOk result (λ bytes. length bytes.items ≡ 53) }
{
    let file = program(alloc)?;
    script_table(alloc, &ckbhash(&file), 0, &[])
}

/// The transaction of the genesis.
pub(crate) fn genesis_transaction(alloc: Global, lock: &[u8]) -> Result<Tx, NoMemory>
    requires lock { lock.now ≡ encoded schema.script start.lock }
    requires size { length lock.now ≡ 53 }
    ensures { IfOk result (λ tx. IsTx start.genesis_transaction tx.bytes.items tx.hash tx.witness_hash) }
{
    let inputs = fixvec_of(alloc, &input_row(alloc, 0, &[0; 32], NULL_INDEX)?)?;
    let outputs = dynvec_of_two(
        alloc,
        &output_table(alloc, lock, PROGRAM_CAPACITY)?,
        &output_table(alloc, lock, COIN_CAPACITY)?,
    )?;
    let file = program(alloc)?;
    let data = dynvec_of_two(alloc, &bytes_row(alloc, &file)?, &NO_ITEMS)?;
    let raw = raw_table(alloc, 0, &NO_ITEMS, &NO_ITEMS, &inputs, &outputs, &data)?;
    tx_of(alloc, &raw, &NO_PARTS)
}

/// The DAO field of the genesis.
#[tactic(auto, unfolding(gen_defs::specs::Start::genesis_field))]
pub(crate) fn genesis_field() -> Dao
    ensures { result ≡ start.genesis_field }
{
    Dao {
        c: 1_000_017_300_000_000,
        ar: 10_000_000_000_000_000,
        s: 0,
        u: 21_400_000_000,
    }
}

/// The header of the genesis, by its transaction.
pub(crate) fn genesis_header(alloc: Global, transaction: &Tx) -> Result<[u8; 208], NoMemory>
    requires { IsTx start.genesis_transaction transaction.now.bytes.items transaction.now.hash transaction.now.witness_hash }
    ensures { IfOk result (λ bytes. bytes ≡ encoded schema.header start.genesis.header) }
{
    header(
        alloc,
        &HeaderFields {
            timestamp: 1000,
            number: 0,
            epoch: 0,
            parent_hash: [0; 32],
            transactions_root: root(
                alloc,
                &[
                    root(alloc, &[transaction.hash])?,
                    root(alloc, &[transaction.witness_hash])?,
                ],
            )?,
            proposals_hash: [0; 32],
            dao: genesis_field().write(),
            nonce: 0,
        },
    )
}
