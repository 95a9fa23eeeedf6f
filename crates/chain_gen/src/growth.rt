// The blocks of a chain, and which is the parent of which.
ghost use Rattle.std.specs.Prelude.{◌≡◌, ◌<◌, ◌≤◌, ◌+◌, ◌-◌, ◌*◌, ◌&&◌, ◌++◌, [], ◌∷◌, OnOk, if◌then◌else◌, ℕ, not, length, map, IfOk};
ghost use Rattle.chain_defs.specs.Shape.{encoded};
ghost use Rattle.chain_defs.specs.Schema as schema;
ghost use Rattle.gen_defs.specs.Start as start;
ghost use Rattle.gen_defs.specs.Chain as chain;
ghost use Rattle.mol_rows.specs.Rows.{BlockHasParts};
ghost use Rattle.chain_gen.specs.Headers.{header_of};
ghost use Rattle.chain_gen.specs.Known.{IsTx, AreCommonToCells};
ghost use Rattle.chain_gen.specs.Content.{IsContent};
ghost use Rattle.chain_gen.specs.Walk as walks;

use crate::heights::{After, Content, content_at};
use crate::start::{
    COIN_CAPACITY, NO_ITEMS, NO_PARTS, genesis_field, genesis_header, genesis_transaction, lock,
    specification, specification_bytes,
};
use crate::transactions::{Coin, Common, Tx};
use blake2b_ckb::ckbhash;
use dao_math::Dao;
use epochs::{epoch_of, field};
use mol_rows::{block_table, dynvec_of};
use outside::NoMemory;
use std::alloc::Global;

/// A generated chain: the bytes of its specification, its genesis and the blocks after it, as they are made.
#[derive(Drop)]
pub struct Made {
    pub spec: Vec<u8>,
    pub genesis: Vec<u8>,
    pub blocks: Vec<Vec<u8>>,
}

/// What a header has of its own, where it has version 0, the chain's target and no uncles.
#[derive(Clone, Copy, Debug, PartialEq, Eq)]
pub(crate) struct HeaderFields {
    pub(crate) timestamp: u64,
    pub(crate) number: u64,
    pub(crate) epoch: u64,
    pub(crate) parent_hash: [u8; 32],
    pub(crate) transactions_root: [u8; 32],
    pub(crate) proposals_hash: [u8; 32],
    pub(crate) dao: [u8; 32],
    pub(crate) nonce: u64,
}

/// The header of these fields.
pub(crate) fn header(alloc: Global, fields: &HeaderFields) -> Result<[u8; 208], NoMemory>
    ensures { IfOk result (λ bytes. bytes ≡ encoded schema.header (header_of fields.now)) }
{
    let row = header_row(alloc, fields)?;
    let mut bytes = [0; 208];
    bytes.copy_from_slice(&row);
    Ok(bytes)
}

/// Its bytes, one field after another.
fn header_row(alloc: Global, fields: &HeaderFields) -> Result<Vec<u8>, NoMemory>
    ensures bytes { IfOk result (λ row. row.items ≡ encoded schema.header (header_of fields.now)) }
    ensures size { IfOk result (λ row. length row.items ≡ 208) }
{
    let mut row = Vec::with_capacity(alloc, 208)?;
    row.extend_from_slice(&0u32.to_le_bytes())?;
    row.extend_from_slice(&specification().compact_target.to_le_bytes())?;
    row.extend_from_slice(&fields.timestamp.to_le_bytes())?;
    row.extend_from_slice(&fields.number.to_le_bytes())?;
    row.extend_from_slice(&fields.epoch.to_le_bytes())?;
    row.extend_from_slice(&fields.parent_hash)?;
    row.extend_from_slice(&fields.transactions_root)?;
    row.extend_from_slice(&fields.proposals_hash)?;
    row.extend_from_slice(&[0; 32])?;
    row.extend_from_slice(&fields.dao)?;
    row.extend_from_slice(&u128::from(fields.nonce).to_le_bytes())?;
    Ok(row)
}

/// What a block is known by to its children.
#[derive(Clone, Copy, Debug, PartialEq, Eq)]
struct Head {
    hash: [u8; 32],
    number: u64,
    timestamp: u64,
}

/// Where a chain stands: its tip, the tip's parent, the last block, and whether that one is a sibling.
#[derive(Clone, Copy, Debug, PartialEq, Eq)]
struct Standing {
    tip: Head,
    before_tip: Head,
    last: Head,
    is_sibling: bool,
}

/// Whether block `i` may be made beside the tip.
fn forks(seed: u64, i: u32) -> bool
    ensures { result ≡ chain.forks seed i }
{
    i >= 2 && (seed % 7 + 3 * u64::from(i)) % 7 == 0
}

/// Whether block `i` is a sibling.
fn is_sibling(standing: &Standing, seed: u64, i: u32) -> bool
    ensures { result ≡ (not standing.now.is_sibling && chain.forks seed i) }
{
    !standing.is_sibling && forks(seed, i)
}

/// The parent of block `i`.
fn parent_of(standing: &Standing, seed: u64, i: u32) -> Head
    ensures { (at : chain.Standing) → walks.StandsAt standing.now at → walks.IsHead result (chain.parent_of seed i at) }
{
    if standing.is_sibling {
        standing.last
    } else if forks(seed, i) {
        standing.before_tip
    } else {
        standing.tip
    }
}

/// Where the chain stands with block `i` after its parent.
fn grown(standing: &Standing, parent: &Head, made: &Head, sibling: bool) -> Standing
    ensures { (seed i : ℕ) (at : chain.Standing) → walks.StandsAt standing.now at → sibling ≡ chain.is_beside seed i at
        → walks.IsHead parent.now (chain.parent_of seed i at) → walks.IsHead made.now (chain.child (chain.parent_of seed i at) i)
        → walks.StandsAt result (chain.grown seed i at) }
{
    if sibling {
        Standing {
            last: *made,
            is_sibling: true,
            ..*standing
        }
    } else {
        Standing {
            tip: *made,
            before_tip: *parent,
            last: *made,
            is_sibling: false,
        }
    }
}

/// The header of a child of this block, with this content.
fn child_header(parent: &Head, content: &Content, nonce: u32) -> HeaderFields
    requires number { parent.now.number < 20000 }
    requires timestamp { parent.now.timestamp ≤ 1000 + 1000 * parent.now.number }
    ensures { (b : schema.Block) → walks.IsHead parent.now b
        → IsContent (b.header.number + 1) content.now.transactions.items content.now.transactions_root content.now.proposals.items
        content.now.proposals_hash content.now.after
        → header_of result ≡ (chain.child b nonce).header }
{
    let number = parent.number + 1;
    HeaderFields {
        timestamp: parent.timestamp + 1000,
        number,
        epoch: field(epoch_of(specification().epoch_length, number)),
        parent_hash: parent.hash,
        transactions_root: content.transactions_root,
        proposals_hash: content.proposals_hash,
        dao: content.after.field.write(),
        nonce: u64::from(nonce),
    }
}

/// What a block is known by, by its header.
fn head_of(fields: &HeaderFields, header: &[u8; 208]) -> Head
    requires { header.now ≡ encoded schema.header (header_of fields.now) }
    ensures { (b : schema.Block) → b.header ≡ header_of fields.now → walks.IsHead result b }
{
    Head {
        hash: ckbhash(header),
        number: fields.number,
        timestamp: fields.timestamp,
    }
}

/// Adds what a branch comes to with a block, where that is no sibling: a sibling's height is there.
fn keep(after: &mut Vec<After>, with_block: After, sibling: bool) -> Result<(), NoMemory>
    ensures { OnOk result (after.new.items ≡ (if sibling then after.old.items else after.old.items ++ with_block ∷ [])) }
{
    if !sibling {
        after.push(with_block)?;
    }
    Ok(())
}

/// A chain as it is made: where it stands, and what its best branch comes to at each height.
#[derive(Drop)]
struct Walk {
    standing: Standing,
    after: Vec<After>,
}

/// The encoding of a block after its genesis.
fn block_of(alloc: Global, header: &[u8; 208], content: &Content) -> Result<Vec<u8>, NoMemory>
    requires transactions { length content.now.transactions.items ≤ 2100 }
    requires proposals { length content.now.proposals.items ≤ 100 }
    ensures { (b : schema.Block) → BlockHasParts b header.now (4 ∷ 0 ∷ 0 ∷ 0 ∷ []) content.now.transactions.items content.now.proposals.items
        → IfOk result (λ bytes. bytes.items ≡ encoded schema.block b) }
{
    block_table(
        alloc,
        header,
        &NO_PARTS,
        &content.transactions,
        &content.proposals,
    )
}

/// Makes block `i`.
fn grow(
    alloc: Global,
    common: &Common,
    walk: &mut Walk,
    seed: u64,
    i: u32,
) -> Result<Vec<u8>, NoMemory>
    requires common { AreCommonToCells common.now.lock.items common.now.genesis_hash }
    requires above { 1 ≤ i }
    requires bounded { i ≤ 20000 }
    requires at { walks.IsAt walk.old.standing walk.old.after.items seed (i - 1) }
    ensures at { OnOk result (walks.IsAt walk.new.standing walk.new.after.items seed i) }
    ensures block { IfOk result (λ bytes. bytes.items ≡ encoded schema.block (chain.block_made seed i)) }
{
    let parent = parent_of(&walk.standing, seed, i);
    let content = content_at(alloc, common, &walk.after, parent.number + 1)?;
    let fields = child_header(&parent, &content, i);
    let header = header(alloc, &fields)?;
    let bytes = block_of(alloc, &header, &content)?;
    let sibling = is_sibling(&walk.standing, seed, i);
    keep(&mut walk.after, content.after, sibling)?;
    walk.standing = grown(&walk.standing, &parent, &head_of(&fields, &header), sibling);
    Ok(bytes)
}

/// The genesis, by its transaction and its header.
fn genesis(alloc: Global, transaction: &Tx, header: &[u8; 208]) -> Result<Vec<u8>, NoMemory>
    requires transaction { IsTx start.genesis_transaction transaction.now.bytes.items transaction.now.hash transaction.now.witness_hash }
    requires header { header.now ≡ encoded schema.header start.genesis.header }
    ensures { IfOk result (λ bytes. bytes.items ≡ encoded schema.block start.genesis) }
{
    let transactions = dynvec_of(alloc, &transaction.bytes)?;
    block_table(alloc, header, &NO_PARTS, &transactions, &NO_ITEMS)
}

/// A chain of its genesis alone.
fn walk_from(alloc: Global, genesis_hash: &[u8; 32], header: &[u8; 208]) -> Result<Walk, NoMemory>
    requires hash { genesis_hash.now ≡ start.genesis_hash }
    requires header { header.now ≡ encoded schema.header start.genesis.header }
    ensures { (seed : ℕ) → IfOk result (λ walk. walks.IsAt walk.standing walk.after.items seed 0) }
{
    let head = Head {
        hash: ckbhash(header),
        number: 0,
        timestamp: 1000,
    };
    let mut after = Vec::with_capacity(alloc, 1)?;
    after.push(After {
        coin: Coin {
            hash: *genesis_hash,
            index: 1,
            capacity: COIN_CAPACITY,
        },
        field: genesis_field(),
    })?;
    Ok(Walk {
        standing: Standing {
            tip: head,
            before_tip: head,
            last: head,
            is_sibling: false,
        },
        after,
    })
}

/// The blocks of a seed after the genesis, `n` of them.
fn blocks_after(
    alloc: Global,
    common: &Common,
    mut walk: Walk,
    seed: u64,
    n: u32,
) -> Result<Vec<Vec<u8>>, NoMemory>
    requires common { AreCommonToCells common.now.lock.items common.now.genesis_hash }
    requires count { n ≤ 20000 }
    requires at { walks.IsAt walk.standing walk.after.items seed 0 }
    ensures { IfOk result (λ blocks. map (λ bytes. bytes.items) blocks.items ≡ map (encoded schema.block) (chain.blocks_made seed n)) }
{
    let mut blocks = Vec::with_capacity(alloc, n as usize)?;
    'growing: for i in 0..n {
        blocks.push(grow(alloc, common, &mut walk, seed, i + 1)?)?;
    }
    Ok(blocks)
}

/// The chain of a seed: its specification, its genesis, and the `n` blocks that are made after it, at most 20,000, in their order
/// (docs/FORMATS.md, "The generated chain"). `Err` is want of memory alone.
pub fn make(alloc: Global, seed: u64, n: u32) -> Result<Made, NoMemory>
    requires { n ≤ 20000 }
    ensures spec { IfOk result (λ made. made.spec.items ≡ start.specification_bytes start.specification) }
    ensures genesis { IfOk result (λ made. made.genesis.items ≡ encoded schema.block start.genesis) }
    ensures blocks { IfOk result (λ made. map (λ bytes. bytes.items) made.blocks.items ≡ map (encoded schema.block) (chain.blocks_made seed n)) }
{
    let lock = lock(alloc)?;
    let transaction = genesis_transaction(alloc, &lock)?;
    let header = genesis_header(alloc, &transaction)?;
    let walk = walk_from(alloc, &transaction.hash, &header)?;
    let common = Common {
        lock,
        genesis_hash: transaction.hash,
    };
    Ok(Made {
        spec: specification_bytes(alloc, &specification())?,
        genesis: genesis(alloc, &transaction, &header)?,
        blocks: blocks_after(alloc, &common, walk, seed, n)?,
    })
}
