// The body of an entry, checked.
ghost use Rattle.std.specs.Prelude.{◌≡◌, ◌≤◌, ◌-◌, Some, take, drop, map, length, IfOk, IfSome};
ghost use Rattle.std.specs.Option.{option_map};
ghost use Rattle.chain_defs.specs.Shape.{decoded};
ghost use Rattle.chain_defs.specs.Schema as schema;
ghost use Rattle.chain_defs.specs.Schema.{Block};
ghost use Rattle.chain_defs.specs.Hashes.{transaction_hash};
ghost use Rattle.cell_state.specs.ListBlocks.{ids_of, IsCanonical};
ghost use Rattle.node_store.specs.Stored.{parts_in, stored_in};

use cell_state::copied_ids;
use log_file::{ext_form, parts};
use mol_schema::BlockView;
use outside::NoMemory;
use std::alloc::Global;
use std::marker::Model;
use view_hashes::{proposal_id, transaction_hash};

/// The body of an entry whose block is canonical, and the proposal ids of its block once they were asked for. Clauses see
/// the block and its ext; that of the genesis is empty.
#[derive(Drop)]
pub struct KeptBody {
    bytes: Vec<u8>,
    /// The block is from here up to `end`, and the ext from there on.
    start: usize,
    end: usize,
    ids: Option<Vec<[u8; 10]>>,
}

impl Model for KeptBody {
    ghost use Rattle.std.specs.Prelude.{◌≡◌, ◌-◌, ◌≤◌, length, take, drop, IfSome};
    ghost use Rattle.chain_defs.specs.Schema as schema;
    ghost use Rattle.chain_tree.specs.Told.{Stored};
    ghost use Rattle.cell_state.specs.ListBlocks.{ids_of, IsCanonical};

    ghost Value = { Stored };

    ghost view = { λ body. record { block = schema.block.decoding (take (body.end - body.start) (drop body.start body.bytes.items)); ext = drop body.end body.bytes.items } };

    ghost invariant = { λ body. (body.start ≤ body.end) × (body.end ≤ length body.bytes.items)
        × IsCanonical (take (body.end - body.start) (drop body.start body.bytes.items))
        × IfSome body.ids (λ ids. ids.items ≡ ids_of (schema.block.decoding (take (body.end - body.start) (drop body.start body.bytes.items)))) };
}

/// The proposal ids of the transactions of a block after its first, in their order.
fn proposal_ids(alloc: Global, block: &BlockView<'_>) -> Result<Vec<[u8; 10]>, NoMemory>
    ensures { IfOk result (λ ids. ids.items ≡ ids_of block.now) }
{
    let count = block.transactions_count();
    let mut ids = Vec::with_capacity(alloc, count.saturating_sub(1))?;
    'later: for i in 1..count {
        ids.push(proposal_id(&transaction_hash(&block.transactions_item(i))))?;
    }
    Ok(ids)
}

/// The same, by the hashes of all transactions of the block.
fn ids_by(alloc: Global, hashes: &[[u8; 32]]) -> Result<Vec<[u8; 10]>, NoMemory>
    ensures { IfOk result (λ ids. ids.items ≡ map (take 10) (drop 1 hashes.now)) }
{
    let count = hashes.len();
    let mut ids = Vec::with_capacity(alloc, count.saturating_sub(1))?;
    'later: for i in 1..count {
        ids.push(proposal_id(&hashes[i]))?;
    }
    Ok(ids)
}

/// Where the block of a body begins and ends. The ext, if the entry has one, stands after it, to the end.
fn block_range(place: u32, body: &[u8]) -> Option<(usize, usize)>
    ensures parts { option_map (λ at. (take (at.1 - at.0) (drop at.0 body.now), drop at.1 body.now)) result ≡ parts_in place body.now }
    ensures ordered { IfSome result (λ at. at.0 ≤ at.1) }
    ensures within { IfSome result (λ at. at.1 ≤ length body.now) }
{
    if place == 0 {
        return Some((0, body.len()));
    }
    let (item, ext) = parts(body)?;
    if !ext_form(ext) {
        return None;
    }
    Some((4, 4 + item.len()))
}

impl KeptBody {
    /// The body of a block after the genesis with its ext, where the hashes of its transactions are known.
    pub fn of(
        alloc: Global,
        block: &[u8],
        ext: &[u8],
        hashes: &[[u8; 32]],
    ) -> Result<KeptBody, NoMemory>
        requires canonical { IsCanonical block.now }
        requires hashes { (b : Block) → decoded schema.block block.now ≡ Some b → hashes.now ≡ map transaction_hash b.transactions }
        ensures { (b : Block) → decoded schema.block block.now ≡ Some b → IfOk result (λ body. body ≡ record { block = b; ext = ext.now }) }
    {
        let ids = ids_by(alloc, hashes)?;
        let mut bytes = block.to_vec(alloc)?;
        bytes.extend_from_slice(ext)?;
        Ok(KeptBody {
            bytes,
            start: 0,
            end: block.len(),
            ids: Some(ids),
        })
    }

    /// The body of the entry at a place, of its bytes. None where they are no body.
    pub fn read(place: u32, bytes: Vec<u8>) -> Option<KeptBody>
        ensures { result ≡ stored_in place bytes.items }
    {
        let Some((start, end)) = block_range(place, &bytes) else {
            return None;
        };
        match BlockView::read(&bytes[start..end]) {
            Some(_) => Some(KeptBody {
                bytes,
                start,
                end,
                ids: None,
            }),
            None => None,
        }
    }

    /// The block.
    pub(crate) fn block(&self) -> BlockView<'_>
        ensures { result ≡ self.now.block }
    {
        BlockView::from_encoding(&self.bytes[self.start..self.end])
    }

    /// The ext.
    pub(crate) fn ext(&self) -> &[u8]
        ensures { result.now ≡ self.now.ext }
    {
        &self.bytes[self.end..]
    }

    /// The proposal ids of the block's transactions after the first. Each of these is hashed for them at the first call.
    pub(crate) fn ids(&mut self, alloc: Global) -> Result<Vec<[u8; 10]>, NoMemory>
        ensures ids { IfOk result (λ ids. ids.items ≡ ids_of self.old.block) }
        ensures same { self.new ≡ self.old }
    {
        if let Some(ids) = &self.ids {
            return copied_ids(alloc, ids);
        }
        let ids = proposal_ids(alloc, &self.block())?;
        let answer = copied_ids(alloc, &ids)?;
        self.ids = Some(ids);
        Ok(answer)
    }
}
