// Kept blocks in memory, as a source of blocks that tells them.
ghost use Rattle.std.specs.Prelude.{◌≡◌, ◌+◌, ◌<◌, ◌^◌, ◌++◌, [], ◌∷◌, Some, None, length, map, IfOk, IsOk, OnOk, OnErr};
ghost use Rattle.std.specs.List.{All};
ghost use Rattle.chain_defs.specs.Shape.{decoded};
ghost use Rattle.chain_defs.specs.Schema as schema;
ghost use Rattle.chain_tree.specs.Told.{blocks_of};
ghost use Rattle.chain_tree.specs.Reading.{nothing_found};
ghost use Rattle.cell_state.specs.ListBlocks.{current_place, contents, id_lists, ids_of, all_ids, IsCanonical, IsExtFor, AreKept};

use chain_tree::{Blocks, noted};
use mol_schema::BlockView;
use outside::{Damage, NoMemory, ReadStop};
use std::alloc::Global;
use std::marker::Model;
use view_hashes::{proposal_id, transaction_hash};

/// Kept blocks with their exts, in two lists of bytes, and beside each its proposal ids. Clauses see the list of the
/// blocks, which is the current one, and the damage that readers found. It tells them, and never fails.
#[derive(Drop)]
pub struct ListBlocks {
    blocks: Vec<Vec<u8>>,
    exts: Vec<Vec<u8>>,
    ids: Vec<Vec<[u8; 10]>>,
    hand: Option<u32>,
    /// How often a reader found damage, and which last.
    found: u64,
    last: Option<Damage>,
}

impl Model for ListBlocks {
    ghost use Rattle.std.specs.Prelude.{◌≡◌, ◌<◌, length, IfSome};
    ghost use Rattle.cell_state.specs.ListBlocks.{ListBlocksValue, contents, id_lists, all_ids, AreKept, stored_from};

    ghost Value = { ListBlocksValue };

    ghost view = { λ it. record {
      stored = stored_from (contents it.blocks.items) (contents it.exts.items);
      hand = it.hand;
      damages = record { count = it.found; last = it.last };
    } };

    ghost invariant = { λ it. AreKept (contents it.blocks.items) (contents it.exts.items)
        × IfSome it.hand (λ place. place < length it.blocks.items)
        × (id_lists it.ids.items ≡ all_ids it.blocks.items) };
}

/// The proposal ids of the transactions of a block after its first, in their order.
fn proposal_ids(alloc: Global, block: &BlockView<'_>) -> Result<Vec<[u8; 10]>, NoMemory>
    ensures { IfOk result (λ ids. ids.items ≡ ids_of block.now) }
{
    let count = block.transactions_count();
    let mut ids = Vec::with_capacity(alloc, count.saturating_sub(1))?;
    'later: for i in 1..count {
        ids.push(proposal_id(&transaction_hash(&block.transactions_item(i))))?;
    }
    Ok(ids)
}

/// A copy of proposal ids.
pub fn copied_ids(alloc: Global, ids: &[[u8; 10]]) -> Result<Vec<[u8; 10]>, NoMemory>
    ensures { IfOk result (λ copied. copied.items ≡ ids.now) }
{
    let mut copied = Vec::with_capacity(alloc, ids.len())?;
    'ids: for i in 0..ids.len() {
        copied.push(ids[i])?;
    }
    Ok(copied)
}

/// Those of each block.
fn proposal_ids_of_all(alloc: Global, blocks: &[Vec<u8>]) -> Result<Vec<Vec<[u8; 10]>>, NoMemory>
    requires { All IsCanonical (contents blocks.now) }
    ensures { IfOk result (λ ids. id_lists ids.items ≡ all_ids blocks.now) }
{
    let mut ids = Vec::with_capacity(alloc, blocks.len())?;
    'encodings: for block in blocks {
        ids.push(proposal_ids(alloc, &BlockView::from_encoding(block))?)?;
    }
    Ok(ids)
}

impl ListBlocks {
    /// Blocks with their exts. The first is the genesis, whose ext is never asked for.
    pub fn new(
        alloc: Global,
        blocks: Vec<Vec<u8>>,
        exts: Vec<Vec<u8>>,
    ) -> Result<ListBlocks, NoMemory>
        requires { AreKept (contents blocks.items) (contents exts.items) }
        ensures blocks { IfOk result (λ it. map (decoded schema.block) (contents blocks.items) ≡ map Some (blocks_of it.stored)) }
        ensures exts { IfOk result (λ it. map (λ entry. entry.ext) it.stored ≡ contents exts.items) }
        ensures hand { IfOk result (λ it. it.hand ≡ None) }
        ensures undamaged { IfOk result (λ it. it.damages ≡ nothing_found) }
    {
        let ids = proposal_ids_of_all(alloc, &blocks)?;
        Ok(ListBlocks {
            blocks,
            exts,
            ids,
            hand: None,
            found: 0,
            last: None,
        })
    }

    /// How many are kept.
    pub fn len(&self) -> u32
        ensures { result ≡ length self.now.stored }
    {
        self.blocks.len() as u32
    }

    /// Puts a block with its ext after the others. Out of memory, nothing has changed.
    pub fn push(&mut self, alloc: Global, block: Vec<u8>, ext: Vec<u8>) -> Result<(), NoMemory>
        requires few { length self.old.stored + 1 < 2 ^ 32 }
        requires canonical { IsCanonical block.items }
        requires later { 0 < length self.old.stored → IsExtFor block.items ext.items }
        ensures pushed { (b : schema.Block) → decoded schema.block block.items ≡ Some b
            → OnOk result (self.new ≡ record self.old { stored = self.old.stored ++ record { block = b; ext = ext.items } ∷ [] }) }
        ensures err { OnErr result (self.new ≡ self.old) }
    {
        let ids = proposal_ids(alloc, &BlockView::from_encoding(&block))?;
        self.ids.reserve(1)?;
        self.blocks.reserve(1)?;
        self.exts.push(ext)?;
        self.blocks.push_reserved(block);
        self.ids.push_reserved(ids);
        Ok(())
    }
}

impl Blocks for ListBlocks {
    ghost use Rattle.std.proofs.Common.{refl, lit≤};
    ghost use Rattle.cell_state.specs.ListBlocks.{current_place, hand_is_within};

    ghost told = { λ it. Some it.stored };

    ghost count = { λ it. length it.stored };

    ghost in_hand = { current_place };

    ghost faults = { λ _. 0 };

    ghost damages = { λ it. it.damages };

    ghost Loans = { Unit {0} };

    ghost loans_of = { λ _. tt };

    ghost told_all = { λ _. refl };

    ghost hand_within = { hand_is_within };

    ghost last_fault = { λ _. lit≤ tt };

    fn bring(&mut self, e: u32) -> Result<(), ReadStop>
        requires within { e < length self.old.stored }
        ensures taken { self.new ≡ record self.old { hand = Some e } }
        ensures always { IsOk result }
    {
        self.hand = Some(e);
        Ok(())
    }

    fn block(&self) -> BlockView<'_> {
        match self.hand {
            Some(e) => BlockView::from_encoding(&self.blocks[e as usize]),
            None => unreachable!(),
        }
    }

    fn spent(&self) -> &[u8] {
        match self.hand {
            Some(e) => &self.exts[e as usize],
            None => unreachable!(),
        }
    }

    fn ids(&mut self) -> Result<Vec<[u8; 10]>, NoMemory> {
        match self.hand {
            Some(e) => {
                let ids = &self.ids[e as usize];
                copied_ids(*ids.allocator(), ids)
            }
            None => unreachable!(),
        }
    }

    fn report(&mut self, stop: ReadStop) {
        let (found, last) = noted(self.found, self.last, stop);
        self.found = found;
        self.last = last;
    }
}
