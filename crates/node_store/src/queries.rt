// What queries ask of the kept blocks and of the live cells of the tip.
ghost use Rattle.std.specs.Prelude.{◌≡◌, ◌≢◌, ◌≤◌, ◌<◌, ◌+◌, length, None, Some, Ok, Err, IfOk, IfSome, IsSome, pos};
ghost use Rattle.std.specs.Option.{option_map, option_and_then};
ghost use Rattle.chain_defs.specs.Shape.{encoded};
ghost use Rattle.chain_defs.specs.Schema as schema;
ghost use Rattle.chain_defs.specs.Dao.{as_u64, counted_capacity};
ghost use Rattle.chain_defs.specs.Kept.{block_at};
ghost use Rattle.chain_defs.specs.Tip.{best_branch};
ghost use Rattle.rule_defs.specs.Capacity.{rate_of};
ghost use Rattle.outside.specs.declared.disk.Area.TheVariants.{Log};
ghost use Rattle.outside.specs.declared.disk.Damage.{Damage as a_damage};
ghost use Rattle.outside.specs.declared.disk.ReadStop.TheVariants.{DiskFault, Damaged};
ghost use Rattle.cell_state.specs.State.{rows};
ghost use Rattle.chain_tree.specs.Damages.{IsOfBlock};
ghost use Rattle.chain_tree.specs.Reading.{HasRead, stop_of};
ghost use Rattle.node_store.specs.Kept.{stored_of, AreRowsOfTip, AreRowsOfKept};
ghost use Rattle.node_store.specs.Queries.{IsHeaderAt, IsBlockAt, IsLiveCell, IsFetched};

use crate::kept::Kept;
use cell_state::{CellMeta, Cells, OutPoint, Resolved, State, fetch};
use chain_tree::Blocks;
use dao_math::{Dao, max_withdraw};
use mol_schema::BlockView;
use outside::{Area, Damage, ReadStop};
use std::alloc::Global;
use std::marker::Model;

/// The header of a kept block, and the hash of the block.
#[derive(Drop)]
pub struct HeaderAt {
    pub hash: [u8; 32],
    /// As the schema's `Header` encodes it.
    pub bytes: [u8; 208],
}

impl Model for HeaderAt {
    ghost use Rattle.node_store.specs.Queries.{HeaderValue};

    ghost Value = { HeaderValue };

    ghost view = { λ it. record { hash = it.hash; bytes = it.bytes } };
}

/// A live cell, as its row.
#[derive(Drop)]
pub struct Live {
    pub meta: CellMeta,
    /// The height of the block that made it.
    pub height: u64,
}

impl Model for Live {
    ghost use Rattle.node_store.specs.Queries.{LiveValue};

    ghost Value = { LiveValue };

    ghost view = { λ it. record { row = it.meta; height = it.height } };
}

/// A live cell with a copy of its bytes.
#[derive(Drop)]
pub struct Fetched {
    pub copy: Resolved,
    /// The height of the block that made it.
    pub height: u64,
}

impl Model for Fetched {
    ghost use Rattle.node_store.specs.Queries.{FetchedValue};

    ghost Value = { FetchedValue };

    ghost view = { λ it. record { copy = it.copy; height = it.height } };
}

/// What stands in LOG is not what the tree or the rows say.
fn damaged() -> ReadStop
    ensures { result ≡ Damaged (record { area = Log; at = 0 }) }
{
    ReadStop::Damaged(Damage {
        area: Area::Log,
        at: 0,
    })
}

/// The bytes of a block's header.
fn header_of(block: &BlockView<'_>) -> [u8; 208]
    ensures { result ≡ encoded schema.header block.now.header }
{
    let mut bytes = [0u8; 208];
    bytes.copy_from_slice(block.header().bytes());
    bytes
}

impl Kept {
    /// The place of the block at a height of the best branch.
    fn place_at(&self, height: u64) -> Option<u32>
        ensures within { IfSome result (λ place. place < length self.now.chain.blocks) }
        ensures block { option_and_then (block_at self.now.chain.blocks) result ≡ block_at (best_branch self.now.chain.blocks) height }
        ensures on_branch { IfSome result (λ _. height < length (best_branch self.now.chain.blocks)) }
    {
        let tip = self.tree.tip();
        if height > self.tree.entry(tip).number {
            return None;
        }
        Some(self.tree.ancestor(tip, height))
    }

    /// The accumulated rate of the DAO at a height of the best branch.
    fn rate_at(&self, height: u64) -> Option<u64>
        ensures rate { IfSome result (λ rate. rate ≡ rate_of (block_at (best_branch self.now.chain.blocks) height)) }
        ensures rated { IfSome result (λ rate. 0 < rate) }
        ensures on_branch { IfSome result (λ _. height < length (best_branch self.now.chain.blocks)) }
        ensures there { height < length (best_branch self.now.chain.blocks) → IsSome result }
    {
        match self.place_at(height) {
            None => None,
            Some(place) => Some(Dao::read(&self.tree.entry(place).dao).ar),
        }
    }

    /// The height of the tip.
    pub fn height(&self) -> u64
        ensures { result + 1 ≡ length (best_branch self.now.chain.blocks) }
    {
        self.tree.entry(self.tree.tip()).number
    }

    /// The header at a height of the best branch.
    pub fn header<B: Blocks>(
        &self,
        blocks: &mut B,
        height: u64,
    ) -> Result<Option<HeaderAt>, ReadStop>
        requires counts { B.count blocks.old ≡ length self.now.chain.blocks }
        ensures read { HasRead B.told B.count B.loans_of B.faults B.damages blocks.old blocks.new (stop_of result) }
        ensures header { B.told blocks.old ≡ Some (stored_of self.now) → IfOk result (IsHeaderAt self.now.chain.blocks height) }
        ensures none { block_at (best_branch self.now.chain.blocks) height ≡ None → (result ≡ Ok None) × (blocks.new ≡ blocks.old) }
        ensures undamaged { IsSome (B.told blocks.old) → (damage : a_damage) → result ≡ Err (Damaged damage) → ⊥ }
    {
        let Some(place) = self.place_at(height) else {
            return Ok(None);
        };
        match blocks.bring(place) {
            Ok(()) => {}
            Err(stop) => return Err(stop),
        }
        Ok(Some(HeaderAt {
            hash: self.tree.entry(place).hash,
            bytes: header_of(&blocks.block()),
        }))
    }

    /// The bytes of the block at a height of the best branch.
    pub fn block<B: Blocks>(
        &self,
        alloc: Global,
        blocks: &mut B,
        height: u64,
    ) -> Result<Option<Vec<u8>>, ReadStop>
        requires counts { B.count blocks.old ≡ length self.now.chain.blocks }
        ensures read { HasRead B.told B.count B.loans_of B.faults B.damages blocks.old blocks.new (stop_of result) }
        ensures block { B.told blocks.old ≡ Some (stored_of self.now)
            → IfOk result (λ found. IsBlockAt self.now.chain.blocks height (option_map (λ bytes. bytes.items) found)) }
        ensures none { block_at (best_branch self.now.chain.blocks) height ≡ None → (result ≡ Ok None) × (blocks.new ≡ blocks.old) }
        ensures undamaged { IsSome (B.told blocks.old) → (damage : a_damage) → result ≡ Err (Damaged damage) → ⊥ }
    {
        let Some(place) = self.place_at(height) else {
            return Ok(None);
        };
        match blocks.bring(place) {
            Ok(()) => {}
            Err(stop) => return Err(stop),
        }
        let Ok(bytes) = blocks.block().bytes().to_vec(alloc) else {
            return Err(ReadStop::NoMemory);
        };
        Ok(Some(bytes))
    }

    /// The live cell with an out-point, by the live cells of the tip.
    pub fn live(&self, state: &State, o: &OutPoint) -> Option<Live>
        requires below { AreRowsOfKept self.now.chain.blocks (rows state.now) }
        ensures live { AreRowsOfTip self.now.chain.blocks (rows state.now) → IsLiveCell self.now.chain.blocks o.now result }
        ensures row { option_map (λ live. live.row) result ≡ rows state.now o.now }
    {
        let Some(meta) = state.get(o) else {
            return None;
        };
        let height = self.tree.entry(meta.block).number;
        Some(Live { meta, height })
    }

    /// The live cell with an out-point, by the live cells of the tip, with a copy of its bytes.
    pub fn fetch<B: Blocks>(
        &self,
        alloc: Global,
        blocks: &mut B,
        state: &State,
        o: OutPoint,
    ) -> Result<Option<Fetched>, ReadStop>
        requires below { AreRowsOfKept self.now.chain.blocks (rows state.now) }
        requires counts { B.count blocks.old ≡ length self.now.chain.blocks }
        ensures read { HasRead B.told B.count B.loans_of B.faults B.damages blocks.old blocks.new (stop_of result) }
        ensures fetched { B.told blocks.old ≡ Some (stored_of self.now) → AreRowsOfTip self.now.chain.blocks (rows state.now)
            → IfOk result (IsFetched self.now.chain.blocks o) }
        ensures none { AreRowsOfTip self.now.chain.blocks (rows state.now) → IsLiveCell self.now.chain.blocks o None
            → (result ≡ Ok None) × (blocks.new ≡ blocks.old) }
        ensures undamaged { B.told blocks.old ≡ Some (stored_of self.now) → AreRowsOfTip self.now.chain.blocks (rows state.now)
            → (damage : a_damage) → result ≡ Err (Damaged damage) → ⊥ }
        ensures of_block { IsSome (B.told blocks.old) → (damage : a_damage) → result ≡ Err (Damaged damage) → IsOfBlock self.now.entries damage }
    {
        let Some(live) = self.live(state, &o) else {
            return Ok(None);
        };
        let Live { meta, height } = live;
        let at = self.tree.entry(meta.block).at;
        let copy = match fetch(alloc, blocks, o, meta, at) {
            Ok(copy) => copy,
            Err(stop) => return Err(stop),
        };
        Ok(Some(Fetched { copy, height }))
    }

    /// What a cell of this capacity and occupied capacity counts, in shannons, that was deposited at a height of the best
    /// branch and whose withdrawing cell was made at another; none above the greatest u64. Damaged where the branch has
    /// not these heights, or the cell does not hold what it occupies.
    pub fn counted(
        &self,
        capacity: u64,
        occupied: u64,
        made: u64,
        deposit: u64,
    ) -> Result<Option<u64>, ReadStop>
        ensures counted { IfOk result (λ amount. amount ≡ as_u64 (pos (counted_capacity capacity occupied
            (rate_of (block_at (best_branch self.now.chain.blocks) made)) (rate_of (block_at (best_branch self.now.chain.blocks) deposit))))) }
        ensures there { IfOk result (λ _. (occupied ≤ capacity) × (made < length (best_branch self.now.chain.blocks)) × (deposit < length (best_branch self.now.chain.blocks))) }
        ensures undamaged { occupied ≤ capacity → made < length (best_branch self.now.chain.blocks) → deposit < length (best_branch self.now.chain.blocks)
            → (damage : a_damage) → result ≡ Err (Damaged damage) → ⊥ }
        ensures damage { (damage : a_damage) → result ≡ Err (Damaged damage) → damage.area ≡ Log }
        ensures reads { result ≢ Err DiskFault }
        ensures memory { result ≢ Err ReadStop.NoMemory }
    {
        if occupied > capacity {
            return Err(damaged());
        }
        let Some(made_rate) = self.rate_at(made) else {
            return Err(damaged());
        };
        let Some(deposit_rate) = self.rate_at(deposit) else {
            return Err(damaged());
        };
        Ok(max_withdraw(capacity, occupied, made_rate, deposit_rate))
    }
}
