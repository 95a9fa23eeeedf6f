// What is kept, and how the live cells of the tip grow.
ghost use Rattle.std.specs.Prelude.{◌≡◌, ◌≢◌, ◌≤◌, ◌<◌, ◌+◌, ◌++◌, ◌∷◌, ◌^◌, [], ℕ, List, length, map, Some, None, Err, IfOk, OnOk};
ghost use Rattle.chain_defs.specs.Shape.{decoded};
ghost use Rattle.chain_defs.specs.Schema as schema;
ghost use Rattle.chain_defs.specs.Schema.{Block};
ghost use Rattle.chain_defs.specs.Kept.{place_of};
ghost use Rattle.chain_defs.specs.Hashes.{transaction_hash};
ghost use Rattle.chain_tree.specs.Entries.{place_of_hash, FollowsParent};
ghost use Rattle.uncle_rules.specs.Embedded.{embedded_in};
ghost use Rattle.chain_defs.specs.Tip as tips;
ghost use Rattle.chain_defs.specs.Events.{events_of_block, live_cell};
ghost use Rattle.chain_defs.specs.Branch.{branch};
ghost use Rattle.chain_defs.specs.Fit.{are_live, AllFit};
ghost use Rattle.cell_state.specs.State.{rows, Grows};
ghost use Rattle.cell_state.specs.Moves.{AreRowsBelow};
ghost use Rattle.cell_state.specs.ListBlocks.{IsExtFor};
ghost use Rattle.chain_tree.specs.Blocks.{Describes, IndexesBlocks, AreRated};
ghost use Rattle.outside.specs.declared.disk.Area.TheVariants.{Log};
ghost use Rattle.outside.specs.declared.disk.Damage.{Damage as a_damage};
ghost use Rattle.outside.specs.declared.disk.ReadStop.TheVariants.{DiskFault, Damaged};
ghost use Rattle.verdict_defs.specs.Laws.{MayJoin};
ghost use Rattle.chain_defs.specs.FitLaws.{AreCanonical};
ghost use Rattle.store_defs.specs.Store.{IsJoined};
ghost use Rattle.node_store.specs.Kept.{kept_with, AreRowsOfFound, AreRowsOfTip, AreRowsOfKept};
ghost use Rattle.node_store.specs.Migration.{kept_edited};
ghost use Rattle.node_store.specs.Steps.{moves_to_join};
ghost use Rattle.node_store.specs.Judging.{IsReady, is_above, place_for};
ghost use Rattle.node_store.specs.declared.decision.Decision.TheVariants.{Joins};

use crate::decision::Joining;
use crate::recorded::Recorded;
use cell_state::{State, outputs_in};
use chain_tree::{Entry, Tree};
use epochs::Spec;
use log_file::Rec;
use mol_schema::BlockView;
use outside::{Area, Damage, NoMemory, ReadStop, Steps};
use std::alloc::Global;
use std::marker::Model;
use std::sync::ledger::Ledger;
use uncle_rules::Uncles;

/// All that is looked up of the kept blocks; their bytes lie on the disk. Clauses see the chain, the exts and the entries.
// At an exit it is dropped by a call, which is one step of the proof; else each of its fields, and theirs, is one.
#[derive(Drop)]
pub struct Kept {
    /// The specification of the chain.
    pub spec: Spec,
    /// The blocks with their exts, for clauses alone.
    pub blocks: Recorded,
    /// Their entries.
    pub tree: Tree,
    /// The uncles that they embed.
    pub uncles: Uncles,
}

impl Model for Kept {
    ghost use Rattle.node_store.specs.Kept.{KeptValue, kept_of, AreKept};

    ghost Value = { KeptValue };

    ghost view = { λ kept. kept_of kept.spec kept.blocks.stored kept.tree.entries };

    ghost invariant = { λ kept. AreKept kept.blocks.stored kept.tree.entries kept.uncles };
}

/// Whether an entry's number is above that of the tip, so that its block becomes the tip where it joins.
pub fn is_above_tip(tree: &Tree, entry: &Entry) -> bool
    ensures { (kept : List Block) → IndexesBlocks kept tree.now.entries → result ≡ is_above (tips.tip kept) entry.now }
{
    tree.entry(tree.tip()).number < entry.number
}

/// The cells with those of a block at a place after its parent's branch. The hashes are those of its transactions. Damaged
/// where its events do not fit.
fn grown<L: Ledger>(
    cells: State,
    block: &BlockView<'_>,
    hashes: &[[u8; 32]],
    place: u32,
    steps: &mut Steps<L>,
) -> Result<State, ReadStop>
    requires { hashes.now ≡ map transaction_hash block.now.transactions }
    ensures of_branch { IfOk result (λ state. Grows block.now place cells state) }
    ensures below { (end : ℕ) → place < end → AreRowsBelow end (rows cells) → IfOk result (λ state. AreRowsBelow end (rows state)) }
    ensures undamaged { (height : ℕ) → 0 < height → AllFit (events_of_block height block.now) (are_live (rows cells))
        → (damage : a_damage) → result ≡ Err (Damaged damage) → ⊥ }
    ensures damage { (damage : a_damage) → result ≡ Err (Damaged damage) → damage.area ≡ Log }
    ensures reads { result ≢ Err DiskFault }
    ensures exactly { OnOk result (steps.new ≡ steps.old + 1) }
    ensures most { steps.new ≤ steps.old + 1 }
{
    let mut state = cells;
    match state.reserve(outputs_in(block)) {
        Ok(()) => {}
        Err(_) => {
            drop(state);
            return Err(ReadStop::NoMemory);
        }
    }
    match state.apply(block, hashes, place, steps) {
        Ok(()) => Ok(state),
        Err(_) => {
            drop(state);
            Err(ReadStop::Damaged(Damage {
                area: Area::Log,
                at: 0,
            }))
        }
    }
}

impl Kept {
    /// The live cells of the tip once a block at the end is kept. They stand on its parent's branch where it becomes the
    /// tip, and take its events; else they are the tip's and stay.
    fn state_with<L: Ledger>(
        state: State,
        tree: &Tree,
        block: &BlockView<'_>,
        joining: Joining,
        steps: &mut Steps<L>,
    ) -> Result<State, ReadStop>
        requires few { length tree.now.entries < 2 ^ 32 }
        requires hashes { joining.hashes.items ≡ map transaction_hash block.now.transactions }
        ensures live { (kept : List Block) → IndexesBlocks kept tree.now.entries → IsReady kept block.now joining
            → AreRowsOfFound kept (place_for kept (Joins joining)) (rows state) → IfOk result (λ next. AreRowsOfTip (kept ++ block.now ∷ []) (rows next)) }
        ensures below { (end : ℕ) → length tree.now.entries < end → AreRowsBelow end (rows state) → IfOk result (λ next. AreRowsBelow end (rows next)) }
        ensures undamaged { (kept : List Block) (height : ℕ) → IndexesBlocks kept tree.now.entries → IsReady kept block.now joining
            → AreRowsOfFound kept (place_for kept (Joins joining)) (rows state)
            → 0 < height → AllFit (events_of_block height block.now) (are_live (live_cell (branch kept joining.entry.parent)))
            → (damage : a_damage) → result ≡ Err (Damaged damage) → ⊥ }
        ensures damage { (damage : a_damage) → result ≡ Err (Damaged damage) → damage.area ≡ Log }
        ensures reads { result ≢ Err DiskFault }
        ensures exactly { (kept : List Block) → IndexesBlocks kept tree.now.entries → OnOk result (steps.new ≡ steps.old + moves_to_join kept joining) }
        ensures most { steps.new ≤ steps.old + 1 }
    {
        if !is_above_tip(tree, &joining.entry) {
            return Ok(state);
        }
        grown(state, block, &joining.hashes, tree.len(), steps)
    }

    /// Keeps the block of an item that was judged, with its ext, and answers the live cells of the tip; its record will have
    /// this name. Out of memory nothing is kept at all. Damaged where its events do not fit its parent's branch, which never
    /// comes over a chain that has joined.
    pub fn join<L: Ledger>(
        self,
        alloc: Global,
        state: State,
        item: &[u8],
        ext: &[u8],
        rec: Rec,
        joining: Joining,
        steps: &mut Steps<L>,
    ) -> Result<(Kept, State), ReadStop>
        requires canonical { (b : Block) × (decoded schema.block item.now ≡ Some b) × IsReady self.chain.blocks b joining }
        requires ext { IsExtFor item.now ext.now }
        ensures kept { (b : Block) → decoded schema.block item.now ≡ Some b
            → IfOk result (λ it. it.0 ≡ kept_with self b ext.now (record joining.entry { at = rec.at; len = rec.len })) }
        ensures live { AreRowsOfFound self.chain.blocks (place_for self.chain.blocks (Joins joining)) (rows state)
            → IfOk result (λ it. AreRowsOfTip it.0.chain.blocks (rows it.1)) }
        ensures below { AreRowsOfKept self.chain.blocks (rows state) → IfOk result (λ it. AreRowsOfKept it.0.chain.blocks (rows it.1)) }
        ensures undamaged { (b : Block) → decoded schema.block item.now ≡ Some b → IsJoined self.chain → MayJoin self.chain.spec self.chain.blocks b
            → AreRowsOfFound self.chain.blocks (place_for self.chain.blocks (Joins joining)) (rows state)
            → (damage : a_damage) → result ≡ Err (Damaged damage) → ⊥ }
        ensures damage { (damage : a_damage) → result ≡ Err (Damaged damage) → damage.area ≡ Log }
        ensures reads { result ≢ Err DiskFault }
        ensures exactly { OnOk result (steps.new ≡ steps.old + moves_to_join self.chain.blocks joining) }
        ensures most { steps.new ≤ steps.old + 1 }
    {
        let block = BlockView::from_encoding(item);
        let Kept {
            spec,
            mut blocks,
            mut tree,
            mut uncles,
        } = self;
        let entry = Entry {
            at: rec.at,
            len: rec.len,
            ..joining.entry
        };
        let state = match Kept::state_with(state, &tree, &block, joining, steps) {
            Ok(state) => state,
            Err(stop) => {
                drop((blocks, tree, uncles));
                return Err(stop);
            }
        };
        match put(
            alloc,
            &mut blocks,
            &mut tree,
            &mut uncles,
            &block,
            ext,
            entry,
        ) {
            Ok(()) => {
                let kept = Kept {
                    spec,
                    blocks,
                    tree,
                    uncles,
                };
                Ok((kept, state))
            }
            Err(_) => {
                drop((blocks, tree, uncles, state));
                Err(ReadStop::NoMemory)
            }
        }
    }

    /// What is kept of the tip.
    pub fn tip(&self) -> &Entry
        ensures { (block : Block) × (tips.tip self.now.chain.blocks ≡ Some block) × Describes block result.now }
    {
        self.tree.entry(self.tree.tip())
    }

    /// The same with an edition of the rules from this epoch on.
    pub(crate) fn edited(self, epoch: u64) -> Kept
        ensures { result ≡ kept_edited self epoch }
    {
        let Kept {
            spec,
            blocks,
            tree,
            uncles,
        } = self;
        Kept {
            spec: spec.with_edition(Some(epoch)),
            blocks,
            tree,
            uncles,
        }
    }

    /// The tree of the kept blocks.
    pub fn tree(&self) -> &Tree
        ensures entries { result.now.entries ≡ self.now.entries }
        ensures indexed { IndexesBlocks self.now.chain.blocks result.now.entries }
        ensures rated { AreRated result.now.entries }
        ensures canonical { AreCanonical self.now.chain.blocks }
    {
        &self.tree
    }
}

/// Takes the uncles of the block at a place after those of the blocks before it.
fn take_uncles(uncles: &mut Uncles, block: &BlockView<'_>, place: u32) -> Result<(), NoMemory>
    ensures { OnOk result (uncles.new.embedded ≡ uncles.old.embedded ++ embedded_in place block.now) }
{
    uncles.reserve(block.uncles_count())?;
    uncles.add(block, place);
    Ok(())
}

/// Puts a block with its ext after the others: what clauses see of it, its entry and its uncles.
fn put(
    alloc: Global,
    blocks: &mut Recorded,
    tree: &mut Tree,
    uncles: &mut Uncles,
    block: &BlockView<'_>,
    ext: &[u8],
    entry: Entry,
) -> Result<(), NoMemory>
    requires fewer { length tree.old.entries + 1 < 2 ^ 32 }
    requires parent { FollowsParent tree.old.entries entry }
    requires new { place_of_hash tree.old.entries entry.hash ≡ None }
    ensures blocks { OnOk result (blocks.new.stored ≡ blocks.old.stored ++ record { block = block.now; ext = ext.now } ∷ []) }
    ensures entries { OnOk result (tree.new.entries ≡ tree.old.entries ++ entry ∷ []) }
    ensures indexed { (kept : List Block) (b : Block) → IndexesBlocks kept tree.old.entries → Describes b entry
        → place_of kept b.header.parent_hash ≡ Some entry.parent → OnOk result (IndexesBlocks (kept ++ b ∷ []) tree.new.entries) }
    ensures uncles { (kept : List Block) → IndexesBlocks kept tree.old.entries
        → OnOk result (uncles.new.embedded ≡ uncles.old.embedded ++ embedded_in (length kept) block.now) }
{
    match take_uncles(uncles, block, tree.len()) {
        Ok(()) => {}
        Err(_) => return Err(NoMemory),
    }
    match tree.reserve() {
        Ok(()) => {}
        Err(_) => return Err(NoMemory),
    }
    match blocks.push(alloc, block, ext) {
        Ok(()) => {}
        Err(_) => return Err(NoMemory),
    }
    tree.add(entry);
    Ok(())
}
