// A node: what is kept of a store, and its disk.
ghost use Rattle.std.specs.Prelude.{◌≡◌, ◌≢◌, ◌⊎◌, ◌↔◌, ◌<◌, ◌≤◌, ◌+◌, ◌-◌, ◌^◌, ℕ, false, true, Ok, Err, List, None, Some, length, drop, IfOk, IfErr, OnOk, IfSome, IsSome, pos};
ghost use Rattle.std.specs.Option.{option_map};
ghost use Rattle.outside.specs.Causes.{CountsFault};
ghost use Rattle.outside.specs.Disk.{HasOneImage, OthersRead, LeavesOnly};
ghost use Rattle.outside.specs.Image.{Image};
ghost use Rattle.outside.specs.declared.disk.Area.TheVariants.{Log as log_area};
ghost use Rattle.outside.specs.declared.disk.Damage.{Damage};
ghost use Rattle.outside.specs.declared.disk.ReadStop.TheVariants.{DiskFault, Damaged};
ghost use Rattle.chain_defs.specs.Shape.{decoded};
ghost use Rattle.chain_defs.specs.Schema as schema;
ghost use Rattle.chain_defs.specs.Schema.{Block};
ghost use Rattle.chain_defs.specs.Dao.{as_u64, counted_capacity};
ghost use Rattle.chain_defs.specs.Kept.{place_of, block_at};
ghost use Rattle.rule_defs.specs.Capacity.{rate_of};
ghost use Rattle.chain_defs.specs.Tip as tips;
ghost use Rattle.chain_defs.specs.Tip.{tip_place, best_branch};
ghost use Rattle.cell_state.specs.State.{rows};
ghost use Rattle.cell_state.specs.Moves.{AreRowsOfBranch};
ghost use Rattle.chain_tree.specs.Blocks.{Describes, IndexesBlocks, AreRated};
ghost use Rattle.chain_tree.specs.Damages.{IsOfBlock};
ghost use Rattle.chain_tree.specs.Reading.{nothing_found, stop_of};
ghost use Rattle.verdict_defs.specs.Chain.{Chain, verdict_over, chain_after};
ghost use Rattle.verdict_defs.specs.Verdict.{joins};
ghost use Rattle.disk_defs.specs.Log.{Record, records_of};
ghost use Rattle.disk_defs.specs.Rest.{IsSettled};
ghost use Rattle.store_defs.specs.Store.{Keeps, store_of, StandsFor, IsSound};
ghost use Rattle.node_store.specs.Held.{held_at};
ghost use Rattle.log_file.specs.declared.stop.LogStop.TheVariants as log_stops;
ghost use Rattle.log_file.specs.Stops.{IfDamage, IsInLog};
ghost use Rattle.node_store.specs.Import.{IsImported, LeavesEither, IsLogged, BeginsNone, TakesSteps, IsDecidedOn};
ghost use Rattle.store_defs.specs.Migration.{migration, is_done};
ghost use Rattle.node_store.specs.Migration.{IsMigrated, LeavesMigration};
ghost use Rattle.node_store.specs.Node.{node_of, IsOwnDiskWhereTold, IsSoundNode, IsSoundWhereTold, IsOnlyImage, StandsOnDisk, LeavesAll};
ghost use Rattle.node_store.specs.Kept.{AreRowsOfTip, AreRowsOfKept};
ghost use Rattle.node_store.specs.Opening.{LeavesStore, IsReadFrom, IsOpenedNode, NameItsBodies, IsNoneFrom, IsNoStoreAt};
ghost use Rattle.outside.specs.declared.disk.WriteStop.TheVariants as write_stops;
ghost use Rattle.node_store.specs.Snapshot.{snapshot_at, LeavesSnapshots};
ghost use Rattle.node_store.specs.Steps.{moves_for, moves_until};
ghost use Rattle.node_store.specs.OpeningSteps.{moves_to_open};
ghost use Rattle.node_store.specs.Judging.{MayWantMemory};
ghost use Rattle.node_store.specs.Queries.{IsHeaderAt, IsBlockAt, IsLiveCell, IsFetched};
ghost use Rattle.node_store.specs.declared.decision.Decision.TheVariants.{Joins};

use crate::area::sync_snapshots;
use crate::gathering::Gathering;
use crate::joining::join;
use crate::migration::{answer, edit};
use crate::snapshot::{take_snapshot, to_tip};
use crate::{Cache, Decision, Fetched, HeaderAt, Judging, Kept, Live, Moved, over_disk};
use cell_state::{OutPoint, State};
use chain_tree::{Entry, Tree};
use epochs::Spec;
use log_file::{Body, Log, LogStop};
use outside::{Disk, NoMemory, ReadStop, Steps, WriteStop};
use std::alloc::Global;
use std::marker::Model;
use std::sync::ledger::Ledger;
use verdict_defs::Verdict;

/// How many blocks a command's node holds in memory beside those on its disk: the ones that were used last.
pub const HELD: usize = 64;

/// What is kept of a store, and the live cells of the tip. The bytes of its blocks lie on the disk. Clauses see the chain, the
/// exts, the entries, where the records of its log end, the live cells, what is held in memory, and how often damage was found
/// and where last.
#[derive(Drop)]
pub struct Node {
    /// What is looked up of the kept blocks.
    pub kept: Kept,
    /// The live cells.
    pub state: State,
    /// Where the records of its log end.
    pub log: Log,
    /// The record that is put after the others next.
    pub body: Body,
    /// The blocks that are held in memory.
    pub cache: Cache,
}

impl Model for Node {
    ghost use Rattle.node_store.specs.Node.{NodeValue, node_of, IsBounded};

    ghost Value = { NodeValue };

    ghost view = { λ node. node_of node.kept node.log.place node.state node.cache };

    ghost invariant = { λ node. IsBounded node.kept node.log.place node.state };
}

/// Why a log is not opened where the live cells did not reach the tip.
fn stop_of_move(stop: ReadStop) -> LogStop
    ensures damaged { IfDamage (λ damage. stop ≡ Damaged damage) result }
    ensures found { (damage : Damage) → stop ≡ Damaged damage → result ≡ log_stops.NotAStore damage }
    ensures fault { (result ≡ log_stops.DiskFault) ↔ (stop ≡ DiskFault) }
    ensures memory { (result ≡ log_stops.NoMemory) ↔ (stop ≡ ReadStop.NoMemory) }
{
    match stop {
        ReadStop::Damaged(damage) => LogStop::NotAStore(damage),
        ReadStop::DiskFault => LogStop::DiskFault,
        ReadStop::NoMemory => LogStop::NoMemory,
    }
}

/// Why an import is stopped where its snapshot was not written.
fn stop_of_snapshot(stop: WriteStop) -> ReadStop
    ensures damaged { (damage : Damage) → result ≡ Damaged damage → ⊥ }
    ensures fault { (result ≡ DiskFault) ↔ (stop ≡ write_stops.DiskFault) }
    ensures memory { (result ≡ ReadStop.NoMemory) ↔ (stop ≡ write_stops.NoMemory) }
{
    match stop {
        WriteStop::DiskFault => ReadStop::DiskFault,
        WriteStop::NoMemory => ReadStop::NoMemory,
    }
}

/// Reads the store on a disk: a node whose live cells are those that the genesis leaves, with room for so many blocks in memory.
fn read_store<D: Disk>(alloc: Global, disk: &mut D, held: usize) -> Result<Node, LogStop>
    requires { 1 ≤ held }
    ensures left { LeavesStore D.reads_as D.images D.moment D.left_since disk.old disk.new }
    ensures read { IfOk result (λ node. IfSome (D.reads_as disk.old) (IsReadFrom node (D.reads_as disk.new) (D.images disk.new))) }
    ensures cells { IfOk result (λ node. AreRowsOfBranch node.chain.blocks 0 (rows node.cells)) }
    ensures not_a_store { IfErr result (IfDamage (λ _. IfSome (D.reads_as disk.old) (λ now. IsSound now → ⊥))) }
    ensures damage { IfErr result (IfDamage (IsInLog (D.reads_as disk.old) IsNoneFrom)) }
    ensures named { IfOk result (λ node. IfSome (D.reads_as disk.old) (λ now. NameItsBodies now.log node.entries)) }
    ensures one_image { OnOk result (HasOneImage (D.reads_as disk.new) (D.images disk.new)) }
    ensures image { ((image : Image) → D.images disk.old image → IsSound image)
        → IfOk result (λ node. IfSome (D.reads_as disk.old) (λ _. IsOnlyImage node.chain (D.reads_as disk.new) (D.images disk.new))) }
    ensures found { IfOk result (λ node. node.damages ≡ nothing_found) }
    ensures room { IfOk result (λ node. node.most ≡ held) }
    ensures cause { CountsFault (D.faults disk.old) (D.faults disk.new) (result ≡ Err LogStop.DiskFault) }
{
    match sync_snapshots(disk) {
        Ok(()) => {}
        Err(_) => return Err(LogStop::DiskFault),
    }
    let mut gathering = Gathering::new(alloc);
    let opened = match log_file::open(alloc, disk, &mut gathering) {
        Ok(opened) => opened,
        Err(stop) => {
            drop(gathering);
            return Err(stop);
        }
    };
    let log = opened.log;
    let (kept, state) = match gathering.into_kept(opened.spec, opened.tree) {
        Ok(kept) => kept,
        Err(stop) => return Err(stop),
    };
    match Cache::new(alloc, held) {
        Ok(cache) => Ok(Node {
            kept,
            state,
            log,
            body: Body::new(alloc),
            cache,
        }),
        Err(_) => {
            drop((kept, state));
            Err(LogStop::NoMemory)
        }
    }
}

impl Node {
    /// Opens the store on a disk. LOG is read once, from start to end; then the live cells go to the tip, from the open
    /// snapshot with the greater number or from the genesis, by the blocks on the way. After `Ok` a crash leaves each area as it reads. Also a log whose blocks have not joined may
    /// be answered as no store. Whatever is answered, a crash leaves what it might have left before, or a log that says what
    /// it said. `held` is how many blocks the node holds in memory at most, those that were used last.
    pub fn open<D: Disk, L: Ledger>(
        alloc: Global,
        disk: &mut D,
        held: usize,
        steps: &mut Steps<L>,
    ) -> Result<Node, LogStop>
        requires { 1 ≤ held }
        ensures opened { IfOk result (λ node. IsOpenedNode node held (D.reads_as disk.old) (D.reads_as disk.new) (D.images disk.old) (D.images disk.new)) }
        ensures not_a_store { IfErr result (IfDamage (λ _. IfSome (D.reads_as disk.old) (λ now. IsSound now → ⊥))) }
        ensures damage { IfErr result (IfDamage (λ damage. IfSome (D.reads_as disk.old) (λ now. IsNoStoreAt now damage))) }
        ensures left { LeavesStore D.reads_as D.images D.moment D.left_since disk.old disk.new }
        ensures one_image { OnOk result (HasOneImage (D.reads_as disk.new) (D.images disk.new)) }
        ensures moments { (now : Image) (chain : Chain) → D.reads_as disk.old ≡ Some now → store_of now ≡ Keeps chain → ((image : Image) → D.images disk.old image → IsSound image)
            → LeavesOnly D.moment D.left_since disk.old disk.new (λ image. D.images disk.old image ⊎ StandsFor chain image) }
        ensures cause { CountsFault (D.faults disk.old) (D.faults disk.new) (result ≡ Err LogStop.DiskFault) }
        ensures exactly { (now : Image) → D.reads_as disk.old ≡ Some now → OnOk result (steps.new ≡ steps.old + moves_to_open now) }
        ensures most { (now : Image) → D.reads_as disk.old ≡ Some now → steps.new ≤ steps.old + moves_to_open now }
    {
        let node = match read_store(alloc, disk, held) {
            Ok(node) => node,
            Err(stop) => return Err(stop),
        };
        let Node {
            kept,
            state,
            log,
            body,
            mut cache,
        } = node;
        match to_tip(alloc, disk, &mut cache, &kept, state, steps) {
            Ok(state) => Ok(Node {
                kept,
                state,
                log,
                body,
                cache,
            }),
            Err(stop) => {
                drop((kept, body, cache));
                Err(stop_of_move(stop))
            }
        }
    }

    /// Asks a judge about an item over the kept blocks (docs/COMMANDS.md, "The text"), and where it joins keeps it and puts its record on
    /// the disk. After an `Err` the disk has the record or not. Damaged where a kept block is not what those after it say,
    /// which never comes over a chain that has joined. The live cells go to the block's parent, are judged by there, and go
    /// back unless the block becomes the tip: with its own events at most twice the distance from the tip to the parent, and
    /// one. An item that is answered at sight, as one that is known, takes no step and does not call the disk. Memory is
    /// wanted only for a block that is new, on a kept parent, and keeps the rules on a header and the limits on its length
    /// and its proposals. A block that joins is held in memory. Where as many blocks have joined as a multiple of 1,000,
    /// siblings counted, the snapshot of the tip is taken before the answer; without memory for it the block's record stays, and
    /// the older snapshots. Where none is begun, no area but LOG is written.
    pub fn import<D: Disk, J: Judging, L: Ledger>(
        self,
        alloc: Global,
        disk: &mut D,
        judge: &J,
        item: &[u8],
        steps: &mut Steps<L>,
    ) -> Result<(Node, Verdict), ReadStop>
        requires size { length item.now < 2 ^ 31 }
        requires own { IsOwnDiskWhereTold self (D.reads_as disk.old) (D.images disk.old) }
        ensures imported { IfOk result (λ answer. IsImported self answer.0 item.now answer.1 (D.reads_as disk.old) (D.reads_as disk.new) (D.images disk.old) (D.images disk.new)) }
        ensures left { LeavesEither D.reads_as D.images D.moment D.left_since disk.old disk.new (IsSoundWhereTold self (D.reads_as disk.old)) self item.now }
        ensures logged { IsLogged self item.now result (D.content_of disk.old) (D.content_of disk.new) (D.reads_as disk.old) (D.reads_as disk.new) (D.images disk.old) (D.images disk.new) }
        ensures snapshots { BeginsNone (snapshot_at (length self.chain.blocks)) result → LeavesSnapshots D.reads_as D.images D.moment D.left_since disk.old disk.new }
        ensures stepped { TakesSteps self item.now result steps.old steps.new }
        ensures undamaged { IsSoundWhereTold self (D.reads_as disk.old) → (damage : Damage) → result ≡ Err (Damaged damage) → ⊥ }
        ensures damage { (damage : Damage) → result ≡ Err (Damaged damage) → damage.area ≡ log_area }
        ensures cause { CountsFault (D.faults disk.old) (D.faults disk.new) (result ≡ Err DiskFault) }
        ensures asked { result ≡ Err ReadStop.NoMemory → MayWantMemory self.chain item.now }
        ensures sight { moves_for self.chain item.now ≡ 0 → disk.new ≡ disk.old }
    {
        // as many as joined once it does: all that are kept but the genesis
        let joined = self.tree().len();
        let (node, decision) = match self.decide(alloc, disk, judge, item, steps) {
            Ok(decided) => decided,
            Err(stop) => return Err(stop),
        };
        let joining = match decision {
            Decision::Stays(verdict) => return Ok((node, verdict)),
            Decision::Joins(joining) => joining,
        };
        let verdict = Verdict::Joined(joining.entry.number, joining.entry.hash);
        let next = match join(node, alloc, disk, item, joining, steps) {
            Ok(next) => next,
            Err(stop) => return Err(stop),
        };
        match take_snapshot(alloc, disk, joined, &next.kept, &next.state) {
            Ok(()) => Ok((next, verdict)),
            Err(stop) => {
                drop(next);
                Err(stop_of_snapshot(stop))
            }
        }
    }

    /// Asks a judge what is to become of an item. The live cells then stand where it goes on from.
    pub(crate) fn decide<D: Disk, J: Judging, L: Ledger>(
        self,
        alloc: Global,
        disk: &mut D,
        judge: &J,
        item: &[u8],
        steps: &mut Steps<L>,
    ) -> Result<(Node, Decision), ReadStop>
        requires own { IsOwnDiskWhereTold self (D.reads_as disk.old) (D.images disk.old) }
        ensures decided { IfOk result (λ it. IsDecidedOn self it.0 item.now it.1 (D.reads_as disk.old) (D.reads_as disk.new) (D.images disk.new)) }
        ensures content { D.content_of disk.new ≡ D.content_of disk.old }
        ensures undamaged { IsSoundWhereTold self (D.reads_as disk.old) → (damage : Damage) → result ≡ Err (Damaged damage) → ⊥ }
        ensures damage { (damage : Damage) → result ≡ Err (Damaged damage) → damage.area ≡ log_area }
        ensures cause { CountsFault (D.faults disk.old) (D.faults disk.new) (result ≡ Err DiskFault) }
        ensures asked { result ≡ Err ReadStop.NoMemory → MayWantMemory self.chain item.now }
        ensures sight { moves_for self.chain item.now ≡ 0 → disk.new ≡ disk.old }
        ensures exactly { IfOk result (λ it. steps.new ≡ steps.old + moves_until self.chain.blocks (moves_for self.chain item.now) it.1) }
        ensures most { steps.new ≤ steps.old + (moves_for self.chain item.now - 1) }
    {
        let Node {
            kept,
            state,
            log,
            body,
            mut cache,
        } = self;
        match over_disk::decide(alloc, disk, &mut cache, judge, &kept, state, item, steps) {
            Ok((state, decision)) => {
                let node = Node {
                    kept,
                    state,
                    log,
                    body,
                    cache,
                };
                Ok((node, decision))
            }
            Err(stop) => {
                drop((kept, log, body, cache));
                Err(stop)
            }
        }
    }

    /// Gives the store an edition of the rules: its blocks stand under the second edition from this epoch on (docs/STORE.md,
    /// "The edition"). A store has at most one, which stays, and every block that it keeps but the genesis stands in an epoch
    /// before it; where that is not so, the disk is not called. Memory is taken before the first write.
    pub fn migrate<D: Disk>(
        self,
        alloc: Global,
        disk: &mut D,
        epoch: u64,
    ) -> Result<(Node, Moved), WriteStop>
        requires own { IsOwnDiskWhereTold self (D.reads_as disk.old) (D.images disk.old) }
        ensures migrated { IfOk result (λ answer. IsMigrated self answer.0 epoch answer.1 (D.reads_as disk.old) (D.reads_as disk.new) (D.images disk.old) (D.images disk.new)) }
        ensures left { LeavesMigration D.reads_as D.images D.moment D.left_since disk.old disk.new self epoch }
        ensures uncalled { is_done (migration self.chain epoch) ≡ false → disk.new ≡ disk.old }
        ensures others { OthersRead log_area (D.reads_as disk.old) (D.reads_as disk.new) }
        ensures untouched { IfErr result (λ stop. stop ≢ write_stops.DiskFault → disk.new ≡ disk.old) }
        ensures cause { CountsFault (D.faults disk.old) (D.faults disk.new) (result ≡ Err write_stops.DiskFault) }
    {
        match answer(&self.kept, epoch) {
            Moved::Done => {}
            moved => return Ok((self, moved)),
        }
        match edit(self, alloc, disk, epoch) {
            Ok(node) => Ok((node, Moved::Done)),
            Err(stop) => Err(stop),
        }
    }

    /// The height of the tip.
    pub fn height(&self) -> u64
        ensures { result + 1 ≡ length (best_branch self.now.chain.blocks) }
    {
        self.kept.height()
    }

    /// The header at a height of the best branch.
    pub fn header<D: Disk>(
        &mut self,
        alloc: Global,
        disk: &mut D,
        height: u64,
    ) -> Result<Option<HeaderAt>, ReadStop>
        requires own { IsOwnDiskWhereTold self.old (D.reads_as disk.old) (D.images disk.old) }
        ensures left { LeavesAll D.content_of D.reads_as D.images D.faults disk.old disk.new self.old self.new (stop_of result) }
        ensures header { IsSome (D.reads_as disk.old) → IfOk result (IsHeaderAt self.old.chain.blocks height) }
        ensures none { block_at (best_branch self.old.chain.blocks) height ≡ None → (result ≡ Ok None) × (disk.new ≡ disk.old) }
        ensures undamaged { IsSome (D.reads_as disk.old) → (damage : Damage) → result ≡ Err (Damaged damage) → ⊥ }
    {
        over_disk::header(alloc, disk, &mut self.cache, &self.kept, height)
    }

    /// The bytes of the block at a height of the best branch.
    pub fn block<D: Disk>(
        &mut self,
        alloc: Global,
        disk: &mut D,
        height: u64,
    ) -> Result<Option<Vec<u8>>, ReadStop>
        requires own { IsOwnDiskWhereTold self.old (D.reads_as disk.old) (D.images disk.old) }
        ensures left { LeavesAll D.content_of D.reads_as D.images D.faults disk.old disk.new self.old self.new (stop_of result) }
        ensures block { IsSome (D.reads_as disk.old)
            → IfOk result (λ found. IsBlockAt self.old.chain.blocks height (option_map (λ bytes. bytes.items) found)) }
        ensures none { block_at (best_branch self.old.chain.blocks) height ≡ None → (result ≡ Ok None) × (disk.new ≡ disk.old) }
        ensures undamaged { IsSome (D.reads_as disk.old) → (damage : Damage) → result ≡ Err (Damaged damage) → ⊥ }
    {
        over_disk::block(alloc, disk, &mut self.cache, &self.kept, height)
    }

    /// The live cell with an out-point.
    pub fn live(&self, o: &OutPoint) -> Option<Live>
        ensures live { AreRowsOfTip self.now.chain.blocks (rows self.now.cells) → IsLiveCell self.now.chain.blocks o.now result }
        ensures row { option_map (λ live. live.row) result ≡ rows self.now.cells o.now }
    {
        self.kept.live(&self.state, o)
    }

    /// The live cell with an out-point, with a copy of its bytes.
    pub fn fetch<D: Disk>(
        &mut self,
        alloc: Global,
        disk: &mut D,
        o: OutPoint,
    ) -> Result<Option<Fetched>, ReadStop>
        requires own { IsOwnDiskWhereTold self.old (D.reads_as disk.old) (D.images disk.old) }
        ensures left { LeavesAll D.content_of D.reads_as D.images D.faults disk.old disk.new self.old self.new (stop_of result) }
        ensures fetched { AreRowsOfTip self.old.chain.blocks (rows self.old.cells) → IsSome (D.reads_as disk.old) → IfOk result (IsFetched self.old.chain.blocks o) }
        ensures none { AreRowsOfTip self.old.chain.blocks (rows self.old.cells) → IsLiveCell self.old.chain.blocks o None
            → (result ≡ Ok None) × (disk.new ≡ disk.old) }
        ensures undamaged { AreRowsOfTip self.old.chain.blocks (rows self.old.cells) → IsSome (D.reads_as disk.old)
            → (damage : Damage) → result ≡ Err (Damaged damage) → ⊥ }
        ensures of_block { IsSome (D.reads_as disk.old) → (damage : Damage) → result ≡ Err (Damaged damage) → IsOfBlock self.old.entries damage }
    {
        over_disk::fetch(alloc, disk, &mut self.cache, &self.kept, &self.state, o)
    }

    /// What a cell of this capacity and occupied capacity counts, in shannons, that was deposited at a height of the best
    /// branch and whose withdrawing cell was made at another; none above the greatest u64. Damaged where the branch has
    /// not these heights, or the cell does not hold what it occupies.
    pub fn counted(
        &self,
        capacity: u64,
        occupied: u64,
        made: u64,
        deposit: u64,
    ) -> Result<Option<u64>, ReadStop>
        ensures counted { IfOk result (λ amount. amount ≡ as_u64 (pos (counted_capacity capacity occupied
            (rate_of (block_at (best_branch self.now.chain.blocks) made)) (rate_of (block_at (best_branch self.now.chain.blocks) deposit))))) }
        ensures there { IfOk result (λ _. (occupied ≤ capacity) × (made < length (best_branch self.now.chain.blocks)) × (deposit < length (best_branch self.now.chain.blocks))) }
        ensures undamaged { occupied ≤ capacity → made < length (best_branch self.now.chain.blocks) → deposit < length (best_branch self.now.chain.blocks)
            → (damage : Damage) → result ≡ Err (Damaged damage) → ⊥ }
        ensures damage { (damage : Damage) → result ≡ Err (Damaged damage) → damage.area ≡ log_area }
        ensures reads { result ≢ Err DiskFault }
        ensures memory { result ≢ Err ReadStop.NoMemory }
    {
        self.kept.counted(capacity, occupied, made, deposit)
    }

    /// What is kept of the tip.
    pub fn tip(&self) -> &Entry
        ensures { (block : Block) × (tips.tip self.now.chain.blocks ≡ Some block) × Describes block result.now }
    {
        self.kept.tip()
    }

    /// The tree of the kept blocks. The C and the AR of each entry's DAO field are above 0.
    pub fn tree(&self) -> &Tree
        ensures entries { result.now.entries ≡ self.now.entries }
        ensures indexed { IndexesBlocks self.now.chain.blocks result.now.entries }
        ensures rated { AreRated result.now.entries }
    {
        self.kept.tree()
    }

    /// The live cells of the tip, where the node is sound. Each row is of a kept block, whatever the disk is.
    pub fn state(&self) -> &State
        ensures cells { result.now ≡ self.now.cells }
        ensures below { AreRowsOfKept self.now.chain.blocks (rows result.now) }
    {
        &self.state
    }

    /// How many blocks it holds in memory: at most as many as it was opened for.
    pub fn held(&self) -> usize
        ensures count { result ≡ length self.now.held }
        ensures most { length self.now.held ≤ self.now.most }
    {
        self.cache.count()
    }

    /// The specification of the chain.
    pub fn spec(&self) -> &Spec
        ensures { result.now ≡ self.now.chain.spec }
    {
        &self.kept.spec
    }
}
