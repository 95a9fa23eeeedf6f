// The block so far, and what one item more comes to.
ghost use Rattle.std.specs.Prelude.{◌≡◌, ◌+◌, ◌<◌, ◌≤◌, ◌^◌, ◌||◌, [], List, None, Some, Err, IfOk, OnOk, IsTrue, length, map, take};
ghost use Rattle.std.specs.List.{All};
ghost use Rattle.std.specs.Str.{bytes_eq};
ghost use Rattle.std.specs.HashSet.{contains};
ghost use Rattle.chain_defs.specs.First.{first_failing};
ghost use Rattle.chain_defs.specs.Fold.{keep};
ghost use Rattle.outside.specs.declared.disk.Damage.{Damage};
ghost use Rattle.outside.specs.declared.disk.ReadStop.TheVariants.{Damaged};
ghost use Rattle.chain_defs.specs.Shape.{IsEncoding, encoded};
ghost use Rattle.chain_defs.specs.Schema as schema;
ghost use Rattle.chain_defs.specs.Branch.{branch};
ghost use Rattle.chain_defs.specs.Hashes as hashes;
ghost use Rattle.chain_tree.specs.Blocks.{IsParent};
ghost use Rattle.chain_tree.specs.Told.{Stored, blocks_of};
ghost use Rattle.chain_tree.specs.Reading.{HasRead, stop_of};
ghost use Rattle.rule_defs.specs.Cellbase as rules;
ghost use Rattle.rule_defs.specs.Cellbase.{has_cellbase};
ghost use Rattle.verdict_defs.specs.Transactions.{is_proposed, transaction_rules};
ghost use Rattle.verdict_defs.specs.Judged.{passed_at};
ghost use Rattle.block_judge.specs.Answers.{IsPassed};
ghost use Rattle.block_judge.specs.Progress.{AreProposed, CanMove};
ghost use Rattle.block_judge.specs.Standing.{ContextStandsFor, seen};
ghost use Rattle.pool_defs.specs.Start as start;
ghost use Rattle.pool_defs.specs.Assembly as pool;
ghost use Rattle.pool_defs.specs.Size.{most_items, most_bytes};
ghost use Rattle.tx_pool.specs.Draft.{Fits, IsEmpty, IsPut, IsDraftSoFar, draft_of, with_line};

use crate::sealing::timestamp_on;
use block_judge::{
    BlockCells, BlockSoFar, Context, JudgeStop, PassedTransaction, is_cellbase, judge_appended,
};
use cell_state::Cells;
use chain_tree::Blocks;
use mol_schema::TxView;
use outside::{NoMemory, ReadStop};
use pool_defs::Line;
use proposal_window::Proposed;
use std::alloc::Global;
use std::collections::HashSet;
use view_hashes::{proposal_id, transaction_hash};

/// The bytes of a block with no transaction and no proposal id.
const EMPTY_LENGTH: u64 = 240;

/// The block so far: its timestamp, its transactions, the cellbase first, and its proposal ids, with how many bytes it has;
/// what its transactions leave: the cells, the cycles, and what they move; and what became of each item.
#[derive(Drop)]
pub(crate) struct Draft<'c, 'a, C: Cells> {
    timestamp: u64,
    cells: BlockCells<'c, C>,
    pub(crate) transactions: Vec<TxView<'a>>,
    hashes: HashSet<[u8; 32]>,
    pub(crate) proposals: Vec<[u8; 10]>,
    ids: HashSet<[u8; 10]>,
    length: u64,
    left: u64,
    pub(crate) interest: i128,
    pub(crate) freed: u128,
    pub(crate) lines: Vec<Line>,
}

impl<'c, 'a, C: Cells> Draft<'c, 'a, C> {
    /// A draft of this timestamp with nothing in it yet.
    fn empty(alloc: Global, context: &Context<'c, C>, timestamp: u64) -> Draft<'c, 'a, C>
        ensures empty { IsEmpty context.now.spec.now timestamp (C.rows context.now.cells.now) (draft_of C.rows result) }
        ensures few { result.left ≤ 2 ^ 40 }
    {
        let spec = context.spec;
        Draft {
            timestamp,
            cells: BlockCells::of(alloc, context.cells),
            transactions: Vec::new(alloc),
            hashes: HashSet::new(alloc),
            proposals: Vec::new(alloc),
            ids: HashSet::new(alloc),
            length: EMPTY_LENGTH,
            left: spec.max_cycles,
            interest: 0,
            freed: 0,
            lines: Vec::new(alloc),
        }
    }

    /// The block with its cellbase alone.
    pub(crate) fn start(
        alloc: Global,
        context: &Context<'c, C>,
        cellbase: &'a [u8],
    ) -> Result<Draft<'c, 'a, C>, NoMemory>
        requires parent { context.now.parent < length context.now.tree.now.entries }
        requires canonical { (t : schema.Transaction) × IsEncoding schema.transaction cellbase.now t }
        requires size { length cellbase.now < 2 ^ 30 }
        ensures fits { IfOk result (λ draft. Fits (draft_of C.rows draft)) }
        ensures lines { IfOk result (λ draft. draft.lines.items ≡ []) }
        ensures started { (stored : List Stored) (witness : schema.CellbaseWitness) → ContextStandsFor stored (seen C.rows context.now)
            → IsEncoding schema.transaction cellbase.now (start.cellbase context.now.spec.now (branch (blocks_of stored) context.now.parent) witness)
            → IfOk result (λ draft. IsDraftSoFar stored (seen C.rows context.now)
            (pool.start context.now.spec.now (branch (blocks_of stored) context.now.parent) witness) (draft_of C.rows draft)) }
    {
        let timestamp = timestamp_on(context.tree, context.parent);
        let mut draft = Draft::empty(alloc, context, timestamp);
        let tx = TxView::from_encoding(cellbase);
        let hash = transaction_hash(&tx);
        let e = context.tree.len();
        match draft.put(&tx, &hash, e) {
            Ok(()) => Ok(draft),
            Err(stop) => {
                drop(draft);
                Err(stop)
            }
        }
    }

    /// Puts a transaction after those that stand in the block, whose place is `e`.
    fn put(&mut self, tx: &TxView<'a>, hash: &[u8; 32], e: u32) -> Result<(), NoMemory>
        requires hash { hash.now ≡ hashes.transaction_hash tx.now }
        requires few { length self.old.transactions.items < 2 ^ 30 }
        requires size { length (encoded schema.transaction tx.now) < 2 ^ 30 }
        requires short { self.old.length < 2 ^ 32 }
        ensures put { OnOk result (IsPut e tx.now (draft_of C.rows self.old) (draft_of C.rows self.new)) }
    {
        let place = self.transactions.len() as u32;
        self.cells.take(tx, hash, place, e)?;
        self.hashes.insert(*hash)?;
        let bytes = tx.bytes();
        self.length += 4 + bytes.len() as u64;
        self.transactions.push(TxView::from_encoding(bytes))?;
        Ok(())
    }

    /// Puts an id among those of the block, where J9 and J10 are kept with it.
    fn propose(&mut self, context: &Context<'c, C>, id: &[u8; 10]) -> Result<Line, NoMemory>
        requires fits { Fits (draft_of C.rows self.old) }
        ensures fits { IfOk result (λ line. Fits (with_line (draft_of C.rows self.new) line)) }
        ensures lines { IfOk result (λ _. self.new.lines.items ≡ self.old.lines.items) }
        ensures proposed { (stored : List Stored) (so_far : pool.Assembly) → IsDraftSoFar stored (seen C.rows context.now) so_far (draft_of C.rows self.old)
            → (t : schema.Transaction) → id.now ≡ hashes.proposal_id t
            → IfOk result (λ line. IsDraftSoFar stored (seen C.rows context.now) (pool.propose context.now.spec.now so_far t) (with_line (draft_of C.rows self.new) line)) }
    {
        let spec = context.spec;
        let count = self.proposals.len() as u64 + 1;
        if self.length + 10 > u64::from(spec.max_block_bytes)
            || count > u64::from(spec.max_proposals)
            || self.ids.contains(id)
        {
            return Ok(Line::Later);
        }
        self.ids.insert(*id)?;
        self.proposals.push(*id)?;
        self.length += 10;
        Ok(Line::Propose)
    }

    /// Puts a transaction that breaks no rule into the block, where J9 is kept with it.
    fn commit(
        &mut self,
        context: &Context<'c, C>,
        tx: &TxView<'a>,
        hash: &[u8; 32],
        passed: &PassedTransaction,
    ) -> Result<Line, NoMemory>
        requires parent { context.now.parent < length context.now.tree.now.entries }
        requires fits { Fits (draft_of C.rows self.old) }
        requires room { length self.old.lines.items < most_items }
        requires size { length (encoded schema.transaction tx.now) ≤ most_bytes }
        requires hash { hash.now ≡ hashes.transaction_hash tx.now }
        requires cycles { passed.now.cycles ≤ self.old.left }
        requires moves { CanMove 1 passed.now.interest passed.now.freed }
        ensures fits { IfOk result (λ line. Fits (with_line (draft_of C.rows self.new) line)) }
        ensures lines { IfOk result (λ _. self.new.lines.items ≡ self.old.lines.items) }
        ensures committed { (stored : List Stored) (so_far : pool.Assembly) → IsDraftSoFar stored (seen C.rows context.now) so_far (draft_of C.rows self.old)
            → IsTrue (has_cellbase (pool.with_transaction so_far.block tx.now))
            → IsPassed (blocks_of stored) context.now.parent
            (passed_at (pool.next_site context.now.spec.now (branch (blocks_of stored) context.now.parent) so_far.block) so_far.left tx.now) passed.now
            → IfOk result (λ line. IsDraftSoFar stored (seen C.rows context.now)
            (pool.commit context.now.spec.now (branch (blocks_of stored) context.now.parent) so_far tx.now) (with_line (draft_of C.rows self.new) line)) }
    {
        let spec = context.spec;
        let size = tx.bytes().len() as u64;
        if self.length + 4 + size > u64::from(spec.max_block_bytes) {
            return Ok(Line::Later);
        }
        let e = context.tree.len();
        self.put(tx, hash, e)?;
        self.left -= passed.cycles;
        self.interest += passed.interest;
        self.freed += passed.freed;
        Ok(Line::Commit(passed.fee, passed.cycles))
    }

    /// Judges a transaction that is proposed, and puts it into the block where it breaks no rule and J9 is kept with it.
    fn judge<B: Blocks>(
        &mut self,
        alloc: Global,
        context: &Context<'c, C>,
        blocks: &mut B,
        tx: &TxView<'a>,
        hash: &[u8; 32],
    ) -> Result<Line, ReadStop>
        requires hash { hash.now ≡ hashes.transaction_hash tx.now }
        requires placed { IsParent context.now.tree.now.entries context.now.parent }
        requires counts { B.count blocks.old ≡ length context.now.tree.now.entries }
        requires fits { Fits (draft_of C.rows self.old) }
        requires room { length self.old.lines.items < most_items }
        requires size { length (encoded schema.transaction tx.now) ≤ most_bytes }
        ensures read { HasRead B.told B.count B.loans_of B.faults B.damages blocks.old blocks.new (stop_of result) }
        ensures fits { IfOk result (λ line. Fits (with_line (draft_of C.rows self.new) line)) }
        ensures lines { IfOk result (λ _. self.new.lines.items ≡ self.old.lines.items) }
        ensures judged { (stored : List Stored) (so_far : pool.Assembly) → B.told blocks.old ≡ Some stored
            → IsDraftSoFar stored (seen C.rows context.now) so_far (draft_of C.rows self.old)
            → IsTrue (has_cellbase (pool.with_transaction so_far.block tx.now))
            → IsTrue (is_proposed context.now.spec.now (branch (blocks_of stored) context.now.parent) tx.now)
            → IfOk result (λ line. IsDraftSoFar stored (seen C.rows context.now)
            (pool.judge context.now.spec.now (branch (blocks_of stored) context.now.parent) so_far tx.now
            (first_failing (transaction_rules (pool.next_site context.now.spec.now (branch (blocks_of stored) context.now.parent) so_far.block) so_far.left tx.now)))
            (with_line (draft_of C.rows self.new) line)) }
        ensures undamaged { (stored : List Stored) (so_far : pool.Assembly) → B.told blocks.old ≡ Some stored
            → IsDraftSoFar stored (seen C.rows context.now) so_far (draft_of C.rows self.old) → (damage : Damage) → result ≡ Err (Damaged damage) → ⊥ }
    {
        let so_far = BlockSoFar {
            timestamp: self.timestamp,
            transactions: &self.transactions,
            cells: &self.cells,
            left: self.left,
        };
        let passed = match judge_appended(alloc, context, &so_far, blocks, tx, *hash) {
            Ok(passed) => passed,
            Err(JudgeStop::Broken(rule)) => return Ok(Line::Refused(rule.number())),
            Err(JudgeStop::Read(stop)) => return Err(stop),
        };
        match self.commit(context, tx, hash, &passed) {
            Ok(line) => Ok(line),
            Err(_) => Err(ReadStop::NoMemory),
        }
    }

    /// Whether the block with a transaction breaks J16: it is a cellbase, or stands in the block already.
    fn breaks_j16(&self, tx: &TxView<'a>, hash: &[u8; 32]) -> bool
        ensures { result ≡ (rules.is_cellbase tx.now || contains bytes_eq self.now.hashes hash.now) }
    {
        is_cellbase(tx) || self.hashes.contains(hash)
    }

    /// Takes a transaction.
    fn take_transaction<B: Blocks>(
        &mut self,
        alloc: Global,
        context: &Context<'c, C>,
        blocks: &mut B,
        proposed: &Proposed,
        tx: &TxView<'a>,
    ) -> Result<Line, ReadStop>
        requires placed { IsParent context.now.tree.now.entries context.now.parent }
        requires counts { B.count blocks.old ≡ length context.now.tree.now.entries }
        requires fits { Fits (draft_of C.rows self.old) }
        requires room { length self.old.lines.items < most_items }
        requires size { length (encoded schema.transaction tx.now) ≤ most_bytes }
        ensures read { HasRead B.told B.count B.loans_of B.faults B.damages blocks.old blocks.new (stop_of result) }
        ensures fits { IfOk result (λ line. Fits (with_line (draft_of C.rows self.new) line)) }
        ensures lines { IfOk result (λ _. self.new.lines.items ≡ self.old.lines.items) }
        ensures taken { (stored : List Stored) (so_far : pool.Assembly) → B.told blocks.old ≡ Some stored
            → AreProposed context.now.spec.now (branch (blocks_of stored) context.now.parent) proposed.now
            → IsDraftSoFar stored (seen C.rows context.now) so_far (draft_of C.rows self.old)
            → IfOk result (λ line. IsDraftSoFar stored (seen C.rows context.now)
            (pool.take_transaction context.now.spec.now (branch (blocks_of stored) context.now.parent) so_far tx.now) (with_line (draft_of C.rows self.new) line)) }
        ensures undamaged { (stored : List Stored) (so_far : pool.Assembly) → B.told blocks.old ≡ Some stored
            → IsDraftSoFar stored (seen C.rows context.now) so_far (draft_of C.rows self.old) → (damage : Damage) → result ≡ Err (Damaged damage) → ⊥ }
    {
        let hash = transaction_hash(tx);
        if self.breaks_j16(tx, &hash) {
            return Ok(Line::Refused(16));
        }
        let id = proposal_id(&hash);
        let is_proposed = proposed.contains(&id);
        if !is_proposed {
            return match self.propose(context, &id) {
                Ok(line) => Ok(line),
                Err(_) => Err(ReadStop::NoMemory),
            };
        }
        self.judge(alloc, context, blocks, tx, &hash)
    }

    /// Takes an item, the bytes of a transaction, but for its line.
    fn take_bytes<B: Blocks>(
        &mut self,
        alloc: Global,
        context: &Context<'c, C>,
        blocks: &mut B,
        proposed: &Proposed,
        item: &'a [u8],
    ) -> Result<Line, ReadStop>
        requires placed { IsParent context.now.tree.now.entries context.now.parent }
        requires counts { B.count blocks.old ≡ length context.now.tree.now.entries }
        requires fits { Fits (draft_of C.rows self.old) }
        requires room { length self.old.lines.items < most_items }
        requires size { length item.now ≤ most_bytes }
        ensures read { HasRead B.told B.count B.loans_of B.faults B.damages blocks.old blocks.new (stop_of result) }
        ensures fits { IfOk result (λ line. Fits (with_line (draft_of C.rows self.new) line)) }
        ensures lines { IfOk result (λ _. self.new.lines.items ≡ self.old.lines.items) }
        ensures taken { (stored : List Stored) (so_far : pool.Assembly) → B.told blocks.old ≡ Some stored
            → AreProposed context.now.spec.now (branch (blocks_of stored) context.now.parent) proposed.now
            → IsDraftSoFar stored (seen C.rows context.now) so_far (draft_of C.rows self.old)
            → IfOk result (λ line. IsDraftSoFar stored (seen C.rows context.now)
            (pool.take_item context.now.spec.now (branch (blocks_of stored) context.now.parent) so_far item.now) (with_line (draft_of C.rows self.new) line)) }
        ensures undamaged { (stored : List Stored) (so_far : pool.Assembly) → B.told blocks.old ≡ Some stored
            → IsDraftSoFar stored (seen C.rows context.now) so_far (draft_of C.rows self.old) → (damage : Damage) → result ≡ Err (Damaged damage) → ⊥ }
    {
        match TxView::read(item) {
            None => Ok(Line::Refused(1)),
            Some(tx) => self.take_transaction(alloc, context, blocks, proposed, &tx),
        }
    }

    /// Takes an item, the bytes of a transaction.
    fn take_item<B: Blocks>(
        &mut self,
        alloc: Global,
        context: &Context<'c, C>,
        blocks: &mut B,
        proposed: &Proposed,
        item: &'a [u8],
    ) -> Result<(), ReadStop>
        requires placed { IsParent context.now.tree.now.entries context.now.parent }
        requires counts { B.count blocks.old ≡ length context.now.tree.now.entries }
        requires fits { Fits (draft_of C.rows self.old) }
        requires room { length self.old.lines.items < most_items }
        requires size { length item.now ≤ most_bytes }
        ensures read { HasRead B.told B.count B.loans_of B.faults B.damages blocks.old blocks.new (stop_of result) }
        ensures fits { OnOk result (Fits (draft_of C.rows self.new)) }
        ensures lines { OnOk result (length self.new.lines.items ≡ length self.old.lines.items + 1) }
        ensures taken { (stored : List Stored) (so_far : pool.Assembly) → B.told blocks.old ≡ Some stored
            → AreProposed context.now.spec.now (branch (blocks_of stored) context.now.parent) proposed.now
            → IsDraftSoFar stored (seen C.rows context.now) so_far (draft_of C.rows self.old)
            → OnOk result (IsDraftSoFar stored (seen C.rows context.now)
            (pool.take_item context.now.spec.now (branch (blocks_of stored) context.now.parent) so_far item.now) (draft_of C.rows self.new)) }
        ensures undamaged { (stored : List Stored) (so_far : pool.Assembly) → B.told blocks.old ≡ Some stored
            → IsDraftSoFar stored (seen C.rows context.now) so_far (draft_of C.rows self.old) → (damage : Damage) → result ≡ Err (Damaged damage) → ⊥ }
    {
        let line = match self.take_bytes(alloc, context, blocks, proposed, item) {
            Ok(line) => line,
            Err(stop) => return Err(stop),
        };
        match self.lines.push(line) {
            Ok(()) => Ok(()),
            Err(_) => Err(ReadStop::NoMemory),
        }
    }

    /// Takes items, one after the other.
    pub(crate) fn take_items<B: Blocks>(
        &mut self,
        alloc: Global,
        context: &Context<'c, C>,
        blocks: &mut B,
        proposed: &Proposed,
        items: &'a [Vec<u8>],
    ) -> Result<(), ReadStop>
        requires placed { IsParent context.now.tree.now.entries context.now.parent }
        requires counts { B.count blocks.old ≡ length context.now.tree.now.entries }
        requires fits { Fits (draft_of C.rows self.old) }
        requires none { self.old.lines.items ≡ [] }
        requires items { length items.now ≤ most_items }
        requires sizes { All (λ item. length item.items ≤ most_bytes) items.now }
        ensures read { HasRead B.told B.count B.loans_of B.faults B.damages blocks.old blocks.new (stop_of result) }
        ensures fits { OnOk result (Fits (draft_of C.rows self.new)) }
        ensures lines { OnOk result (length self.new.lines.items ≡ length items.now) }
        ensures taken { (stored : List Stored) (so_far : pool.Assembly) → B.told blocks.old ≡ Some stored
            → AreProposed context.now.spec.now (branch (blocks_of stored) context.now.parent) proposed.now
            → IsDraftSoFar stored (seen C.rows context.now) so_far (draft_of C.rows self.old)
            → OnOk result (IsDraftSoFar stored (seen C.rows context.now)
            (keep (pool.take_item context.now.spec.now (branch (blocks_of stored) context.now.parent)) so_far (map (λ item. item.items) items.now)) (draft_of C.rows self.new)) }
        ensures undamaged { (stored : List Stored) (so_far : pool.Assembly) → B.told blocks.old ≡ Some stored
            → AreProposed context.now.spec.now (branch (blocks_of stored) context.now.parent) proposed.now
            → IsDraftSoFar stored (seen C.rows context.now) so_far (draft_of C.rows self.old) → (damage : Damage) → result ≡ Err (Damaged damage) → ⊥ }
    {
        'items: for i in 0..items.len() {
            match self.take_item(alloc, context, blocks, proposed, &items[i]) {
                Ok(()) => {}
                Err(stop) => return Err(stop),
            }
        }
        Ok(())
    }
}
