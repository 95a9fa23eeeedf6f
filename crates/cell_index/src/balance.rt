// How many live cells of a branch one lock has, and what they hold.
ghost use Rattle.std.specs.Prelude.{◌≡◌, ◌+◌, ◌<◌, ◌≤◌, ◌^◌, ℕ, List, Option, Some, None, Err, length, IfOk, IsSome, slice_get};
ghost use Rattle.std.specs.List.{filter};
ghost use Rattle.chain_defs.specs.Schema.{OutPoint as out_point, Block};
ghost use Rattle.outside.specs.declared.disk.Damage.{Damage};
ghost use Rattle.outside.specs.declared.disk.ReadStop.TheVariants.{Damaged};
ghost use Rattle.chain_tree.specs.Blocks.{IndexesBlocks};
ghost use Rattle.chain_tree.specs.Damages.{IsAtRecord};
ghost use Rattle.chain_tree.specs.Told.{Stored, blocks_of};
ghost use Rattle.chain_tree.specs.Reading.{HasRead, stop_of};
ghost use Rattle.chain_defs.specs.Events.{events_of_block};
ghost use Rattle.chain_defs.specs.Fit.{are_live, AllFit};
ghost use Rattle.chain_defs.specs.Row.{Row, row_after, live_row};
ghost use Rattle.chain_defs.specs.Undo.{spent_of};
ghost use Rattle.cell_state.specs.State.{rows};
ghost use Rattle.cell_state.specs.Moves.{AreRowsOfBranch, IsOnTheWay};
ghost use Rattle.cell_index.specs.declared.stop.Stop.TheVariants.{Odd};
ghost use Rattle.cell_index.specs.Balance.{BalanceValue, IsBalance, Changes, is_of, sum_of, counts_for, holds_for, sum_for, made_for, inputs_of};
ghost use Rattle.cell_index.specs.Follow.{IsStep, CanBeFollowed};

use crate::change::{left_by, spent_at};
use crate::counted::sum_in;
use crate::following::{Follows, moved};
use crate::stop::Stop;
use cell_state::{LastScript, State};
use chain_tree::{Blocks, Tree, damaged_at};
use mol_schema::{BlockView, OutputView, TxView};
use outside::{NoMemory, ReadStop};
use std::alloc::Global;
use std::marker::Model;

/// How many live cells of a branch a lock has, by its hash, and what they hold together, in shannons: what an index of all locks
/// says of one, for a fraction of its work. Clauses see a `BalanceValue`.
#[derive(Drop)]
pub struct Balance {
    lock: [u8; 32],
    sum: (u64, u128),
    /// Outputs that are made one after the other often have one lock.
    last: LastScript,
}

impl Model for Balance {
    ghost use Rattle.cell_index.specs.Balance.{BalanceValue};

    ghost Value = { BalanceValue };

    ghost view = { λ balance. record { lock = balance.lock; sum = balance.sum } };
}

/// Whether an output has a lock, by its hash: one with its capacity, in shannons, or nothing.
fn sum_of_one(output: &OutputView<'_>, lock: &[u8; 32], last: &mut LastScript) -> (u64, u128)
    ensures count { result.0 ≡ counts_for lock.now output.now }
    ensures capacity { result.1 ≡ holds_for lock.now output.now }
    ensures few { result.0 ≤ 1 }
    ensures most { result.1 < 2 ^ 64 }
{
    let hash = last.hash_of(&output.lock());
    if hash == *lock {
        return (1, u128::from(output.capacity()));
    }
    (0, 0)
}

/// Of the outputs of a transaction how many have a lock, by its hash, and what these hold together, in shannons.
fn made_by(tx: &TxView<'_>, lock: &[u8; 32], last: &mut LastScript) -> (u64, u128)
    ensures sum { result ≡ sum_for lock.now tx.now.raw.outputs }
    ensures few { result.0 ≤ 2 ^ 30 }
    ensures most { result.1 ≤ 2 ^ 94 }
{
    let raw = tx.raw();
    let mut count = 0u64;
    let mut capacity = 0u128;
    'outputs: for i in 0..raw.outputs_count() {
        let output = raw.outputs_item(i);
        let one = sum_of_one(&output, lock, last);
        count += one.0;
        capacity += one.1;
    }
    (count, capacity)
}

/// The same of the outputs of all transactions of a block.
fn made_in(block: &BlockView<'_>, lock: &[u8; 32], last: &mut LastScript) -> (u64, u128)
    ensures { result ≡ made_for lock.now block.now }
{
    let mut count = 0u64;
    let mut capacity = 0u128;
    'transactions: for place in 0..block.transactions_count() {
        let tx = block.transactions_item(place);
        let made = made_by(&tx, lock, last);
        count += made.0;
        capacity += made.1;
    }
    (count, capacity)
}

/// How many inputs the transactions of a block after its first have.
fn inputs_in(block: &BlockView<'_>) -> u64
    ensures { result ≡ inputs_of block.now }
{
    let mut count = 0;
    'transactions: for place in 1..block.transactions_count() {
        count += block.transactions_item(place).raw().inputs_count() as u64;
    }
    count
}

/// What the block at a place, which is not the genesis, leaves a lock of the cells that it makes. Where it spends as many cells
/// from before it as it has inputs, it spends none that it makes, and its outputs say it; else its cells are needed with their
/// out-points.
fn left_for(
    alloc: Global,
    block: &BlockView<'_>,
    place: u32,
    spent: usize,
    lock: &[u8; 32],
    last: &mut LastScript,
) -> Result<(u64, u128), NoMemory>
    ensures { (height : ℕ) (before : out_point → Option Row) → 0 < height → AllFit (events_of_block height block.now) (are_live before)
        → length (spent_of (events_of_block height block.now) before) ≡ spent
        → IfOk result (Changes lock.now before (row_after place (events_of_block height block.now) before)
        (sum_of (filter (is_of lock.now) (spent_of (events_of_block height block.now) before)))) }
{
    if inputs_in(block) == spent as u64 {
        return Ok(made_in(block, lock, last));
    }
    match left_by(alloc, block, place) {
        Ok(left) => Ok(sum_in(&left, lock)),
        Err(stop) => Err(stop),
    }
}

/// What a block changes of a lock's cells: what goes of those from before it, and what comes.
#[derive(Clone, Copy)]
struct Moved {
    spent: (u64, u128),
    left: (u64, u128),
}

/// What the kept block at a place, which is not the genesis, changes of a lock's cells.
fn change_for<B: Blocks>(
    alloc: Global,
    blocks: &mut B,
    place: u32,
    lock: &[u8; 32],
    last: &mut LastScript,
) -> Result<Moved, ReadStop>
    requires later { 0 < place }
    requires within { place < B.count blocks.old }
    ensures read { HasRead B.told B.count B.loans_of B.faults B.damages blocks.old blocks.new (stop_of result) }
    ensures changes { (stored : List Stored) (parent : ℕ) → B.told blocks.old ≡ Some stored → IsStep stored parent place
        → IfOk result (λ it. Changes lock.now (live_row (blocks_of stored) parent) (live_row (blocks_of stored) place) it.spent it.left) }
    ensures undamaged { IsSome (B.told blocks.old) → (damage : Damage) → result ≡ Err (Damaged damage) → ⊥ }
{
    let spent = match spent_at(alloc, blocks, place) {
        Ok(spent) => spent,
        Err(stop) => return Err(stop),
    };
    let count = spent.len();
    match left_for(alloc, &blocks.block(), place, count, lock, last) {
        Ok(left) => Ok(Moved {
            spent: sum_in(&spent, lock),
            left,
        }),
        Err(_) => Err(ReadStop::NoMemory),
    }
}

/// Sums less some and then others more. Odd where they are less than what is to go; out of memory where they would be more than
/// their numbers hold.
fn exchanged(sum: (u64, u128), gone: (u64, u128), come: (u64, u128)) -> Result<(u64, u128), Stop>
    ensures count { IfOk result (λ it. it.0 + gone.0 ≡ sum.0 + come.0) }
    ensures capacity { IfOk result (λ it. it.1 + gone.1 ≡ sum.1 + come.1) }
    ensures odd { (rest : ℕ × ℕ) → rest.0 + gone.0 ≡ sum.0 + come.0 → rest.1 + gone.1 ≡ sum.1 + come.1 → result ≡ Err Odd → ⊥ }
{
    let Some(count) = sum.0.checked_add(come.0) else {
        return Err(Stop::NoMemory);
    };
    let Some(capacity) = sum.1.checked_add(come.1) else {
        return Err(Stop::NoMemory);
    };
    if count < gone.0 {
        return Err(Stop::Odd);
    }
    if capacity < gone.1 {
        return Err(Stop::Odd);
    }
    Ok((count - gone.0, capacity - gone.1))
}

impl Follows for Balance {
    ghost use Rattle.std.specs.Prelude.{ℕ, List};

    ghost What = { List ℕ };

    ghost stands = { IsBalance };

    fn taken<B: Blocks>(
        self,
        alloc: Global,
        tree: &Tree,
        blocks: &mut B,
        place: u32,
    ) -> Result<Balance, ReadStop> {
        let Balance {
            lock,
            sum,
            mut last,
        } = self;
        let change = match change_for(alloc, blocks, place, &lock, &mut last) {
            Ok(change) => change,
            Err(stop) => return Err(stop),
        };
        match exchanged(sum, change.spent, change.left) {
            Ok(sum) => Ok(Balance { lock, sum, last }),
            Err(Stop::Odd) => Err(damaged_at(tree, blocks, place)),
            Err(Stop::NoMemory) => Err(ReadStop::NoMemory),
        }
    }

    fn taken_back<B: Blocks>(
        self,
        alloc: Global,
        tree: &Tree,
        blocks: &mut B,
        place: u32,
    ) -> Result<Balance, ReadStop> {
        let Balance {
            lock,
            sum,
            mut last,
        } = self;
        let change = match change_for(alloc, blocks, place, &lock, &mut last) {
            Ok(change) => change,
            Err(stop) => return Err(stop),
        };
        match exchanged(sum, change.left, change.spent) {
            Ok(sum) => Ok(Balance { lock, sum, last }),
            Err(Stop::Odd) => Err(damaged_at(tree, blocks, place)),
            Err(Stop::NoMemory) => Err(ReadStop::NoMemory),
        }
    }
}

impl Balance {
    /// Of a lock, by its hash, and of the live cells of a branch.
    pub fn of(alloc: Global, state: &State, lock: &[u8; 32]) -> Result<Balance, NoMemory>
        ensures { (kept : List Block) (place : ℕ) → AreRowsOfBranch kept place (rows state.now) → IfOk result (IsBalance lock.now kept place) }
    {
        let list = match state.sorted(alloc) {
            Ok(list) => list,
            Err(_) => return Err(NoMemory),
        };
        let sum = sum_in(&list, lock);
        Ok(Balance {
            lock: *lock,
            sum,
            last: LastScript::new(),
        })
    }

    /// How many cells the lock has, and what they hold together, in shannons. It takes no memory.
    pub fn sum(&self) -> (u64, u128)
        ensures { result ≡ self.now.sum }
    {
        self.sum
    }

    /// The balance on the branch of one place, moved to that of another: down to their fork, a block taken back each step, and up
    /// from there, a block taken each step. It looks at the blocks on the way and at nothing else. Damaged, at its record, where
    /// the source finds a block on the way damaged, or what it changes does not fit the balance. After an error it is gone.
    pub fn follow<B: Blocks>(
        self,
        alloc: Global,
        tree: &Tree,
        blocks: &mut B,
        from: u32,
        to: u32,
    ) -> Result<Balance, ReadStop>
        requires from { from < length tree.now.entries }
        requires to { to < length tree.now.entries }
        requires counts { B.count blocks.old ≡ length tree.now.entries }
        ensures read { HasRead B.told B.count B.loans_of B.faults B.damages blocks.old blocks.new (stop_of result) }
        ensures stands { (lock : List ℕ) (stored : List Stored) → B.told blocks.old ≡ Some stored → IndexesBlocks (blocks_of stored) tree.now.entries
            → CanBeFollowed stored from to → IsBalance lock (blocks_of stored) from self → IfOk result (IsBalance lock (blocks_of stored) to) }
        ensures undamaged { (lock : List ℕ) (stored : List Stored) → B.told blocks.old ≡ Some stored → IndexesBlocks (blocks_of stored) tree.now.entries
            → CanBeFollowed stored from to → IsBalance lock (blocks_of stored) from self → (damage : Damage) → result ≡ Err (Damaged damage) → ⊥ }
        ensures at_record { (kept : List Block) → IndexesBlocks kept tree.now.entries → IsSome (B.told blocks.old) → (damage : Damage) → result ≡ Err (Damaged damage)
            → (place : ℕ) × (IsOnTheWay kept from to place × IsAtRecord tree.now.entries place damage) }
    {
        moved(alloc, self, tree, blocks, from, to)
    }
}
