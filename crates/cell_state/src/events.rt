// The events of a block, one after the other.
ghost use Rattle.std.specs.Prelude.{◌≡◌, ◌+◌, ◌<◌, ◌^◌, ℕ, length, map, IfSome, Some, slice_get};
ghost use Rattle.std.specs.Option.{option_map};
ghost use Rattle.chain_defs.specs.Hashes.{transaction_hash};
ghost use Rattle.chain_defs.specs.Events.{events_of, events_of_block, out_point_of};
ghost use Rattle.chain_defs.specs.Row.{row_of};
ghost use Rattle.cell_state.specs.Walk.{height_of, spends_at, made_cell, value_of, IsNext};

use crate::made::Made;
use crate::{CellMeta, LastScript, OutPoint, data_at, meta_with, out_point_of};
use mol_schema::{BlockView, TxView};
use std::marker::Model;

impl<'a> Made<'a> {
    /// The row of the cell, which the block at this place makes.
    pub(crate) fn row(&self, block: u32, last: &mut LastScript) -> CellMeta
        ensures { (height : ℕ) → result ≡ row_of block (made_cell height self.now) }
    {
        let lock_hash = last.hash_of(&self.output.lock());
        meta_with(block, self.place, &self.output, self.content, lock_hash)
    }
}

/// A transaction makes a cell with an out-point, or spends the cell with it.
#[derive(Drop)]
pub(crate) enum Event<'a> {
    Makes(OutPoint, Made<'a>),
    Spends(OutPoint),
}

impl<'a> Event<'a> {
    pub(crate) fn out_point(&self) -> OutPoint
        ensures { (height : ℕ) → result ≡ out_point_of (value_of height self.now) }
    {
        match self {
            Event::Makes(o, _) => *o,
            Event::Spends(o) => *o,
        }
    }
}

/// How many cells a transaction spends: none in the genesis, nor does a cellbase.
fn spends_count(tx: &TxView<'_>, genesis: bool, place: u32) -> usize
    ensures count { result ≡ length (spends_at tx.now (height_of genesis) place) }
    ensures fits { result < 2 ^ 32 }
{
    if genesis || place == 0 {
        0
    } else {
        tx.raw().inputs_count()
    }
}

/// The event at an index among those of a transaction: its spends, where it has any, and then its makes.
fn event_at<'a>(
    tx: &TxView<'a>,
    tx_hash: [u8; 32],
    genesis: bool,
    place: u32,
    index: usize,
) -> Option<Event<'a>>
    requires { tx_hash ≡ transaction_hash tx.now }
    ensures event { option_map (value_of (height_of genesis)) result ≡ slice_get (events_of tx.now (height_of genesis) place) index }
    ensures few { IfSome result (λ _. index < 2 ^ 33) }
{
    let raw = tx.raw();
    let spends = spends_count(tx, genesis, place);
    if index < spends {
        let input = raw.inputs_item(index);
        return Some(Event::Spends(out_point_of(&input.previous_output())));
    }
    let output = index - spends;
    if output >= raw.outputs_count() {
        return None;
    }
    let out_point = OutPoint {
        tx_hash,
        index: output as u32,
    };
    let made = Made {
        output: raw.outputs_item(output),
        content: data_at(tx, output),
        place,
    };
    Some(Event::Makes(out_point, made))
}

/// The hash at a place.
fn hash_at(hashes: &[[u8; 32]], place: usize) -> [u8; 32]
    requires { place < length hashes.now }
    ensures { slice_get hashes.now place ≡ Some result }
{
    hashes[place]
}

/// The hash of the transaction at a place of a block.
fn hash_of(block: &BlockView<'_>, hashes: &[[u8; 32]], tx: &TxView<'_>, place: usize) -> [u8; 32]
    requires hashes { hashes.now ≡ map transaction_hash block.now.transactions }
    requires there { slice_get block.now.transactions place ≡ Some tx.now }
    ensures { result ≡ transaction_hash tx.now }
{
    hash_at(hashes, place)
}

/// The events of a block that are still to come. Clauses see their list.
#[derive(Drop)]
pub(crate) struct Events<'b, 'a> {
    block: &'b BlockView<'a>,
    /// The hashes of its transactions.
    hashes: &'b [[u8; 32]],
    genesis: bool,
    /// The place of the transaction that is walked.
    place: usize,
    /// How many of its events have come.
    index: usize,
}

impl<'b, 'a> Model for Events<'b, 'a> {
    ghost use Rattle.std.specs.Prelude.{◌≡◌, List, map};
    ghost use Rattle.chain_defs.specs.Hashes.{transaction_hash};
    ghost use Rattle.chain_defs.specs.Events as events;
    ghost use Rattle.cell_state.specs.Walk.{height_of, events_left};

    ghost Value = { List events.Event };

    ghost view = { λ walk. events_left walk.block.now.transactions (height_of walk.genesis) walk.place walk.index };

    ghost invariant = { λ walk. walk.hashes.now ≡ map transaction_hash walk.block.now.transactions };
}

impl<'b, 'a> Events<'b, 'a> {
    /// All events of a block, which is the genesis or stands at a height above 0. The hashes are those of its transactions.
    pub(crate) fn of(
        block: &'b BlockView<'a>,
        hashes: &'b [[u8; 32]],
        genesis: bool,
    ) -> Events<'b, 'a>
        requires { hashes.now ≡ map transaction_hash block.now.transactions }
        ensures { result ≡ events_of_block (height_of genesis) block.now }
    {
        Events {
            block,
            hashes,
            genesis,
            place: 0,
            index: 0,
        }
    }

    /// The next event.
    pub(crate) fn next(&mut self) -> Option<Event<'a>>
        ensures { IsNext self.old result self.new }
    {
        while self.place < self.block.transactions_count() {
            let tx = self.block.transactions_item(self.place);
            let tx_hash = hash_of(self.block, self.hashes, &tx, self.place);
            let event = event_at(&tx, tx_hash, self.genesis, self.place as u32, self.index);
            if let Some(event) = event {
                self.index += 1;
                return Some(event);
            }
            self.place += 1;
            self.index = 0;
        }
        None
    }
}
