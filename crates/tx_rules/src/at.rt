// Where a transaction is judged.
ghost use Rattle.std.specs.Prelude.{◌≡◌, ℕ};
ghost use Rattle.std.specs.Option.{option_map};
ghost use Rattle.outside.specs.declared.disk.Area.TheVariants.{Log};
ghost use Rattle.cell_state.specs.Copies.{output_in};
ghost use Rattle.tx_rules.specs.Own.{of_transactions};
ghost use Rattle.tx_rules.specs.Seen.{log_place};

use cell_state::{CellMeta, OutPoint, data_at, output_at};
use chain_tree::Tree;
use epochs::Spec;
use mol_schema::{BlockView, OutputView, TxView};
use outside::{Area, Damage};
use std::marker::Model;

/// Where transactions stand: in a whole block, or apart, with the block's timestamp.
#[derive(Drop)]
enum Held<'a, 'b> {
    Block(BlockView<'b>),
    Apart(u64, &'a [TxView<'b>]),
}

/// The timestamp and the transactions of the block that is judged: of a whole block, or of one into which they were put so
/// far. Clauses see a block that has these.
#[derive(Drop)]
pub struct Own<'a, 'b> {
    held: Held<'a, 'b>,
}

impl<'a, 'b> Model for Own<'a, 'b> {
    ghost use Rattle.chain_defs.specs.Schema.{Block};
    ghost use Rattle.tx_rules.specs.Own.{block_of};

    ghost Value = { Block };

    ghost view = { λ own. block_of own.held };
}

impl<'a, 'b> Own<'a, 'b> {
    ghost use Rattle.std.specs.Prelude.{◌≡◌};
    ghost use Rattle.std.specs.Option.{option_map};
    ghost use Rattle.cell_state.specs.Copies.{output_in};
    ghost use Rattle.tx_rules.specs.Own.{of_transactions};

    /// Those of a whole block.
    pub fn of_block(block: BlockView<'b>) -> Own<'a, 'b>
        ensures { result ≡ block.entry }
    {
        Own {
            held: Held::Block(block),
        }
    }

    /// Those that were put into a block of this timestamp so far, in their order.
    pub fn so_far(timestamp: u64, transactions: &'a [TxView<'b>]) -> Own<'a, 'b>
        ensures { result ≡ of_transactions timestamp transactions.now }
    {
        Own {
            held: Held::Apart(timestamp, transactions),
        }
    }

    /// Milliseconds.
    pub(crate) fn timestamp(&self) -> u64
        ensures { result ≡ self.now.header.timestamp }
    {
        match &self.held {
            Held::Block(block) => block.header().timestamp(),
            Held::Apart(timestamp, _) => *timestamp,
        }
    }

    /// The output that a row names in the block, with its data: at the out-point's index, of the transaction at the row's
    /// place.
    pub(crate) fn output_at(
        &self,
        o: &OutPoint,
        meta: &CellMeta,
    ) -> Option<(OutputView<'b>, &'b [u8])>
        ensures { option_map (λ it. (it.0, it.1.now)) result ≡ output_in self.now meta.now.transaction o.now.index }
    {
        match &self.held {
            Held::Block(block) => output_at(block, o, meta),
            Held::Apart(_, transactions) => output_apart(transactions, o, meta),
        }
    }
}

/// The same among transactions that stand apart.
fn output_apart<'a>(
    transactions: &[TxView<'a>],
    o: &OutPoint,
    meta: &CellMeta,
) -> Option<(OutputView<'a>, &'a [u8])>
    ensures { (timestamp : ℕ) → option_map (λ it. (it.0, it.1.now)) result ≡ output_in (of_transactions timestamp transactions.now) meta.now.transaction o.now.index }
{
    if meta.tx as usize >= transactions.len() {
        return None;
    }
    let tx = &transactions[meta.tx as usize];
    let raw = tx.raw();
    let index = o.index as usize;
    if index >= raw.outputs_count() {
        return None;
    }
    Some((raw.outputs_item(index), data_at(tx, index)))
}

/// Where a transaction is judged: on a parent in the tree, in the block that is judged or, as a dry run, alone. A row
/// of its cells whose block is the tree's length names an output of that block.
#[derive(Drop)]
pub struct TxAt<'a, 'o, 'b> {
    pub spec: &'a Spec,
    pub tree: &'a Tree,
    /// The place of the parent in the tree.
    pub parent: u32,
    pub block: Option<Own<'o, 'b>>,
}

impl<'a, 'o, 'b> Model for TxAt<'a, 'o, 'b> {
    ghost use Rattle.tx_rules.specs.At.{AtValue};

    ghost Value = { AtValue };

    ghost view = { λ at. record { spec = at.spec.now; entries = at.tree.now.entries; parent = at.parent; block = at.block } };
}

impl<'a, 'o, 'b> TxAt<'a, 'o, 'b> {
    ghost use Rattle.std.specs.Prelude.{◌≡◌, ◌+◌, ◌^◌, ◌<◌, List, IsSomeAnd};
    ghost use Rattle.chain_defs.specs.Schema.{OutPoint};
    ghost use Rattle.std.specs.declared.option.Option.{Option};
    ghost use Rattle.chain_defs.specs.Row.{Row};
    ghost use Rattle.chain_tree.specs.Entries.{entry_at};
    ghost use Rattle.chain_tree.specs.Told.{Stored};
    ghost use Rattle.rule_defs.specs.Site.{Site, height_at};
    ghost use Rattle.rule_defs.specs.Age.{timestamp_of};
    ghost use Rattle.tx_rules.specs.At.{IsAtParent, IsSiteOf};

    /// The height of the block that the transaction stands in.
    pub fn height(&self) -> u64
        requires { IsAtParent self.now }
        ensures fits { result < 2 ^ 24 }
        ensures next { IsSomeAnd (entry_at self.now.entries self.now.parent) (λ parent. result ≡ parent.number + 1) }
        ensures height { (stored : List Stored) (rows : OutPoint → Option Row) (site : Site) → IsSiteOf stored self.now rows site → result ≡ height_at site }
    {
        self.tree.entry(self.parent).number + 1
    }

    /// The timestamp of that block, in milliseconds; 0 where there is none.
    pub(crate) fn timestamp(&self) -> u64
        ensures { result ≡ timestamp_of self.now.block }
    {
        match &self.block {
            None => 0,
            Some(own) => own.timestamp(),
        }
    }

    /// Whether that block stands under the second edition of the rules.
    pub(crate) fn is_second(&self) -> bool
        requires { IsAtParent self.now }
        ensures { (stored : List Stored) (rows : OutPoint → Option Row) (site : Site) → IsSiteOf stored self.now rows site → result ≡ site.second }
    {
        self.spec.is_second_at(self.height())
    }
}

/// Where a row is wrong: at its block in LOG, or at place 0 where that is not kept.
pub(crate) fn damage_of(at: &TxAt<'_, '_, '_>, meta: &CellMeta) -> Damage
    ensures area { result.area ≡ Log }
    ensures at { result.at ≡ log_place at.now.entries meta.now.block }
{
    let place = if meta.block < at.tree.len() {
        at.tree.entry(meta.block).at
    } else {
        0
    };
    Damage {
        area: Area::Log,
        at: place,
    }
}
