//! Formats, time, money, and the rules on a block apart from its transactions: tries each row of its standard input, and
//! prints the rows that differ.
//!
//! A row is a word and its columns, with a tab between two, bytes in hex. After `time` stands what is called of epochs, sinces
//! and the DAO's numbers, then its arguments and its answer; numbers are in decimal, or in hex after `0x`. These answers come
//! from the rules and were worked by hand.
//!
//! After `rule` stands a rule as it is printed, and its line in docs/RULES.md. After `format` stands a row on encodings,
//! hashes, roots and blocks as JSON: formats.rt says what it is.
//!
//! The other rows are about a chain. `spec` and `genesis` begin a chain, and a `block`
//! joins it whatever rules it breaks; a `kept` block has its ext beside it. `earliest` asks for the earliest proposer of an
//! id, `uncles` for J15, `reward` for a reward, and `totals` and `unfit` for the running totals of a branch, each of the
//! blocks that joined so far: tests/rows/windows.py, uncles.py, rewards.py and totals.py there make these rows, and say what
//! their columns are. A row that begins with
//! `joined`, `known` or `refused J` and a number is an item that must be answered so: it joins where it keeps J4 to J14. Such
//! rows before the first `spec` of tests/rows/rule_blocks.py were made by a program that was written from docs/RULES.md alone.
//! Those of rule_blocks.py stand after them, then those on the window, on uncles, on rewards and on totals.
#![tactic(auto)]

mod chain;
mod dao;
mod digests;
mod epoch;
mod fields;
mod formats;
mod given;
mod items;
mod json;
mod names;
mod parts;
mod since;
mod time;
mod totals;
mod uncles;
mod views;
mod window;

use chain::{Chain, chain_of, ext_of, join, take};
use epochs::Spec;
use mol_schema::BlockView;
use row_table::{Row, Subject, all_agree};
use std::alloc::Global;
use std::io;
use std::process::ExitCode;

/// The chain of the rows so far, and the specification that waits for its genesis.
#[derive(Drop)]
struct Table {
    spec: Option<Spec>,
    chain: Option<Chain>,
}

impl Table {
    fn begin_spec(&mut self, alloc: Global, row: &mut Row) -> Option<bool> {
        self.spec = Spec::read(&row.bytes(alloc)?).ok();
        Some(self.spec.is_some())
    }

    fn begin_chain(&mut self, alloc: Global, row: &mut Row) -> Option<bool> {
        let bytes = row.bytes(alloc)?;
        self.begins(alloc, &BlockView::read(&bytes)?)
    }

    fn begins(&mut self, alloc: Global, genesis: &BlockView<'_>) -> Option<bool> {
        self.chain = chain_of(alloc, self.spec?, genesis);
        let ext = ext_of(alloc, genesis)?;
        Some(take(alloc, self.chain.as_mut()?, genesis, ext, 0).is_some())
    }
}

/// Joins a block whose fees are 0, and says that it did.
fn joins(alloc: Global, chain: &mut Chain, row: &mut Row) -> Option<bool> {
    let bytes = row.bytes(alloc)?;
    let block = BlockView::read(&bytes)?;
    join(alloc, chain, &block, ext_of(alloc, &block)?)?;
    Some(true)
}

/// Joins a block with the ext that its row has, and says that it did.
fn joins_with_ext(alloc: Global, chain: &mut Chain, row: &mut Row) -> Option<bool> {
    let bytes = row.bytes(alloc)?;
    let ext = row.bytes(alloc)?;
    join(alloc, chain, &BlockView::read(&bytes)?, ext)?;
    Some(true)
}

/// Whether an item is answered as its row wants.
fn is_answered(alloc: Global, chain: &mut Chain, wanted: &str, row: &mut Row) -> Option<bool> {
    let item = row.bytes(alloc)?;
    items::is_answered(alloc, chain, &item, wanted)
}

/// Whether the rule on uncles holds as a row has it.
fn has_uncles(alloc: Global, chain: &Chain, row: &mut Row) -> Option<bool> {
    let parent = row.short()?;
    let block = row.bytes(alloc)?;
    Some(uncles::keeps(alloc, chain, parent, &block)? == row.is("yes", "no")?)
}

/// The id of a transaction.
fn id_of(alloc: Global, row: &mut Row) -> Option<[u8; 10]> {
    <[u8; 10]>::try_from(&row.bytes(alloc)?[..]).ok()
}

/// Whether the earliest proposer is the one of a row.
fn is_proposed(alloc: Global, chain: &mut Chain, row: &mut Row) -> Option<bool> {
    let parent = row.short()?;
    let id = id_of(alloc, row)?;
    match window::found(chain, parent, &id, row.number()?)? {
        Some(proposer) => Some(proposer == row.number()?),
        None => Some(row.rest() == "none"),
    }
}

/// Whether a reward is the one of a row.
fn is_given(alloc: Global, chain: &mut Chain, row: &mut Row) -> Option<bool> {
    let parent = row.short()?;
    let target = row.number()?;
    match given::found(alloc, chain, parent, target)? {
        Some(reward) => Some(reward == row.number()?),
        None => Some(row.rest() == "overflow"),
    }
}

fn agrees_on_chain(alloc: Global, chain: &mut Chain, word: &str, row: &mut Row) -> Option<bool> {
    match word {
        "block" => joins(alloc, chain, row),
        "kept" => joins_with_ext(alloc, chain, row),
        "earliest" => is_proposed(alloc, chain, row),
        "uncles" => has_uncles(alloc, chain, row),
        "reward" => is_given(alloc, chain, row),
        "totals" => totals::agree(alloc, chain, row),
        "unfit" => totals::are_unfit(alloc, chain, row),
        wanted => is_answered(alloc, chain, wanted, row),
    }
}

impl Subject for Table {
    fn agrees(&mut self, alloc: Global, row: &mut Row<'_>) -> Option<bool> {
        match row.word() {
            "format" => formats::agrees(alloc, row),
            "time" => time::agrees(alloc, row),
            "rule" => names::agrees(alloc, row),
            "spec" => self.begin_spec(alloc, row),
            "genesis" => self.begin_chain(alloc, row),
            word => agrees_on_chain(alloc, self.chain.as_mut()?, word, row),
        }
    }
}

fn all_rows_agree(rt: HostRuntime) -> io::Result<bool> {
    let mut table = Table {
        spec: None,
        chain: None,
    };
    let all = all_agree(rt, &mut table);
    drop(table);
    all
}

fn main(rt: HostRuntime) -> io::Result<ExitCode> {
    let all = all_rows_agree(rt)?;
    Ok(ExitCode::from(u8::from(!all)))
}
