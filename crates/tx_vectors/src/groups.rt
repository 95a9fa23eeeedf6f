//! A transaction with what it resolves to, as a row has it, and what comes of its script groups.

use crate::cells::meta_in;
use crate::kept::Chain;
use cell_state::{OutPoint, Resolved, ResolvedTx};
use mol_schema::TxView;
use row_table::Row;
use script_run::{ScriptStop, run_groups};
use std::alloc::Global;
use verdict_defs::Failure;
use view_hashes::transaction_hash;

/// Bytes that rows name.
#[derive(Drop)]
pub(crate) struct Blob {
    name: String,
    bytes: Vec<u8>,
}

/// A blob with this name and the bytes of a column.
pub(crate) fn blob_with(alloc: Global, name: &str, bytes: Vec<u8>) -> Option<Blob> {
    let name = String::from_str(alloc, name).ok()?;
    Some(Blob { name, bytes })
}

/// The greatest budget of a call.
const MOST_CYCLES: u64 = 1 << 40;

fn blob_of<'a>(blobs: &'a [Blob], name: &str) -> Option<&'a [u8]> {
    for blob in blobs {
        if blob.name.as_str() == name {
            return Some(blob.bytes.as_slice());
        }
    }
    None
}

/// A cell of a row. What is kept of it is computed here; its out-point is any.
fn cell_of(alloc: Global, blobs: &[Blob], text: &str) -> Option<Resolved> {
    let (block, text) = text.split_once(',')?;
    let (tx, text) = text.split_once(',')?;
    let (output, content) = text.split_once(',')?;
    let output = blob_of(blobs, output)?;
    let content = blob_of(blobs, content)?;
    let meta = meta_in(block.parse().ok()?, tx.parse().ok()?, output, content)?;
    let out_point = OutPoint {
        tx_hash: [7; 32],
        index: 7,
    };
    Some(Resolved {
        out_point,
        meta,
        output: output.to_vec(alloc).ok()?,
        content: content.to_vec(alloc).ok()?,
    })
}

fn cells_of(alloc: Global, blobs: &[Blob], column: &str) -> Option<Vec<Resolved>> {
    let mut cells = Vec::new(alloc);
    if column == "-" {
        return Some(cells);
    }
    for text in column.split(' ') {
        cells.push(cell_of(alloc, blobs, text)?).ok()?;
    }
    Some(cells)
}

fn places_of(alloc: Global, column: &str) -> Option<Vec<u32>> {
    let mut places = Vec::new(alloc);
    if column == "-" {
        return Some(places);
    }
    for text in column.split(' ') {
        places.push(text.parse().ok()?).ok()?;
    }
    Some(places)
}

/// A transaction with the cells of its inputs, its resolved deps and the places of its header deps.
fn resolved_of<'a>(
    alloc: Global,
    blobs: &[Blob],
    tx: TxView<'a>,
    row: &mut Row,
) -> Option<ResolvedTx<'a>> {
    let inputs = cells_of(alloc, blobs, row.word())?;
    let deps = cells_of(alloc, blobs, row.word())?;
    let headers = places_of(alloc, row.word())?;
    Some(ResolvedTx {
        hash: transaction_hash(&tx),
        tx,
        inputs,
        deps,
        headers,
    })
}

/// What the groups of a transaction are answered within a budget. None where they may not be run.
fn outcome(
    alloc: Global,
    chain: &mut Chain,
    tx: &ResolvedTx<'_>,
    budget: u64,
) -> Option<Result<u64, ScriptStop>> {
    if budget > MOST_CYCLES || chain.blocks.len() != chain.tree.len() {
        return None;
    }
    Some(run_groups(
        alloc,
        &chain.spec,
        tx,
        &chain.tree,
        &mut chain.blocks,
        budget,
        chain.spec.is_second_at(0),
    ))
}

/// How a transaction's groups are run, so many times, and what each run is to be answered: a word, the place of a group or the
/// cycles, and a number.
#[derive(Clone, Copy)]
struct Asked<'a> {
    budget: u64,
    rounds: u32,
    word: &'a str,
    group: u64,
    number: i64,
}

fn asked_of<'a>(rounds: u32, budget: u64, wanted: &'a str) -> Option<Asked<'a>> {
    let mut words = wanted.split(' ');
    let word = words.next()?;
    let group = words.next().unwrap_or("0").parse().ok()?;
    let number = words.next().unwrap_or("0").parse().ok()?;
    Some(Asked {
        budget,
        rounds,
        word,
        group,
        number,
    })
}

/// A failure as its word, the place of its group and its number.
fn told(failure: Failure) -> (&'static str, u64, i64) {
    match failure {
        Failure::NoCode(group) => ("no_code", u64::from(group), 0),
        Failure::ManyCodes(group) => ("many_codes", u64::from(group), 0),
        Failure::BadElf(group, number) => ("bad_elf", u64::from(group), i64::from(number)),
        Failure::MachineFault(group, number) => ("fault", u64::from(group), i64::from(number)),
        Failure::ExitNot0(group, number) => ("exit", u64::from(group), i64::from(number)),
        Failure::Spent => ("spent", 0, 0),
    }
}

fn is_wanted(got: Result<u64, ScriptStop>, asked: &Asked<'_>) -> bool {
    let (word, group, number) = match got {
        Ok(cycles) => ("ok", cycles, 0),
        Err(ScriptStop::Failed(failure)) => told(failure),
        Err(_) => return false,
    };
    word == asked.word && group == asked.group && number == asked.number
}

/// Whether each run is answered as is wanted.
fn agree(alloc: Global, chain: &mut Chain, tx: &ResolvedTx<'_>, asked: &Asked<'_>) -> Option<bool> {
    for _ in 0..asked.rounds {
        if !is_wanted(outcome(alloc, chain, tx, asked.budget)?, asked) {
            return Some(false);
        }
    }
    Some(true)
}

/// Whether a transaction is answered as its row wants, so many times; None where that is none.
pub(crate) fn agrees(
    alloc: Global,
    blobs: &[Blob],
    chain: &mut Chain,
    rounds: u32,
    row: &mut Row,
) -> Option<bool> {
    let wanted = row.word();
    let asked = asked_of(rounds, row.number()?, wanted)?;
    let bytes = row.bytes(alloc)?;
    let tx = resolved_of(alloc, blobs, TxView::read(&bytes)?, row)?;
    let answer = agree(alloc, chain, &tx, &asked);
    drop(tx);
    answer
}
