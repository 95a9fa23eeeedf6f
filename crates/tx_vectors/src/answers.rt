//! What a transaction is answered, alone after the last block or in the next one.

use crate::kept::{Chain, is_placed};
use cell_state::{ListBlocks, Resolved, State};
use mol_schema::{BlockView, TxView};
use outside::Steps;
use std::alloc::Global;
use std::string::String;
use std::sync::ledger::Ledger;
use tx_rules::{JudgedTx, Own, TxAt, TxOk, TxStop, resolve};
use view_hashes::transaction_hash;

/// Adds a word, after a comma but for the first.
fn add_word(text: &mut String, word: &str) -> Option<()> {
    if !text.is_empty() {
        text.push(',').ok()?;
    }
    text.push_str(word).ok()
}

/// The index of each cell and the length of its data.
fn cells_text(alloc: Global, cells: &[Resolved]) -> Option<String> {
    if cells.is_empty() {
        return format!(in alloc; "-").ok();
    }
    let mut text = String::new(alloc);
    for cell in cells {
        let index = cell.out_point.index;
        let len = cell.content.len();
        add_word(&mut text, format!(in alloc; "{index}/{len}").ok()?.as_str())?;
    }
    Some(text)
}

fn places_text(alloc: Global, places: &[u32]) -> Option<String> {
    if places.is_empty() {
        return format!(in alloc; "-").ok();
    }
    let mut text = String::new(alloc);
    for place in places {
        add_word(&mut text, format!(in alloc; "{place}").ok()?.as_str())?;
    }
    Some(text)
}

fn ok_text(alloc: Global, ok: &TxOk<'_>) -> Option<String> {
    let deps = cells_text(alloc, &ok.resolved.deps)?;
    let headers = places_text(alloc, &ok.resolved.headers)?;
    let fee = ok.fee;
    let interest = ok.interest;
    format!(in alloc; "ok {fee} {interest} {deps} {headers}").ok()
}

fn text_of(alloc: Global, answer: &Result<TxOk<'_>, TxStop>) -> Option<String> {
    match answer {
        Ok(ok) => ok_text(alloc, ok),
        Err(TxStop::Broken(rule)) => {
            let number = rule.number();
            format!(in alloc; "broken {number}").ok()
        }
        Err(TxStop::Read(_)) => None,
    }
}

/// What a transaction is answered at a place, over live cells and kept blocks; None where it may not be judged there.
fn answer(
    alloc: Global,
    tx: &TxView<'_>,
    at: &TxAt<'_, '_, '_>,
    state: &State,
    blocks: &mut ListBlocks,
) -> Option<String> {
    if !is_placed(at) || blocks.len() != at.tree.len() {
        return None;
    }
    let judged = JudgedTx {
        tx,
        hash: transaction_hash(tx),
        proposed: true,
    };
    let resolved = resolve(alloc, &judged, at, state, blocks, Vec::new(alloc));
    text_of(alloc, &resolved)
}

/// What a transaction is answered alone, after the last block.
pub(crate) fn alone(alloc: Global, chain: &mut Chain, bytes: &[u8]) -> Option<String> {
    let tx = TxView::read(bytes)?;
    let at = TxAt {
        spec: &chain.spec,
        tree: &chain.tree,
        parent: chain.tree.len() - 1,
        block: None,
    };
    answer(alloc, &tx, &at, &chain.state, &mut chain.blocks)
}

/// The transactions of a block before a place.
fn so_far<'a>(alloc: Global, block: &BlockView<'a>, place: usize) -> Option<Vec<TxView<'a>>> {
    let mut transactions = Vec::new(alloc);
    for i in 0..block.transactions_count() {
        if i < place {
            transactions.push(block.transactions_item(i)).ok()?;
        }
    }
    Some(transactions)
}

/// What a transaction is answered in the next block, of which these are at hand.
fn answer_in(
    alloc: Global,
    chain: &mut Chain,
    state: &State,
    own: Own<'_, '_>,
    tx: &TxView<'_>,
) -> Option<String> {
    let at = TxAt {
        spec: &chain.spec,
        tree: &chain.tree,
        parent: chain.tree.len() - 1,
        block: Some(own),
    };
    answer(alloc, tx, &at, state, &mut chain.blocks)
}

/// What the transaction at a place of the next block is answered, over the live cells before it: the same in the whole block
/// and where those before it stand apart, or None.
fn answer_at(
    alloc: Global,
    chain: &mut Chain,
    state: &State,
    place: usize,
    bytes: &[u8],
) -> Option<String> {
    let block = BlockView::read(bytes)?;
    if place >= block.transactions_count() {
        return None;
    }
    let tx = block.transactions_item(place);
    let first = so_far(alloc, &block, place)?;
    let timestamp = block.header().timestamp();
    let apart = answer_in(alloc, chain, state, Own::so_far(timestamp, &first), &tx)?;
    let whole = answer_in(alloc, chain, state, Own::of_block(block), &tx)?;
    if apart.as_str() != whole.as_str() {
        return None;
    }
    Some(whole)
}

/// What a transaction is answered that stands after those of an earlier block with the same place.
pub(crate) fn within<L: Ledger>(
    alloc: Global,
    steps: &mut Steps<L>,
    chain: &mut Chain,
    earlier: &[u8],
    bytes: &[u8],
) -> Option<String> {
    let place = BlockView::read(earlier)?.transactions_count();
    let mut state = chain.first_state(alloc)?;
    let answer = match chain.apply_all(alloc, &mut state, steps, earlier) {
        Some(()) => answer_at(alloc, chain, &state, place, bytes),
        None => None,
    };
    drop(state);
    answer
}
