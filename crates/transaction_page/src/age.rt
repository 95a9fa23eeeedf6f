// J23 and J24: how old the cells of a transaction are.
ghost use Rattle.std.specs.Prelude.{◌≡◌, ◌<◌, ◌≤◌, length};
ghost use Rattle.chain_tree.specs.Reading.{HasRead, stop_of};

use crate::cells::{Spent, push_input, spent_at};
use crate::deps::{dep_rows, push_dep};
use crate::page::Page;
use crate::site::{Site, median_of};
use cell_state::{CellMeta, Cells};
use chain_tree::Blocks;
use epochs::{parts, well_formed};
use mol_schema::TxView;
use outside::ReadStop;
use std::alloc::Global;

/// How many blocks the span of an epoch value takes, where each epoch has so many.
fn blocks_of(value: u64, epoch_length: u32) -> u64 {
    let span = parts(value);
    let each = u128::from(epoch_length);
    if span.length == 0 {
        return as_u64(u128::from(span.number).saturating_mul(each));
    }
    let length = u128::from(span.length);
    let count = u128::from(span.number)
        .saturating_mul(length)
        .saturating_add(u128::from(span.index));
    as_u64(count.saturating_mul(each).saturating_add(length - 1) / length)
}

fn as_u64(number: u128) -> u64 {
    match u64::try_from(number) {
        Ok(number) => number,
        Err(_) => u64::MAX,
    }
}

/// The first height at which the span of maturity is over from a block.
pub(crate) fn first_mature<C: Cells>(site: &Site<'_, '_, '_, '_, '_, C>, made: u64) -> u64 {
    let spec = site.spec;
    made.saturating_add(blocks_of(spec.maturity, spec.epoch_length))
}

/// Whether a cell is a cellbase output that may not be used yet.
fn is_immature<C: Cells>(site: &Site<'_, '_, '_, '_, '_, C>, meta: &CellMeta) -> bool {
    let made = site.made_at(meta);
    meta.tx == 0 && made > 0 && site.height() < first_mature(site, made)
}

fn push_immature<C: Cells>(page: &mut Page, site: &Site<'_, '_, '_, '_, '_, C>, meta: &CellMeta) {
    let made = site.made_at(meta);
    page.add("found an output of the cellbase of block ");
    page.number(made);
    page.add(", used in block ");
    page.number(site.height());
    page.add("\nwanted block ");
    page.number(first_mature(site, made));
    page.add(" or later, when the span maturity is over\n");
}

/// The first input that is not mature.
fn first_immature<C: Cells>(
    site: &Site<'_, '_, '_, '_, '_, C>,
    tx: &TxView<'_>,
) -> Option<(usize, Spent)> {
    'inputs: for i in 0..tx.raw().inputs_count() {
        if let Some(spent) = spent_at(site, tx, i) {
            if is_immature(site, &spent.meta) {
                return Some((i, spent));
            }
        }
    }
    None
}

/// J23: which input or dep is an output of a cellbase that may not be used yet.
pub(crate) fn explain_maturity<C: Cells, B: Blocks>(
    alloc: Global,
    page: &mut Page,
    site: &Site<'_, '_, '_, '_, '_, C>,
    blocks: &mut B,
    tx: &TxView<'_>,
) -> Result<(), ReadStop>
    requires counts { B.count blocks.old ≡ length site.now.tree.now.entries }
    ensures read { HasRead B.told B.count B.loans_of B.faults B.damages blocks.old blocks.new (stop_of result) }
{
    if let Some((i, spent)) = first_immature(site, tx) {
        push_input(page, i, &spent.o);
        push_immature(page, site, &spent.meta);
        return Ok(());
    }
    let found = match dep_rows(alloc, site, blocks, tx) {
        Ok(found) => found,
        Err(stop) => return Err(stop),
    };
    'rows: for i in 0..found.rows.len() {
        let row = &found.rows[i];
        if is_immature(site, &row.meta) {
            push_dep(page, row.dep, row.member, &row.o);
            push_immature(page, site, &row.meta);
            break;
        }
    }
    Ok(())
}

/// The fields of a since: whether it is relative, its metric, bits 56 to 60, and its value.
#[derive(Clone, Copy)]
struct Since {
    is_relative: bool,
    metric: u64,
    reserved: u64,
    value: u64,
}

fn fields_of(since: u64) -> Since {
    Since {
        is_relative: (since >> 63) % 2 == 1,
        metric: (since >> 61) % 4,
        reserved: (since >> 56) % 32,
        value: since % (1 << 56),
    }
}

/// What a since waits for, where it is valid.
#[derive(Clone, Copy)]
enum Wait {
    /// The first height at which it is met.
    Height(u64),
    /// The least median time at the parent, in milliseconds.
    Time(u128),
}

fn wait_of<C: Cells>(
    site: &Site<'_, '_, '_, '_, '_, C>,
    since: &Since,
    meta: &CellMeta,
) -> Option<Wait> {
    let spec = site.spec;
    let made = if since.is_relative {
        site.made_at(meta)
    } else {
        0
    };
    match since.metric {
        0 => Some(Wait::Height(made.saturating_add(since.value))),
        1 => Some(Wait::Height(made.saturating_add(blocks_of(since.value, spec.epoch_length)))),
        2 => {
            let start = if since.is_relative {
                u128::from(site.start_of(meta))
            } else {
                0
            };
            let more = u128::from(since.value).saturating_mul(1000);
            Some(Wait::Time(start.saturating_add(more)))
        }
        _ => None,
    }
}

/// Whether the fields of a since are valid: what is wrong, and what is wanted.
fn invalid(since: &Since) -> Option<(&'static str, &'static str)> {
    if since.reserved != 0 {
        return Some(("bits 56 to 60 that are not zero", "zero"));
    }
    if since.metric == 3 {
        return Some(("metric 3", "0, blocks, 1, epochs, or 2, seconds"));
    }
    if since.metric == 1 && !well_formed(since.value) {
        return Some((
            "an epoch value whose index is not below its length",
            "an index below the length, or both 0",
        ));
    }
    None
}

fn is_met<C: Cells>(site: &Site<'_, '_, '_, '_, '_, C>, wait: &Wait) -> bool {
    match wait {
        Wait::Height(height) => site.height() >= *height,
        Wait::Time(time) => u128::from(median_of(site.tree, site.parent)) >= *time,
    }
}

/// Appends what a since says in words.
fn push_words<C: Cells>(
    page: &mut Page,
    site: &Site<'_, '_, '_, '_, '_, C>,
    since: &Since,
    meta: &CellMeta,
) {
    match since.metric {
        0 => {
            page.number(since.value);
            page.add(" blocks");
        }
        1 => {
            let epochs = parts(since.value);
            page.number(epochs.number);
            if epochs.length > 0 {
                page.add(" ");
                page.number(u64::from(epochs.index));
                page.add("/");
                page.number(u64::from(epochs.length));
            }
            page.add(" epochs");
        }
        _ => {
            page.number(since.value);
            page.add(" seconds");
        }
    }
    if since.is_relative {
        page.add(" after block ");
        page.number(site.made_at(meta));
        page.add(", which made the cell\n");
    } else {
        page.add(" from the start\n");
    }
}

fn push_wait<C: Cells>(page: &mut Page, site: &Site<'_, '_, '_, '_, '_, C>, wait: &Wait) {
    match wait {
        Wait::Height(height) => {
            page.add("wanted block ");
            page.number(*height);
            page.add(" or later; this is block ");
            page.number(site.height());
        }
        Wait::Time(time) => {
            page.add("wanted a median time at the parent of ");
            page.big(*time);
            page.add(" or later; it is ");
            page.number(median_of(site.tree, site.parent));
        }
    }
    page.add("\n");
}

/// J24: which since is not valid or not met, and when it is.
pub(crate) fn explain_since<C: Cells>(
    page: &mut Page,
    site: &Site<'_, '_, '_, '_, '_, C>,
    tx: &TxView<'_>,
) {
    let raw = tx.raw();
    'inputs: for i in 0..raw.inputs_count() {
        let value = raw.inputs_item(i).since();
        let since = fields_of(value);
        let Some(spent) = spent_at(site, tx, i) else {
            return;
        };
        if let Some((found, wanted)) = invalid(&since) {
            push_input(page, i, &spent.o);
            page.add("found since ");
            page.hex(value);
            page.add(": ");
            page.add(found);
            page.add("\nwanted ");
            page.add(wanted);
            page.add("\n");
            return;
        }
        let Some(wait) = wait_of(site, &since, &spent.meta) else {
            return;
        };
        if !is_met(site, &wait) {
            push_input(page, i, &spent.o);
            page.add("found since ");
            page.hex(value);
            page.add(": ");
            push_words(page, site, &since, &spent.meta);
            push_wait(page, site, &wait);
            return;
        }
    }
}
