// J20, and J25 to J27: the cells that a transaction spends and makes.
ghost use Rattle.std.specs.Prelude.{◌≡◌, ◌<◌, ◌≤◌, length};
ghost use Rattle.chain_tree.specs.Reading.{HasRead, stop_of};

use crate::history::{history_of, spends};
use crate::page::Page;
use crate::site::{Site, entry_at, hash_from};
use cell_state::{CellMeta, Cells, OutPoint, Resolved, copy_of, data_at, fetch, out_point_of};
use chain_tree::{Blocks, Tree};
use dao_math::{Dao, max_withdraw};
use mol_schema::{OutputView, TxView, WitnessArgsView};
use outside::{NoMemory, ReadStop};
use std::alloc::Global;
use view_hashes::{occupied_output, transaction_hash};

/// An input of a transaction with its row.
#[derive(Clone, Copy)]
pub(crate) struct Spent {
    pub(crate) o: OutPoint,
    pub(crate) meta: CellMeta,
}

/// The out-point of the input at a place, where there is one.
pub(crate) fn input_point(tx: &TxView<'_>, i: usize) -> Option<OutPoint> {
    let raw = tx.raw();
    if i < raw.inputs_count() {
        Some(out_point_of(&raw.inputs_item(i).previous_output()))
    } else {
        None
    }
}

/// The input at a place with its row, where its cell is live.
pub(crate) fn spent_at<C: Cells>(
    site: &Site<'_, '_, '_, '_, '_, C>,
    tx: &TxView<'_>,
    i: usize,
) -> Option<Spent> {
    let o = input_point(tx, i)?;
    let meta = site.row(&o)?;
    Some(Spent { o, meta })
}

/// Appends the place of an input: its place among the inputs, and its out-point.
pub(crate) fn push_input(page: &mut Page, i: usize, o: &OutPoint) {
    page.add("place input ");
    page.count(i);
    page.add(", cell ");
    page.out_point(o);
    page.add("\n");
}

/// The first input that spends what one before it spends, and that one.
fn spent_twice(tx: &TxView<'_>) -> Option<(usize, usize)> {
    let raw = tx.raw();
    'inputs: for i in 0..raw.inputs_count() {
        'before: for j in 0..i {
            if raw.inputs_item(j).previous_output().bytes()
                == raw.inputs_item(i).previous_output().bytes()
            {
                return Some((i, j));
            }
        }
    }
    None
}

/// The first input whose cell is not live.
fn first_lost<C: Cells>(
    site: &Site<'_, '_, '_, '_, '_, C>,
    tx: &TxView<'_>,
) -> Option<(usize, OutPoint)> {
    'inputs: for i in 0..tx.raw().inputs_count() {
        if let Some(o) = input_point(tx, i) {
            if site.row(&o).is_none() {
                return Some((i, o));
            }
        }
    }
    None
}

/// Which of the transactions, but for the first, spends a cell.
fn spender_in(transactions: &[TxView<'_>], o: &OutPoint) -> Option<usize> {
    'transactions: for j in 1..transactions.len() {
        if spends(&transactions[j], o) {
            return Some(j);
        }
    }
    None
}

/// Which earlier transaction of the block spends a cell.
fn spender_before<C: Cells>(site: &Site<'_, '_, '_, '_, '_, C>, o: &OutPoint) -> Option<usize> {
    match site.own {
        Some(own) => spender_in(own.before, o),
        None => None,
    }
}

/// Which of the transactions has the hash of an out-point.
fn maker_among(transactions: &[TxView<'_>], o: &OutPoint) -> Option<usize> {
    'transactions: for j in 0..transactions.len() {
        if transaction_hash(&transactions[j]) == o.tx_hash {
            return Some(j);
        }
    }
    None
}

/// Which transaction of the block has it.
fn maker_in<C: Cells>(site: &Site<'_, '_, '_, '_, '_, C>, o: &OutPoint) -> Option<usize> {
    match site.own {
        Some(own) => maker_among(own.all, o),
        None => None,
    }
}

/// Appends why the output of the transaction at a place of this block is not live, where these come before.
fn push_maker(page: &mut Page, before: &[TxView<'_>], j: usize) {
    if j >= before.len() {
        page.add("found made by transaction ");
        page.count(j);
        page.add(" of this block, which does not come before it\n");
        return;
    }
    page.add("found never made: transaction ");
    page.count(j);
    page.add(" of this block has so many outputs: ");
    page.count(before[j].raw().outputs_count());
    page.add("\n");
}

/// Appends what became of a cell that is not live.
pub(crate) fn push_lost<C: Cells, B: Blocks>(
    page: &mut Page,
    site: &Site<'_, '_, '_, '_, '_, C>,
    blocks: &mut B,
    o: &OutPoint,
) -> Result<(), ReadStop>
    requires counts { B.count blocks.old ≡ length site.now.tree.now.entries }
    ensures read { HasRead B.told B.count B.loans_of B.faults B.damages blocks.old blocks.new (stop_of result) }
{
    if let Some(j) = spender_before(site, o) {
        page.add("found spent by transaction ");
        page.count(j);
        page.add(" of this block\n");
        return Ok(());
    }
    if let (Some(j), Some(own)) = (maker_in(site, o), site.own) {
        push_maker(page, own.before, j);
        return Ok(());
    }
    match history_of(site.tree, site.parent, blocks, o) {
        Ok(history) => {
            history.push(page, o);
            Ok(())
        }
        Err(stop) => Err(stop),
    }
}

/// J20: which input is not live, or is spent twice.
pub(crate) fn explain_inputs<C: Cells, B: Blocks>(
    page: &mut Page,
    site: &Site<'_, '_, '_, '_, '_, C>,
    blocks: &mut B,
    tx: &TxView<'_>,
) -> Result<(), ReadStop>
    requires counts { B.count blocks.old ≡ length site.now.tree.now.entries }
    ensures read { HasRead B.told B.count B.loans_of B.faults B.damages blocks.old blocks.new (stop_of result) }
{
    if let Some((i, j)) = spent_twice(tx) {
        push_twice(page, tx, i, j);
        return Ok(());
    }
    let Some((i, o)) = first_lost(site, tx) else {
        return Ok(());
    };
    push_input(page, i, &o);
    match push_lost(page, site, blocks, &o) {
        Ok(()) => {}
        Err(stop) => return Err(stop),
    }
    page.add("wanted a live cell\n");
    Ok(())
}

fn push_twice(page: &mut Page, tx: &TxView<'_>, i: usize, j: usize) {
    if let Some(o) = input_point(tx, i) {
        push_input(page, i, &o);
    }
    page.add("found spent by input ");
    page.count(j);
    page.add(" too\nwanted each cell once\n");
}

/// J25: which output holds less than it occupies, or is live already.
pub(crate) fn explain_outputs<C: Cells>(
    page: &mut Page,
    site: &Site<'_, '_, '_, '_, '_, C>,
    tx: &TxView<'_>,
    hash: [u8; 32],
) {
    let raw = tx.raw();
    'outputs: for i in 0..raw.outputs_count() {
        let output = raw.outputs_item(i);
        let occupies = occupied_output(&output, data_at(tx, i));
        if occupies > output.capacity() {
            page.add("place output ");
            page.count(i);
            page.add("\nfound a capacity of ");
            page.number(output.capacity());
            page.add("\nwanted at least the ");
            page.number(occupies);
            page.add(" that it occupies\n");
            return;
        }
    }
    'live: for i in 0..raw.outputs_count() {
        let made = OutPoint {
            tx_hash: hash,
            index: i as u32,
        };
        if site.row(&made).is_some() {
            page.add("place output ");
            page.count(i);
            page.add("\nfound a live cell with its out-point, ");
            page.out_point(&made);
            page.add("\nwanted no live cell with it\n");
            return;
        }
    }
}

/// A copy of the cell of a row. None where it names no output.
pub(crate) fn copied<C: Cells, B: Blocks>(
    alloc: Global,
    site: &Site<'_, '_, '_, '_, '_, C>,
    blocks: &mut B,
    o: OutPoint,
    meta: CellMeta,
) -> Result<Option<Resolved>, ReadStop>
    requires counts { B.count blocks.old ≡ length site.now.tree.now.entries }
    ensures read { HasRead B.told B.count B.loans_of B.faults B.damages blocks.old blocks.new (stop_of result) }
{
    match entry_at(site.tree, meta.block) {
        Some(entry) => match fetch(alloc, blocks, o, meta, entry.at) {
            Ok(copy) => Ok(Some(copy)),
            Err(stop) => Err(stop),
        },
        None => match own_copy(alloc, site, o, meta) {
            Ok(copy) => Ok(copy),
            Err(NoMemory) => Err(ReadStop::NoMemory),
        },
    }
}

/// The same of a cell that the block itself makes.
fn own_copy<C: Cells>(
    alloc: Global,
    site: &Site<'_, '_, '_, '_, '_, C>,
    o: OutPoint,
    meta: CellMeta,
) -> Result<Option<Resolved>, NoMemory> {
    let Some(own) = site.own else {
        return Ok(None);
    };
    let at = meta.tx as usize;
    if at >= own.before.len() {
        return Ok(None);
    }
    let tx = &own.before[at];
    let raw = tx.raw();
    let index = o.index as usize;
    if index >= raw.outputs_count() {
        return Ok(None);
    }
    match copy_of(alloc, o, meta, &raw.outputs_item(index), data_at(tx, index)) {
        Ok(copy) => Ok(Some(copy)),
        Err(NoMemory) => Err(NoMemory),
    }
}

/// Copies of the cells of the inputs, as far as they are live.
fn input_copies<C: Cells, B: Blocks>(
    alloc: Global,
    site: &Site<'_, '_, '_, '_, '_, C>,
    blocks: &mut B,
    tx: &TxView<'_>,
) -> Result<Vec<Resolved>, ReadStop>
    requires counts { B.count blocks.old ≡ length site.now.tree.now.entries }
    ensures read { HasRead B.told B.count B.loans_of B.faults B.damages blocks.old blocks.new (stop_of result) }
{
    let mut copies = Vec::new(alloc);
    'inputs: for i in 0..tx.raw().inputs_count() {
        let Some(spent) = spent_at(site, tx, i) else {
            break;
        };
        let copy = match copied(alloc, site, blocks, spent.o, spent.meta) {
            Ok(Some(copy)) => copy,
            Ok(None) => break,
            Err(stop) => {
                drop(copies);
                return Err(stop);
            }
        };
        match copies.push(copy) {
            Ok(()) => {}
            Err(_) => {
                drop(copies);
                return Err(ReadStop::NoMemory);
            }
        }
    }
    Ok(copies)
}

/// The hash type by which the DAO script is named: that of its type script.
const BY_TYPE: u8 = 1;

/// Whether a copied cell withdraws from the DAO: its type script is the DAO's, and its data 8 bytes that are not all zero.
fn withdraws<C: Cells>(site: &Site<'_, '_, '_, '_, '_, C>, copy: &Resolved) -> bool {
    let spec = site.spec;
    let Some(output) = OutputView::read(&copy.output) else {
        return false;
    };
    let Some(script) = output.type_script() else {
        return false;
    };
    let is_dao = script.code_hash() == spec.dao_code_hash.as_slice()
        && script.hash_type() == BY_TYPE;
    is_dao && copy.content.len() == 8 && copy.content.as_slice() != [0u8; 8].as_slice()
}

/// What the witness of an input says of its deposit.
#[derive(Clone, Copy)]
enum Named {
    NoWitness,
    NoArgs,
    NoType,
    BadLength(usize),
    Index(u64),
}

fn named_by(tx: &TxView<'_>, i: usize) -> Named {
    if i >= tx.witnesses_count() {
        return Named::NoWitness;
    }
    let Some(args) = WitnessArgsView::read(tx.witnesses_item(i)) else {
        return Named::NoArgs;
    };
    let Some(bytes) = args.input_type() else {
        return Named::NoType;
    };
    if bytes.len() != 8 {
        return Named::BadLength(bytes.len());
    }
    let mut number = [0u8; 8];
    number.copy_from_slice(bytes);
    Named::Index(u64::from_le_bytes(number))
}

/// The place of the header dep at an index.
fn header_place<C: Cells>(
    site: &Site<'_, '_, '_, '_, '_, C>,
    tx: &TxView<'_>,
    index: u64,
) -> Option<u32> {
    let index = usize::try_from(index).ok()?;
    let raw = tx.raw();
    if index >= raw.header_deps_count() {
        return None;
    }
    site.tree.find(&hash_from(raw.header_deps_item(index)))
}

/// Whether a kept block is among the header deps.
fn is_named(tree: &Tree, tx: &TxView<'_>, block: u32) -> bool {
    let raw = tx.raw();
    'deps: for i in 0..raw.header_deps_count() {
        if tree.find(&hash_from(raw.header_deps_item(i))) == Some(block) {
            return true;
        }
    }
    false
}

/// The deposit block that a withdrawing input names well.
fn deposit_of<C: Cells>(
    site: &Site<'_, '_, '_, '_, '_, C>,
    tx: &TxView<'_>,
    i: usize,
    copy: &Resolved,
) -> Option<u32> {
    let Named::Index(index) = named_by(tx, i) else {
        return None;
    };
    let place = header_place(site, tx, index)?;
    let deposit = entry_at(site.tree, place)?;
    let meta = &copy.meta;
    if deposit.number < site.made_at(meta) {
        Some(place)
    } else {
        None
    }
}

/// Appends what the witness of an input lacks.
fn push_named<C: Cells>(
    page: &mut Page,
    site: &Site<'_, '_, '_, '_, '_, C>,
    tx: &TxView<'_>,
    i: usize,
    made: u64,
) {
    match named_by(tx, i) {
        Named::NoWitness => page.add("found no witness at this place\n"),
        Named::NoArgs => page.add("found a witness that is no WitnessArgs\n"),
        Named::NoType => page.add("found a witness without an input_type\n"),
        Named::BadLength(length) => {
            page.add("found an input_type of so many bytes: ");
            page.count(length);
            page.add("\n");
        }
        Named::Index(index) => {
            page.add("found an input_type that names header dep ");
            page.number(index);
            match header_place(site, tx, index) {
                None => page.add(", which is not there\n"),
                Some(place) => {
                    page.add(", block ");
                    page.number(crate::site::height_of(site.tree, place));
                    page.add("\n");
                }
            }
        }
    }
    page.add(
        "wanted an input_type of 8 bytes, the index of the header dep of the deposit's block, below ",
    );
    page.number(made);
    page.add("\n");
}

/// J26: which input does not name its headers, and what it lacks.
fn push_withdrawal<C: Cells>(
    page: &mut Page,
    site: &Site<'_, '_, '_, '_, '_, C>,
    tx: &TxView<'_>,
    copies: &[Resolved],
) {
    'inputs: for i in 0..copies.len() {
        let copy = &copies[i];
        if !withdraws(site, copy) {
            continue;
        }
        let meta = &copy.meta;
        let made = site.made_at(meta);
        if !is_named(site.tree, tx, meta.block) {
            push_input(page, i, &copy.out_point);
            page.add(
                "found no header dep that is the block of the withdrawing cell\nwanted block ",
            );
            page.number(made);
            if let Some(entry) = entry_at(site.tree, meta.block) {
                page.add(", ");
                page.bytes(&entry.hash);
            }
            page.add(", among the header deps\n");
            return;
        }
        if deposit_of(site, tx, i, copy).is_none() {
            push_input(page, i, &copy.out_point);
            push_named(page, site, tx, i, made);
            return;
        }
    }
}

/// What an input counts, in shannons; none above the greatest u64.
fn counted<C: Cells>(
    site: &Site<'_, '_, '_, '_, '_, C>,
    tx: &TxView<'_>,
    i: usize,
    copy: &Resolved,
) -> Option<u64> {
    let meta = &copy.meta;
    if !withdraws(site, copy) {
        return Some(meta.capacity);
    }
    let (Some(deposit), Some(made)) = (
        deposit_of(site, tx, i, copy),
        entry_at(site.tree, meta.block),
    ) else {
        return Some(meta.capacity);
    };
    let Some(first) = entry_at(site.tree, deposit) else {
        return Some(meta.capacity);
    };
    withdrawn(meta, Dao::read(&made.dao).ar, Dao::read(&first.dao).ar)
}

fn withdrawn(meta: &CellMeta, made: u64, deposit: u64) -> Option<u64> {
    if meta.occupied > meta.capacity || deposit == 0 {
        return Some(meta.capacity);
    }
    max_withdraw(meta.capacity, meta.occupied, made, deposit)
}

/// J27: both sums.
fn push_sums<C: Cells>(
    page: &mut Page,
    site: &Site<'_, '_, '_, '_, '_, C>,
    tx: &TxView<'_>,
    copies: &[Resolved],
) {
    let mut counts: u128 = 0;
    'inputs: for i in 0..copies.len() {
        match counted(site, tx, i, &copies[i]) {
            Some(more) => counts = counts.saturating_add(u128::from(more)),
            None => {
                page.add("place input ");
                page.count(i);
                page.add(
                    "\nfound more than 2^64 - 1 shannons that it counts\nwanted at most 2^64 - 1\n",
                );
                return;
            }
        }
    }
    let raw = tx.raw();
    let mut holds: u128 = 0;
    'outputs: for i in 0..raw.outputs_count() {
        holds = holds.saturating_add(u128::from(raw.outputs_item(i).capacity()));
    }
    page.add("place the sums\nfound outputs that hold ");
    page.big(holds);
    page.add(", and inputs that count ");
    page.big(counts);
    page.add(
        "\nwanted outputs that hold at most what the inputs count, and both at most 2^64 - 1\n",
    );
}

/// J26 and J27: the withdrawals, and the sums.
pub(crate) fn explain_money<C: Cells, B: Blocks>(
    alloc: Global,
    page: &mut Page,
    site: &Site<'_, '_, '_, '_, '_, C>,
    blocks: &mut B,
    tx: &TxView<'_>,
    rule: u8,
) -> Result<(), ReadStop>
    requires counts { B.count blocks.old ≡ length site.now.tree.now.entries }
    ensures read { HasRead B.told B.count B.loans_of B.faults B.damages blocks.old blocks.new (stop_of result) }
{
    let copies = match input_copies(alloc, site, blocks, tx) {
        Ok(copies) => copies,
        Err(stop) => return Err(stop),
    };
    if rule == 26 {
        push_withdrawal(page, site, tx, &copies);
    } else {
        push_sums(page, site, tx, &copies);
    }
    Ok(())
}
