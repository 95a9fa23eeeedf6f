// J11, J12 and J14: what the header of a block commits to; J16 and J17: its cellbase.
ghost use Rattle.std.specs.Prelude.{◌<◌, ◌≤◌, length};

use block_rules::{proposals_hash, transactions_root, uncles_hash};
use cell_state::out_point_of;
use mol_schema::{BlockView, CellbaseWitnessView, RawTxView, TxView};
use std::alloc::Global;
use transaction_page::Page;

/// Appends a place with the hashes that were found and are wanted.
fn push_hashes(page: &mut Page, place: &str, found: &[u8], wanted: &[u8; 32]) {
    page.add("place ");
    page.add(place);
    page.add("\nfound ");
    page.bytes(found);
    page.add("\nwanted ");
    page.bytes(wanted);
    page.add("\n");
}

/// Where a block does not keep what its header commits to. Of other rules nothing is added.
pub(crate) fn explain_commitment(alloc: Global, page: &mut Page, block: &BlockView<'_>, rule: u8) {
    let header = block.header();
    match rule {
        11 => push_hashes(
            page,
            "proposals_hash",
            header.proposals_hash(),
            &proposals_hash(block),
        ),
        12 => match transactions_root(alloc, block) {
            Ok(root) => push_hashes(page, "transactions_root", header.transactions_root(), &root),
            Err(_) => page.run_short(),
        },
        14 => push_hashes(
            page,
            "uncles_hash",
            header.uncles_hash(),
            &uncles_hash(block),
        ),
        16 => explain_cellbases(page, block),
        17 => explain_form(page, block),
        _ => {}
    }
}

/// Whether a transaction has exactly one input, which names no output.
fn is_cellbase(tx: &TxView<'_>) -> bool {
    let raw = tx.raw();
    if raw.inputs_count() != 1 {
        return false;
    }
    let o = out_point_of(&raw.inputs_item(0).previous_output());
    o.index == u32::MAX && o.tx_hash == [0u8; 32]
}

fn push_place(page: &mut Page, place: usize, found: &str, wanted: &str) {
    page.add("place transaction ");
    page.count(place);
    page.add("\nfound ");
    page.add(found);
    page.add("\nwanted ");
    page.add(wanted);
    page.add("\n");
}

/// J16: which transaction is or is not a cellbase, or stands there twice.
fn explain_cellbases(page: &mut Page, block: &BlockView<'_>) {
    let count = block.transactions_count();
    if count == 0 {
        page.add("place transactions\nfound none\nwanted a cellbase\n");
        return;
    }
    if !is_cellbase(&block.transactions_item(0)) {
        push_place(
            page,
            0,
            "no cellbase",
            "one input, whose out-point is the null one",
        );
        return;
    }
    'later: for i in 1..count {
        if is_cellbase(&block.transactions_item(i)) {
            push_place(page, i, "a cellbase", "a transaction that spends cells");
            return;
        }
    }
    'twice: for i in 0..count {
        'before: for j in 0..i {
            let later = block.transactions_item(i);
            let earlier = block.transactions_item(j);
            if later.raw().bytes() == earlier.raw().bytes() {
                page.add("place transaction ");
                page.count(i);
                page.add("\nfound the hash of transaction ");
                page.count(j);
                page.add("\nwanted another\n");
                return;
            }
        }
    }
}

/// Appends a part of the cellbase with the numbers that were found and are wanted.
fn push_number(page: &mut Page, part: &str, found: u64, wanted: &str) {
    page.add("place cellbase, ");
    page.add(part);
    page.add("\nfound ");
    page.number(found);
    page.add("\nwanted ");
    page.add(wanted);
    page.add("\n");
}

/// J17: which part of the cellbase has not its form.
fn explain_form(page: &mut Page, block: &BlockView<'_>) {
    if block.transactions_count() == 0 {
        return;
    }
    let cellbase = block.transactions_item(0);
    let raw = cellbase.raw();
    let number = block.header().number();
    if raw.version() != 0 {
        return push_number(page, "version", u64::from(raw.version()), "0");
    }
    if raw.cell_deps_count() != 0 {
        return push_number(page, "cell deps", raw.cell_deps_count() as u64, "0");
    }
    if raw.header_deps_count() != 0 {
        return push_number(page, "header deps", raw.header_deps_count() as u64, "0");
    }
    'inputs: for i in 0..raw.inputs_count() {
        let since = raw.inputs_item(i).since();
        if since != number {
            page.add("place cellbase, since\nfound ");
            page.number(since);
            page.add("\nwanted ");
            page.number(number);
            page.add(", the number of the block\n");
            return;
        }
    }
    explain_output(page, &cellbase, &raw);
}

/// The same of its output and its witness.
fn explain_output(page: &mut Page, cellbase: &TxView<'_>, raw: &RawTxView<'_>) {
    let outputs = raw.outputs_count();
    if outputs > 1 {
        return push_number(page, "outputs", outputs as u64, "at most 1");
    }
    if raw.outputs_data_count() != outputs {
        return push_number(
            page,
            "outputs_data",
            raw.outputs_data_count() as u64,
            "one for each output",
        );
    }
    'outputs: for i in 0..outputs {
        if raw.outputs_item(i).type_script().is_some() {
            page.add("place cellbase, output\nfound a type script\nwanted none\n");
            return;
        }
    }
    'data: for i in 0..raw.outputs_data_count() {
        if !raw.outputs_data_item(i).is_empty() {
            page.add("place cellbase, outputs_data\nfound data\nwanted none\n");
            return;
        }
    }
    if cellbase.witnesses_count() == 0 {
        page.add("place cellbase, witness\nfound none\nwanted a CellbaseWitness\n");
        return;
    }
    if CellbaseWitnessView::read(cellbase.witnesses_item(0)).is_none() {
        page.add("place cellbase, witness\nfound bytes that are none\nwanted a CellbaseWitness\n");
        return;
    }
    page.add("place cellbase, output\nfound a live cell with its out-point\nwanted none\n");
}
