// J18: what a transaction is by itself.
ghost use Rattle.std.specs.Prelude.{◌<◌, ◌≤◌, length};

use crate::page::Page;
use mol_schema::{RawTxView, TxView};

/// The place of a count that is wrong.
fn push_count(page: &mut Page, name: &str, found: usize, wanted: &str) {
    page.add("place ");
    page.add(name);
    page.add("\nfound ");
    page.count(found);
    page.add("\nwanted ");
    page.add(wanted);
    page.add("\n");
}

/// The first of the cell deps that stands there before, and where.
fn dep_twice(raw: &RawTxView<'_>) -> Option<(usize, usize)> {
    'deps: for i in 0..raw.cell_deps_count() {
        'before: for j in 0..i {
            if raw.cell_deps_item(j).bytes() == raw.cell_deps_item(i).bytes() {
                return Some((i, j));
            }
        }
    }
    None
}

/// The same of the header deps.
fn header_twice(raw: &RawTxView<'_>) -> Option<(usize, usize)> {
    'deps: for i in 0..raw.header_deps_count() {
        'before: for j in 0..i {
            if raw.header_deps_item(j) == raw.header_deps_item(i) {
                return Some((i, j));
            }
        }
    }
    None
}

fn push_twice(page: &mut Page, name: &str, twice: (usize, usize)) {
    page.add("place ");
    page.add(name);
    page.add(" ");
    page.count(twice.0);
    page.add("\nfound the same as ");
    page.add(name);
    page.add(" ");
    page.count(twice.1);
    page.add("\nwanted each ");
    page.add(name);
    page.add(" once\n");
}

/// What is wrong with the form of a transaction.
pub(crate) fn explain_form(page: &mut Page, tx: &TxView<'_>) {
    let raw = tx.raw();
    if raw.version() != 0 {
        return push_count(page, "version", raw.version() as usize, "0");
    }
    if raw.inputs_count() == 0 {
        return push_count(page, "inputs", 0, "1 or more");
    }
    if raw.outputs_count() == 0 {
        return push_count(page, "outputs", 0, "1 or more");
    }
    if raw.outputs_data_count() != raw.outputs_count() {
        push_count(
            page,
            "outputs_data",
            raw.outputs_data_count(),
            "one for each output",
        );
        return;
    }
    if let Some(twice) = dep_twice(&raw) {
        return push_twice(page, "cell dep", twice);
    }
    if let Some(twice) = header_twice(&raw) {
        push_twice(page, "header dep", twice);
    }
}
