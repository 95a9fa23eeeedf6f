// Whether what a transaction resolves to can be shown to its scripts, which is tried before one of them runs.
ghost use Rattle.std.specs.Prelude.{◌≡◌, ◌^◌, ◌<◌, IsTrue, Some, None, length};
ghost use Rattle.chain_defs.specs.Shape.{decoded};
ghost use Rattle.chain_defs.specs.Schema.{cell_output};
ghost use Rattle.script_run.specs.Fitting as defs;

use cell_state::{Resolved, ResolvedTx};
use chain_tree::Tree;
use mol_schema::OutputView;

/// The output that a copy is.
pub(crate) fn output_of<'a>(copy: &'a Resolved) -> OutputView<'a>
    requires typed { IsTrue (defs.is_typed copy.now) }
    ensures { decoded cell_output copy.now.output ≡ Some result }
{
    OutputView::from_encoding(&copy.output)
}

/// Whether a copy is an output, and its row has the hash of a type script just where the output has one.
fn is_typed(copy: &Resolved) -> bool
    ensures { result ≡ defs.is_typed copy.now }
{
    let meta = &copy.meta;
    match OutputView::read(&copy.output) {
        None => false,
        Some(output) => output.type_script().is_some() == meta.type_hash.is_some(),
    }
}

/// Where the record of the block at a place is, 0 where none is kept there.
fn record_of(tree: &Tree, place: u32) -> u64
    ensures { result ≡ defs.record_of tree.now.entries place }
{
    if place < tree.len() {
        tree.entry(place).at
    } else {
        0
    }
}

/// Of the first copy that is not as [`is_typed`] says, where the record of its block is.
fn untyped(tree: &Tree, copies: &[Resolved]) -> Option<u64>
    ensures { result ≡ defs.untyped tree.now.entries copies.now }
{
    'copies: for copy in copies {
        if !is_typed(copy) {
            let meta = &copy.meta;
            return Some(record_of(tree, meta.block));
        }
    }
    None
}

/// 0 where no block is kept at one of these places.
fn unkept(kept: u32, places: &[u32]) -> Option<u64>
    ensures { result ≡ defs.unkept kept places.now }
{
    'places: for place in places {
        if *place >= kept {
            return Some(0);
        }
    }
    None
}

/// Where in LOG what a transaction resolves to does not fit, none where it does.
pub(crate) fn unfit(tx: &ResolvedTx<'_>, tree: &Tree) -> Option<u64>
    ensures exact { result ≡ defs.unfit tree.now.entries tx.now }
    ensures few { result ≡ None → length tx.now.inputs < 2 ^ 32 }
{
    if tx.inputs.len() != tx.tx.raw().inputs_count() {
        return Some(0);
    }
    if let Some(at) = untyped(tree, &tx.inputs) {
        return Some(at);
    }
    if let Some(at) = untyped(tree, &tx.deps) {
        return Some(at);
    }
    unkept(tree.len(), &tx.headers)
}
