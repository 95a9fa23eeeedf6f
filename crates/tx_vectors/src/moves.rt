//! The live cells at kept blocks, as they are gone to over a tree of them.

use crate::kept::{grow, put, record_at, state_of, tree_of};
use crate::rows::hash_of_all;
use cell_state::{ListBlocks, State, go_to};
use chain_tree::Tree;
use outside::{Area, ReadStop, Steps};
use row_table::Row;
use std::alloc::Global;
use std::mem;
use std::sync::ledger::Ledger;

/// Kept blocks with their tree, the bytes of the genesis, and the live cells with the place where they stand.
#[derive(Drop)]
pub(crate) struct Moves {
    tree: Tree,
    blocks: ListBlocks,
    genesis: Vec<u8>,
    state: Option<State>,
    at: u32,
}

/// A genesis alone, and its cells; None where it is none.
fn of_genesis(alloc: Global, bytes: &[u8]) -> Option<Moves> {
    let tree = tree_of(alloc, bytes)?;
    let mut blocks = ListBlocks::new(alloc, Vec::new(alloc), Vec::new(alloc)).ok()?;
    put(alloc, &mut blocks, bytes, &[])?;
    Some(Moves {
        tree,
        blocks,
        genesis: bytes.to_vec(alloc).ok()?,
        state: Some(state_of(alloc, bytes)?),
        at: 0,
    })
}

impl Moves {
    fn keep(&mut self, alloc: Global, row: &mut Row) -> Option<bool> {
        let (block, ext) = (row.bytes(alloc)?, row.bytes(alloc)?);
        grow(&mut self.tree, &block)?;
        Some(put(alloc, &mut self.blocks, &block, &ext).is_some())
    }

    /// Goes to a place; None where none is kept there, or the cells are gone.
    fn go<L: Ledger>(
        &mut self,
        alloc: Global,
        to: u32,
        steps: &mut Steps<L>,
    ) -> Option<Result<(), ReadStop>> {
        let (kept, from) = (self.tree.len(), self.at);
        if from >= kept || to >= kept || self.blocks.len() != kept {
            return None;
        }
        let state = self.state.take()?;
        match go_to(alloc, state, &self.tree, &mut self.blocks, from, to, steps) {
            Ok(state) => {
                self.state = Some(state);
                self.at = to;
                Some(Ok(()))
            }
            Err(stop) => Some(Err(stop)),
        }
    }

    fn stands<L: Ledger>(
        &mut self,
        alloc: Global,
        row: &mut Row,
        steps: &mut Steps<L>,
    ) -> Option<bool> {
        self.go(alloc, row.short()?, steps)?.ok()?;
        let state = self.state.as_ref()?;
        let count = row.number()?;
        let hash = row.bytes(alloc)?;
        Some(count == state.rows() && hash_of_all(alloc, state)?.as_slice() == hash.as_slice())
    }

    fn is_damaged<L: Ledger>(
        &mut self,
        alloc: Global,
        row: &mut Row,
        steps: &mut Steps<L>,
    ) -> Option<bool> {
        let (from, to, place) = (row.short()?, row.short()?, row.short()?);
        self.go(alloc, from, steps)?.ok()?;
        let damaged = match self.go(alloc, to, steps)? {
            Err(ReadStop::Damaged(damage)) => damage.area == Area::Log
                && damage.at == record_at(place),
            _ => false,
        };
        self.state = state_of(alloc, &self.genesis);
        self.at = 0;
        self.go(alloc, from, steps)?.ok()?;
        Some(damaged)
    }
}

fn begins(alloc: Global, moves: &mut Option<Moves>, row: &mut Row) -> Option<bool> {
    let genesis = row.bytes(alloc)?;
    drop(mem::replace(moves, of_genesis(alloc, &genesis)));
    Some(moves.is_some())
}

/// Whether what the columns call answers as they say; None where they are no row.
pub(crate) fn agrees<L: Ledger>(
    alloc: Global,
    moves: &mut Option<Moves>,
    steps: &mut Steps<L>,
    row: &mut Row,
) -> Option<bool> {
    match row.word() {
        "genesis" => begins(alloc, moves, row),
        "block" => moves.as_mut()?.keep(alloc, row),
        "at" => moves.as_mut()?.stands(alloc, row, steps),
        "damaged" => moves.as_mut()?.is_damaged(alloc, row, steps),
        _ => None,
    }
}
