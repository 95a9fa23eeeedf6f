// What a block or a transaction is judged on.
ghost use Rattle.std.specs.Prelude.{None};

use cell_state::{CellMeta, Cells, OutPoint};
use chain_tree::Tree;
use epochs::Spec;
use uncle_rules::Uncles;

/// What a block or a transaction is judged on: the specification, the kept blocks by their tree and their uncles, the place
/// of the parent, and the live cells of its branch, whichever the tip is on. For which kept blocks it stands say `StandsFor`
/// (for a transaction) and `ContextStandsForAll` (for a block) of specs/Standing.antt.
#[derive(Drop)]
pub struct Context<'a, C> {
    pub spec: &'a Spec,
    pub tree: &'a Tree,
    pub uncles: &'a Uncles,
    pub cells: &'a C,
    pub parent: u32,
}

/// In the place of live cells where none is looked at.
pub struct NoCells;

impl Cells for NoCells {
    ghost rows = { λ _ o. None };

    fn get(&self, o: &OutPoint) -> Option<CellMeta> {
        None
    }
}
