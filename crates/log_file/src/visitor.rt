// Who is shown the blocks of a log.

ghost use Rattle.std.specs.Prelude.{◌≡◌, ◌<◌, ◌++◌, ◌∷◌, [], List, length, IsTrue, OnOk};
ghost use Rattle.chain_defs.specs.Ext.{is_ext};
ghost use Rattle.chain_defs.specs.Kept.{kept_limit};
ghost use Rattle.chain_tree.specs.Blocks.{Describes};
ghost use Rattle.chain_tree.specs.Told.{Stored};

use chain_tree::Entry;
use mol_schema::BlockView;
use outside::NoMemory;
use std::alloc::Global;

/// Is shown the blocks of a log as they are read, genesis first, each with its ext and its entry in the tree.
pub trait Visitor {
    /// The blocks that it was shown, each with its ext; no byte stands for the ext of the genesis.
    ghost visited: { Self → List Stored };

    /// Takes a block that is one of the log, before any byte after its record is judged.
    fn visit(
        &mut self,
        alloc: Global,
        block: &BlockView<'_>,
        ext: &[u8],
        entry: &Entry,
    ) -> Result<(), NoMemory>
        requires few { length (visited self.old) < kept_limit }
        requires describes { Describes block.now entry.now }
        requires form { 0 < length (visited self.old) → IsTrue (is_ext ext.now) }
        ensures { OnOk result (visited self.new ≡ visited self.old ++ record { block = block.now; ext = ext.now } ∷ []) };
}
