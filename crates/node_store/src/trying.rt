// An item that is judged over a node and not kept.
ghost use Rattle.std.specs.Prelude.{◌≡◌, ◌<◌, Err, length, IfOk, IsSome};
ghost use Rattle.outside.specs.Causes.{CountsFault};
ghost use Rattle.outside.specs.declared.disk.Area.TheVariants.{Log as log_area};
ghost use Rattle.outside.specs.declared.disk.Damage.{Damage};
ghost use Rattle.outside.specs.declared.disk.ReadStop.TheVariants.{DiskFault, Damaged};
ghost use Rattle.cell_state.specs.State.{rows};
ghost use Rattle.cell_state.specs.Moves.{AreRowsOfBranch};
ghost use Rattle.store_defs.specs.Store.{AreJoined};
ghost use Rattle.node_store.specs.Kept.{AreRowsOfTip};
ghost use Rattle.node_store.specs.Node.{IsOwnDiskWhereTold, IsSoundWhereTold};
ghost use Rattle.node_store.specs.Trying.{HasJudged};

use crate::kept::is_above_tip;
use crate::{Decision, Judging, Node, over_disk};
use outside::{Disk, ReadStop, Steps};
use std::alloc::Global;
use std::sync::ledger::Ledger;
use verdict_defs::Verdict;

impl Node {
    /// Judges an item over the kept blocks as `import` does, and keeps nothing: the verdict is that of `import`, and the disk, the
    /// kept blocks and the live cells are as they were. The live cells go to the block's parent for it, and back. Damaged where
    /// a kept block is not what those after it say, which never comes over a chain that has joined.
    pub fn judge<D: Disk, J: Judging, L: Ledger>(
        self,
        alloc: Global,
        disk: &mut D,
        judge: &J,
        item: &[u8],
        steps: &mut Steps<L>,
    ) -> Result<(Node, Verdict), ReadStop>
        requires own { IsOwnDiskWhereTold self (D.reads_as disk.old) (D.images disk.old) }
        ensures judged { IfOk result (λ it. HasJudged self it.0 item.now it.1 (D.reads_as disk.old) (D.reads_as disk.new) (D.images disk.new)) }
        ensures content { D.content_of disk.new ≡ D.content_of disk.old }
        ensures undamaged { IsSoundWhereTold self (D.reads_as disk.old) → (damage : Damage) → result ≡ Err (Damaged damage) → ⊥ }
        ensures damage { (damage : Damage) → result ≡ Err (Damaged damage) → damage.area ≡ log_area }
        ensures cause { CountsFault (D.faults disk.old) (D.faults disk.new) (result ≡ Err DiskFault) }
    {
        let (node, decision) = match self.decide(alloc, disk, judge, item, steps) {
            Ok(decided) => decided,
            Err(stop) => return Err(stop),
        };
        let joining = match decision {
            Decision::Stays(verdict) => return Ok((node, verdict)),
            Decision::Joins(joining) => joining,
        };
        let verdict = Verdict::Joined(joining.entry.number, joining.entry.hash);
        if !is_above_tip(node.tree(), &joining.entry) {
            return Ok((node, verdict));
        }
        match node.back_from(alloc, disk, joining.entry.parent, steps) {
            Ok(node) => Ok((node, verdict)),
            Err(stop) => Err(stop),
        }
    }

    /// The same node with the live cells of the tip, where they are those of the branch of a place.
    fn back_from<D: Disk, L: Ledger>(
        self,
        alloc: Global,
        disk: &mut D,
        from: u32,
        steps: &mut Steps<L>,
    ) -> Result<Node, ReadStop>
        requires own { IsOwnDiskWhereTold self (D.reads_as disk.old) (D.images disk.old) }
        requires within { from < length self.chain.blocks }
        ensures same { IfOk result (λ back. back ≡ record self { cells = back.cells; held = back.held }) }
        ensures own { IfOk result (λ back. IsOwnDiskWhereTold back (D.reads_as disk.new) (D.images disk.new)) }
        ensures cells { IsSome (D.reads_as disk.old) → AreJoined self.chain self.exts → AreRowsOfBranch self.chain.blocks from (rows self.cells)
            → IfOk result (λ back. AreRowsOfTip self.chain.blocks (rows back.cells)) }
        ensures content { D.content_of disk.new ≡ D.content_of disk.old }
        ensures undamaged { IsSome (D.reads_as disk.old) → AreJoined self.chain self.exts → AreRowsOfBranch self.chain.blocks from (rows self.cells)
            → (damage : Damage) → result ≡ Err (Damaged damage) → ⊥ }
        ensures damage { (damage : Damage) → result ≡ Err (Damaged damage) → damage.area ≡ log_area }
        ensures cause { CountsFault (D.faults disk.old) (D.faults disk.new) (result ≡ Err DiskFault) }
    {
        let Node {
            kept,
            state,
            log,
            body,
            mut cache,
        } = self;
        let tip = kept.tree().tip();
        match over_disk::moved(alloc, disk, &mut cache, &kept, state, from, tip, steps) {
            Ok(state) => Ok(Node {
                kept,
                state,
                log,
                body,
                cache,
            }),
            Err(stop) => {
                drop((kept, log, body, cache));
                Err(stop)
            }
        }
    }
}
