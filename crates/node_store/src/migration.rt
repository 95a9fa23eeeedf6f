// How a store gets an edition of the rules.
ghost use Rattle.std.specs.Prelude.{◌≡◌, ◌≢◌, ◌⊎◌, ◌∷◌, ◌++◌, [], None, Err, List, IfOk, IfErr};
ghost use Rattle.outside.specs.Causes.{CountsFault};
ghost use Rattle.outside.specs.Disk.{OthersRead, LeavesOnly};
ghost use Rattle.outside.specs.declared.disk.Area.TheVariants.{Log as log_area};
ghost use Rattle.outside.specs.declared.disk.WriteStop.TheVariants.{DiskFault};
ghost use Rattle.disk_defs.specs.Log.{Record, edition_record};
ghost use Rattle.disk_defs.specs.Rest.{IsSettled, HasAppended};
ghost use Rattle.store_defs.specs.Store.{StandsFor};
ghost use Rattle.store_defs.specs.EditionLaws.{AllStandBefore, edited_chain};
ghost use Rattle.node_store.specs.Node.{IsOwnDiskWhereTold, IsOnlyImage};
ghost use Rattle.store_defs.specs.Migration.{migration};
ghost use Rattle.node_store.specs.Migration.{IsEdited};

use crate::Kept;
use crate::node::Node;
use epochs::epoch_of;
use log_file::append;
use outside::{Disk, WriteStop};
use std::alloc::Global;
use store_defs::Moved;

/// What comes of giving a store an edition from this epoch on.
pub(crate) fn answer(kept: &Kept, epoch: u64) -> Moved
    ensures { result ≡ migration kept.now.chain epoch }
{
    let spec = &kept.spec;
    if let Some(first) = spec.second_from {
        return Moved::Already(first);
    }
    let tip = kept.tip();
    let reached = epoch_of(spec.epoch_length, tip.number).number;
    if tip.number > 0 && reached >= epoch {
        return Moved::TooEarly(reached);
    }
    Moved::Done
}

/// Puts the record of an edition after the others, in a store that has none. Its memory is taken before the disk is called.
pub(crate) fn edit<D: Disk>(
    node: Node,
    alloc: Global,
    disk: &mut D,
    epoch: u64,
) -> Result<Node, WriteStop>
    requires own { IsOwnDiskWhereTold node (D.reads_as disk.old) (D.images disk.old) }
    requires none { node.chain.spec.second_from ≡ None }
    ensures edited { IfOk result (λ next. IsEdited node next epoch (D.reads_as disk.old) (D.reads_as disk.new) (D.images disk.old) (D.images disk.new)) }
    ensures moments { AllStandBefore epoch node.chain → IsOnlyImage node.chain (D.reads_as disk.old) (D.images disk.old)
        → LeavesOnly D.moment D.left_since disk.old disk.new (λ image. StandsFor node.chain image ⊎ StandsFor (edited_chain node.chain epoch) image) }
    ensures keeps { (records : List Record) → IsSettled node.place records (D.reads_as disk.old) (D.images disk.old)
        → LeavesOnly D.moment D.left_since disk.old disk.new (HasAppended node.place records (edition_record epoch) (D.images disk.old)) }
    ensures others { OthersRead log_area (D.reads_as disk.old) (D.reads_as disk.new) }
    ensures untouched { IfErr result (λ stop. stop ≢ DiskFault → disk.new ≡ disk.old) }
    ensures cause { CountsFault (D.faults disk.old) (D.faults disk.new) (result ≡ Err DiskFault) }
{
    let Node {
        kept,
        state,
        log,
        mut body,
        cache,
    } = node;
    match body.fill_edition(alloc, epoch) {
        Ok(()) => {}
        Err(_) => {
            drop((kept, state, cache));
            return Err(WriteStop::NoMemory);
        }
    }
    match append(log, disk, &body) {
        Err(_) => {
            drop((kept, state, cache));
            Err(WriteStop::DiskFault)
        }
        Ok((log, _)) => Ok(Node {
            kept: kept.edited(epoch),
            state,
            log,
            body,
            cache,
        }),
    }
}
