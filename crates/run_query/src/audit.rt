// The query `audit`: whether what was issued is all there.
ghost use Rattle.std.specs.Prelude.{◌≡◌, Err, IfOk};
ghost use Rattle.chain_tree.specs.Reading.{stop_of};
ghost use Rattle.rewards.specs.Reading.{YieldsUndamaged};
ghost use Rattle.node_store.specs.Node.{IsOwnDiskWhereTold, IsSoundWhereTold, LeavesAll};
ghost use Rattle.run_store.specs.Damage.{AnswersDamage};
ghost use Rattle.report_defs.specs.Report as reports;
ghost use Rattle.report_defs.specs.declared.command.Query.TheVariants as queries;
ghost use Rattle.report_defs.specs.Status.{IsOneOf};
ghost use Rattle.run_store.specs.Keeping.{KeepsNode};
ghost use Rattle.run_text.specs.Store.{OnlyReads, opening_stops};
ghost use Rattle.run_query.specs.Queries.{balances_of};

use crate::lines::audit_line;
use crate::over_disk;
use crate::queries::line_or_stop;
use node_store::Node;
use outside::{Disk, ReadStop};
use report_defs::Status;
use run_store::status_of_reading;
use std::alloc::Global;

/// The two balances of the best branch, in shannons: each of its blocks is read, from the genesis on.
fn balances<D: Disk>(alloc: Global, disk: &mut D, node: &mut Node) -> Result<(i128, i128), ReadStop>
    requires own { IsOwnDiskWhereTold node.old (D.reads_as disk.old) (D.images disk.old) }
    ensures left { LeavesAll D.content_of D.reads_as D.images D.faults disk.old disk.new node.old node.new (stop_of result) }
    ensures balances { IsSoundWhereTold node.old (D.reads_as disk.old) → YieldsUndamaged (λ left. left ≡ balances_of node.old.chain) result }
{
    over_disk::balances(alloc, disk, &mut node.cache, &node.kept)
}

/// The line of the balances of the best branch.
pub fn audit<D: Disk>(alloc: Global, disk: &mut D, node: &mut Node) -> Result<Vec<u8>, Status>
    requires own { IsOwnDiskWhereTold node.old (D.reads_as disk.old) (D.images disk.old) }
    ensures disk { OnlyReads D.content_of D.faults disk.old disk.new (result ≡ Err Status.DiskFault) }
    ensures node { KeepsNode node.old node.new (D.reads_as disk.new) (D.images disk.new) }
    ensures text { IsSoundWhereTold node.old (D.reads_as disk.old) → IfOk result (λ text. text.items ≡ reports.answer_to_query queries.Audit node.old.chain) }
    ensures stop { (status : Status) → result ≡ Err status → IsOneOf opening_stops status }
    ensures sound { IsSoundWhereTold node.old (D.reads_as disk.old) → result ≡ Err Status.NotAStore → ⊥ }
    ensures damage { AnswersDamage node.old node.new (result ≡ Err Status.NotAStore) }
{
    let left = match balances(alloc, disk, node) {
        Ok(left) => left,
        Err(stop) => return Err(status_of_reading(stop)),
    };
    line_or_stop(audit_line(alloc, left))
}
