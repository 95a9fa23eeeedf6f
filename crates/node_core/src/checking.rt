// A transaction alone, after the tip of a node.
ghost use Rattle.std.specs.Prelude.{◌≡◌, ◌<◌, ◌-◌, Err, IfOk};
ghost use Rattle.outside.specs.declared.disk.Damage.{Damage};
ghost use Rattle.outside.specs.declared.disk.ReadStop.TheVariants.{Damaged};
ghost use Rattle.chain_defs.specs.Tip.{best_branch};
ghost use Rattle.rule_defs.specs.RuleNumber.{rule_number};
ghost use Rattle.rule_defs.specs.declared.rule.Rule.{Rule};
ghost use Rattle.block_judge.specs.Stops.{read_stop_of};
ghost use Rattle.block_judge.specs.declared.stop.JudgeStop.TheVariants.{Broken, Read};
ghost use Rattle.verdict_defs.specs.Trial.{trial_on};
ghost use Rattle.verdict_defs.specs.declared.trial.Trial.TheVariants.{Passes, Refused};
ghost use Rattle.node_store.specs.Node.{IsOwnDiskWhereTold, IsSoundWhereTold, LeavesAll};

use crate::over_disk;
use block_judge::JudgeStop;
use mol_schema::TxView;
use node_store::Node;
use outside::Disk;
use std::alloc::Global;

/// Judges a transaction alone after the tip: its fee in shannons, and the cycles of its scripts.
pub fn check<D: Disk>(
    alloc: Global,
    disk: &mut D,
    node: &mut Node,
    tx: &TxView<'_>,
) -> Result<(u64, u64), JudgeStop>
    requires own { IsOwnDiskWhereTold node.old (D.reads_as disk.old) (D.images disk.old) }
    ensures left { LeavesAll D.content_of D.reads_as D.images D.faults disk.old disk.new node.old node.new (read_stop_of result) }
    ensures passes { IsSoundWhereTold node.old (D.reads_as disk.old)
        → IfOk result (λ it. trial_on node.old.chain.spec (best_branch node.old.chain.blocks) tx.now ≡ Passes it.0 it.1) }
    ensures broken { IsSoundWhereTold node.old (D.reads_as disk.old) → (rule : Rule) → result ≡ Err (Broken rule)
        → trial_on node.old.chain.spec (best_branch node.old.chain.blocks) tx.now ≡ Refused (rule_number rule) }
    ensures undamaged { IsSoundWhereTold node.old (D.reads_as disk.old) → (damage : Damage) → result ≡ Err (Read (Damaged damage)) → ⊥ }
{
    over_disk::check(alloc, disk, &mut node.cache, &node.kept, &node.state, tx)
}
