// A transaction alone, over a disk: the call makes a source of kept blocks of the disk and the cache, and lets it go.
ghost use Rattle.std.specs.Prelude.{◌≡◌, ◌<◌, ◌-◌, Err, IfOk, IfSome, IsSome};
ghost use Rattle.outside.specs.declared.disk.Damage.{Damage as a_damage};
ghost use Rattle.outside.specs.declared.disk.ReadStop.TheVariants.{Damaged};
ghost use Rattle.chain_defs.specs.Tip.{best_branch};
ghost use Rattle.cell_state.specs.State.{rows};
ghost use Rattle.rule_defs.specs.RuleNumber.{rule_number};
ghost use Rattle.rule_defs.specs.declared.rule.Rule.{Rule};
ghost use Rattle.block_judge.specs.Stops.{read_stop_of};
ghost use Rattle.block_judge.specs.declared.stop.JudgeStop.TheVariants.{Broken, Read};
ghost use Rattle.verdict_defs.specs.Trial.{trial_on};
ghost use Rattle.verdict_defs.specs.declared.trial.Trial.TheVariants.{Passes, Refused};
ghost use Rattle.store_defs.specs.Store.{AreJoined};
ghost use Rattle.node_store.specs.Node.{LogHoldsKept, HasOnlyRead};
ghost use Rattle.node_store.specs.Kept.{AreRowsOfTip};

use crate::deciding;
use block_judge::JudgeStop;
use cell_state::State;
use mol_schema::TxView;
use node_store::{Cache, Kept, Store};
use outside::Disk;
use std::alloc::Global;

/// Judges a transaction alone after the tip, by its live cells.
pub(crate) fn check<D: Disk>(
    alloc: Global,
    disk: &mut D,
    cache: &mut Cache,
    kept: &Kept,
    state: &State,
    tx: &TxView<'_>,
) -> Result<(u64, u64), JudgeStop>
    requires own { IfSome (D.reads_as disk.old) (LogHoldsKept kept.now cache.old.held) }
    ensures looked { HasOnlyRead D.content_of D.reads_as D.faults disk.old disk.new kept.now cache.old cache.new (read_stop_of result) }
    ensures passes { IsSome (D.reads_as disk.old) → AreJoined kept.now.chain kept.now.exts → AreRowsOfTip kept.now.chain.blocks (rows state.now)
        → IfOk result (λ it. trial_on kept.now.chain.spec (best_branch kept.now.chain.blocks) tx.now ≡ Passes it.0 it.1) }
    ensures broken { IsSome (D.reads_as disk.old) → AreJoined kept.now.chain kept.now.exts → AreRowsOfTip kept.now.chain.blocks (rows state.now)
        → (rule : Rule) → result ≡ Err (Broken rule) → trial_on kept.now.chain.spec (best_branch kept.now.chain.blocks) tx.now ≡ Refused (rule_number rule) }
    ensures undamaged { IsSome (D.reads_as disk.old) → AreJoined kept.now.chain kept.now.exts → AreRowsOfTip kept.now.chain.blocks (rows state.now)
        → (damage : a_damage) → result ≡ Err (Read (Damaged damage)) → ⊥ }
{
    let mut store = Store::new(alloc, disk, &kept.tree, cache);
    deciding::check(alloc, kept, &mut store, state, tx)
}
