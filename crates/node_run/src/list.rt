// A list of runs over a disk that crashes between them.
ghost use Rattle.std.specs.Prelude.{List};
ghost use Rattle.outside.specs.Disk.{IsKnownAsBefore};
ghost use Rattle.report_defs.specs.Survival.{Run};
ghost use Rattle.report_defs.specs.Lists.{ArePromised};
ghost use Rattle.node_run.specs.Runs.{IsRunOf, IsStoppedRunOf, IsCallOf, AreCallsOf};

use crate::{Status, run};
use crashing::{Armed, Crashing};
use outside::{Sink, Source, Steps};
use std::alloc::Global;
use std::sync::ledger::Ledger;

/// A stop of a run: the disk lets this many calls of `write`, `cut` and `sync` through, or all of them, and after the run it is
/// left as a crash leaves it. `pick` chooses among the images that the crash may leave.
#[derive(Clone, Copy, Debug, PartialEq, Eq)]
pub struct Stop {
    pub pass: Option<u64>,
    pub pick: u64,
}

/// A run that is asked for: its words, its streams, where it is stopped if it is, and the status that it ended with, None until it
/// was run.
#[derive(Drop)]
pub struct Call<S, K> {
    pub words: Vec<String>,
    pub input: S,
    pub out: K,
    pub stop: Option<Stop>,
    pub status: Option<Status>,
}

/// Runs each call, one after the other over one disk, and leaves in each the status that it ended with. A run that is stopped has the
/// disk armed before it, and the disk crashes after it, whatever the run ended with.
pub fn run_all<S: Source, K: Sink, D: Crashing, L: Ledger>(
    alloc: Global,
    calls: &mut [Call<S, K>],
    disk: &mut Armed<D>,
    steps: &mut Steps<L>,
)
    // The calls were a list of runs, each as `run` promises, with a crash after each that is stopped, and all together as a list does.
    ensures runs { (runs : List Run)
        × AreCallsOf S.left S.faults K.taken K.faults D.reads_as D.images D.moment D.left_since D.faults D.picks calls.old calls.new disk.old disk.new runs
        × ArePromised (D.reads_as disk.old.disk) (D.images disk.old.disk) (D.images disk.new.disk) runs }

    // What the disk reads as is known after the last run exactly where it was known before the first.
    ensures told { IsKnownAsBefore (D.reads_as disk.old.disk) (D.reads_as disk.new.disk) }
{
    for at in 0..calls.len() {
        run_call(alloc, &mut calls[at], disk, steps);
    }
}

// Runs one call, and stops it where it is to be stopped.
fn run_call<S: Source, K: Sink, D: Crashing, L: Ledger>(
    alloc: Global,
    call: &mut Call<S, K>,
    disk: &mut Armed<D>,
    steps: &mut Steps<L>,
)
    ensures runs { (run : Run)
        × IsCallOf S.left S.faults K.taken K.faults D.reads_as D.images D.moment D.left_since D.faults D.picks call.old call.new disk.old disk.new run }
{
    let stop = call.stop;
    match stop {
        None => run_once(alloc, call, disk, steps),
        Some(stop) => run_stopped(alloc, call, &stop, disk, steps),
    }
}

// Runs one call over an armed disk, which crashes after it.
fn run_stopped<S: Source, K: Sink, D: Crashing, L: Ledger>(
    alloc: Global,
    call: &mut Call<S, K>,
    stop: &Stop,
    disk: &mut Armed<D>,
    steps: &mut Steps<L>,
)
    ensures runs { (run : Run)
        × IsStoppedRunOf S.left S.faults K.taken K.faults D.reads_as D.images D.moment D.left_since D.faults D.picks stop.now call.old call.new disk.old disk.new run }
{
    disk.arm(stop.pass);
    run_once(alloc, call, disk, steps);
    disk.crash(stop.pick);
}

// Runs one call.
fn run_once<S: Source, K: Sink, D: Crashing, L: Ledger>(
    alloc: Global,
    call: &mut Call<S, K>,
    disk: &mut Armed<D>,
    steps: &mut Steps<L>,
)
    ensures runs { (run : Run)
        × IsRunOf S.left S.faults K.taken K.faults D.reads_as D.images D.moment D.left_since D.faults D.picks call.old call.new disk.old disk.new run }
{
    let status = run(
        alloc,
        &call.words,
        &mut call.input,
        &mut call.out,
        disk,
        steps,
    );
    call.status = Some(status);
}
