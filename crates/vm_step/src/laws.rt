// The laws of a run.

ghost use Rattle.machine_defs.specs.Alone.{answer_ecall};
ghost use Rattle.machine_defs.specs.Program.{Answer, GoesOnWithinBudget, HasStepsEnough, KeepsAccount, RunsStepByStep, RunsStopByStop, StepHasMemory, StepKeepsAccount, StopsStepByStep};

/// States what a run keeps, whatever ECALL does, as long as its answer keeps the account. It does nothing.
///
/// A step takes no cycles back and is never out of memory, and one after which the program goes on costs a cycle at least and stays within
/// the budget. A run is one step, with its answer, and the run from there, however many steps it may make beyond
/// those that it has. It is also the first step that does not go by itself, with its answer, and the run from there.
pub fn run_laws()
    ensures account { StepKeepsAccount }
    ensures has_memory { StepHasMemory }
    ensures within_budget { (answer : Answer) → KeepsAccount answer → GoesOnWithinBudget answer }
    ensures steps_enough { (answer : Answer) → KeepsAccount answer → HasStepsEnough answer }
    ensures step_by_step { (answer : Answer) → KeepsAccount answer → RunsStepByStep answer }
    ensures stop_by_stop { (answer : Answer) → KeepsAccount answer → RunsStopByStop answer }
    ensures to_the_stop { StopsStepByStep }
    // The answer of a program that runs alone keeps the account.
    ensures alone { KeepsAccount answer_ecall }
{}
