/// How a program ended.
#[derive(Clone, Copy, Debug, PartialEq, Eq)]
pub enum Outcome {
    /// It exited with this code.
    Exit(i8),
    /// The machine could not go on: the numbers of a step's faults, 5 for a call, a source or a field that there is not,
    /// and 6 for a call that loads code to what are no whole pages.
    Fault(u8),
    /// The cycles passed the budget.
    Spent,
}
