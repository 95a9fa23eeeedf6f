/// How a step of the machine ended.
#[derive(Clone, Copy, Debug, PartialEq, Eq)]
pub enum Step {
    /// The instruction was run.
    Went,
    /// The instruction was ECALL.
    Ecall,
    /// The instruction could not be run: 1 for a range past memory, 2 for a write to code, 3 for code that
    /// lies in data, 4 for no instruction.
    Fault(u8),
    /// The cycles passed the budget.
    Spent,
    /// A page could not be allocated. No step by the definitions ends so.
    NoMemory,
}
