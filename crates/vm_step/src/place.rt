/// Where a machine stands: its program counter, and what is left of its budget.
///
/// A run keeps them apart from the machine, in registers of the processor.
#[derive(Clone, Copy)]
pub(crate) struct Place {
    pub(crate) pc: u64,
    // In cycles. Below 0 it wraps, and the budget is spent.
    pub(crate) left: u64,
}
