// The numbers of a step's faults.
ghost use Rattle.std.specs.Prelude.{◌≡◌};
ghost use Rattle.machine_defs.specs.Step.{fault_number};

use machine_defs::MemFault;

/// No instruction is at the program counter.
pub(crate) const NO_INSTRUCTION: u8 = 4;

/// The number of a fault of memory.
#[inline(always)]
pub(crate) fn fault_number(fault: MemFault) -> u8
    ensures { result ≡ fault_number fault }
{
    match fault {
        MemFault::Range => 1,
        MemFault::WriteCode => 2,
        MemFault::RunData => 3,
    }
}
