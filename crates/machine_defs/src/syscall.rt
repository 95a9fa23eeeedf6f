ghost use Rattle.machine_defs.specs.SyscallLaws.{RunsAlone, SyscallsKeepAccount};

/// States that where nothing is shown to a script its syscalls are those of a program that runs alone, and that
/// whatever surrounds it a syscall leaves the budget, takes no cycles back, and goes on within the budget alone. It does
/// nothing.
pub fn syscall_laws()
    ensures alone { RunsAlone }
    ensures account { SyscallsKeepAccount }
{}
