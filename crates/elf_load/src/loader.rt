// A file is judged, and then placed.
ghost use Rattle.std.specs.Prelude.{◌≡◌, ◌≢◌, ◌^◌, ◌≤◌, ℕ, Err, IfOk};
ghost use Rattle.machine_defs.specs.Memory.{new_memory};
ghost use Rattle.machine_defs.specs.Elf.{load_elf, segments};
ghost use Rattle.elf_load.specs.Loads.{AllAllocated, Loads};
ghost use Rattle.elf_load.specs.Placing.{Allocates};

use super::judging::judge;
use super::stop::ElfStop;
use vm_mem::Memory;

/// What is known of a program that was loaded.
#[derive(Clone, Copy, Debug, PartialEq, Eq)]
pub struct Entry {
    /// The address of its first instruction. It is taken as it stands in the file.
    pub pc: u64,
    /// How many bytes its segments have in the file, all together. Loading costs a cycle for four of them.
    pub file_bytes: u64,
}

/// Loads the program of a file into new memory: judges the file, and then places it.
///
/// `Bad` has the number of the first of the conditions E 1 to E 8 that the file meets, as `judge` answers it, and
/// memory is then unchanged. `NoMemory` comes only for a file that meets none, as from `ValidElf::place`.
pub fn load(file: &[u8], memory: &mut Memory) -> Result<Entry, ElfStop>
    requires { memory.old.memory ≡ new_memory }
    ensures loads { Loads (load_elf file.now) memory.new.memory result }
    ensures allocated { IfOk result (λ entry. Allocates (segments file.now) memory.old.allocated memory.new.allocated) }
    ensures size { IfOk result (λ entry. entry.file_bytes ≤ 2 ^ 38) }
    ensures needs_no_memory { AllAllocated memory.old.allocated → result ≢ Err ElfStop.NoMemory }
    ensures refused { (number : ℕ) → result ≡ Err (ElfStop.Bad number) → memory.new ≡ memory.old }
{
    let judged = match judge(file) {
        Ok(judged) => judged,
        Err(condition) => return Err(ElfStop::Bad(condition)),
    };
    if judged.place(memory).is_err() {
        return Err(ElfStop::NoMemory);
    }
    Ok(Entry {
        pc: judged.pc(),
        file_bytes: judged.file_bytes(),
    })
}
