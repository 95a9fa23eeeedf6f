// The file that the assembler writes.
ghost use Rattle.std.specs.Prelude.{◌≡◌, IfOk};
ghost use Rattle.machine_defs.specs.File as layout;

use std::alloc::{AllocError, Global};

/// The file's header, and the program header up to the segment's size.
const HEAD: [u8; 96] = [
    0x7f, 0x45, 0x4c, 0x46, 2, 1, 1, 0, 0, 0, 0, 0, 0, 0, 0, 0, 2, 0, 243, 0, 1, 0, 0, 0, 0x78, 0,
    1, 0, 0, 0, 0, 0, 64, 0, 0, 0, 0, 0, 0, 0, 0, 0, 0, 0, 0, 0, 0, 0, 0, 0, 0, 0, 64, 0, 56, 0, 1,
    0, 0, 0, 0, 0, 0, 0, 1, 0, 0, 0, 5, 0, 0, 0, 120, 0, 0, 0, 0, 0, 0, 0, 0x78, 0, 1, 0, 0, 0, 0,
    0, 0x78, 0, 1, 0, 0, 0, 0, 0,
];

const ALIGNMENT: u64 = 4096;

/// An ELF file of this code: 120 bytes of headers, and the code.
#[tactic(auto, unfolding(machine_defs::specs::File::elf_file, machine_defs::specs::File::head))]
pub fn elf_file(alloc: Global, code: &[u8]) -> Result<Vec<u8>, AllocError>
    ensures { IfOk result (λ file. file.items ≡ layout.elf_file code.now) }
{
    let size = (code.len() as u64).to_le_bytes();
    let mut file = Vec::from_slice(alloc, &HEAD)?;
    file.extend_from_slice(&size)?;
    file.extend_from_slice(&size)?;
    file.extend_from_slice(&ALIGNMENT.to_le_bytes())?;
    file.extend_from_slice(code)?;
    Ok(file)
}
