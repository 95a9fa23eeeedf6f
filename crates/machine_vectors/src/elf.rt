// Rows of files.
ghost use Rattle.std.specs.Prelude.{◌≡◌};
ghost use Rattle.machine_defs.specs.Memory.{new_memory};

use elf_load::{ElfStop, judge, load};
use row_table::Row;
use std::alloc::{AllocError, Global};
use vm_mem::Memory;

fn text_of(alloc: Global, pc: u64, file_bytes: u64) -> Result<String, AllocError> {
    format!(in alloc; "{pc:x} {file_bytes:x}")
}

/// Whether the file is loaded into new memory as wanted: the address of the first instruction and how many bytes are copied, or
/// the condition.
fn is_loaded(alloc: Global, file: &[u8], memory: &mut Memory, wanted: &str) -> Option<bool>
    requires { memory.old.memory ≡ new_memory }
{
    let text = match load(file, memory) {
        Ok(entry) => text_of(alloc, entry.pc, entry.file_bytes),
        Err(ElfStop::Bad(condition)) => format!(in alloc; "bad {condition}"),
        Err(ElfStop::NoMemory) => return None,
    };
    Some(text.ok()?.as_str() == wanted)
}

/// Whether it is judged so.
fn is_judged(alloc: Global, file: &[u8], wanted: &str) -> Option<bool> {
    let text = match judge(file) {
        Ok(judged) => text_of(alloc, judged.pc(), judged.file_bytes()),
        Err(condition) => format!(in alloc; "bad {condition}"),
    };
    Some(text.ok()?.as_str() == wanted)
}

/// Whether a file is judged and loaded as the row says; the memory that it is loaded into is held then.
pub(crate) fn agrees(alloc: Global, held: &mut Option<Memory>, row: &mut Row) -> Option<bool> {
    let file = row.bytes(alloc)?;
    let wanted = row.word();
    let mut memory = Memory::new(alloc).ok()?;
    let loaded = is_loaded(alloc, &file, &mut memory, wanted);
    *held = Some(memory);
    Some(loaded? && is_judged(alloc, &file, wanted)?)
}
