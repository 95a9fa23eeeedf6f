// Rows of memory.

use row_table::Row;
use rv_text::show;
use std::alloc::Global;
use vm_mem::{Ins, MemFault, MemStop, Memory, Width};

const PAGE_SIZE: u64 = 4096;

fn width_of(name: &str) -> Option<Width> {
    match name {
        "1" => Some(Width::B1),
        "2" => Some(Width::B2),
        "4" => Some(Width::B4),
        "8" => Some(Width::B8),
        _ => None,
    }
}

fn name_of(fault: MemFault) -> &'static str {
    match fault {
        MemFault::Range => "range",
        MemFault::WriteCode => "write_code",
        MemFault::RunData => "run_data",
    }
}

/// The number in hex, or the fault.
fn is_number(found: Result<u64, MemFault>, wanted: &str) -> bool {
    match found {
        Ok(number) => u64::from_str_radix(wanted, 16) == Ok(number),
        Err(fault) => wanted == name_of(fault),
    }
}

/// `ok`, or why the store was not made.
fn is_stored(stored: Result<(), MemStop>, wanted: &str) -> bool {
    match stored {
        Ok(()) => wanted == "ok",
        Err(MemStop::Fault(fault)) => wanted == name_of(fault),
        Err(MemStop::NoMemory) => false,
    }
}

/// `ok`, or the fault.
fn is_done(done: Result<(), MemFault>, wanted: &str) -> bool {
    match done {
        Ok(()) => wanted == "ok",
        Err(fault) => wanted == name_of(fault),
    }
}

fn agrees_on_load(memory: &Memory, row: &mut Row) -> Option<bool> {
    let at = row.digits()?;
    let width = width_of(row.word())?;
    Some(is_number(memory.load(at, width), row.word()))
}

fn agrees_on_fetch(memory: &Memory, row: &mut Row) -> Option<bool> {
    let at = row.digits()?;
    let found = memory.fetch(at).map(u64::from);
    Some(is_number(found, row.word()))
}

/// The instruction as an assembler's text, and after a space its length.
fn is_instruction(alloc: Global, ins: Ins, length: u8, wanted: &str) -> Option<bool> {
    let text = show(alloc, &ins).ok()?;
    let (named, digits) = wanted.rsplit_once(' ')?;
    Some(text.as_slice() == named.as_bytes() && digits.parse() == Ok(length))
}

/// The instruction and its length, `none`, or the fault.
fn agrees_on_instruction(alloc: Global, memory: &mut Memory, row: &mut Row) -> Option<bool> {
    let at = row.digits()?;
    let wanted = row.word();
    match memory.instruction(at) {
        Ok(Some((ins, length))) => is_instruction(alloc, ins, length, wanted),
        Ok(None) => Some(wanted == "none"),
        Err(fault) => Some(wanted == name_of(fault)),
    }
}

fn agrees_on_store(memory: &mut Memory, row: &mut Row) -> Option<bool> {
    let at = row.digits()?;
    let width = width_of(row.word())?;
    let value = row.digits()?;
    Some(is_stored(memory.store(at, width, value), row.word()))
}

fn agrees_on_copy(alloc: Global, memory: &mut Memory, row: &mut Row) -> Option<bool> {
    let at = row.digits()?;
    let bytes = row.bytes(alloc)?;
    Some(is_stored(memory.copy_in(at, &bytes), row.word()))
}

fn agrees_on_clear(memory: &mut Memory, row: &mut Row) -> Option<bool> {
    let at = row.digits()?;
    let count = row.digits()?;
    Some(is_done(memory.clear(at, count), row.word()))
}

fn agrees_on_code(memory: &mut Memory, row: &mut Row) -> Option<bool> {
    let at = row.digits()?;
    let pages = row.digits()?;
    if at % PAGE_SIZE != 0 || pages > 0xffff_ffff {
        return None;
    }
    Some(is_done(memory.set_code(at, pages as u32), row.word()))
}

/// Whether the call answers what the row says; None where it is no row.
pub(crate) fn agrees(
    alloc: Global,
    memory: &mut Memory,
    call: &str,
    row: &mut Row,
) -> Option<bool> {
    match call {
        "load" => agrees_on_load(memory, row),
        "fetch" => agrees_on_fetch(memory, row),
        "instruction" => agrees_on_instruction(alloc, memory, row),
        "store" => agrees_on_store(memory, row),
        "copy" => agrees_on_copy(alloc, memory, row),
        "clear" => agrees_on_clear(memory, row),
        "code" => agrees_on_code(memory, row),
        _ => None,
    }
}
