// The texts that a program prints.
use std::alloc::{AllocError, Global};
use std::fmt::Write;
use vm_mem::{Memory, Width};

/// The most bytes of a text that are shown.
const SHOWN: u64 = 1024;

/// The line of the text at an address, up to its zero byte. Where none comes within memory and within 1,024 bytes, the
/// line says that the text is cut.
pub(crate) fn text_line(
    alloc: Global,
    memory: &Memory,
    address: u64,
) -> Result<String, AllocError> {
    let mut line = String::from_str(alloc, "text \"")?;
    let is_whole = push_text(&mut line, memory, address)?;
    line.push_str(if is_whole { "\"\n" } else { "\" cut\n" })?;
    Ok(line)
}

/// Appends a text, and says whether its zero byte came.
fn push_text(line: &mut String, memory: &Memory, address: u64) -> Result<bool, AllocError> {
    for i in 0..SHOWN {
        let Ok(byte) = memory.load(address.wrapping_add(i), Width::B1) else {
            return Ok(false);
        };
        if byte == 0 {
            return Ok(true);
        }
        push_byte(line, (byte % 0x100) as u8)?;
    }
    Ok(false)
}

/// Appends a byte of a text. One that no terminal prints is shown by its number.
fn push_byte(line: &mut String, byte: u8) -> Result<(), AllocError> {
    match byte {
        b'\n' => line.push_str("\\n"),
        b'\t' => line.push_str("\\t"),
        b'"' => line.push_str("\\\""),
        b'\\' => line.push_str("\\\\"),
        0x20..=0x7e => line.push(char::from(byte)),
        _ => write!(line, "\\x{byte:02x}"),
    }
}
