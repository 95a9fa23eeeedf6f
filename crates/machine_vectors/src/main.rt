//! The machine: makes the call of each row of its standard input, and prints the rows that differ.
//!
//! A row begins with what it calls, has a column for each argument and ends with the answer, with a tab between two;
//! numbers and bytes are in hex, `-` for no bytes. A line that begins with `#` tells what follows.
//!
//! `memory` makes new memory, `elf` one into which a file is loaded, and `machine` a machine of that memory; the rows below
//! act on it. Its call may then also be one of memory. The answers were worked by hand from docs/MACHINE.md, the words of code
//! are those of an assembler's text, which stands beside them.
//!
//! `decode` has a word, the instruction that it encodes as an assembler's text, or `none`, and its length in bytes, or 0. The
//! rows were made by a program that was written from the instruction table alone, and agree with binutils and LLVM. At the end
//! the program tells how many of the 49,152 patterns of a compressed form are instructions, and of the 32,768 patterns of
//! opcode, funct3 and funct7 with x0 for each register.
//!
//! `line` has a line of the assembler and the word of its instruction, or `none`; `line_bytes` has the line in hex, and `dis`
//! code and its listing, both in hex. `asm` has a text in hex and the file that is made of it, or the number of its first bad
//! line. The rows were made by a program that was written from docs/MACHINE.md alone.
//!
//! `alu` has an operation, two registers and what the operation gives of them. The rows were made by a program that was
//! written from the RISC-V manual alone.
//!
//! `syscall` has the registers a0 to a5 and a7 in hex, the budget, what the world answers, memory before the call, its pages
//! of code, and the answer. After `done` are a0, the cycles, what the call changed in memory, and its pages of code; at any
//! other answer these are not looked at. The answers are those of a program that was written from RFC 0009 and
//! docs/MACHINE.md alone.
//!
//! `program` has a file, how many times it is run, each time from a new machine, and the cycles of each run, which exits with
//! 0. bench/start.py makes such a row, to measure how long it takes.
#![tactic(auto)]

mod alu;
mod assembler;
mod decode;
mod elf;
mod machine;
mod memory;
mod program;
mod shown;
mod syscall;

use machine::Held;
use row_table::{Row, Subject, all_agree};
use std::alloc::Global;
use std::io;
use std::process::ExitCode;

impl Subject for Held {
    fn agrees(&mut self, alloc: Global, row: &mut Row<'_>) -> Option<bool> {
        match row.word() {
            "decode" => decode::agrees(alloc, row),
            "alu" => alu::agrees(row),
            "line" => assembler::line(alloc, row),
            "line_bytes" => assembler::line_bytes(alloc, row),
            "dis" => assembler::listing(alloc, row),
            "asm" => assembler::assembled(alloc, row),
            "syscall" => syscall::agrees(alloc, row),
            "program" => program::agrees(alloc, row),
            call => self.answers(alloc, call, row),
        }
    }
}

fn try_rows(rt: HostRuntime) -> io::Result<bool> {
    let mut held = Held::new();
    all_agree(rt, &mut held)
}

fn main(rt: HostRuntime) -> io::Result<ExitCode> {
    let all = try_rows(rt)?;
    let found = decode::compressed_count();
    println!(rt; "{found} of 49152 compressed patterns are instructions")?;
    let found = decode::full_count();
    println!(rt; "{found} of 32768 full patterns are instructions")?;
    Ok(ExitCode::from(u8::from(!all)))
}
