// The last syscalls of a run.
ghost use Rattle.std.specs.Prelude.{◌<◌};

use std::alloc::AllocError;
use std::fmt::Write;
use vm_step::Machine;

/// How many are kept.
const KEPT: u64 = 32;

/// A syscall: where it was made, its number, and what it was given in a1 to a5, of which a1 is where the length word stands.
#[derive(Clone, Copy)]
pub(crate) struct Call {
    pub(crate) pc: u64,
    pub(crate) number: u64,
    pub(crate) length_at: u64,
    pub(crate) offset: u64,
    pub(crate) third: u64,
    pub(crate) fourth: u64,
    pub(crate) fifth: u64,
}

/// What was answered.
#[derive(Clone, Copy)]
pub(crate) enum Answer {
    /// The program went on, with this in a0, and this in the length word where it could be read.
    Went { value: u64, length: Option<u64> },
    /// The program ended there.
    Ended,
}

/// A syscall with its answer.
#[derive(Clone, Copy)]
struct Made {
    call: Call,
    answer: Answer,
}

/// The last syscalls.
#[derive(Drop)]
pub(crate) struct Calls {
    // The syscall of number n lies at n modulo 32.
    ring: [Made; 32],
    count: u64,
}

/// What a machine asks for that is at an ECALL.
pub(crate) fn call_of(machine: &Machine, pc: u64) -> Call {
    Call {
        pc,
        number: machine.reg(17),
        length_at: machine.reg(11),
        offset: machine.reg(12),
        third: machine.reg(13),
        fourth: machine.reg(14),
        fifth: machine.reg(15),
    }
}

impl Calls {
    pub(crate) fn new() -> Calls {
        let none = Made {
            call: Call {
                pc: 0,
                number: 0,
                length_at: 0,
                offset: 0,
                third: 0,
                fourth: 0,
                fifth: 0,
            },
            answer: Answer::Ended,
        };
        Calls {
            ring: [none; 32],
            count: 0,
        }
    }

    pub(crate) fn note(&mut self, call: Call, answer: Answer) {
        let next = self.count % KEPT;
        self.ring[next as usize] = Made { call, answer };
        self.count = self.count.saturating_add(1);
    }

    /// Appends a line for each syscall that is kept, the oldest first, under a line that says how many there were.
    pub(crate) fn push(&self, page: &mut String) -> Result<(), AllocError> {
        let count = self.count;
        let kept = count.min(KEPT);
        if count > kept {
            writeln!(page, "last {kept} of {count} syscalls")?;
        } else {
            page.push_str("syscalls\n")?;
        }
        let first = count - kept;
        for i in 0..kept {
            let number = first.saturating_add(i);
            push_made(page, &self.ring[(number % KEPT) as usize])?;
        }
        Ok(())
    }
}

/// The name of a syscall in RFC 0009.
fn name_of(number: u64) -> &'static str {
    match number {
        93 => "exit",
        2051 => "load_transaction",
        2052 => "load_script",
        2061 => "load_tx_hash",
        2062 => "load_script_hash",
        2071 => "load_cell",
        2072 => "load_header",
        2073 => "load_input",
        2074 => "load_witness",
        2081 => "load_cell_by_field",
        2082 => "load_header_by_field",
        2083 => "load_input_by_field",
        2091 => "load_cell_data_as_code",
        2092 => "load_cell_data",
        2177 => "debug",
        _ => "no syscall",
    }
}

/// The name of a source.
fn source_of(source: u64) -> &'static str {
    match source {
        1 => "input",
        2 => "output",
        3 => "cell dep",
        4 => "header dep",
        0x0100_0000_0000_0001 => "group input",
        0x0100_0000_0000_0002 => "group output",
        _ => "no source",
    }
}

fn push_made(page: &mut String, made: &Made) -> Result<(), AllocError> {
    let call = made.call;
    let pc = call.pc;
    let number = call.number;
    let name = name_of(number);
    write!(page, "  {pc:#x} {number} {name}")?;
    push_asked(page, &call)?;
    match made.answer {
        Answer::Ended => page.push_str(": it ended here\n"),
        Answer::Went { value, length } => push_answer(page, number, value, length),
    }
}

/// Appends what was asked for: the index, the source, the field and the offset, where the syscall has them.
fn push_asked(page: &mut String, call: &Call) -> Result<(), AllocError> {
    match call.number {
        2071 | 2072 | 2073 | 2074 | 2092 => push_item(page, call.third, call.fourth)?,
        2081 | 2082 | 2083 => {
            push_item(page, call.third, call.fourth)?;
            let field = call.fifth;
            write!(page, ", field {field}")?;
        }
        2091 => push_item(page, call.fourth, call.fifth)?,
        _ => {}
    }
    let offset = call.offset;
    if is_load(call.number) && offset > 0 {
        write!(page, ", from byte {offset}")?;
    }
    Ok(())
}

fn push_item(page: &mut String, index: u64, source: u64) -> Result<(), AllocError> {
    let name = source_of(source);
    write!(page, " {name} {index}")?;
    if name == "no source" {
        write!(page, " ({source:#x})")?;
    }
    Ok(())
}

fn is_load(number: u64) -> bool {
    number >= 2051 && number <= 2092
}

/// Appends the result, and of a load that succeeded how many bytes there were.
fn push_answer(
    page: &mut String,
    number: u64,
    value: u64,
    length: Option<u64>,
) -> Result<(), AllocError> {
    if !is_load(number) {
        return page.push_str("\n");
    }
    write!(page, ": {value}")?;
    match (value, length) {
        (0, Some(length)) if number != 2091 => write!(page, ", {length} bytes")?,
        (1, _) => page.push_str(", the source has no such index")?,
        (2, _) => page.push_str(", no such item")?,
        (3, _) => page.push_str(", past the end")?,
        _ => {}
    }
    page.push_str("\n")
}
