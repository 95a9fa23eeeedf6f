// The text of an instruction.
ghost use Rattle.std.specs.Prelude.{◌≡◌, ℕ, ◌+◌, ◌≤◌, List, ◌++◌, length, IfOk};
ghost use Rattle.std.specs.Fmt.{signed_decimal};
ghost use Rattle.machine_defs.specs.Text.{operands_text, pair, single, based, upper};
ghost use Rattle.machine_defs.specs.Text as texts;

use crate::table::form_of;
use crate::text::Text;
use machine_defs::{Ins, Operands};
use std::alloc::{AllocError, Global};

/// The text of an instruction. Of one that does not fit it is the same form with its numbers as they are, and of LUI and
/// AUIPC bits 31 to 12: nothing is said of what such a text is good for.
pub fn show(alloc: Global, i: &Ins) -> Result<Vec<u8>, AllocError>
    ensures { IfOk result (λ text. text.items ≡ texts.show i.now) }
{
    Vec::from_slice(alloc, text_of(*i).as_slice())
}

/// The text, which takes no memory.
#[tactic(auto, unfolding(machine_defs::specs::Text::show))]
pub(crate) fn text_of(i: Ins) -> Text
    ensures text { result ≡ texts.show i }
    ensures room { length result ≤ 80 }
{
    let mut text = Text::new();
    let (name, _, operands) = form_of(i);
    text.append(name.as_bytes());
    append_operands(&mut text, operands);
    text
}

#[tactic(auto, unfolding(machine_defs::specs::Text::operands_text))]
fn append_operands(text: &mut Text, operands: Operands)
    requires { length text.old ≤ 7 }
    ensures text { text.new ≡ text.old ++ operands_text operands }
    ensures room { length text.new ≤ length text.old + 70 }
{
    match operands {
        Operands::Registers(rd, rs1, rs2) => {
            append_pair(text, rd, rs1);
            text.append_register(rs2);
        }
        Operands::Immediate(rd, rs1, imm) => append_numbered(text, rd, rs1, imm),
        Operands::Shift(rd, rs1, imm) => append_numbered(text, rd, rs1, imm),
        Operands::WordShift(rd, rs1, imm) => append_numbered(text, rd, rs1, imm),
        Operands::Address(rd, rs1, imm) => append_based(text, rd, imm, rs1),
        Operands::Store(rs1, rs2, imm) => append_based(text, rs2, imm, rs1),
        Operands::Branch(rs1, rs2, imm) => append_numbered(text, rs1, rs2, imm),
        Operands::Jump(rd, imm) => {
            append_single(text, rd);
            text.append_signed(imm);
        }
        Operands::Upper(rd, imm) => {
            append_single(text, rd);
            text.append_number(upper(imm));
        }
        Operands::Bare => (),
    }
}

#[tactic(auto, unfolding(machine_defs::specs::Text::upper, machine_defs::specs::Instruction::bits))]
fn upper(imm: i64) -> u64
    ensures { result ≡ upper imm }
{
    (imm.cast_unsigned() >> 12) % (1 << 20)
}

/// `rd,`
fn append_single(text: &mut Text, a: u8)
    requires { length text.old ≤ 7 }
    ensures text { (rest : List ℕ) → text.new ++ rest ≡ text.old ++ single a rest }
    ensures room { length text.new ≤ length text.old + 23 }
{
    text.push(b' ');
    text.append_register(a);
    text.push(b',');
}

/// `rd,rs1,`
fn append_pair(text: &mut Text, a: u8, b: u8)
    requires { length text.old ≤ 7 }
    ensures text { (rest : List ℕ) → text.new ++ rest ≡ text.old ++ pair a b rest }
    ensures room { length text.new ≤ length text.old + 45 }
{
    append_single(text, a);
    text.append_register(b);
    text.push(b',');
}

/// `rd,rs1,n`
fn append_numbered(text: &mut Text, a: u8, b: u8, number: i64)
    requires { length text.old ≤ 7 }
    ensures text { text.new ≡ text.old ++ pair a b (signed_decimal number) }
    ensures room { length text.new ≤ length text.old + 66 }
{
    append_pair(text, a, b);
    text.append_signed(number);
}

/// `rd,n(rs1)`
fn append_based(text: &mut Text, a: u8, number: i64, base: u8)
    requires { length text.old ≤ 7 }
    ensures text { text.new ≡ text.old ++ single a (based number base) }
    ensures room { length text.new ≤ length text.old + 67 }
{
    append_single(text, a);
    text.append_signed(number);
    text.push(b'(');
    text.append_register(base);
    text.push(b')');
}
