// The instructions by name.
ghost use Rattle.std.specs.Prelude.{◌≡◌};
ghost use Rattle.rv_text.specs.Reading.{named_in};

use crate::table::form_of;
use machine_defs::Ins;

macro_rules! template {
    ($name:ident $($field:ident)*) => {
        Ins::$name { $($field: 0),* }
    };
}

// Each instruction, with zeros for operands.
const TEMPLATES: [Ins; 66] = [
    template!(Lui rd imm),
    template!(Auipc rd imm),
    template!(Jal rd imm),
    template!(Jalr rd rs1 imm),
    template!(Beq rs1 rs2 imm),
    template!(Bne rs1 rs2 imm),
    template!(Blt rs1 rs2 imm),
    template!(Bge rs1 rs2 imm),
    template!(Bltu rs1 rs2 imm),
    template!(Bgeu rs1 rs2 imm),
    template!(Lb rd rs1 imm),
    template!(Lh rd rs1 imm),
    template!(Lw rd rs1 imm),
    template!(Ld rd rs1 imm),
    template!(Lbu rd rs1 imm),
    template!(Lhu rd rs1 imm),
    template!(Lwu rd rs1 imm),
    template!(Sb rs1 rs2 imm),
    template!(Sh rs1 rs2 imm),
    template!(Sw rs1 rs2 imm),
    template!(Sd rs1 rs2 imm),
    template!(Addi rd rs1 imm),
    template!(Slti rd rs1 imm),
    template!(Sltiu rd rs1 imm),
    template!(Xori rd rs1 imm),
    template!(Ori rd rs1 imm),
    template!(Andi rd rs1 imm),
    template!(Slli rd rs1 imm),
    template!(Srli rd rs1 imm),
    template!(Srai rd rs1 imm),
    template!(Addiw rd rs1 imm),
    template!(Slliw rd rs1 imm),
    template!(Srliw rd rs1 imm),
    template!(Sraiw rd rs1 imm),
    template!(Add rd rs1 rs2),
    template!(Sub rd rs1 rs2),
    template!(Sll rd rs1 rs2),
    template!(Slt rd rs1 rs2),
    template!(Sltu rd rs1 rs2),
    template!(Xor rd rs1 rs2),
    template!(Srl rd rs1 rs2),
    template!(Sra rd rs1 rs2),
    template!(Or rd rs1 rs2),
    template!(And rd rs1 rs2),
    template!(Mul rd rs1 rs2),
    template!(Mulh rd rs1 rs2),
    template!(Mulhsu rd rs1 rs2),
    template!(Mulhu rd rs1 rs2),
    template!(Div rd rs1 rs2),
    template!(Divu rd rs1 rs2),
    template!(Rem rd rs1 rs2),
    template!(Remu rd rs1 rs2),
    template!(Addw rd rs1 rs2),
    template!(Subw rd rs1 rs2),
    template!(Sllw rd rs1 rs2),
    template!(Srlw rd rs1 rs2),
    template!(Sraw rd rs1 rs2),
    template!(Mulw rd rs1 rs2),
    template!(Divw rd rs1 rs2),
    template!(Divuw rd rs1 rs2),
    template!(Remw rd rs1 rs2),
    template!(Remuw rd rs1 rs2),
    Ins::Fence,
    Ins::FenceI,
    Ins::Ecall,
    Ins::Ebreak,
];

/// The instruction of this name, with zeros for operands.
pub(crate) fn named(name: &[u8]) -> Option<Ins>
    ensures { result ≡ named_in TEMPLATES name.now }
{
    named_in(&TEMPLATES, name)
}

fn named_in(instructions: &[Ins], name: &[u8]) -> Option<Ins>
    ensures { result ≡ named_in instructions.now name.now }
{
    for i in instructions {
        if form_of(*i).0.as_bytes() == name {
            return Some(*i);
        }
    }
    None
}
