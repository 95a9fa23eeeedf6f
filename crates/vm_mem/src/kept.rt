// The form in which an instruction is kept.
ghost use Rattle.std.specs.Prelude.{◌≡◌};
ghost use Rattle.machine_defs.specs.Instruction.{FitsFormat};
ghost use Rattle.vm_mem.specs.Kept.{IsShort, instruction_of, target_of};

use rv_decode::Ins;

// The target in place of x0.
const DROPPED: u8 = 32;

/// An instruction as a slot keeps it: that of the same name, with its immediate in 32 bits, so that it takes 8 bytes. In place of
/// the target x0 it has 32: what is written there is read by none, so that x0 need not be written.
#[derive(Clone, Copy)]
pub enum Kept {
    Lui { rd: u8, imm: i32 },
    Auipc { rd: u8, imm: i32 },
    Jal { rd: u8, imm: i32 },
    Jalr { rd: u8, rs1: u8, imm: i32 },
    Beq { rs1: u8, rs2: u8, imm: i32 },
    Bne { rs1: u8, rs2: u8, imm: i32 },
    Blt { rs1: u8, rs2: u8, imm: i32 },
    Bge { rs1: u8, rs2: u8, imm: i32 },
    Bltu { rs1: u8, rs2: u8, imm: i32 },
    Bgeu { rs1: u8, rs2: u8, imm: i32 },
    Lb { rd: u8, rs1: u8, imm: i32 },
    Lh { rd: u8, rs1: u8, imm: i32 },
    Lw { rd: u8, rs1: u8, imm: i32 },
    Ld { rd: u8, rs1: u8, imm: i32 },
    Lbu { rd: u8, rs1: u8, imm: i32 },
    Lhu { rd: u8, rs1: u8, imm: i32 },
    Lwu { rd: u8, rs1: u8, imm: i32 },
    Sb { rs1: u8, rs2: u8, imm: i32 },
    Sh { rs1: u8, rs2: u8, imm: i32 },
    Sw { rs1: u8, rs2: u8, imm: i32 },
    Sd { rs1: u8, rs2: u8, imm: i32 },
    Addi { rd: u8, rs1: u8, imm: i32 },
    Slti { rd: u8, rs1: u8, imm: i32 },
    Sltiu { rd: u8, rs1: u8, imm: i32 },
    Xori { rd: u8, rs1: u8, imm: i32 },
    Ori { rd: u8, rs1: u8, imm: i32 },
    Andi { rd: u8, rs1: u8, imm: i32 },
    Slli { rd: u8, rs1: u8, imm: i32 },
    Srli { rd: u8, rs1: u8, imm: i32 },
    Srai { rd: u8, rs1: u8, imm: i32 },
    Addiw { rd: u8, rs1: u8, imm: i32 },
    Slliw { rd: u8, rs1: u8, imm: i32 },
    Srliw { rd: u8, rs1: u8, imm: i32 },
    Sraiw { rd: u8, rs1: u8, imm: i32 },
    Add { rd: u8, rs1: u8, rs2: u8 },
    Sub { rd: u8, rs1: u8, rs2: u8 },
    Sll { rd: u8, rs1: u8, rs2: u8 },
    Slt { rd: u8, rs1: u8, rs2: u8 },
    Sltu { rd: u8, rs1: u8, rs2: u8 },
    Xor { rd: u8, rs1: u8, rs2: u8 },
    Srl { rd: u8, rs1: u8, rs2: u8 },
    Sra { rd: u8, rs1: u8, rs2: u8 },
    Or { rd: u8, rs1: u8, rs2: u8 },
    And { rd: u8, rs1: u8, rs2: u8 },
    Mul { rd: u8, rs1: u8, rs2: u8 },
    Mulh { rd: u8, rs1: u8, rs2: u8 },
    Mulhsu { rd: u8, rs1: u8, rs2: u8 },
    Mulhu { rd: u8, rs1: u8, rs2: u8 },
    Div { rd: u8, rs1: u8, rs2: u8 },
    Divu { rd: u8, rs1: u8, rs2: u8 },
    Rem { rd: u8, rs1: u8, rs2: u8 },
    Remu { rd: u8, rs1: u8, rs2: u8 },
    Addw { rd: u8, rs1: u8, rs2: u8 },
    Subw { rd: u8, rs1: u8, rs2: u8 },
    Sllw { rd: u8, rs1: u8, rs2: u8 },
    Srlw { rd: u8, rs1: u8, rs2: u8 },
    Sraw { rd: u8, rs1: u8, rs2: u8 },
    Mulw { rd: u8, rs1: u8, rs2: u8 },
    Divw { rd: u8, rs1: u8, rs2: u8 },
    Divuw { rd: u8, rs1: u8, rs2: u8 },
    Remw { rd: u8, rs1: u8, rs2: u8 },
    Remuw { rd: u8, rs1: u8, rs2: u8 },
    Fence,
    FenceI,
    Ecall,
    Ebreak,
}

// An immediate that 32 bits hold.
#[inline]
fn short(imm: i64) -> i32
    requires { IsShort imm }
    ensures { result ≡ imm }
{
    imm as i32
}

// The register in the place of the target.
#[tactic(auto, unfolding(crate::specs::Kept::target_of))]
fn target(rd: u8) -> u8
    ensures { target_of result ≡ rd }
{
    if rd == 0 {
        return DROPPED;
    }
    if rd == DROPPED {
        return 0;
    }
    rd
}

/// The form of an instruction that fits its format.
pub fn kept_form(ins: Ins) -> Kept
    requires { FitsFormat ins }
    ensures { instruction_of result ≡ ins }
{
    match ins {
        Ins::Lui { rd, imm } => Kept::Lui {
            rd: target(rd),
            imm: short(imm),
        },
        Ins::Auipc { rd, imm } => Kept::Auipc {
            rd: target(rd),
            imm: short(imm),
        },
        Ins::Jal { rd, imm } => Kept::Jal {
            rd: target(rd),
            imm: short(imm),
        },
        Ins::Jalr { rd, rs1, imm } => Kept::Jalr {
            rd: target(rd),
            rs1,
            imm: short(imm),
        },
        Ins::Beq { rs1, rs2, imm } => Kept::Beq {
            rs1,
            rs2,
            imm: short(imm),
        },
        Ins::Bne { rs1, rs2, imm } => Kept::Bne {
            rs1,
            rs2,
            imm: short(imm),
        },
        Ins::Blt { rs1, rs2, imm } => Kept::Blt {
            rs1,
            rs2,
            imm: short(imm),
        },
        Ins::Bge { rs1, rs2, imm } => Kept::Bge {
            rs1,
            rs2,
            imm: short(imm),
        },
        Ins::Bltu { rs1, rs2, imm } => Kept::Bltu {
            rs1,
            rs2,
            imm: short(imm),
        },
        Ins::Bgeu { rs1, rs2, imm } => Kept::Bgeu {
            rs1,
            rs2,
            imm: short(imm),
        },
        Ins::Lb { rd, rs1, imm } => Kept::Lb {
            rd: target(rd),
            rs1,
            imm: short(imm),
        },
        Ins::Lh { rd, rs1, imm } => Kept::Lh {
            rd: target(rd),
            rs1,
            imm: short(imm),
        },
        Ins::Lw { rd, rs1, imm } => Kept::Lw {
            rd: target(rd),
            rs1,
            imm: short(imm),
        },
        Ins::Ld { rd, rs1, imm } => Kept::Ld {
            rd: target(rd),
            rs1,
            imm: short(imm),
        },
        Ins::Lbu { rd, rs1, imm } => Kept::Lbu {
            rd: target(rd),
            rs1,
            imm: short(imm),
        },
        Ins::Lhu { rd, rs1, imm } => Kept::Lhu {
            rd: target(rd),
            rs1,
            imm: short(imm),
        },
        Ins::Lwu { rd, rs1, imm } => Kept::Lwu {
            rd: target(rd),
            rs1,
            imm: short(imm),
        },
        Ins::Sb { rs1, rs2, imm } => Kept::Sb {
            rs1,
            rs2,
            imm: short(imm),
        },
        Ins::Sh { rs1, rs2, imm } => Kept::Sh {
            rs1,
            rs2,
            imm: short(imm),
        },
        Ins::Sw { rs1, rs2, imm } => Kept::Sw {
            rs1,
            rs2,
            imm: short(imm),
        },
        Ins::Sd { rs1, rs2, imm } => Kept::Sd {
            rs1,
            rs2,
            imm: short(imm),
        },
        Ins::Addi { rd, rs1, imm } => Kept::Addi {
            rd: target(rd),
            rs1,
            imm: short(imm),
        },
        Ins::Slti { rd, rs1, imm } => Kept::Slti {
            rd: target(rd),
            rs1,
            imm: short(imm),
        },
        Ins::Sltiu { rd, rs1, imm } => Kept::Sltiu {
            rd: target(rd),
            rs1,
            imm: short(imm),
        },
        Ins::Xori { rd, rs1, imm } => Kept::Xori {
            rd: target(rd),
            rs1,
            imm: short(imm),
        },
        Ins::Ori { rd, rs1, imm } => Kept::Ori {
            rd: target(rd),
            rs1,
            imm: short(imm),
        },
        Ins::Andi { rd, rs1, imm } => Kept::Andi {
            rd: target(rd),
            rs1,
            imm: short(imm),
        },
        Ins::Slli { rd, rs1, imm } => Kept::Slli {
            rd: target(rd),
            rs1,
            imm: short(imm),
        },
        Ins::Srli { rd, rs1, imm } => Kept::Srli {
            rd: target(rd),
            rs1,
            imm: short(imm),
        },
        Ins::Srai { rd, rs1, imm } => Kept::Srai {
            rd: target(rd),
            rs1,
            imm: short(imm),
        },
        Ins::Addiw { rd, rs1, imm } => Kept::Addiw {
            rd: target(rd),
            rs1,
            imm: short(imm),
        },
        Ins::Slliw { rd, rs1, imm } => Kept::Slliw {
            rd: target(rd),
            rs1,
            imm: short(imm),
        },
        Ins::Srliw { rd, rs1, imm } => Kept::Srliw {
            rd: target(rd),
            rs1,
            imm: short(imm),
        },
        Ins::Sraiw { rd, rs1, imm } => Kept::Sraiw {
            rd: target(rd),
            rs1,
            imm: short(imm),
        },
        Ins::Add { rd, rs1, rs2 } => Kept::Add {
            rd: target(rd),
            rs1,
            rs2,
        },
        Ins::Sub { rd, rs1, rs2 } => Kept::Sub {
            rd: target(rd),
            rs1,
            rs2,
        },
        Ins::Sll { rd, rs1, rs2 } => Kept::Sll {
            rd: target(rd),
            rs1,
            rs2,
        },
        Ins::Slt { rd, rs1, rs2 } => Kept::Slt {
            rd: target(rd),
            rs1,
            rs2,
        },
        Ins::Sltu { rd, rs1, rs2 } => Kept::Sltu {
            rd: target(rd),
            rs1,
            rs2,
        },
        Ins::Xor { rd, rs1, rs2 } => Kept::Xor {
            rd: target(rd),
            rs1,
            rs2,
        },
        Ins::Srl { rd, rs1, rs2 } => Kept::Srl {
            rd: target(rd),
            rs1,
            rs2,
        },
        Ins::Sra { rd, rs1, rs2 } => Kept::Sra {
            rd: target(rd),
            rs1,
            rs2,
        },
        Ins::Or { rd, rs1, rs2 } => Kept::Or {
            rd: target(rd),
            rs1,
            rs2,
        },
        Ins::And { rd, rs1, rs2 } => Kept::And {
            rd: target(rd),
            rs1,
            rs2,
        },
        Ins::Mul { rd, rs1, rs2 } => Kept::Mul {
            rd: target(rd),
            rs1,
            rs2,
        },
        Ins::Mulh { rd, rs1, rs2 } => Kept::Mulh {
            rd: target(rd),
            rs1,
            rs2,
        },
        Ins::Mulhsu { rd, rs1, rs2 } => Kept::Mulhsu {
            rd: target(rd),
            rs1,
            rs2,
        },
        Ins::Mulhu { rd, rs1, rs2 } => Kept::Mulhu {
            rd: target(rd),
            rs1,
            rs2,
        },
        Ins::Div { rd, rs1, rs2 } => Kept::Div {
            rd: target(rd),
            rs1,
            rs2,
        },
        Ins::Divu { rd, rs1, rs2 } => Kept::Divu {
            rd: target(rd),
            rs1,
            rs2,
        },
        Ins::Rem { rd, rs1, rs2 } => Kept::Rem {
            rd: target(rd),
            rs1,
            rs2,
        },
        Ins::Remu { rd, rs1, rs2 } => Kept::Remu {
            rd: target(rd),
            rs1,
            rs2,
        },
        Ins::Addw { rd, rs1, rs2 } => Kept::Addw {
            rd: target(rd),
            rs1,
            rs2,
        },
        Ins::Subw { rd, rs1, rs2 } => Kept::Subw {
            rd: target(rd),
            rs1,
            rs2,
        },
        Ins::Sllw { rd, rs1, rs2 } => Kept::Sllw {
            rd: target(rd),
            rs1,
            rs2,
        },
        Ins::Srlw { rd, rs1, rs2 } => Kept::Srlw {
            rd: target(rd),
            rs1,
            rs2,
        },
        Ins::Sraw { rd, rs1, rs2 } => Kept::Sraw {
            rd: target(rd),
            rs1,
            rs2,
        },
        Ins::Mulw { rd, rs1, rs2 } => Kept::Mulw {
            rd: target(rd),
            rs1,
            rs2,
        },
        Ins::Divw { rd, rs1, rs2 } => Kept::Divw {
            rd: target(rd),
            rs1,
            rs2,
        },
        Ins::Divuw { rd, rs1, rs2 } => Kept::Divuw {
            rd: target(rd),
            rs1,
            rs2,
        },
        Ins::Remw { rd, rs1, rs2 } => Kept::Remw {
            rd: target(rd),
            rs1,
            rs2,
        },
        Ins::Remuw { rd, rs1, rs2 } => Kept::Remuw {
            rd: target(rd),
            rs1,
            rs2,
        },
        Ins::Fence => Kept::Fence,
        Ins::FenceI => Kept::FenceI,
        Ins::Ecall => Kept::Ecall,
        Ins::Ebreak => Kept::Ebreak,
    }
}
