// The full forms, of four bytes: a function for each opcode, exact against its rows of the table.

ghost use Rattle.std.specs.Prelude.{◌≡◌, ◌++◌};
ghost use Rattle.machine_defs.specs.Row.{encoded_in};
ghost use Rattle.machine_defs.specs.Table.{u_type, j_type, rd, rs1, rs2, i_immediate, s_immediate, b_immediate, u_immediate, j_immediate, shift_amount, word_shift_amount};
ghost use Rattle.machine_defs.specs.Table.{full_forms, jump_register_forms, branch_forms, load_forms, store_forms, immediate_forms, shift_forms, word_immediate_forms, word_shift_forms, register_forms, word_register_forms, fence_forms, system_forms};

use crate::fields::{bits, part, sign_extended};
use machine_defs::Ins;

#[tactic(auto, unfolding(machine_defs::specs::Table::rd))]
fn rd(word: u32) -> u8
    ensures { result ≡ rd word }
{
    bits(word, 11, 7) as u8
}

#[tactic(auto, unfolding(machine_defs::specs::Table::rs1))]
fn rs1(word: u32) -> u8
    ensures { result ≡ rs1 word }
{
    bits(word, 19, 15) as u8
}

#[tactic(auto, unfolding(machine_defs::specs::Table::rs2))]
fn rs2(word: u32) -> u8
    ensures { result ≡ rs2 word }
{
    bits(word, 24, 20) as u8
}

#[tactic(auto, unfolding(machine_defs::specs::Table::i_immediate))]
fn i_immediate(word: u32) -> i64
    ensures { result ≡ i_immediate word }
{
    sign_extended(12, bits(word, 31, 20))
}

#[tactic(auto, unfolding(machine_defs::specs::Table::s_immediate))]
fn s_immediate(word: u32) -> i64
    ensures { result ≡ s_immediate word }
{
    sign_extended(12, part(word, 31, 25, 5) + part(word, 11, 7, 0))
}

#[tactic(auto, unfolding(machine_defs::specs::Table::b_immediate))]
fn b_immediate(word: u32) -> i64
    ensures { result ≡ b_immediate word }
{
    let high = part(word, 31, 31, 12) + part(word, 7, 7, 11);
    sign_extended(13, high + part(word, 30, 25, 5) + part(word, 11, 8, 1))
}

#[tactic(auto, unfolding(machine_defs::specs::Table::u_immediate))]
fn u_immediate(word: u32) -> i64
    ensures { result ≡ u_immediate word }
{
    sign_extended(32, part(word, 31, 12, 12))
}

#[tactic(auto, unfolding(machine_defs::specs::Table::j_immediate))]
fn j_immediate(word: u32) -> i64
    ensures { result ≡ j_immediate word }
{
    let high = part(word, 31, 31, 20) + part(word, 19, 12, 12);
    sign_extended(21, high + part(word, 20, 20, 11) + part(word, 30, 21, 1))
}

#[tactic(auto, unfolding(machine_defs::specs::Table::shift_amount))]
fn shift_amount(word: u32) -> i64
    ensures { result ≡ shift_amount word }
{
    i64::from(bits(word, 25, 20))
}

#[tactic(auto, unfolding(machine_defs::specs::Table::word_shift_amount))]
fn word_shift_amount(word: u32) -> i64
    ensures { result ≡ word_shift_amount word }
{
    i64::from(bits(word, 24, 20))
}

#[tactic(auto, unfolding(machine_defs::specs::Row::encoded_in))]
fn jump_register(word: u32) -> Option<Ins>
    ensures { result ≡ encoded_in jump_register_forms word }
{
    let rd = rd(word);
    let rs1 = rs1(word);
    let imm = i_immediate(word);
    match word & 0x0000_707f {
        0x0000_0067 => Some(Ins::Jalr { rd, rs1, imm }),
        _ => None,
    }
}

#[tactic(auto, unfolding(machine_defs::specs::Row::encoded_in))]
fn branch(word: u32) -> Option<Ins>
    ensures { result ≡ encoded_in branch_forms word }
{
    let rs1 = rs1(word);
    let rs2 = rs2(word);
    let imm = b_immediate(word);
    match word & 0x0000_707f {
        0x0000_0063 => Some(Ins::Beq { rs1, rs2, imm }),
        0x0000_1063 => Some(Ins::Bne { rs1, rs2, imm }),
        0x0000_4063 => Some(Ins::Blt { rs1, rs2, imm }),
        0x0000_5063 => Some(Ins::Bge { rs1, rs2, imm }),
        0x0000_6063 => Some(Ins::Bltu { rs1, rs2, imm }),
        0x0000_7063 => Some(Ins::Bgeu { rs1, rs2, imm }),
        _ => None,
    }
}

#[tactic(auto, unfolding(machine_defs::specs::Row::encoded_in))]
fn load(word: u32) -> Option<Ins>
    ensures { result ≡ encoded_in load_forms word }
{
    let rd = rd(word);
    let rs1 = rs1(word);
    let imm = i_immediate(word);
    match word & 0x0000_707f {
        0x0000_0003 => Some(Ins::Lb { rd, rs1, imm }),
        0x0000_1003 => Some(Ins::Lh { rd, rs1, imm }),
        0x0000_2003 => Some(Ins::Lw { rd, rs1, imm }),
        0x0000_3003 => Some(Ins::Ld { rd, rs1, imm }),
        0x0000_4003 => Some(Ins::Lbu { rd, rs1, imm }),
        0x0000_5003 => Some(Ins::Lhu { rd, rs1, imm }),
        0x0000_6003 => Some(Ins::Lwu { rd, rs1, imm }),
        _ => None,
    }
}

#[tactic(auto, unfolding(machine_defs::specs::Row::encoded_in))]
fn store(word: u32) -> Option<Ins>
    ensures { result ≡ encoded_in store_forms word }
{
    let rs1 = rs1(word);
    let rs2 = rs2(word);
    let imm = s_immediate(word);
    match word & 0x0000_707f {
        0x0000_0023 => Some(Ins::Sb { rs1, rs2, imm }),
        0x0000_1023 => Some(Ins::Sh { rs1, rs2, imm }),
        0x0000_2023 => Some(Ins::Sw { rs1, rs2, imm }),
        0x0000_3023 => Some(Ins::Sd { rs1, rs2, imm }),
        _ => None,
    }
}

#[tactic(auto, unfolding(machine_defs::specs::Row::encoded_in))]
fn immediate(word: u32) -> Option<Ins>
    ensures { result ≡ encoded_in (immediate_forms ++ shift_forms) word }
{
    let rd = rd(word);
    let rs1 = rs1(word);
    let imm = i_immediate(word);
    match word & 0x0000_707f {
        0x0000_0013 => Some(Ins::Addi { rd, rs1, imm }),
        0x0000_2013 => Some(Ins::Slti { rd, rs1, imm }),
        0x0000_3013 => Some(Ins::Sltiu { rd, rs1, imm }),
        0x0000_4013 => Some(Ins::Xori { rd, rs1, imm }),
        0x0000_6013 => Some(Ins::Ori { rd, rs1, imm }),
        0x0000_7013 => Some(Ins::Andi { rd, rs1, imm }),
        _ => shift(word),
    }
}

#[tactic(auto, unfolding(machine_defs::specs::Row::encoded_in))]
fn shift(word: u32) -> Option<Ins>
    ensures { result ≡ encoded_in shift_forms word }
{
    let rd = rd(word);
    let rs1 = rs1(word);
    let imm = shift_amount(word);
    match word & 0xfc00_707f {
        0x0000_1013 => Some(Ins::Slli { rd, rs1, imm }),
        0x0000_5013 => Some(Ins::Srli { rd, rs1, imm }),
        0x4000_5013 => Some(Ins::Srai { rd, rs1, imm }),
        _ => None,
    }
}

#[tactic(auto, unfolding(machine_defs::specs::Row::encoded_in))]
fn word_immediate(word: u32) -> Option<Ins>
    ensures { result ≡ encoded_in (word_immediate_forms ++ word_shift_forms) word }
{
    let rd = rd(word);
    let rs1 = rs1(word);
    let imm = i_immediate(word);
    match word & 0x0000_707f {
        0x0000_001b => Some(Ins::Addiw { rd, rs1, imm }),
        _ => word_shift(word),
    }
}

#[tactic(auto, unfolding(machine_defs::specs::Row::encoded_in))]
fn word_shift(word: u32) -> Option<Ins>
    ensures { result ≡ encoded_in word_shift_forms word }
{
    let rd = rd(word);
    let rs1 = rs1(word);
    let imm = word_shift_amount(word);
    match word & 0xfe00_707f {
        0x0000_101b => Some(Ins::Slliw { rd, rs1, imm }),
        0x0000_501b => Some(Ins::Srliw { rd, rs1, imm }),
        0x4000_501b => Some(Ins::Sraiw { rd, rs1, imm }),
        _ => None,
    }
}

#[tactic(auto, unfolding(machine_defs::specs::Row::encoded_in))]
fn register(word: u32) -> Option<Ins>
    ensures { result ≡ encoded_in register_forms word }
{
    let rd = rd(word);
    let rs1 = rs1(word);
    let rs2 = rs2(word);
    match word & 0xfe00_707f {
        0x0000_0033 => Some(Ins::Add { rd, rs1, rs2 }),
        0x0000_1033 => Some(Ins::Sll { rd, rs1, rs2 }),
        0x0000_2033 => Some(Ins::Slt { rd, rs1, rs2 }),
        0x0000_3033 => Some(Ins::Sltu { rd, rs1, rs2 }),
        0x0000_4033 => Some(Ins::Xor { rd, rs1, rs2 }),
        0x0000_5033 => Some(Ins::Srl { rd, rs1, rs2 }),
        0x0000_6033 => Some(Ins::Or { rd, rs1, rs2 }),
        0x0000_7033 => Some(Ins::And { rd, rs1, rs2 }),
        0x4000_0033 => Some(Ins::Sub { rd, rs1, rs2 }),
        0x4000_5033 => Some(Ins::Sra { rd, rs1, rs2 }),
        0x0200_0033 => Some(Ins::Mul { rd, rs1, rs2 }),
        0x0200_1033 => Some(Ins::Mulh { rd, rs1, rs2 }),
        0x0200_2033 => Some(Ins::Mulhsu { rd, rs1, rs2 }),
        0x0200_3033 => Some(Ins::Mulhu { rd, rs1, rs2 }),
        0x0200_4033 => Some(Ins::Div { rd, rs1, rs2 }),
        0x0200_5033 => Some(Ins::Divu { rd, rs1, rs2 }),
        0x0200_6033 => Some(Ins::Rem { rd, rs1, rs2 }),
        0x0200_7033 => Some(Ins::Remu { rd, rs1, rs2 }),
        _ => None,
    }
}

#[tactic(auto, unfolding(machine_defs::specs::Row::encoded_in))]
fn word_register(word: u32) -> Option<Ins>
    ensures { result ≡ encoded_in word_register_forms word }
{
    let rd = rd(word);
    let rs1 = rs1(word);
    let rs2 = rs2(word);
    match word & 0xfe00_707f {
        0x0000_003b => Some(Ins::Addw { rd, rs1, rs2 }),
        0x0000_103b => Some(Ins::Sllw { rd, rs1, rs2 }),
        0x0000_503b => Some(Ins::Srlw { rd, rs1, rs2 }),
        0x4000_003b => Some(Ins::Subw { rd, rs1, rs2 }),
        0x4000_503b => Some(Ins::Sraw { rd, rs1, rs2 }),
        0x0200_003b => Some(Ins::Mulw { rd, rs1, rs2 }),
        0x0200_403b => Some(Ins::Divw { rd, rs1, rs2 }),
        0x0200_503b => Some(Ins::Divuw { rd, rs1, rs2 }),
        0x0200_603b => Some(Ins::Remw { rd, rs1, rs2 }),
        0x0200_703b => Some(Ins::Remuw { rd, rs1, rs2 }),
        _ => None,
    }
}

#[tactic(auto, unfolding(machine_defs::specs::Row::encoded_in))]
fn fence(word: u32) -> Option<Ins>
    ensures { result ≡ encoded_in fence_forms word }
{
    match word & 0x0000_707f {
        0x0000_000f => Some(Ins::Fence),
        0x0000_100f => Some(Ins::FenceI),
        _ => None,
    }
}

#[tactic(auto, unfolding(machine_defs::specs::Row::encoded_in), using(crate::proofs::WholeWord::whole_word))]
fn system(word: u32) -> Option<Ins>
    ensures { result ≡ encoded_in system_forms word }
{
    match word {
        0x0000_0073 => Some(Ins::Ecall),
        0x0010_0073 => Some(Ins::Ebreak),
        _ => None,
    }
}

fn lui(word: u32) -> Ins
    ensures { result ≡ u_type Ins.Lui word }
{
    Ins::Lui {
        rd: rd(word),
        imm: u_immediate(word),
    }
}

fn auipc(word: u32) -> Ins
    ensures { result ≡ u_type Ins.Auipc word }
{
    Ins::Auipc {
        rd: rd(word),
        imm: u_immediate(word),
    }
}

fn jal(word: u32) -> Ins
    ensures { result ≡ j_type Ins.Jal word }
{
    Ins::Jal {
        rd: rd(word),
        imm: j_immediate(word),
    }
}

/// The instruction that a word of four bytes encodes.
pub(crate) fn instruction(word: u32) -> Option<Ins>
    ensures { result ≡ encoded_in full_forms word }
{
    match word & 0x7f {
        0x03 => load(word),
        0x0f => fence(word),
        0x13 => immediate(word),
        0x17 => Some(auipc(word)),
        0x1b => word_immediate(word),
        0x23 => store(word),
        0x33 => register(word),
        0x37 => Some(lui(word)),
        0x3b => word_register(word),
        0x63 => branch(word),
        0x67 => jump_register(word),
        0x6f => Some(jal(word)),
        0x73 => system(word),
        _ => None,
    }
}
