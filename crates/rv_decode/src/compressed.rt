// The compressed forms, of two bytes. `half` is such a form, in the low 16 bits.

ghost use Rattle.std.specs.Prelude.{◌≡◌, ◌++◌};
ghost use Rattle.machine_defs.specs.Row.{encoded_in};
ghost use Rattle.machine_defs.specs.Compressed.{c_rd, c_rs2, c_short_rs1, c_short_rs2, c_immediate, c_shift_amount, c_lui_immediate, c_addi4spn_immediate, c_addi16sp_immediate, c_word_offset, c_double_offset, c_lwsp_offset, c_ldsp_offset, c_swsp_offset, c_sdsp_offset, c_jump_offset, c_branch_offset};
ghost use Rattle.machine_defs.specs.Compressed.{compressed_forms, quadrant_0_forms, quadrant_1_forms, quadrant_2_forms, c_immediate_and_jump_forms, c_upper_forms, c_arithmetic_forms, c_register_arithmetic_forms, c_shift_and_stack_forms, c_register_forms};

use crate::fields::{bits, part, sign_extended};
use machine_defs::Ins;

const ZERO: u8 = 0;

const RETURN_ADDRESS: u8 = 1;

const STACK_POINTER: u8 = 2;

#[tactic(auto, unfolding(machine_defs::specs::Compressed::c_rd))]
fn rd(half: u32) -> u8
    ensures { result ≡ c_rd half }
{
    bits(half, 11, 7) as u8
}

#[tactic(auto, unfolding(machine_defs::specs::Compressed::c_rs2))]
fn rs2(half: u32) -> u8
    ensures { result ≡ c_rs2 half }
{
    bits(half, 6, 2) as u8
}

#[tactic(auto, unfolding(machine_defs::specs::Compressed::c_short_rs1))]
fn short_rs1(half: u32) -> u8
    ensures { result ≡ c_short_rs1 half }
{
    8 + bits(half, 9, 7) as u8
}

#[tactic(auto, unfolding(machine_defs::specs::Compressed::c_short_rs2))]
fn short_rs2(half: u32) -> u8
    ensures { result ≡ c_short_rs2 half }
{
    8 + bits(half, 4, 2) as u8
}

#[tactic(auto, unfolding(machine_defs::specs::Compressed::c_immediate))]
fn immediate(half: u32) -> i64
    ensures { result ≡ c_immediate half }
{
    sign_extended(6, part(half, 12, 12, 5) + part(half, 6, 2, 0))
}

#[tactic(auto, unfolding(machine_defs::specs::Compressed::c_shift_amount))]
fn shift_amount(half: u32) -> i64
    ensures { result ≡ c_shift_amount half }
{
    i64::from(part(half, 12, 12, 5) + part(half, 6, 2, 0))
}

#[tactic(auto, unfolding(machine_defs::specs::Compressed::c_lui_immediate))]
fn lui_immediate(half: u32) -> i64
    ensures { result ≡ c_lui_immediate half }
{
    sign_extended(18, part(half, 12, 12, 17) + part(half, 6, 2, 12))
}

#[tactic(auto, unfolding(machine_defs::specs::Compressed::c_addi4spn_immediate))]
fn addi4spn_immediate(half: u32) -> i64
    ensures { result ≡ c_addi4spn_immediate half }
{
    let high = part(half, 12, 11, 4) + part(half, 10, 7, 6);
    i64::from(high + part(half, 6, 6, 2) + part(half, 5, 5, 3))
}

#[tactic(auto, unfolding(machine_defs::specs::Compressed::c_addi16sp_immediate))]
fn addi16sp_immediate(half: u32) -> i64
    ensures { result ≡ c_addi16sp_immediate half }
{
    let high = part(half, 12, 12, 9) + part(half, 6, 6, 4) + part(half, 5, 5, 6);
    sign_extended(10, high + part(half, 4, 3, 7) + part(half, 2, 2, 5))
}

#[tactic(auto, unfolding(machine_defs::specs::Compressed::c_word_offset))]
fn word_offset(half: u32) -> i64
    ensures { result ≡ c_word_offset half }
{
    i64::from(part(half, 12, 10, 3) + part(half, 6, 6, 2) + part(half, 5, 5, 6))
}

#[tactic(auto, unfolding(machine_defs::specs::Compressed::c_double_offset))]
fn double_offset(half: u32) -> i64
    ensures { result ≡ c_double_offset half }
{
    i64::from(part(half, 12, 10, 3) + part(half, 6, 5, 6))
}

#[tactic(auto, unfolding(machine_defs::specs::Compressed::c_lwsp_offset))]
fn lwsp_offset(half: u32) -> i64
    ensures { result ≡ c_lwsp_offset half }
{
    i64::from(part(half, 12, 12, 5) + part(half, 6, 4, 2) + part(half, 3, 2, 6))
}

#[tactic(auto, unfolding(machine_defs::specs::Compressed::c_ldsp_offset))]
fn ldsp_offset(half: u32) -> i64
    ensures { result ≡ c_ldsp_offset half }
{
    i64::from(part(half, 12, 12, 5) + part(half, 6, 5, 3) + part(half, 4, 2, 6))
}

#[tactic(auto, unfolding(machine_defs::specs::Compressed::c_swsp_offset))]
fn swsp_offset(half: u32) -> i64
    ensures { result ≡ c_swsp_offset half }
{
    i64::from(part(half, 12, 9, 2) + part(half, 8, 7, 6))
}

#[tactic(auto, unfolding(machine_defs::specs::Compressed::c_sdsp_offset))]
fn sdsp_offset(half: u32) -> i64
    ensures { result ≡ c_sdsp_offset half }
{
    i64::from(part(half, 12, 10, 3) + part(half, 9, 7, 6))
}

#[tactic(auto, unfolding(machine_defs::specs::Compressed::c_jump_offset))]
fn jump_offset(half: u32) -> i64
    ensures { result ≡ c_jump_offset half }
{
    let high = part(half, 12, 12, 11) + part(half, 11, 11, 4) + part(half, 10, 9, 8);
    let middle = high + part(half, 8, 8, 10) + part(half, 7, 7, 6) + part(half, 6, 6, 7);
    sign_extended(12, middle + part(half, 5, 3, 1) + part(half, 2, 2, 5))
}

#[tactic(auto, unfolding(machine_defs::specs::Compressed::c_branch_offset))]
fn branch_offset(half: u32) -> i64
    ensures { result ≡ c_branch_offset half }
{
    let high = part(half, 12, 12, 8) + part(half, 11, 10, 3) + part(half, 6, 5, 6);
    sign_extended(9, high + part(half, 4, 3, 1) + part(half, 2, 2, 5))
}

#[tactic(auto, unfolding(machine_defs::specs::Row::encoded_in))]
fn quadrant_0(half: u32) -> Option<Ins>
    ensures { result ≡ encoded_in quadrant_0_forms half }
{
    let rs1 = short_rs1(half);
    let rs2 = short_rs2(half);
    match half & 0xe003 {
        0x0000 => {
            if half & 0x1fe0 == 0 {
                None
            } else {
                Some(Ins::Addi {
                    rd: rs2,
                    rs1: STACK_POINTER,
                    imm: addi4spn_immediate(half),
                })
            }
        }
        0x4000 => Some(Ins::Lw {
            rd: rs2,
            rs1,
            imm: word_offset(half),
        }),
        0x6000 => Some(Ins::Ld {
            rd: rs2,
            rs1,
            imm: double_offset(half),
        }),
        0xc000 => Some(Ins::Sw {
            rs1,
            rs2,
            imm: word_offset(half),
        }),
        0xe000 => Some(Ins::Sd {
            rs1,
            rs2,
            imm: double_offset(half),
        }),
        _ => None,
    }
}

#[tactic(auto, unfolding(machine_defs::specs::Row::encoded_in))]
fn immediate_or_jump(half: u32) -> Option<Ins>
    ensures { result ≡ encoded_in c_immediate_and_jump_forms half }
{
    let rd = rd(half);
    let rs1 = short_rs1(half);
    match half & 0xe003 {
        0x0001 => Some(Ins::Addi {
            rd,
            rs1: rd,
            imm: immediate(half),
        }),
        0x2001 => {
            if half & 0x0f80 == 0 {
                None
            } else {
                Some(Ins::Addiw {
                    rd,
                    rs1: rd,
                    imm: immediate(half),
                })
            }
        }
        0x4001 => Some(Ins::Addi {
            rd,
            rs1: ZERO,
            imm: immediate(half),
        }),
        0xa001 => Some(Ins::Jal {
            rd: ZERO,
            imm: jump_offset(half),
        }),
        0xc001 => Some(Ins::Beq {
            rs1,
            rs2: ZERO,
            imm: branch_offset(half),
        }),
        0xe001 => Some(Ins::Bne {
            rs1,
            rs2: ZERO,
            imm: branch_offset(half),
        }),
        _ => None,
    }
}

// C.LUI is another instruction where its target is the stack pointer.
#[tactic(auto, unfolding(machine_defs::specs::Row::encoded_in))]
fn upper(half: u32) -> Option<Ins>
    ensures { result ≡ encoded_in c_upper_forms half }
{
    if half & 0x107c == 0 {
        None
    } else if half & 0xef83 == 0x6101 {
        Some(Ins::Addi {
            rd: STACK_POINTER,
            rs1: STACK_POINTER,
            imm: addi16sp_immediate(half),
        })
    } else if half & 0x0f80 == 0x0100 {
        None
    } else if half & 0xe003 == 0x6001 {
        Some(Ins::Lui {
            rd: rd(half),
            imm: lui_immediate(half),
        })
    } else {
        None
    }
}

#[tactic(auto, unfolding(machine_defs::specs::Row::encoded_in))]
fn arithmetic(half: u32) -> Option<Ins>
    ensures { result ≡ encoded_in (c_arithmetic_forms ++ c_register_arithmetic_forms) half }
{
    let rd = short_rs1(half);
    match half & 0xec03 {
        0x8001 => Some(Ins::Srli {
            rd,
            rs1: rd,
            imm: shift_amount(half),
        }),
        0x8401 => Some(Ins::Srai {
            rd,
            rs1: rd,
            imm: shift_amount(half),
        }),
        0x8801 => Some(Ins::Andi {
            rd,
            rs1: rd,
            imm: immediate(half),
        }),
        _ => register_arithmetic(half),
    }
}

#[tactic(auto, unfolding(machine_defs::specs::Row::encoded_in))]
fn register_arithmetic(half: u32) -> Option<Ins>
    ensures { result ≡ encoded_in c_register_arithmetic_forms half }
{
    let rd = short_rs1(half);
    let rs2 = short_rs2(half);
    match half & 0xfc63 {
        0x8c01 => Some(Ins::Sub { rd, rs1: rd, rs2 }),
        0x8c21 => Some(Ins::Xor { rd, rs1: rd, rs2 }),
        0x8c41 => Some(Ins::Or { rd, rs1: rd, rs2 }),
        0x8c61 => Some(Ins::And { rd, rs1: rd, rs2 }),
        0x9c01 => Some(Ins::Subw { rd, rs1: rd, rs2 }),
        0x9c21 => Some(Ins::Addw { rd, rs1: rd, rs2 }),
        _ => None,
    }
}

fn quadrant_1(half: u32) -> Option<Ins>
    ensures { result ≡ encoded_in quadrant_1_forms half }
{
    match half & 0xe003 {
        0x6001 => upper(half),
        0x8001 => arithmetic(half),
        _ => immediate_or_jump(half),
    }
}

#[tactic(auto, unfolding(machine_defs::specs::Row::encoded_in))]
fn shift_or_stack(half: u32) -> Option<Ins>
    ensures { result ≡ encoded_in c_shift_and_stack_forms half }
{
    let rd = rd(half);
    let rs2 = rs2(half);
    match half & 0xe003 {
        0x0002 => Some(Ins::Slli {
            rd,
            rs1: rd,
            imm: shift_amount(half),
        }),
        0x4002 => {
            if half & 0x0f80 == 0 {
                None
            } else {
                Some(Ins::Lw {
                    rd,
                    rs1: STACK_POINTER,
                    imm: lwsp_offset(half),
                })
            }
        }
        0x6002 => {
            if half & 0x0f80 == 0 {
                None
            } else {
                Some(Ins::Ld {
                    rd,
                    rs1: STACK_POINTER,
                    imm: ldsp_offset(half),
                })
            }
        }
        0xc002 => Some(Ins::Sw {
            rs1: STACK_POINTER,
            rs2,
            imm: swsp_offset(half),
        }),
        0xe002 => Some(Ins::Sd {
            rs1: STACK_POINTER,
            rs2,
            imm: sdsp_offset(half),
        }),
        _ => None,
    }
}

// Without rs2 these are jumps, or EBREAK where rd is missing too.
#[tactic(auto, unfolding(machine_defs::specs::Row::encoded_in), using(crate::proofs::RegisterForms::register_masks))]
fn register(half: u32) -> Option<Ins>
    ensures { result ≡ encoded_in c_register_forms half }
{
    let rd = rd(half);
    let rs2 = rs2(half);
    match half & 0xf07f {
        0x8002 => {
            if half & 0x0f80 == 0 {
                None
            } else {
                Some(Ins::Jalr {
                    rd: ZERO,
                    rs1: rd,
                    imm: 0,
                })
            }
        }
        0x9002 => {
            if half & 0x0f80 == 0 {
                Some(Ins::Ebreak)
            } else {
                Some(Ins::Jalr {
                    rd: RETURN_ADDRESS,
                    rs1: rd,
                    imm: 0,
                })
            }
        }
        _ => {
            if half & 0x007c == 0 {
                return None;
            }
            match half & 0xf003 {
                0x8002 => Some(Ins::Add { rd, rs1: ZERO, rs2 }),
                0x9002 => Some(Ins::Add { rd, rs1: rd, rs2 }),
                _ => None,
            }
        }
    }
}

fn quadrant_2(half: u32) -> Option<Ins>
    ensures { result ≡ encoded_in quadrant_2_forms half }
{
    match half & 0xe003 {
        0x8002 => register(half),
        _ => shift_or_stack(half),
    }
}

/// The instruction that a form of two bytes encodes.
pub(crate) fn instruction(half: u32) -> Option<Ins>
    ensures { result ≡ encoded_in compressed_forms half }
{
    match half & 3 {
        0 => quadrant_0(half),
        1 => quadrant_1(half),
        2 => quadrant_2(half),
        _ => None,
    }
}
