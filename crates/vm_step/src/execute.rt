// An instruction: its cost, and then its effect. Each arm pays its own cost, so that a step goes from what was decoded
// to its arm at once.
ghost use Rattle.std.specs.Prelude.{◌≡◌, ◌^◌, ◌<◌, ◌≤◌, true, None};
ghost use Rattle.machine_defs.specs.Instruction.{HasRegisters, cycles};
ghost use Rattle.machine_defs.specs.Memory.{byte_count};
ghost use Rattle.machine_defs.specs.Step.{branch, by_immediate, by_registers, charged, effect, jump, load, past_instruction, store, write};
ghost use Rattle.vm_mem.specs.Kept.{instruction_of, target_of};
ghost use Rattle.vm_step.specs.Extension.{extended};
ghost use Rattle.vm_step.specs.Running.{Executes, machine_at, paying, range_at, stored_range, stands, with_place};

use super::costs::{ACCESS, BASE, BRANCH, DIVIDE, DOUBLE, ENVIRONMENT, JUMP, MULTIPLY};
use super::effect::{is_below, moved, wide};
use super::extension::Extension;
use super::extension::Extension::{Sign, Zero};
use super::machine::Machine;
use super::place::Place;
use machine_defs::Width::{B1, B2, B4, B8};
use machine_defs::{Step, Width};
use rv_alu::Alu::{
    Add, Addw, And, Div, Divu, Divuw, Divw, Mul, Mulh, Mulhsu, Mulhu, Mulw, Or, Rem, Remu, Remuw,
    Remw, Sll, Sllw, Slt, Sltu, Sra, Sraw, Srl, Srlw, Sub, Subw, Xor,
};
use rv_alu::{Alu, op};
use vm_mem::Kept;

impl Machine {
    // The next instruction follows.
    #[inline(always)]
    fn paid_advance(&mut self, place: &mut Place, cost: u64, length: u64)
        requires goes_on { self.old.goes_on ≡ true }
        requires went { self.old.last ≡ Step.Went }
        requires bound { cost ≤ 2 ^ 40 }
        requires within { (machine_at self.old place.old).cycles ≤ self.old.machine.budget }
        ensures { Executes (paying cost (machine_at self.old place.old) (Step.Went, past_instruction (charged (machine_at self.old place.old) cost) length)) None (with_place self.old place.old) (stands self.new place.new) self.new.last place.new.pc }
    {
        if !self.pay(place, cost) {
            self.stop(place, Step::Spent);
            return;
        }
        self.advance(place, length)
    }

    // The caller answers ECALL.
    #[inline(always)]
    fn paid_ecall(&mut self, place: &mut Place, cost: u64, length: u64)
        requires goes_on { self.old.goes_on ≡ true }
        requires went { self.old.last ≡ Step.Went }
        requires bound { cost ≤ 2 ^ 40 }
        requires within { (machine_at self.old place.old).cycles ≤ self.old.machine.budget }
        ensures { Executes (paying cost (machine_at self.old place.old) (Step.Ecall, past_instruction (charged (machine_at self.old place.old) cost) length)) None (with_place self.old place.old) (stands self.new place.new) self.new.last place.new.pc }
    {
        if !self.pay(place, cost) {
            self.stop(place, Step::Spent);
            return;
        }
        self.ecall(place, length)
    }

    // A register is written.
    #[inline(always)]
    fn paid_write(&mut self, place: &mut Place, cost: u64, length: u64, rd: u8, value: u64)
        requires goes_on { self.old.goes_on ≡ true }
        requires went { self.old.last ≡ Step.Went }
        requires bound { cost ≤ 2 ^ 40 }
        requires within { (machine_at self.old place.old).cycles ≤ self.old.machine.budget }
        requires register { target_of rd < 32 }
        ensures { Executes (paying cost (machine_at self.old place.old) (write (charged (machine_at self.old place.old) cost) length (target_of rd) value)) None (with_place self.old place.old) (stands self.new place.new) self.new.last place.new.pc }
    {
        if !self.pay(place, cost) {
            self.stop(place, Step::Spent);
            return;
        }
        self.write(place, length, rd, value)
    }

    // The instruction at the target follows.
    #[inline(always)]
    fn paid_jump(&mut self, place: &mut Place, cost: u64, length: u64, rd: u8, target: u64)
        requires goes_on { self.old.goes_on ≡ true }
        requires went { self.old.last ≡ Step.Went }
        requires bound { cost ≤ 2 ^ 40 }
        requires within { (machine_at self.old place.old).cycles ≤ self.old.machine.budget }
        requires register { target_of rd < 32 }
        ensures { Executes (paying cost (machine_at self.old place.old) (jump (charged (machine_at self.old place.old) cost) length (target_of rd) target)) None (with_place self.old place.old) (stands self.new place.new) self.new.last place.new.pc }
    {
        if !self.pay(place, cost) {
            self.stop(place, Step::Spent);
            return;
        }
        self.jump(place, length, rd, target)
    }

    // The instruction at the offset may follow.
    #[inline(always)]
    fn paid_branch(&mut self, place: &mut Place, cost: u64, length: u64, taken: bool, imm: i32)
        requires goes_on { self.old.goes_on ≡ true }
        requires went { self.old.last ≡ Step.Went }
        requires bound { cost ≤ 2 ^ 40 }
        requires within { (machine_at self.old place.old).cycles ≤ self.old.machine.budget }
        ensures { Executes (paying cost (machine_at self.old place.old) (branch (charged (machine_at self.old place.old) cost) length taken imm)) None (with_place self.old place.old) (stands self.new place.new) self.new.last place.new.pc }
    {
        if !self.pay(place, cost) {
            self.stop(place, Step::Spent);
            return;
        }
        self.branch(place, length, taken, imm)
    }

    // A number is loaded.
    #[inline(always)]
    fn paid_load(
        &mut self,
        place: &mut Place,
        cost: u64,
        length: u64,
        width: Width,
        extension: Extension,
        rd: u8,
        rs1: u8,
        imm: i32,
    )
        requires goes_on { self.old.goes_on ≡ true }
        requires went { self.old.last ≡ Step.Went }
        requires bound { cost ≤ 2 ^ 40 }
        requires within { (machine_at self.old place.old).cycles ≤ self.old.machine.budget }
        requires target { target_of rd < 32 }
        requires source { rs1 < 32 }
        ensures { Executes (paying cost (machine_at self.old place.old) (load (charged (machine_at self.old place.old) cost) length (target_of rd) rs1 imm (byte_count width) (extended extension width))) None (with_place self.old place.old) (stands self.new place.new) self.new.last place.new.pc }
    {
        if !self.pay(place, cost) {
            self.stop(place, Step::Spent);
            return;
        }
        self.load(place, length, width, extension, rd, rs1, imm)
    }

    // A number is stored.
    #[inline(always)]
    fn paid_store(
        &mut self,
        place: &mut Place,
        cost: u64,
        length: u64,
        width: Width,
        rs1: u8,
        rs2: u8,
        imm: i32,
    )
        requires goes_on { self.old.goes_on ≡ true }
        requires went { self.old.last ≡ Step.Went }
        requires bound { cost ≤ 2 ^ 40 }
        requires within { (machine_at self.old place.old).cycles ≤ self.old.machine.budget }
        requires address { rs1 < 32 }
        requires source { rs2 < 32 }
        ensures { Executes (paying cost (machine_at self.old place.old) (store (charged (machine_at self.old place.old) cost) length rs1 rs2 imm (byte_count width))) (range_at (machine_at self.old place.old) rs1 imm (byte_count width)) (with_place self.old place.old) (stands self.new place.new) self.new.last place.new.pc }
    {
        if !self.pay(place, cost) {
            self.stop(place, Step::Spent);
            return;
        }
        self.store(place, length, width, rs1, rs2, imm)
    }

    // An operation on two registers.
    #[inline(always)]
    #[tactic(auto, unfolding(machine_defs::specs::Step::register))]
    fn by_registers(
        &mut self,
        place: &mut Place,
        cost: u64,
        length: u64,
        operation: Alu,
        rd: u8,
        rs1: u8,
        rs2: u8,
    )
        requires goes_on { self.old.goes_on ≡ true }
        requires went { self.old.last ≡ Step.Went }
        requires bound { cost ≤ 2 ^ 40 }
        requires within { (machine_at self.old place.old).cycles ≤ self.old.machine.budget }
        requires target { target_of rd < 32 }
        requires first { rs1 < 32 }
        requires second { rs2 < 32 }
        ensures { Executes (paying cost (machine_at self.old place.old) (by_registers (charged (machine_at self.old place.old) cost) length operation (target_of rd) rs1 rs2)) None (with_place self.old place.old) (stands self.new place.new) self.new.last place.new.pc }
    {
        let value = op(operation, self.reg(rs1), self.reg(rs2));
        self.paid_write(place, cost, length, rd, value)
    }

    // An operation on a register and an immediate.
    #[inline(always)]
    #[tactic(auto, unfolding(machine_defs::specs::Step::register))]
    fn by_immediate(
        &mut self,
        place: &mut Place,
        cost: u64,
        length: u64,
        operation: Alu,
        rd: u8,
        rs1: u8,
        imm: i32,
    )
        requires goes_on { self.old.goes_on ≡ true }
        requires went { self.old.last ≡ Step.Went }
        requires bound { cost ≤ 2 ^ 40 }
        requires within { (machine_at self.old place.old).cycles ≤ self.old.machine.budget }
        requires target { target_of rd < 32 }
        requires source { rs1 < 32 }
        ensures { Executes (paying cost (machine_at self.old place.old) (by_immediate (charged (machine_at self.old place.old) cost) length operation (target_of rd) rs1 imm)) None (with_place self.old place.old) (stands self.new place.new) self.new.last place.new.pc }
    {
        let value = op(operation, self.reg(rs1), wide(imm));
        self.paid_write(place, cost, length, rd, value)
    }

    /// An instruction of `length` bytes: its cost is added, the budget is looked at, and then it has its effect.
    ///
    /// `SITE` makes one of it for each place that calls it: a large function is inlined only where it is called once.
    #[inline(always)]
    pub(crate) fn execute<const SITE: u8>(&mut self, place: &mut Place, kept: Kept, length: u64)
        requires goes_on { self.old.goes_on ≡ true }
        requires went { self.old.last ≡ Step.Went }
        requires within { (machine_at self.old place.old).cycles ≤ self.old.machine.budget }
        requires registers { HasRegisters (instruction_of kept) }
        ensures { Executes (paying (cycles (instruction_of kept)) (machine_at self.old place.old) (effect (charged (machine_at self.old place.old) (cycles (instruction_of kept))) length (instruction_of kept))) (stored_range (machine_at self.old place.old) (instruction_of kept)) (with_place self.old place.old) (stands self.new place.new) self.new.last place.new.pc }
    {
        match kept {
            Kept::Lui { rd, imm } => self.paid_write(place, BASE, length, rd, wide(imm)),
            Kept::Auipc { rd, imm } => {
                let value = moved(place.pc, imm);
                self.paid_write(place, BASE, length, rd, value)
            }
            Kept::Jal { rd, imm } => {
                let target = moved(place.pc, imm);
                self.paid_jump(place, JUMP, length, rd, target)
            }
            Kept::Jalr { rd, rs1, imm } => {
                let target = moved(self.reg(rs1), imm) / 2 * 2;
                self.paid_jump(place, JUMP, length, rd, target)
            }
            Kept::Beq { rs1, rs2, imm } => {
                let a = self.reg(rs1);
                let b = self.reg(rs2);
                self.paid_branch(place, BRANCH, length, a == b, imm)
            }
            Kept::Bne { rs1, rs2, imm } => {
                let a = self.reg(rs1);
                let b = self.reg(rs2);
                self.paid_branch(place, BRANCH, length, a != b, imm)
            }
            Kept::Blt { rs1, rs2, imm } => {
                let a = self.reg(rs1);
                let b = self.reg(rs2);
                self.paid_branch(place, BRANCH, length, is_below(a, b), imm)
            }
            Kept::Bge { rs1, rs2, imm } => {
                let a = self.reg(rs1);
                let b = self.reg(rs2);
                self.paid_branch(place, BRANCH, length, !is_below(a, b), imm)
            }
            Kept::Bltu { rs1, rs2, imm } => {
                let a = self.reg(rs1);
                let b = self.reg(rs2);
                self.paid_branch(place, BRANCH, length, a < b, imm)
            }
            Kept::Bgeu { rs1, rs2, imm } => {
                let a = self.reg(rs1);
                let b = self.reg(rs2);
                self.paid_branch(place, BRANCH, length, a >= b, imm)
            }
            Kept::Lb { rd, rs1, imm } => self.paid_load(
                place, ACCESS, length, B1, Sign, rd, rs1, imm,
            ),
            Kept::Lh { rd, rs1, imm } => self.paid_load(
                place, ACCESS, length, B2, Sign, rd, rs1, imm,
            ),
            Kept::Lw { rd, rs1, imm } => self.paid_load(
                place, ACCESS, length, B4, Sign, rd, rs1, imm,
            ),
            Kept::Ld { rd, rs1, imm } => self.paid_load(
                place, DOUBLE, length, B8, Zero, rd, rs1, imm,
            ),
            Kept::Lbu { rd, rs1, imm } => self.paid_load(
                place, ACCESS, length, B1, Zero, rd, rs1, imm,
            ),
            Kept::Lhu { rd, rs1, imm } => self.paid_load(
                place, ACCESS, length, B2, Zero, rd, rs1, imm,
            ),
            Kept::Lwu { rd, rs1, imm } => self.paid_load(
                place, ACCESS, length, B4, Zero, rd, rs1, imm,
            ),
            Kept::Sb { rs1, rs2, imm } => self.paid_store(place, ACCESS, length, B1, rs1, rs2, imm),
            Kept::Sh { rs1, rs2, imm } => self.paid_store(place, ACCESS, length, B2, rs1, rs2, imm),
            Kept::Sw { rs1, rs2, imm } => self.paid_store(place, ACCESS, length, B4, rs1, rs2, imm),
            Kept::Sd { rs1, rs2, imm } => self.paid_store(place, DOUBLE, length, B8, rs1, rs2, imm),
            Kept::Addi { rd, rs1, imm } => self.by_immediate(
                place, BASE, length, Add, rd, rs1, imm,
            ),
            Kept::Slti { rd, rs1, imm } => self.by_immediate(
                place, BASE, length, Slt, rd, rs1, imm,
            ),
            Kept::Sltiu { rd, rs1, imm } => self.by_immediate(
                place, BASE, length, Sltu, rd, rs1, imm,
            ),
            Kept::Xori { rd, rs1, imm } => self.by_immediate(
                place, BASE, length, Xor, rd, rs1, imm,
            ),
            Kept::Ori { rd, rs1, imm } => self.by_immediate(place, BASE, length, Or, rd, rs1, imm),
            Kept::Andi { rd, rs1, imm } => self.by_immediate(
                place, BASE, length, And, rd, rs1, imm,
            ),
            Kept::Slli { rd, rs1, imm } => self.by_immediate(
                place, BASE, length, Sll, rd, rs1, imm,
            ),
            Kept::Srli { rd, rs1, imm } => self.by_immediate(
                place, BASE, length, Srl, rd, rs1, imm,
            ),
            Kept::Srai { rd, rs1, imm } => self.by_immediate(
                place, BASE, length, Sra, rd, rs1, imm,
            ),
            Kept::Addiw { rd, rs1, imm } => self.by_immediate(
                place, BASE, length, Addw, rd, rs1, imm,
            ),
            Kept::Slliw { rd, rs1, imm } => self.by_immediate(
                place, BASE, length, Sllw, rd, rs1, imm,
            ),
            Kept::Srliw { rd, rs1, imm } => self.by_immediate(
                place, BASE, length, Srlw, rd, rs1, imm,
            ),
            Kept::Sraiw { rd, rs1, imm } => self.by_immediate(
                place, BASE, length, Sraw, rd, rs1, imm,
            ),
            Kept::Add { rd, rs1, rs2 } => self.by_registers(place, BASE, length, Add, rd, rs1, rs2),
            Kept::Sub { rd, rs1, rs2 } => self.by_registers(place, BASE, length, Sub, rd, rs1, rs2),
            Kept::Sll { rd, rs1, rs2 } => self.by_registers(place, BASE, length, Sll, rd, rs1, rs2),
            Kept::Slt { rd, rs1, rs2 } => self.by_registers(place, BASE, length, Slt, rd, rs1, rs2),
            Kept::Sltu { rd, rs1, rs2 } => self.by_registers(
                place, BASE, length, Sltu, rd, rs1, rs2,
            ),
            Kept::Xor { rd, rs1, rs2 } => self.by_registers(place, BASE, length, Xor, rd, rs1, rs2),
            Kept::Srl { rd, rs1, rs2 } => self.by_registers(place, BASE, length, Srl, rd, rs1, rs2),
            Kept::Sra { rd, rs1, rs2 } => self.by_registers(place, BASE, length, Sra, rd, rs1, rs2),
            Kept::Or { rd, rs1, rs2 } => self.by_registers(place, BASE, length, Or, rd, rs1, rs2),
            Kept::And { rd, rs1, rs2 } => self.by_registers(place, BASE, length, And, rd, rs1, rs2),
            Kept::Mul { rd, rs1, rs2 } => self.by_registers(
                place, MULTIPLY, length, Mul, rd, rs1, rs2,
            ),
            Kept::Mulh { rd, rs1, rs2 } => self.by_registers(
                place, MULTIPLY, length, Mulh, rd, rs1, rs2,
            ),
            Kept::Mulhsu { rd, rs1, rs2 } => self.by_registers(
                place, MULTIPLY, length, Mulhsu, rd, rs1, rs2,
            ),
            Kept::Mulhu { rd, rs1, rs2 } => self.by_registers(
                place, MULTIPLY, length, Mulhu, rd, rs1, rs2,
            ),
            Kept::Div { rd, rs1, rs2 } => self.by_registers(
                place, DIVIDE, length, Div, rd, rs1, rs2,
            ),
            Kept::Divu { rd, rs1, rs2 } => self.by_registers(
                place, DIVIDE, length, Divu, rd, rs1, rs2,
            ),
            Kept::Rem { rd, rs1, rs2 } => self.by_registers(
                place, DIVIDE, length, Rem, rd, rs1, rs2,
            ),
            Kept::Remu { rd, rs1, rs2 } => self.by_registers(
                place, DIVIDE, length, Remu, rd, rs1, rs2,
            ),
            Kept::Addw { rd, rs1, rs2 } => self.by_registers(
                place, BASE, length, Addw, rd, rs1, rs2,
            ),
            Kept::Subw { rd, rs1, rs2 } => self.by_registers(
                place, BASE, length, Subw, rd, rs1, rs2,
            ),
            Kept::Sllw { rd, rs1, rs2 } => self.by_registers(
                place, BASE, length, Sllw, rd, rs1, rs2,
            ),
            Kept::Srlw { rd, rs1, rs2 } => self.by_registers(
                place, BASE, length, Srlw, rd, rs1, rs2,
            ),
            Kept::Sraw { rd, rs1, rs2 } => self.by_registers(
                place, BASE, length, Sraw, rd, rs1, rs2,
            ),
            Kept::Mulw { rd, rs1, rs2 } => self.by_registers(
                place, MULTIPLY, length, Mulw, rd, rs1, rs2,
            ),
            Kept::Divw { rd, rs1, rs2 } => self.by_registers(
                place, DIVIDE, length, Divw, rd, rs1, rs2,
            ),
            Kept::Divuw { rd, rs1, rs2 } => self.by_registers(
                place, DIVIDE, length, Divuw, rd, rs1, rs2,
            ),
            Kept::Remw { rd, rs1, rs2 } => self.by_registers(
                place, DIVIDE, length, Remw, rd, rs1, rs2,
            ),
            Kept::Remuw { rd, rs1, rs2 } => self.by_registers(
                place, DIVIDE, length, Remuw, rd, rs1, rs2,
            ),
            Kept::Fence => self.paid_advance(place, BASE, length),
            Kept::FenceI => self.paid_advance(place, BASE, length),
            Kept::Ecall => self.paid_ecall(place, ENVIRONMENT, length),
            Kept::Ebreak => self.paid_advance(place, ENVIRONMENT, length),
        }
    }
}
