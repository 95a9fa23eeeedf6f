// What the kinds of instructions do, once they are paid for. The bounds on registers are those that `decode` ensures.
ghost use Rattle.std.specs.Prelude.{◌≡◌, ◌<◌, ◌≤◌, true, None};
ghost use Rattle.std.specs.Int.{w64};
ghost use Rattle.std.specs.Int.RustNames.{int_lt};
ghost use Rattle.machine_defs.specs.Alu.{bits_of, signed};
ghost use Rattle.machine_defs.specs.Memory.{byte_count};
ghost use Rattle.machine_defs.specs.Step.{branch, jump, load, moved, past_instruction, store, write};
ghost use Rattle.vm_mem.specs.Kept.{target_of};
ghost use Rattle.vm_step.specs.Extension.{extended};
ghost use Rattle.vm_step.specs.Running.{Executes, machine_at, range_at, stands, with_place};

use super::extension::{Extension, extended};
use super::fault::fault_number;
use super::machine::Machine;
use super::place::Place;
use machine_defs::{Step, Width};
use vm_mem::MemStop;

/// An immediate, as a register holds it.
#[inline(always)]
pub(crate) fn wide(imm: i32) -> u64
    ensures { result ≡ bits_of w64 imm }
{
    i64::from(imm).cast_unsigned()
}

/// An address and an offset from it.
#[inline(always)]
#[tactic(auto, unfolding(machine_defs::specs::Step::moved))]
pub(crate) fn moved(address: u64, offset: i32) -> u64
    ensures { result ≡ moved address offset }
{
    address.wrapping_add(wide(offset))
}

/// Whether a register is below another, as signed numbers.
#[inline(always)]
pub(crate) fn is_below(a: u64, b: u64) -> bool
    ensures { result ≡ int_lt (signed w64 a) (signed w64 b) }
{
    a.cast_signed() < b.cast_signed()
}

impl Machine {
    /// The next instruction follows.
    #[inline(always)]
    pub(crate) fn advance(&mut self, place: &mut Place, length: u64)
        requires goes_on { self.old.goes_on ≡ true }
        requires went { self.old.last ≡ Step.Went }
        ensures { Executes (Step.Went, past_instruction (machine_at self.old place.old) length) None (with_place self.old place.old) (stands self.new place.new) self.new.last place.new.pc }
    {
        place.pc = place.pc.wrapping_add(length);
    }

    /// The next instruction follows, once the caller has answered.
    #[inline(always)]
    pub(crate) fn ecall(&mut self, place: &mut Place, length: u64)
        requires goes_on { self.old.goes_on ≡ true }
        requires within { (machine_at self.old place.old).cycles ≤ self.old.machine.budget }
        ensures { Executes (Step.Ecall, past_instruction (machine_at self.old place.old) length) None (with_place self.old place.old) (stands self.new place.new) self.new.last place.new.pc }
    {
        place.pc = place.pc.wrapping_add(length);
        self.end(place, Step::Ecall);
    }

    /// A register is written, and the next instruction follows.
    #[inline(always)]
    pub(crate) fn write(&mut self, place: &mut Place, length: u64, rd: u8, value: u64)
        requires goes_on { self.old.goes_on ≡ true }
        requires went { self.old.last ≡ Step.Went }
        requires register { target_of rd < 32 }
        ensures { Executes (write (machine_at self.old place.old) length (target_of rd) value) None (with_place self.old place.old) (stands self.new place.new) self.new.last place.new.pc }
    {
        self.set_target(rd, value);
        place.pc = place.pc.wrapping_add(length);
    }

    /// The target is taken before the register is written, which may be the one that it came from.
    #[inline(always)]
    pub(crate) fn jump(&mut self, place: &mut Place, length: u64, rd: u8, target: u64)
        requires goes_on { self.old.goes_on ≡ true }
        requires went { self.old.last ≡ Step.Went }
        requires register { target_of rd < 32 }
        ensures { Executes (jump (machine_at self.old place.old) length (target_of rd) target) None (with_place self.old place.old) (stands self.new place.new) self.new.last place.new.pc }
    {
        let next = place.pc.wrapping_add(length);
        self.set_target(rd, next);
        place.pc = target;
    }

    /// The instruction at the offset follows where the branch is taken, else the next one.
    #[inline(always)]
    pub(crate) fn branch(&mut self, place: &mut Place, length: u64, taken: bool, imm: i32)
        requires goes_on { self.old.goes_on ≡ true }
        requires went { self.old.last ≡ Step.Went }
        ensures { Executes (branch (machine_at self.old place.old) length taken imm) None (with_place self.old place.old) (stands self.new place.new) self.new.last place.new.pc }
    {
        if taken {
            place.pc = moved(place.pc, imm);
            return;
        }
        place.pc = place.pc.wrapping_add(length);
    }

    /// A number from memory is written to a register. A fault comes also where that is x0.
    #[tactic(auto, unfolding(machine_defs::specs::Step::register))]
    #[inline(always)]
    pub(crate) fn load(
        &mut self,
        place: &mut Place,
        length: u64,
        width: Width,
        extension: Extension,
        rd: u8,
        rs1: u8,
        imm: i32,
    )
        requires goes_on { self.old.goes_on ≡ true }
        requires went { self.old.last ≡ Step.Went }
        requires target { target_of rd < 32 }
        requires source { rs1 < 32 }
        ensures { Executes (load (machine_at self.old place.old) length (target_of rd) rs1 imm (byte_count width) (extended extension width)) None (with_place self.old place.old) (stands self.new place.new) self.new.last place.new.pc }
    {
        let at = moved(self.reg(rs1), imm);
        match self.memory.load(at, width) {
            Ok(n) => {
                let value = extended(extension, width, n);
                self.write(place, length, rd, value);
            }
            Err(fault) => self.stop(place, Step::Fault(fault_number(fault))),
        }
    }

    /// The low bytes of a register are written to memory.
    #[tactic(auto, unfolding(machine_defs::specs::Step::register))]
    #[inline(always)]
    pub(crate) fn store(
        &mut self,
        place: &mut Place,
        length: u64,
        width: Width,
        rs1: u8,
        rs2: u8,
        imm: i32,
    )
        requires goes_on { self.old.goes_on ≡ true }
        requires went { self.old.last ≡ Step.Went }
        requires address { rs1 < 32 }
        requires source { rs2 < 32 }
        ensures { Executes (store (machine_at self.old place.old) length rs1 rs2 imm (byte_count width)) (range_at (machine_at self.old place.old) rs1 imm (byte_count width)) (with_place self.old place.old) (stands self.new place.new) self.new.last place.new.pc }
    {
        let at = moved(self.reg(rs1), imm);
        let value = self.reg(rs2);
        match self.memory.store(at, width, value) {
            Ok(()) => {
                place.pc = place.pc.wrapping_add(length);
            }
            Err(MemStop::Fault(fault)) => self.stop(place, Step::Fault(fault_number(fault))),
            Err(MemStop::NoMemory) => self.stop(place, Step::NoMemory),
        }
    }
}
