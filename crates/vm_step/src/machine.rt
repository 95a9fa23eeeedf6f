// The machine, and what its user sees and changes of it.
ghost use Rattle.std.specs.Borrow.{sem};
ghost use Rattle.std.specs.Prelude.{◌≡◌, ◌≢◌, ◌⊎◌, ℕ, ◌%◌, ◌^◌, ◌<◌, ◌≤◌, true, false, not, IsTrue};
ghost use Rattle.machine_defs.specs.Program.{new_machine};
ghost use Rattle.machine_defs.specs.Step.{charged, is_spent, register, step_of, with_register};
ghost use Rattle.vm_mem.specs.Kept.{target_of};
ghost use Rattle.vm_mem.specs.Pages.{IsAllocated};
ghost use Rattle.vm_mem.specs.Slots.{IsKept};
ghost use Rattle.vm_step.specs.Lending.{LendsMemory};
ghost use Rattle.vm_step.specs.Running.{HasRoom, IsOneStep, IsStep, IsStoredTo, LeavesRoom, Stops, Touches, cycles_of, goes_on_after, machine_at, next_range, stands, with_place};

use super::fault::{NO_INSTRUCTION, fault_number};
use super::place::Place;
use machine_defs::Step;
use std::marker::Model;
use vm_mem::{Memory, Slot, kept_form};

const STACK_POINTER: u64 = 0x3f_fff0;

/// A machine: its registers, memory and program counter, the cycles so far and the most that there may be.
///
/// It goes on until a step answers anything but `Went` and `Ecall`, or `charge` answers false. Then its
/// registers, memory and cycles can still be looked at, and no step can be made.
#[derive(Drop)]
pub struct Machine {
    pub(crate) memory: Memory,
    // x0 to x31, and one in place of x0 where an instruction writes it, which is never read. So x0 stays 0.
    pub(crate) registers: [u64; 33],
    pub(crate) place: Place,
    pub(crate) budget: u64,
    pub(crate) goes_on: bool,
    // What the last step answered.
    pub(crate) last: Step,
}

// An odd address, which no instruction has.
const NOWHERE: u64 = 1;

// What is left of a budget is this or more where it wrapped below 0.
const BELOW: u64 = 0x8000_0000_0000_0000;

impl Model for Machine {
    ghost use Rattle.std.specs.Prelude.{◌≡◌, ◌^◌, ◌≤◌, slice_index, take, true};
    ghost use Rattle.vm_step.specs.Running.{RunningMachine, cycles_of};

    ghost Value = { RunningMachine };

    ghost view = { λ m. record {
      machine = record { pc = m.place.pc; registers = take 32 m.registers; memory = m.memory.memory; cycles = cycles_of m.budget m.place.left; budget = m.budget };
      allocated = m.memory.allocated;
      goes_on = m.goes_on;
      last = m.last;
    } };

    ghost invariant = { λ m. (slice_index m.registers 0 ≡ 0) × (m.budget ≤ 2 ^ 40) × (m.goes_on ≡ true → cycles_of m.budget m.place.left ≤ m.budget) };
}

impl Machine {
    /// A machine before its first step, with its program in memory and `pc` at the program's entry.
    ///
    /// All registers are 0 but the stack pointer, x2, which is 0x3ffff0. The cycles are those that its loading took, and
    /// the budget is the most that there may be.
    #[tactic(auto, unfolding(machine_defs::specs::Program::new_machine, machine_defs::specs::Program::initial_registers))]
    pub fn new(memory: Memory, pc: u64, cycles: u64, budget: u64) -> Machine
        requires bound { budget ≤ 2 ^ 40 }
        requires within { cycles ≤ budget }
        ensures machine { result.machine ≡ charged (new_machine memory.memory pc budget) cycles }
        ensures allocated { result.allocated ≡ memory.allocated }
        ensures goes_on { result.goes_on ≡ true }
    {
        let mut registers = [0u64; 33];
        registers[2] = STACK_POINTER;
        Machine {
            memory,
            registers,
            place: Place {
                pc,
                left: budget - cycles,
            },
            budget,
            goes_on: true,
            last: Step::Went,
        }
    }

    /// One step: the instruction at the program counter.
    ///
    /// Its cycles are added first, and where they pass the budget the answer is `Spent` and the instruction has
    /// no effect. An odd program counter, or one where no instruction is, is a fault and costs nothing.
    #[cold]
    #[inline(never)]
    pub fn step(&mut self) -> Step
        requires { self.old.goes_on ≡ true }
        ensures steps { IsStep (step_of self.old.machine) self.old.machine self.new.machine result }
        ensures goes_on { self.new.goes_on ≡ goes_on_after result }
        ensures last { self.new.last ≡ result }

        // With room for what the instruction stores, NoMemory does not come. A store leaves room there. No page
        // loses its own, and none is allocated but those that the store touches.
        ensures room { HasRoom self.old.allocated (next_range self.old.machine) → result ≢ Step.NoMemory }
        ensures allocated { result ≡ Step.Went → HasRoom self.new.allocated (next_range self.old.machine) }
        ensures pages_kept { (page : ℕ) → IsAllocated self.old.allocated page → IsAllocated self.new.allocated page }
        ensures pages_added { (page : ℕ) → IsAllocated self.new.allocated page → IsAllocated self.old.allocated page ⊎ Touches (next_range self.old.machine) page }
    {
        self.last = Step::Went;
        let mut place = self.place;
        self.step_at(&mut place);
        match self.last {
            Step::Went => {
                self.place = place;
                Step::Went
            }
            answer => answer,
        }
    }

    /// Steps up to the first whose answer is not `Went`, and that answer.
    ///
    /// `NoMemory` comes only where the next step stores to a page that was not allocated, and that no step before stored
    /// to. No page is allocated but those that a step stores to.
    #[inline(never)]
    pub fn run(&mut self) -> Step
        requires { self.old.goes_on ≡ true }
        ensures stops { Stops self.old self.new.machine result }
        ensures goes_on { self.new.goes_on ≡ goes_on_after result }
        ensures room { result ≢ Step.NoMemory → LeavesRoom self.old.machine self.new.allocated }
        ensures pages_kept { (page : ℕ) → IsAllocated self.old.allocated page → IsAllocated self.new.allocated page }
        ensures pages_added { (page : ℕ) → IsAllocated self.new.allocated page → IsAllocated self.old.allocated page ⊎ IsStoredTo self.old.machine page }
    {
        self.last = Step::Went;
        let mut place = self.place;
        'steps: loop {
            let slot = self.memory.slot(place.pc);
            if u64::from(slot.at) == place.pc {
                self.go(&mut place, slot);
            } else {
                match self.last {
                    Step::Went => self.step_apart(&mut place),
                    answer => return answer,
                }
            }
        }
    }

    /// Adds cycles, and says whether they are still within the budget.
    #[inline(always)]
    pub fn charge(&mut self, cycles: u64) -> bool
        requires goes_on { self.old.goes_on ≡ true }
        requires bound { cycles ≤ 2 ^ 40 }
        ensures machine { self.new.machine ≡ charged self.old.machine cycles }
        ensures allocated { self.new.allocated ≡ self.old.allocated }
        ensures goes_on { self.new.goes_on ≡ result }
        ensures within { result ≡ not (is_spent self.new.machine) }
    {
        self.place.left = self.place.left.wrapping_sub(cycles);
        if self.place.left >= BELOW {
            self.goes_on = false;
            return false;
        }
        true
    }

    /// Register `i`; x0 is 0.
    #[inline(always)]
    #[tactic(auto, unfolding(machine_defs::specs::Step::register))]
    pub fn reg(&self, i: u8) -> u64
        requires { i < 32 }
        ensures { result ≡ register self.now.machine i }
    {
        self.registers[i as usize]
    }

    /// Writes register `i`; what is written to x0 is dropped.
    #[inline(always)]
    #[tactic(auto, unfolding(machine_defs::specs::Step::with_register))]
    pub fn set_reg(&mut self, i: u8, value: u64)
        requires { i < 32 }
        ensures { self.new ≡ record self.old { machine = with_register self.old.machine i value } }
    {
        if i != 0 {
            self.registers[usize::from(i)] = value;
        }
    }

    // Writes the target of an instruction that is kept, which is never x0.
    #[inline(always)]
    #[tactic(auto, unfolding(machine_defs::specs::Step::with_register))]
    pub(crate) fn set_target(&mut self, rd: u8, value: u64)
        requires { target_of rd < 32 }
        ensures { self.new ≡ record self.old { machine = with_register self.old.machine (target_of rd) value } }
    {
        self.registers[rd as usize] = value;
    }

    /// The cycles so far.
    pub fn cycles(&self) -> u64
        ensures { result ≡ self.now.machine.cycles }
    {
        cycles_of(self.budget, self.place.left)
    }

    /// The program counter: the address of the next instruction.
    pub fn pc(&self) -> u64
        ensures { result ≡ self.now.machine.pc }
    {
        self.place.pc
    }

    /// The machine's memory, to be read and written.
    pub fn memory_mut(&mut self) -> &mut Memory
        ensures* lends { sem 𝓛 (LendsMemory self.entry result) }
        ensures memory { result.now ≡ record { memory = self.old.machine.memory; allocated = self.old.allocated } }
    {
        &mut self.memory
    }

    // One step of a run, by the slot that has the instruction at the program counter. Where the run ends the program
    // counter is apart from the machine's, and odd, so that no slot has it: one test a step is of both. The effect stands
    // here twice, so that the next program counter waits for no length.
    #[inline(always)]
    fn go(&mut self, place: &mut Place, slot: Slot)
        requires goes_on { self.old.goes_on ≡ true }
        requires went { self.old.last ≡ Step.Went }
        requires within { (machine_at self.old place.old).cycles ≤ self.old.machine.budget }
        requires at { slot.at ≡ place.old.pc }
        requires kept { IsKept self.old.machine.memory slot }
        ensures { IsOneStep (with_place self.old place.old) (stands self.new place.new) self.new.last place.new.pc }
    {
        if slot.length == 2 {
            self.execute::<2>(place, slot.kept, 2);
        } else {
            self.execute::<4>(place, slot.kept, 4);
        }
    }

    // One step of a run that `step` makes: what it answers goes through no memory.
    #[inline(always)]
    fn step_apart(&mut self, place: &mut Place)
        requires goes_on { self.old.goes_on ≡ true }
        requires within { (machine_at self.old place.old).cycles ≤ self.old.machine.budget }
        ensures { IsOneStep (with_place self.old place.old) (stands self.new place.new) self.new.last place.new.pc }
    {
        self.place = *place;
        match self.step() {
            Step::Went => {}
            _ => {
                place.pc = NOWHERE;
                return;
            }
        }
        *place = self.place;
    }

    // One step, with the place apart from the machine.
    #[inline(always)]
    fn step_at(&mut self, place: &mut Place)
        requires goes_on { self.old.goes_on ≡ true }
        requires went { self.old.last ≡ Step.Went }
        requires within { (machine_at self.old place.old).cycles ≤ self.old.machine.budget }
        ensures { IsOneStep (with_place self.old place.old) (stands self.new place.new) self.new.last place.new.pc }
    {
        if place.pc % 2 == 1 {
            self.stop(place, Step::Fault(NO_INSTRUCTION));
            return;
        }
        let (ins, length) = match self.memory.instruction(place.pc) {
            Ok(Some(decoded)) => decoded,
            Ok(None) => {
                self.stop(place, Step::Fault(NO_INSTRUCTION));
                return;
            }
            Err(fault) => {
                self.stop(place, Step::Fault(fault_number(fault)));
                return;
            }
        };
        self.execute::<0>(place, kept_form(ins), u64::from(length));
    }

    // Adds what an instruction costs, and says whether the cycles are still within the budget: the sign of what is left.
    #[inline(always)]
    pub(crate) fn pay(&self, place: &mut Place, cost: u64) -> bool
        requires bound { cost ≤ 2 ^ 40 }
        requires within { (machine_at self.now place.old).cycles ≤ self.now.machine.budget }
        ensures machine { machine_at self.now place.new ≡ charged (machine_at self.now place.old) cost }
        ensures within { result ≡ not (is_spent (machine_at self.now place.new)) }
        ensures lasts { IsTrue result → (machine_at self.now place.new).cycles ≤ self.now.machine.budget }
    {
        // The budget's bound is known where the machine is looked at.
        let _ = &self.budget;
        place.left = place.left.wrapping_sub(cost);
        place.left < BELOW
    }

    // The machine goes on no more.
    #[inline(always)]
    pub(crate) fn stop(&mut self, place: &mut Place, answer: Step)
        ensures machine { self.new ≡ record (with_place self.old place.old) { goes_on = false; last = answer } }
        ensures nowhere { place.new.pc % 2 ≡ 1 }
    {
        self.goes_on = false;
        self.end(place, answer);
    }

    // The last step answered so. The machine has its place again, and the place apart is that of no instruction.
    #[inline(always)]
    pub(crate) fn end(&mut self, place: &mut Place, answer: Step)
        requires { self.old.goes_on ≡ true → (machine_at self.old place.old).cycles ≤ self.old.machine.budget }
        ensures machine { self.new ≡ record (with_place self.old place.old) { last = answer } }
        ensures nowhere { place.new.pc % 2 ≡ 1 }
    {
        self.place = *place;
        self.last = answer;
        place.pc = NOWHERE;
    }
}

// The cycles so far, of a budget and what is left of it.
#[inline(always)]
#[tactic(auto, unfolding(crate::specs::Running::cycles_of))]
fn cycles_of(budget: u64, left: u64) -> u64
    ensures cycles { result ≡ cycles_of budget left }
{
    budget.wrapping_sub(left)
}
