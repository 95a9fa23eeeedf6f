// A syscall from its number to its result.
ghost use Rattle.std.specs.Prelude.{◌≡◌, ◌≢◌, ℕ, true, Some};
ghost use Rattle.outside.specs.Causes.{CountsFault};
ghost use Rattle.outside.specs.declared.disk.Area.TheVariants.{Log};
ghost use Rattle.outside.specs.declared.disk.Damage.{Damage};
ghost use Rattle.outside.specs.declared.disk.ReadStop.TheVariants.{DiskFault, Damaged, NoMemory};
ghost use Rattle.outside.specs.declared.disk.ReadStop.{ReadStop};
ghost use Rattle.machine_defs.specs.World.{Items};
ghost use Rattle.machine_defs.specs.World as items_of;
ghost use Rattle.machine_defs.specs.Answer.{asks, results, syscall, with_item, with_bytes};
ghost use Rattle.machine_defs.specs.Alone as alone;
ghost use Rattle.vm_mem.specs.Pages.{IsAllocated};
ghost use Rattle.vm_sys.specs.Actions.{form_meaning};
ghost use Rattle.vm_sys.specs.Finding.{Finds};
ghost use Rattle.vm_sys.specs.Answering.{AddsPages, BytesTouch, CallTouches, HoldsPart, IsAnswer, IsAnswerOfSome, WhereCutOff, ItemTouches, goes_on_of};
ghost use Rattle.vm_sys.specs.Running.{LoadsItem};

use super::call::{A0, A7, Action, Form, action_of, asked};
use super::loading::{load_code, load_part};
use super::world::{Found, World};
use outside::ReadStop;
use vm_step::Machine;

/// The results in a0 where no item is loaded.
const INDEX_OUT_OF_BOUND: u64 = 1;

const ITEM_MISSING: u64 = 2;

/// The fault of a call that there is not, or of a source or a field.
const UNKNOWN: u8 = 5;

/// How a syscall was answered.
#[derive(Clone, Copy, Debug, PartialEq, Eq)]
pub enum Sys {
    /// The program goes on.
    Done,
    /// It exited with this code.
    Exit(i8),
    /// It could not go on.
    Fault(u8),
    /// The cycles passed the budget.
    Spent,
    /// Memory was wanted, or the world could not be read.
    Stop(ReadStop),
}

/// Answers an ECALL: the syscall whose number is in a7, over what surrounds the script.
///
/// Where the world tells what it shows, memory is wanted only by a call that loads from a source, and a field, that
/// there is. A call that is stopped costs nothing. It changes at most what memory holds, as one that faults does: a
/// part of what the call stores may be there.
pub fn handle<W: World>(machine: &mut Machine, world: &mut W) -> Sys
    requires { machine.old.goes_on ≡ true }
    ensures told { W.told world.new ≡ W.told world.old }
    ensures loans { W.loans_of world.new ≡ W.loans_of world.old }
    ensures some { IsAnswerOfSome (λ item. syscall (λ call. item) machine.old.machine) machine.new.machine result }
    ensures exact { (items : Items) → W.told world.old ≡ Some items → IsAnswer (syscall items machine.old.machine) machine.new.machine result }
    ensures goes_on { machine.new.goes_on ≡ goes_on_of result }
    ensures wants { (items : Items) → W.told world.old ≡ Some items → result ≡ Sys.Stop NoMemory → LoadsItem items machine.old.machine }
    ensures unpaid { (stop : ReadStop) → result ≡ Sys.Stop stop → machine.new.machine.cycles ≡ machine.old.machine.cycles }
    ensures cause { CountsFault (W.faults world.old) (W.faults world.new) (result ≡ Sys.Stop DiskFault) }
    ensures answered { Finds (W.damages world.old) (W.damages world.new) (λ damage. result ≡ Sys.Stop (Damaged damage)) }
    ensures undamaged { W.IsSound (W.loans_of world.old) → (damage : Damage) → result ≡ Sys.Stop (Damaged damage) → ⊥ }
    ensures damage { (damage : Damage) → result ≡ Sys.Stop (Damaged damage) → damage.area ≡ Log }
    ensures in_part { WhereCutOff result (HoldsPart machine.old.machine machine.new.machine) }
    ensures pages_kept { (page : ℕ) → IsAllocated machine.old.allocated page → IsAllocated machine.new.allocated page }
    ensures pages_added { (items : Items) → W.told world.old ≡ Some items → AddsPages machine.old.allocated machine.new.allocated (CallTouches items machine.old.machine) }
{
    let deed = match action_of(machine.reg(A7)) {
        Some(deed) => deed,
        None => return Sys::Fault(UNKNOWN),
    };
    match deed {
        Action::Exits => Sys::Exit(low_byte(machine.reg(A0))),
        Action::Debugs => Sys::Done,
        Action::Loads(form) => load(machine, world, form),
    }
}

// A syscall that loads.
fn load<W: World>(machine: &mut Machine, world: &mut W, form: Form) -> Sys
    requires { machine.old.goes_on ≡ true }
    ensures told { W.told world.new ≡ W.told world.old }
    ensures loans { W.loans_of world.new ≡ W.loans_of world.old }
    ensures some { IsAnswerOfSome (with_item (form_meaning form) machine.old.machine) machine.new.machine result }
    ensures exact { (items : Items) → W.told world.old ≡ Some items → IsAnswer (with_item (form_meaning form) machine.old.machine (items (asks machine.old.machine (form_meaning form)))) machine.new.machine result }
    ensures goes_on { machine.new.goes_on ≡ goes_on_of result }
    ensures wants { (items : Items) → W.told world.old ≡ Some items → result ≡ Sys.Stop NoMemory → items (asks machine.old.machine (form_meaning form)) ≢ items_of.Unknown }
    ensures unpaid { (stop : ReadStop) → result ≡ Sys.Stop stop → machine.new.machine.cycles ≡ machine.old.machine.cycles }
    ensures cause { CountsFault (W.faults world.old) (W.faults world.new) (result ≡ Sys.Stop DiskFault) }
    ensures answered { Finds (W.damages world.old) (W.damages world.new) (λ damage. result ≡ Sys.Stop (Damaged damage)) }
    ensures undamaged { W.IsSound (W.loans_of world.old) → (damage : Damage) → result ≡ Sys.Stop (Damaged damage) → ⊥ }
    ensures damage { (damage : Damage) → result ≡ Sys.Stop (Damaged damage) → damage.area ≡ Log }
    ensures in_part { WhereCutOff result (HoldsPart machine.old.machine machine.new.machine) }
    ensures pages_kept { (page : ℕ) → IsAllocated machine.old.allocated page → IsAllocated machine.new.allocated page }
    ensures pages_added { (items : Items) → W.told world.old ≡ Some items → AddsPages machine.old.allocated machine.new.allocated (ItemTouches (form_meaning form) machine.old.machine (items (asks machine.old.machine (form_meaning form)))) }
{
    let found = match world.find(asked(machine, form)) {
        Ok(found) => found,
        Err(stop) => return Sys::Stop(stop),
    };
    match found {
        Found::Here => load_bytes(machine, form, world.bytes()),
        Found::NoIndex => answer(machine, INDEX_OUT_OF_BOUND),
        Found::Missing => answer(machine, ITEM_MISSING),
        Found::Unknown => Sys::Fault(UNKNOWN),
    }
}

// Loads the bytes of an item.
fn load_bytes(machine: &mut Machine, form: Form, item: &[u8]) -> Sys
    requires { machine.old.goes_on ≡ true }
    ensures answer { IsAnswer (with_bytes (form_meaning form) machine.old.machine item.now) machine.new.machine result }
    ensures goes_on { machine.new.goes_on ≡ goes_on_of result }
    ensures stops { (stop : ReadStop) → result ≡ Sys.Stop stop → stop ≡ NoMemory }
    ensures unpaid { (stop : ReadStop) → result ≡ Sys.Stop stop → machine.new.machine.cycles ≡ machine.old.machine.cycles }
    ensures in_part { WhereCutOff result (HoldsPart machine.old.machine machine.new.machine) }
    ensures pages_kept { (page : ℕ) → IsAllocated machine.old.allocated page → IsAllocated machine.new.allocated page }
    ensures pages_added { AddsPages machine.old.allocated machine.new.allocated (BytesTouch (form_meaning form) machine.old.machine item.now) }
{
    match form {
        Form::Code => load_code(machine, item),
        Form::Part => load_part(machine, item),
        Form::Field => load_part(machine, item),
    }
}

// A result in a0.
fn answer(machine: &mut Machine, code: u64) -> Sys
    ensures answer { IsAnswer (results machine.old.machine code) machine.new.machine result }
    ensures goes_on { machine.new.goes_on ≡ machine.old.goes_on }
    ensures done { result ≡ Sys.Done }
    ensures allocated { machine.new.allocated ≡ machine.old.allocated }
{
    machine.set_reg(A0, code);
    Sys::Done
}

/// The low byte of a register, as a signed number.
fn low_byte(register: u64) -> i8
    ensures { result ≡ alone.exit_code register }
{
    ((register % 0x100) as u8).cast_signed()
}
