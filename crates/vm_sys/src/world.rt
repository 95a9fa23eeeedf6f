// What surrounds a script: where the items come from that its syscalls load.
ghost use Rattle.std.specs.Prelude.{◌≡◌, ◌-◌, ◌^◌, ◌≤◌, Option, Some, Err, List, ℕ, IfOk, IfSome, IsSome};
ghost use Rattle.outside.specs.Causes.{CountsFault};
ghost use Rattle.outside.specs.declared.disk.Area.TheVariants.{Log};
ghost use Rattle.outside.specs.declared.disk.Damage.{Damage};
ghost use Rattle.outside.specs.declared.disk.ReadStop.TheVariants.{DiskFault, Damaged, NoMemory};
ghost use Rattle.machine_defs.specs.World.{Items};
ghost use Rattle.machine_defs.specs.World as items;
ghost use Rattle.vm_sys.specs.Finding.{item_of, Finds};

use super::call::Call;
use outside::ReadStop;

/// Whether an item is there.
#[derive(Clone, Copy, Debug, PartialEq, Eq)]
pub enum Found {
    /// It is, and its bytes can be read.
    Here,
    /// The source does not have such items, or its end is at the index or before it.
    NoIndex,
    /// The source has the index, and there is no such item.
    Missing,
    /// There is no such source or field.
    Unknown,
}

/// What a script may ask for. The item that was found last is the current one. What is damaged stands in LOG, where the kept
/// blocks are.
pub trait World {
    /// What each call asks for, where it tells that.
    ghost told: { Self → Option Items };

    /// The bytes of the current item.
    ghost here: { Self → Option (List ℕ) };

    /// How often it has failed.
    ghost faults: { Self → ℕ };

    /// The damage that it has found where it read: how often, and which last.
    ghost damages: { Self → ℕ × Option Damage };

    /// What it has borrowed, for one that borrows: no call changes it.
    ghost Loans: { Type 0 };

    ghost loans_of: { Self → Loans };

    /// Nothing is damaged of what it has borrowed: a world of which this holds finds no damage.
    ghost IsSound: { Loans → Type 0 };

    /// Finds the item that a call asks for.
    fn find(&mut self, call: Call) -> Result<Found, ReadStop>
        ensures told { told self.new ≡ told self.old }
        ensures loans { loans_of self.new ≡ loans_of self.old }
        ensures here { IfOk result (λ found. found ≡ Found.Here → IsSome (here self.new)) }
        ensures found { IfOk result (λ found. IfSome (told self.old) (λ items. items call ≡ item_of found (here self.new))) }
        // That there is no such source or field is known without memory.
        ensures known { IfSome (told self.old) (λ told. told call ≡ items.Unknown → result ≡ Err NoMemory → ⊥) }
        ensures cause { CountsFault (faults self.old) (faults self.new) (result ≡ Err DiskFault) }
        ensures answered { Finds (damages self.old) (damages self.new) (λ damage. result ≡ Err (Damaged damage)) }
        ensures undamaged { IsSound (loans_of self.old) → (damage : Damage) → result ≡ Err (Damaged damage) → ⊥ }
        ensures damage { (damage : Damage) → result ≡ Err (Damaged damage) → damage.area ≡ Log };

    /// The bytes of the current item.
    fn bytes(&self) -> &[u8]
        requires { IsSome (here self.now) }
        ensures { here self.now ≡ Some result.now };

    /// One that tells what it shows is sound.
    ghost sound_where_told: { (world : Self) → IsSome (told world) → IsSound (loans_of world) };

    /// The last value of the count of faults.
    ghost last_fault: { (world : Self) → faults world ≤ 2 ^ 64 - 1 };
}

/// A world that shows nothing, as of a program that runs alone. It never fails.
#[derive(Clone, Copy, Debug, PartialEq, Eq)]
pub struct Alone;

impl World for Alone {
    ghost use Rattle.std.specs.Prelude.{Some, None, [], ⊤};
    ghost use Rattle.std.proofs.Common.{arith};
    ghost use Rattle.machine_defs.specs.World.{nothing};

    ghost told = { λ alone. Some nothing };

    ghost here = { λ alone. Some [] };

    ghost faults = { λ alone. 0 };

    ghost damages = { λ alone. (0, None) };

    ghost last_fault = { λ alone. omega arith };

    ghost Loans = { ⊤ };

    ghost loans_of = { λ alone. tt };

    ghost IsSound = { λ loans. ⊤ };

    ghost sound_where_told = { λ alone told. tt };

    fn find(&mut self, _call: Call) -> Result<Found, ReadStop> {
        Ok(Found::Unknown)
    }

    fn bytes(&self) -> &[u8] {
        &[]
    }
}
