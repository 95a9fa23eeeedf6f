// Where the bytes of kept blocks come from: the trait that the rules on cells, proposals and uncles read them by.
ghost use Rattle.std.specs.Prelude.{◌≡◌, ◌-◌, ◌^◌, ◌<◌, ◌≤◌, Option, Some, None, Err, List, ℕ, length, map, drop, slice_get, IfOk, OnOk, OnErr, IfSome, IsSome, IsTrue};
ghost use Rattle.chain_defs.specs.Hashes.{proposal_id};
ghost use Rattle.chain_defs.specs.Ext.{is_ext};
ghost use Rattle.outside.specs.declared.disk.Area.TheVariants.{Log};
ghost use Rattle.outside.specs.declared.disk.Damage.{Damage};
ghost use Rattle.outside.specs.declared.disk.ReadStop.TheVariants.{DiskFault, Damaged};
ghost use Rattle.chain_tree.specs.Told.{Stored};
ghost use Rattle.chain_tree.specs.Reading.{Findings, HasRead, stop_of};

use mol_schema::BlockView;
use outside::{NoMemory, ReadStop};

/// The kept blocks with their exts, each by its place. One entry at a time is the current one: `bring` makes it so, and `block`,
/// `spent` and `ids` give what it has. What is damaged stands in LOG, where the kept blocks are.
pub trait Blocks {
    /// The kept blocks with their exts, where it tells them.
    ghost told: { Self → Option (List Stored) };

    /// How many entries it has.
    ghost count: { Self → ℕ };

    /// The place of the current entry.
    ghost in_hand: { Self → Option ℕ };

    /// How often it has failed.
    ghost faults: { Self → ℕ };

    /// The damage that was found of what it has, by it or by who reads it: how often, and which last.
    ghost damages: { Self → Findings };

    /// What it has borrowed, for one that borrows: no call changes it.
    ghost Loans: { Type 0 };

    ghost loans_of: { Self → Loans };

    /// Makes an entry the current one. After an `Err` none is.
    fn bring(&mut self, e: u32) -> Result<(), ReadStop>
        requires within { e < count self.old }
        ensures read { HasRead told count loans_of faults damages self.old self.new (stop_of result) }
        ensures taken { OnOk result (in_hand self.new ≡ Some e) }
        ensures dropped { OnErr result (in_hand self.new ≡ None) }
        ensures undamaged { IsSome (told self.old) → (damage : Damage) → result ≡ Err (Damaged damage) → ⊥ };

    /// The block of the current entry, the genesis included, as a view: a source checks the bytes of a block once, when
    /// it takes them from where they lie, and a reader borrows what was checked.
    fn block(&self) -> BlockView<'_>
        requires { IsSome (in_hand self.now) }
        ensures { IfSome (told self.now) (λ stored. IfSome (in_hand self.now) (λ e. IfSome (slice_get stored e) (λ it. result ≡ it.block))) };

    /// The whole ext of the current entry, which is not the genesis. It has the form of one over any source.
    fn spent(&self) -> &[u8]
        requires later { IfSome (in_hand self.now) (λ e. 0 < e) }
        requires in_hand { IsSome (in_hand self.now) }
        ensures form { IsTrue (is_ext result.now) }
        ensures ext { IfSome (told self.now) (λ stored. IfSome (in_hand self.now) (λ e. IfSome (slice_get stored e) (λ it. result.now ≡ it.ext))) };

    /// The proposal ids of the transactions of the current entry after its first, in their order. A source hashes a
    /// transaction for them once while it has the block, when they are first asked for.
    fn ids(&mut self) -> Result<Vec<[u8; 10]>, NoMemory>
        requires { IsSome (in_hand self.old) }
        ensures read { HasRead told count loans_of faults damages self.old self.new None }
        ensures in_hand { in_hand self.new ≡ in_hand self.old }
        ensures ids { IfOk result (λ ids. IfSome (told self.old) (λ stored. IfSome (in_hand self.old)
            (λ e. IfSome (slice_get stored e) (λ it. ids.items ≡ map proposal_id (drop 1 it.block.transactions))))) };

    /// Takes why a reader stopped, where no call here did. Damage is then what was found last, since what a reader finds wrong
    /// in what it was given is damage like any other.
    fn report(&mut self, stop: ReadStop)
        requires area { (damage : Damage) → stop ≡ Damaged damage → damage.area ≡ Log }
        requires no_fault { stop ≡ DiskFault → ⊥ }
        ensures read { HasRead told count loans_of faults damages self.old self.new (Some stop) }
        ensures in_hand { in_hand self.new ≡ in_hand self.old };

    /// It tells as many as it has.
    ghost told_all: { (blocks : Self) → IfSome (told blocks) (λ stored. length stored ≡ count blocks) };

    /// The current entry is one of them.
    ghost hand_within: { (blocks : Self) → IfSome (in_hand blocks) (λ e. e < count blocks) };

    /// The last value of the count of faults.
    ghost last_fault: { (blocks : Self) → faults blocks ≤ 2 ^ 64 - 1 };
}
