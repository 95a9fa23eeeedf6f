// Kept blocks on the disk, as a source of blocks.
ghost use Rattle.std.specs.Prelude.{◌≡◌, ◌<◌, ℕ, List, Option, Some, None, Err, length, OnOk, OnErr, IfSome, IsSome, IsSomeAnd, IsOk};
ghost use Rattle.std.proofs.Props.{props};
ghost use Rattle.outside.specs.declared.disk.Area.TheVariants.{Log as log_area};
ghost use Rattle.outside.specs.declared.disk.Damage.{Damage};
ghost use Rattle.outside.specs.declared.disk.ReadStop.TheVariants.{Damaged};
ghost use Rattle.chain_tree.specs.declared.entry.Entry.{Entry};
ghost use Rattle.chain_tree.specs.Entries.{entry_at};
ghost use Rattle.chain_tree.specs.Reading.{HasRead, stop_of};
ghost use Rattle.node_store.specs.Stored.{stored_at, known_by};
ghost use Rattle.node_store.specs.Held.{Lent, held_at, IsKept, IsInHand};

use crate::cache::Cache;
use crate::reading::load;
use chain_tree::{Blocks, Tree};
use mol_schema::BlockView;
use outside::{Disk, NoMemory, ReadStop};
use std::alloc::Global;

/// The kept blocks of a tree, as LOG has them. It borrows the disk, the tree of the entries, and a cache of what was
/// read before, which remembers the damage that it finds.
#[derive(Drop)]
pub struct Store<'d, D: Disk> {
    alloc: Global,
    disk: &'d mut D,
    tree: &'d Tree,
    cache: &'d mut Cache,
    /// The place of the current entry, whose body the cache holds.
    hand: Option<u32>,
    ghost kept: { IfSome (D.reads_as disk.now) (IsKept tree.now.entries cache.now.held) } by { Prim.hlevel props },
    ghost held: { IsInHand (length tree.now.entries) cache.now.held hand } by { Prim.hlevel props },
}

impl<'d, D: Disk> Store<'d, D> {
    /// Over a disk, a tree and a cache that holds nothing but what LOG has.
    pub fn new(alloc: Global, disk: &'d mut D, tree: &'d Tree, cache: &'d mut Cache) -> Store<'d, D>
        requires { IfSome (D.reads_as disk.old) (IsKept tree.now.entries cache.old.held) }
        ensures disk { result.disk.now ≡ disk.old }
        ensures its_disk { result.disk.ghost_name ≡ disk.entry.ghost_name }
        ensures cache { result.cache.now ≡ cache.old }
        ensures its_cache { result.cache.ghost_name ≡ cache.entry.ghost_name }
        ensures tree { result.tree.now ≡ tree.now }
        ensures hand { result.hand ≡ None }
    {
        Store {
            alloc,
            disk,
            tree,
            cache,
            hand: None,
        }
    }
}

impl<'d, D: Disk> Blocks for Store<'d, D> {
    ghost use Rattle.node_store.specs.Stored.{tells_all};
    ghost use Rattle.node_store.specs.Held.{hand_below};

    ghost told = { λ it. known_by (D.reads_as it.disk.now) it.tree.now.entries };

    ghost count = { λ it. length it.tree.now.entries };

    ghost in_hand = { λ it. it.hand };

    ghost faults = { λ it. D.faults it.disk.now };

    ghost damages = { λ it. it.cache.now.damages };

    ghost Loans = { Lent D.Content };

    ghost loans_of = { λ it. record {
      disk = it.disk.ghost_name;
      cache = it.cache.ghost_name;
      content = D.content_of it.disk.now;
      entries = it.tree.now.entries;
      most = it.cache.now.most;
    } };

    ghost told_all = { λ it. tells_all (D.reads_as it.disk.now) it.tree.now.entries };

    ghost hand_within = { λ it. hand_below (length it.tree.now.entries) it.cache.now.held it.hand it.held };

    ghost last_fault = { λ it. D.last_fault it.disk.now };

    fn bring(&mut self, e: u32) -> Result<(), ReadStop>
        requires within { e < length self.old.tree.now.entries }
        ensures read { HasRead {L = Lent D.Content}
            (λ it. known_by (D.reads_as it.disk.now) it.tree.now.entries) (λ it. length it.tree.now.entries)
            (λ it. record { disk = it.disk.ghost_name; cache = it.cache.ghost_name; content = D.content_of it.disk.now; entries = it.tree.now.entries; most = it.cache.now.most })
            (λ it. D.faults it.disk.now) (λ it. it.cache.now.damages) self.old self.new (stop_of result) }
        ensures taken { OnOk result (self.new.hand ≡ Some e) }
        ensures dropped { OnErr result (self.new.hand ≡ None) }
        ensures undamaged { IsSome (known_by (D.reads_as self.old.disk.now) self.old.tree.now.entries)
            → (damage : Damage) → result ≡ Err (Damaged damage) → ⊥ }
        ensures place { (damage : Damage) → result ≡ Err (Damaged damage)
            → IsSomeAnd (entry_at self.old.tree.now.entries e) (λ entry. damage ≡ record { area = log_area; at = entry.at }) }
        ensures missing { IfSome (D.reads_as self.old.disk.now) (λ image. (damage : Damage) → result ≡ Err (Damaged damage)
            → stored_at image self.old.tree.now.entries e ≡ None) }
        ensures found { IsSome (held_at self.old.cache.now.held e) → IsOk result }
        ensures uncalled { IsSome (held_at self.old.cache.now.held e) → self.new.disk.now ≡ self.old.disk.now }
    {
        self.hand = None;
        match load(self.alloc, self.disk, self.tree, self.cache, e) {
            Ok(()) => {
                self.hand = Some(e);
                Ok(())
            }
            Err(stop) => {
                self.cache.note(stop);
                Err(stop)
            }
        }
    }

    fn block(&self) -> BlockView<'_> {
        match self.hand {
            Some(e) => self.cache.body(e).block(),
            None => unreachable!(),
        }
    }

    fn spent(&self) -> &[u8] {
        match self.hand {
            Some(e) => self.cache.body(e).ext(),
            None => unreachable!(),
        }
    }

    fn ids(&mut self) -> Result<Vec<[u8; 10]>, NoMemory> {
        match self.hand {
            Some(e) => self.cache.ids(self.alloc, e),
            None => unreachable!(),
        }
    }

    fn report(&mut self, stop: ReadStop) {
        self.cache.note(stop);
    }
}
