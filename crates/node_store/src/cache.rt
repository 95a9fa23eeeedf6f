// Bodies in memory, those that were used last.
ghost use Rattle.std.specs.Prelude.{◌≡◌, ◌≤◌, ◌<◌, List, [], length, Option, Some, is_some, nat_eq, IfOk, IfSome, OnOk, OnErr, IsSome, IsTrue};
ghost use Rattle.lru.specs.LruCache.{lru_cache, promoted, put_entries};
ghost use Rattle.chain_defs.specs.Ext.{is_ext};
ghost use Rattle.cell_state.specs.ListBlocks.{ids_of};
ghost use Rattle.outside.specs.Image.{Image};
ghost use Rattle.outside.specs.declared.disk.Damage.{Damage};
ghost use Rattle.outside.specs.declared.disk.ReadStop.TheVariants.{Damaged};
ghost use Rattle.chain_tree.specs.Reading.{found_next, nothing_found};
ghost use Rattle.chain_tree.specs.declared.entry.Entry.{Entry};
ghost use Rattle.node_store.specs.Held.{held_at, Holds, NothingNew, OnlyAdds, IsKept};

use crate::body::KeptBody;
use chain_tree::noted;
use lru::LruCache;
use outside::{Damage, NoMemory, ReadStop};
use std::alloc::Global;
use std::marker::Model;
use std::num::NonZeroUsize;

/// The bodies of entries, each by the entry's place, up to a number of them: the one that was used longest ago makes
/// room. It remembers what damage was found as a body was read for it. Clauses see the blocks with their exts, the
/// last used first, how many there may be, and that damage.
#[derive(Drop)]
pub struct Cache {
    bodies: LruCache<u32, KeptBody>,
    /// How often damage was found, and where last.
    found: u64,
    last: Option<Damage>,
}

impl Model for Cache {
    ghost use Rattle.node_store.specs.Held.{CacheValue, HaveForm};

    ghost Value = { CacheValue };

    ghost view = { λ cache. record { held = cache.bodies.entries; most = cache.bodies.cap; damages = record { count = cache.found; last = cache.last } } };

    ghost invariant = { λ cache. HaveForm cache.bodies.entries };
}

impl Cache {
    /// An empty cache for so many bodies, for which no damage was found yet.
    pub fn new(alloc: Global, blocks: usize) -> Result<Cache, NoMemory>
        requires { 1 ≤ blocks }
        ensures empty { IfOk result (λ cache. cache.held ≡ []) }
        ensures most { IfOk result (λ cache. cache.most ≡ blocks) }
        ensures undamaged { IfOk result (λ cache. cache.damages ≡ nothing_found) }
        ensures agrees { (entries : List Entry) (reads : Option Image) → IfOk result (λ cache. IfSome reads (IsKept entries cache.held)) }
    {
        let Some(most) = NonZeroUsize::new(blocks) else {
            unreachable!()
        };
        Ok(Cache {
            bodies: LruCache::new(alloc, most)?,
            found: 0,
            last: None,
        })
    }

    /// Whether a body is held for an entry. If so it is now the last used.
    pub(crate) fn promote(&mut self, e: u32) -> bool
        ensures held { result ≡ is_some (held_at self.old.held e) }
        ensures still { IsTrue result → IsSome (held_at self.new.held e) }
        ensures only { NothingNew self.old.held self.new.held }
        ensures order { self.new.held ≡ promoted (nat_eq e) self.old.held }
        ensures most { self.new.most ≡ self.old.most }
        ensures damages { self.new.damages ≡ self.old.damages }
    {
        self.bodies.promote(&e)
    }

    /// The body that is held for an entry.
    pub(crate) fn body(&self, e: u32) -> &KeptBody
        requires { IsSome (held_at self.now.held e) }
        ensures holds { Holds self.now.held e result.now }
        ensures form { 0 < e → IsTrue (is_ext result.now.ext) }
    {
        match self.bodies.peek(&e) {
            Some(body) => body,
            None => unreachable!(),
        }
    }

    /// The proposal ids of the body that is held for an entry.
    pub(crate) fn ids(&mut self, alloc: Global, e: u32) -> Result<Vec<[u8; 10]>, NoMemory>
        requires { IsSome (held_at self.old.held e) }
        ensures ids { IfOk result (λ ids. IfSome (held_at self.old.held e) (λ it. ids.items ≡ ids_of it.block)) }
        ensures same { self.new ≡ self.old }
    {
        match self.bodies.peek_mut(&e) {
            Some(body) => body.ids(alloc),
            None => unreachable!(),
        }
    }

    /// Takes a body for an entry. Out of memory, nothing has changed.
    pub fn put(&mut self, e: u32, body: KeptBody) -> Result<(), NoMemory>
        requires form { 0 < e → IsTrue (is_ext body.ext) }
        ensures held { OnOk result (held_at self.new.held e ≡ Some body) }
        ensures only { OnlyAdds e body self.old.held self.new.held }
        ensures order { OnOk result (self.new.held ≡ put_entries nat_eq (lru_cache self.old.held self.old.most) e body) }
        ensures most { self.new.most ≡ self.old.most }
        ensures damages { self.new.damages ≡ self.old.damages }
        ensures err { OnErr result (self.new ≡ self.old) }
    {
        self.bodies.put(e, body)?;
        Ok(())
    }

    /// How many bodies are held: no more than it was made for.
    pub fn count(&self) -> usize
        ensures count { result ≡ length self.now.held }
        ensures most { length self.now.held ≤ self.now.most }
    {
        self.bodies.len()
    }

    /// Notes a stop of a reading where it is damage.
    pub(crate) fn note(&mut self, stop: ReadStop)
        ensures held { self.new.held ≡ self.old.held }
        ensures most { self.new.most ≡ self.old.most }
        ensures next { (damage : Damage) → stop ≡ Damaged damage → self.new.damages ≡ found_next damage self.old.damages }
        ensures same { ((damage : Damage) → stop ≡ Damaged damage → ⊥) → self.new.damages ≡ self.old.damages }
    {
        let (found, last) = noted(self.found, self.last, stop);
        self.found = found;
        self.last = last;
    }
}
