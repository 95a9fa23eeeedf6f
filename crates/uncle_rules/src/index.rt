// The uncles that kept blocks embed, by the hashes of their headers.
ghost use Rattle.std.specs.Prelude.{◌≡◌, ◌+◌, ◌<◌, ◌≤◌, ◌++◌, ◌∷◌, [], List, length, OnOk};
ghost use Rattle.std.specs.List.{list_any};
ghost use Rattle.chain_defs.specs.Schema.{Block};
ghost use Rattle.chain_defs.specs.Branch.{branch_places};
ghost use Rattle.chain_tree.specs.Blocks.{IndexesBlocks};
ghost use Rattle.uncle_rules.specs.Embedded.{embedded_in};
ghost use Rattle.uncle_rules.specs.Known.{is_named_on};

use crate::branch::is_on_branch;
use crate::header::has_number;
use chain_tree::Tree;
use mol_schema::BlockView;
use outside::NoMemory;
use std::alloc::Global;
use std::collections::HashMap;
use std::marker::Model;
use view_hashes::header_hash;

/// An embedded uncle.
#[derive(Clone, Copy)]
struct Entry {
    hash: [u8; 32],
    number: u64,
    /// The place of the block that embeds it.
    place: u32,
    /// The one before it with the same hash.
    earlier: Option<usize>,
}

/// The uncles that kept blocks embed. One may be embedded on several branches. Clauses see an `UnclesValue`: the list of
/// them, and how many more can be added without an allocation.
#[derive(Drop)]
pub struct Uncles {
    entries: Vec<Entry>,
    /// The last entry with a hash.
    latest: HashMap<[u8; 32], usize>,
    /// For how many more entries both have space.
    spare: usize,
}

impl Model for Uncles {
    ghost use Rattle.std.specs.Prelude.{◌+◌, ◌≤◌, length, map, vec_capacity};
    ghost use Rattle.std.specs.Str.{bytes_eq};
    ghost use Rattle.std.specs.HashMap.{get};
    ghost use Rattle.std.specs.HashMap as hashed;
    ghost use Rattle.uncle_rules.specs.Embedded.{UnclesValue};
    ghost use Rattle.uncle_rules.specs.Linked.{IsLinked};

    ghost Value = { UnclesValue };

    ghost view = { λ uncles. record { embedded = map (λ entry. record { hash = entry.hash; number = entry.number; place = entry.place }) uncles.entries.items; spare = uncles.spare } };

    ghost invariant = { λ uncles. IsLinked uncles.entries.items (get bytes_eq uncles.latest)
        × (length uncles.entries.items + uncles.spare ≤ vec_capacity uncles.entries)
        × (uncles.spare ≤ hashed.spare uncles.latest) };
}

impl Uncles {
    /// An index of no blocks.
    pub fn new(alloc: Global) -> Uncles
        ensures { result.embedded ≡ [] }
    {
        Uncles {
            entries: Vec::new(alloc),
            latest: HashMap::new(alloc),
            spare: 0,
        }
    }

    /// Allocates what so many more uncles take.
    pub fn reserve(&mut self, more: usize) -> Result<(), NoMemory>
        ensures embedded { self.new.embedded ≡ self.old.embedded }
        ensures spare { OnOk result (more ≤ self.new.spare) }
        ensures grows { self.old.spare ≤ self.new.spare }
    {
        if self.spare < more {
            self.entries.reserve(more)?;
            self.latest.reserve(more)?;
            self.spare = more;
        }
        Ok(())
    }

    /// Takes an uncle of the block at a place. It takes no memory.
    fn push(&mut self, hash: [u8; 32], number: u64, place: u32)
        requires { 0 < self.old.spare }
        ensures embedded { self.new.embedded ≡ self.old.embedded ++ record { hash = hash; number = number; place = place } ∷ [] }
        ensures spare { self.new.spare + 1 ≡ self.old.spare }
    {
        let earlier = self.latest.get(&hash).copied();
        let index = self.entries.len();
        self.spare -= 1;
        self.entries.push_reserved(Entry {
            hash,
            number,
            place,
            earlier,
        });
        let added: Result<_, _> = self.latest.insert(hash, index);
        added.unwrap();
    }

    /// Takes the uncles of the block at a place. It takes no memory.
    pub fn add(&mut self, block: &BlockView<'_>, place: u32)
        requires { length block.now.uncles ≤ self.old.spare }
        ensures embedded { self.new.embedded ≡ self.old.embedded ++ embedded_in place block.now }
        ensures spare { self.old.spare ≤ self.new.spare + length block.now.uncles }
    {
        'uncles: for i in 0..block.uncles_count() {
            let header = block.uncles_item(i).header();
            self.push(header_hash(&header), header.number(), place);
        }
    }

    /// Whether a block on the branch of a parent embeds an uncle with this hash and number.
    pub(crate) fn embeds(
        &self,
        tree: &Tree,
        parent: u32,
        hash: &[u8; 32],
        number: Option<u64>,
    ) -> bool
        requires { parent < length tree.now.entries }
        ensures { (kept : List Block) → IndexesBlocks kept tree.now.entries
            → result ≡ list_any (is_named_on (branch_places kept parent) hash.now number) self.now.embedded }
    {
        let mut next = self.latest.get(hash).copied();
        'walk: while let Some(at) = next {
            let entry = &self.entries[at];
            if has_number(number, entry.number) && is_on_branch(tree, parent, entry.place) {
                return true;
            }
            next = entry.earlier;
        }
        false
    }
}
