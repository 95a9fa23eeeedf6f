// The tree of the kept blocks.
ghost use Rattle.std.specs.Prelude.{◌≡◌, ◌+◌, ◌^◌, ◌<◌, ◌≤◌, ◌++◌, ◌∷◌, [], List, Some, None, length, IfOk, IsOk, OnOk, OnErr, IfSome, IsSomeAnd, slice_get};
ghost use Rattle.chain_defs.specs.Schema.{Block};
ghost use Rattle.chain_defs.specs.Kept.{block_at, place_of};
ghost use Rattle.chain_defs.specs.Branch.{branch, branch_places};
ghost use Rattle.chain_defs.specs.Median.{median_time};
ghost use Rattle.chain_defs.specs.Tip.{tip_place};
ghost use Rattle.chain_tree.specs.Entries.{entry_at, place_of_hash, FollowsParent, IsAncestor, IsTipEntry, IsTree};
ghost use Rattle.chain_tree.specs.Blocks.{Describes, IndexesBlocks};

use crate::ancestors::{ancestor_of, jump_over};
use crate::digest::ByDigest;
use crate::entry::Entry;
use crate::median::median_at;
use outside::NoMemory;
use std::alloc::Global;
use std::collections::HashMap;
use std::marker::Model;

/// The entries of the kept blocks, the genesis first, in the order in which they were added. Clauses see a
/// `TreeValue`: the list of the entries, and how many more can be added without an allocation.
#[derive(Drop)]
pub struct Tree {
    entries: Vec<Entry>,
    /// Of each entry, at its place: an earlier place on its path.
    jumps: Vec<u32>,
    /// The place of each hash.
    places: HashMap<[u8; 32], u32, ByDigest>,
    tip: u32,
    /// For how many more entries all three have space.
    spare: u32,
}

impl Model for Tree {
    ghost use Rattle.std.specs.Prelude.{◌+◌, ◌≤◌, length, vec_capacity};
    ghost use Rattle.std.specs.Str.{bytes_eq};
    ghost use Rattle.std.specs.HashMap.{get};
    ghost use Rattle.std.specs.HashMap as hashed;
    ghost use Rattle.chain_tree.specs.Entries.{TreeValue};
    ghost use Rattle.chain_tree.specs.Indexed.{IsIndexed};

    ghost Value = { TreeValue };

    ghost view = { λ tree. record { entries = tree.entries.items; spare = tree.spare } };

    ghost invariant = { λ tree. IsIndexed tree.entries.items tree.jumps.items (get bytes_eq tree.places) tree.tip
        × (length tree.entries.items + tree.spare ≤ vec_capacity tree.entries)
        × (length tree.jumps.items + tree.spare ≤ vec_capacity tree.jumps)
        × (tree.spare ≤ hashed.spare tree.places) };
}

/// The place of the tip with one more entry at the end.
fn tip_after(entries: &[Entry], tip: u32, entry: &Entry) -> u32
    requires few { length entries.now < 2 ^ 32 }
    requires top { IsTipEntry entries.now tip }
    ensures { IsTipEntry (entries.now ++ entry.now ∷ []) result }
{
    if entries[tip as usize].number < entry.number {
        entries.len() as u32
    } else {
        tip
    }
}

impl Tree {
    /// The tree of a genesis alone.
    pub fn new(alloc: Global, genesis: Entry) -> Result<Tree, NoMemory>
        requires { genesis.number ≡ 0 }
        ensures entries { IfOk result (λ tree. tree.entries ≡ genesis ∷ []) }
        ensures of_blocks { (block : Block) → Describes block genesis → IfOk result (λ tree. IndexesBlocks (block ∷ []) tree.entries) }
    {
        let mut entries = Vec::new(alloc);
        entries.push(genesis)?;
        let mut jumps = Vec::new(alloc);
        jumps.push(0)?;
        let mut places = HashMap::with_hasher(alloc, ByDigest);
        places.insert(genesis.hash, 0)?;
        Ok(Tree {
            entries,
            jumps,
            places,
            tip: 0,
            spare: 0,
        })
    }

    /// How many entries there are.
    pub fn len(&self) -> u32
        ensures len { result ≡ length self.now.entries }
        ensures of_blocks { (kept : List Block) → IndexesBlocks kept self.now.entries → result ≡ length kept }
        ensures tree { IsTree self.now.entries }
    {
        self.entries.len() as u32
    }

    /// The entry at a place.
    pub fn entry(&self, place: u32) -> &Entry
        requires { place < length self.now.entries }
        ensures entry { entry_at self.now.entries place ≡ Some result.now }
        ensures number { result.now.number < length self.now.entries }
        ensures of_block { (kept : List Block) → IndexesBlocks kept self.now.entries → IsSomeAnd (block_at kept place) (λ block. Describes block result.now) }
    {
        &self.entries[place as usize]
    }

    /// The place of the entry with this hash.
    pub fn find(&self, hash: &[u8; 32]) -> Option<u32>
        ensures place { result ≡ place_of_hash self.now.entries hash.now }
        ensures within { IfSome result (λ place. place < length self.now.entries) }
        ensures of_blocks { (kept : List Block) → IndexesBlocks kept self.now.entries → result ≡ place_of kept hash.now }
    {
        self.places.get(hash).copied()
    }

    /// The place on the path of a place, by parents, whose number is this one. It takes no more steps than there are
    /// numbers between, and at most about 3 log2 of the entry's number.
    pub fn ancestor(&self, place: u32, number: u64) -> u32
        requires { IsSomeAnd (entry_at self.now.entries place) (λ entry. number ≤ entry.number) }
        ensures up { IsAncestor self.now.entries place result }
        ensures number { IsSomeAnd (entry_at self.now.entries result) (λ entry. entry.number ≡ number) }
        ensures within { result < length self.now.entries }
        ensures of_blocks { (kept : List Block) → IndexesBlocks kept self.now.entries → slice_get (branch_places kept place) number ≡ Some result }
    {
        ancestor_of(&self.entries, &self.jumps, place, number)
    }

    /// The median time at a place: of the timestamps of the last up to 37 blocks of its branch. It takes no memory.
    pub fn median(&self, place: u32) -> u64
        requires { place < length self.now.entries }
        ensures of_blocks { (kept : List Block) → IndexesBlocks kept self.now.entries → result ≡ median_time (branch kept place) }
    {
        median_at(&self.entries, place)
    }

    /// The place of the tip: the first of the entries with the greatest number.
    pub fn tip(&self) -> u32
        ensures top { IsTipEntry self.now.entries result }
        ensures within { result < length self.now.entries }
        ensures of_blocks { (kept : List Block) → IndexesBlocks kept self.now.entries → tip_place kept ≡ Some result }
    {
        self.tip
    }

    /// Allocates what one more entry takes. Out of memory, nothing has changed.
    pub fn reserve(&mut self) -> Result<(), NoMemory>
        ensures entries { self.new.entries ≡ self.old.entries }
        ensures spare { OnOk result (0 < self.new.spare) }
        ensures enough { 0 < self.old.spare → IsOk result }
        ensures err { OnErr result (self.new ≡ self.old) }
    {
        if self.spare == 0 {
            self.entries.reserve(1)?;
            self.jumps.reserve(1)?;
            self.places.reserve(1)?;
            self.spare = 1;
        }
        Ok(())
    }

    /// Adds an entry at the end, on a kept parent. It takes no memory.
    pub fn add(&mut self, entry: Entry)
        requires spare { 0 < self.old.spare }
        requires few { length self.old.entries + 1 < 2 ^ 32 }
        requires parent { FollowsParent self.old.entries entry }
        requires new { place_of_hash self.old.entries entry.hash ≡ None }
        ensures entries { self.new.entries ≡ self.old.entries ++ entry ∷ [] }
        ensures spare { self.new.spare + 1 ≡ self.old.spare }
        ensures of_blocks { (kept : List Block) (block : Block) → IndexesBlocks kept self.old.entries → Describes block entry
            → place_of kept block.header.parent_hash ≡ Some entry.parent → IndexesBlocks (kept ++ block ∷ []) self.new.entries }
    {
        let place = self.entries.len() as u32;
        let jump = jump_over(&self.entries, &self.jumps, entry.parent);
        self.tip = tip_after(&self.entries, self.tip, &entry);
        self.spare -= 1;
        self.entries.push_reserved(entry);
        self.jumps.push_reserved(jump);
        let added: Result<_, _> = self.places.insert(entry.hash, place);
        added.unwrap();
    }
}
