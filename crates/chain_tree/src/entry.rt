// What a tree keeps of a block.
ghost use Rattle.std.specs.Prelude.{◌≡◌};
ghost use Rattle.chain_defs.specs.Schema.{Block};
ghost use Rattle.chain_defs.specs.Kept.{block_hash};
ghost use Rattle.chain_tree.specs.Blocks.{Describes};

use mol_schema::HeaderView;

/// What a tree keeps of a block.
#[derive(Clone, Copy, Debug, PartialEq, Eq)]
pub struct Entry {
    /// The hash of its header.
    pub hash: [u8; 32],
    /// The place of its parent. A genesis has none, and what stands here is ignored.
    pub parent: u32,
    pub number: u64,
    /// Milliseconds since the start of 1970.
    pub timestamp: u64,
    /// The header's DAO field.
    pub dao: [u8; 32],
    /// Where the layer above keeps the block's bytes, and how many they are.
    pub at: u64,
    pub len: u32,
}

impl Entry {
    /// The entry of a block with this header, its hash and its parent's place, which the layer above keeps there.
    pub fn of_header(
        header: &HeaderView<'_>,
        hash: [u8; 32],
        parent: u32,
        at: u64,
        len: u32,
    ) -> Entry
        ensures describes { (block : Block) → block.header ≡ header.now → hash ≡ block_hash block → Describes block result }
        ensures parent { result.parent ≡ parent }
        ensures at { result.at ≡ at }
        ensures len { result.len ≡ len }
    {
        let mut dao = [0u8; 32];
        dao.copy_from_slice(header.dao());
        Entry {
            hash,
            parent,
            number: header.number(),
            timestamp: header.timestamp(),
            dao,
            at,
            len,
        }
    }
}
