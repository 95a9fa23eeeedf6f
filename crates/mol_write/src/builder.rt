// A table or a vector of Molecule (RFC 0008), made of its fields.

ghost use Rattle.std.specs.Prelude.{◌≡◌, ℕ, ◌+◌, ◌^◌, ◌<◌, List, [], ◌∷◌, ◌++◌, length, map, sum, IfOk, OnOk, OnErr};
ghost use Rattle.chain_defs.specs.Molecule.{offsets, full_size, IsFixvec, IsDynvec, IsTable};
ghost use Rattle.mol_write.specs.Builder.{AllHaveSize};

use outside::NoMemory;
use std::alloc::Global;
use std::marker::Model;

/// The fields of a table, or the items of a vector, in their order. Contracts see the list of them.
#[derive(Drop)]
pub struct Builder {
    alloc: Global,
    // The fields side by side, and the length of each.
    content: Vec<u8>,
    lengths: Vec<u32>,
}

impl Model for Builder {
    ghost use Rattle.std.specs.Prelude.{◌≡◌, ℕ, ◌+◌, ◌*◌, ◌^◌, ◌<◌, List, length, sum};
    ghost use Rattle.mol_write.specs.Builder.{fields_by_lengths};

    ghost Value = { List (List ℕ) };

    ghost view = { λ b. fields_by_lengths b.lengths.items b.content.items };

    ghost invariant = { λ b. (sum b.lengths.items ≡ length b.content.items)
        × (4 + 4 * length b.lengths.items + length b.content.items < 2 ^ 32) };
}

impl Builder {
    /// A builder with no field.
    pub fn new(alloc: Global) -> Builder
        ensures empty { result ≡ [] }
        ensures size { full_size result ≡ 4 }
    {
        Builder {
            alloc,
            content: Vec::new(alloc),
            lengths: Vec::new(alloc),
        }
    }

    /// How many bytes the table, or the dynvec, of the fields has. It is below 2^32.
    pub fn size(&self) -> u32
        ensures { result ≡ full_size self.now }
    {
        (4 + 4 * self.lengths.len() + self.content.len()) as u32
    }

    /// Puts a field, as its encoding, after the others. The whole has to stay below 2^32 bytes: a field
    /// takes its bytes and an offset.
    pub fn push(&mut self, field: &[u8]) -> Result<(), NoMemory>
        requires { full_size self.old + 4 + length field.now < 2 ^ 32 }
        ensures ok { OnOk result (self.new ≡ self.old ++ field.now ∷ []) }
        ensures size { OnOk result (full_size self.new ≡ full_size self.old + 4 + length field.now) }
        ensures err { OnErr result (self.new ≡ self.old) }
    {
        self.lengths.reserve(1)?;
        self.content.extend_from_slice(field)?;
        self.lengths.push(field.len() as u32).unwrap();
        Ok(())
    }

    /// The table of the fields.
    pub fn table(self) -> Result<Vec<u8>, NoMemory>
        ensures { IfOk result (λ bytes. IsTable (length self) bytes.items self) }
    {
        self.dynvec()
    }

    /// The vector of the fields, as its items, where an item may have any size.
    pub fn dynvec(self) -> Result<Vec<u8>, NoMemory>
        ensures { IfOk result (λ bytes. IsDynvec bytes.items self) }
    {
        let header = 4 + 4 * self.lengths.len();
        let size = header + self.content.len();
        let mut bytes = Vec::with_capacity(self.alloc, size)?;
        bytes.extend_from_slice(&(size as u32).to_le_bytes())?;
        push_offsets(&mut bytes, header as u32, &self.lengths)?;
        bytes.extend_from_slice(&self.content)?;
        Ok(bytes)
    }

    /// The vector of the fields, as its items, where each has one size.
    pub fn fixvec(self) -> Result<Vec<u8>, NoMemory>
        requires { (size : ℕ) × AllHaveSize size self }
        ensures { IfOk result (λ bytes. (size : ℕ) → AllHaveSize size self → IsFixvec size bytes.items self) }
    {
        let mut bytes = Vec::with_capacity(self.alloc, 4 + self.content.len())?;
        bytes.extend_from_slice(&(self.lengths.len() as u32).to_le_bytes())?;
        bytes.extend_from_slice(&self.content)?;
        Ok(bytes)
    }
}

/// Appends the offset of each part, by the parts' lengths. The first part starts at `start`.
fn push_offsets(bytes: &mut Vec<u8>, start: u32, lengths: &[u32]) -> Result<(), NoMemory>
    requires { start + sum lengths.now < 2 ^ 32 }
    ensures { OnOk result ((parts : List (List ℕ)) → map length parts ≡ lengths.now
        → bytes.new.items ≡ bytes.old.items ++ offsets start parts) }
{
    let mut at = start;
    'offsets: for length in lengths {
        bytes.extend_from_slice(&at.to_le_bytes())?;
        at += *length;
    }
    Ok(())
}
