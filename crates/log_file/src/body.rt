// What is written of a record: of a block, or of an edition.

ghost use Rattle.std.specs.Prelude.{◌≡◌, ◌+◌, ◌<◌, ◌^◌, ◌++◌, ◌∷◌, [], length, IfSome, OnOk, OnErr};
ghost use Rattle.std.specs.Option.{option_map};
ghost use Rattle.std.specs.Int.{w32, to_le_bytes};
ghost use Rattle.disk_defs.specs.Log.{parts_of_body, body_of_parts, edition_record};
ghost use Rattle.log_file.specs.Pieces.{block_record, after_gate};

use crate::edition::EDITION;
use crate::number::read_count;
use outside::NoMemory;
use std::alloc::Global;
use std::marker::Model;

/// The block and the ext in the body of a block's record. None comes exactly where the length at the start is
/// missing, or reaches past the body.
pub fn parts(body: &[u8]) -> Option<(&[u8], &[u8])>
    ensures parts { option_map (λ p. (p.0.now, p.1.now)) result ≡ parts_of_body body.now }
    ensures whole { IfSome result (λ p. body.now ≡ body_of_parts p.0.now p.1.now) }
{
    if body.len() < 4 {
        return None;
    }
    let end = 4 + read_count(body, 0) as usize;
    if body.len() < end {
        return None;
    }
    Some((&body[4..end], &body[end..]))
}

/// A kind and a length after what is there.
pub(crate) fn put_header(bytes: &mut Vec<u8>, kind: u8, len: u32) -> Result<(), NoMemory>
    ensures { OnOk result (bytes.new.items ≡ bytes.old.items ++ kind ∷ to_le_bytes w32 len) }
{
    bytes.push(kind)?;
    bytes.extend_from_slice(&len.to_le_bytes())?;
    Ok(())
}

/// The record of a block with its ext, and a closed gate, after what is there.
fn put_block(piece: &mut Vec<u8>, block: &[u8], ext: &[u8]) -> Result<(), NoMemory>
    requires { 4 + length block.now + length ext.now < 2 ^ 32 }
    ensures { OnOk result (piece.new.items ≡ piece.old.items ++ after_gate (block_record block.now ext.now)) }
{
    put_header(piece, 3, (4 + block.len() + ext.len()) as u32)?;
    piece.extend_from_slice(&(block.len() as u32).to_le_bytes())?;
    piece.extend_from_slice(block)?;
    piece.extend_from_slice(ext)?;
    piece.push(0)?;
    Ok(())
}

/// The record of an edition, and a closed gate, after what is there.
fn put_edition(piece: &mut Vec<u8>, epoch: u64) -> Result<(), NoMemory>
    ensures { OnOk result (piece.new.items ≡ piece.old.items ++ after_gate (edition_record epoch)) }
{
    put_header(piece, EDITION, 8)?;
    piece.extend_from_slice(&epoch.to_le_bytes())?;
    piece.push(0)?;
    Ok(())
}

/// What [`append`](crate::append) writes after a gate. Clauses see these bytes; there are none before the first
/// `fill`.
#[derive(Drop)]
pub struct Body {
    piece: Vec<u8>,
}

impl Model for Body {
    ghost use Rattle.std.specs.Prelude.{ℕ, List, length, ◌+◌, ◌<◌, ◌^◌};

    ghost Value = { List ℕ };

    ghost view = { λ body. body.piece.items };

    ghost invariant = { λ body. length body.piece.items < 2 ^ 32 + 6 };
}

impl Body {
    pub fn new(alloc: Global) -> Body
        ensures { result ≡ [] }
    {
        Body {
            piece: Vec::new(alloc),
        }
    }

    /// Makes the record of a block with its ext, and drops the one before. Out of memory, it is unchanged.
    pub fn fill(&mut self, alloc: Global, block: &[u8], ext: &[u8]) -> Result<(), NoMemory>
        requires { 4 + length block.now + length ext.now < 2 ^ 32 }
        ensures filled { OnOk result (self.new ≡ after_gate (block_record block.now ext.now)) }
        ensures err { OnErr result (self.new ≡ self.old) }
    {
        let mut piece = match Vec::with_capacity(alloc, 10 + block.len() + ext.len()) {
            Ok(piece) => piece,
            Err(_) => return Err(NoMemory),
        };
        match put_block(&mut piece, block, ext) {
            Ok(()) => {
                self.piece = piece;
                Ok(())
            }
            Err(stop) => Err(stop),
        }
    }

    /// Makes the record of an edition, and drops the one before. Out of memory, it is unchanged.
    pub fn fill_edition(&mut self, alloc: Global, epoch: u64) -> Result<(), NoMemory>
        ensures filled { OnOk result (self.new ≡ after_gate (edition_record epoch)) }
        ensures err { OnErr result (self.new ≡ self.old) }
    {
        let mut piece = match Vec::with_capacity(alloc, 14) {
            Ok(piece) => piece,
            Err(_) => return Err(NoMemory),
        };
        match put_edition(&mut piece, epoch) {
            Ok(()) => {
                self.piece = piece;
                Ok(())
            }
            Err(stop) => Err(stop),
        }
    }

    /// What is written after the gate.
    pub(crate) fn piece(&self) -> &[u8]
        ensures value { result.now ≡ self.now }
        ensures fits { length result.now < 2 ^ 32 + 6 }
    {
        &self.piece
    }
}
