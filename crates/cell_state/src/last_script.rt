// The hash of a script, where it is often that of the script before.
ghost use Rattle.std.specs.Prelude.{◌≡◌, ◌≤◌, length, take};
ghost use Rattle.chain_defs.specs.Cell as cells;

use blake2b_ckb::ckbhash;
use mol_schema::ScriptView;
use std::marker::Model;

/// A longer script is hashed each time.
const LIMIT: usize = 128;

/// The script whose hash was made last, with the hash: cells that are made one after the other often have one lock. It
/// shows in no clause.
#[derive(Drop)]
pub struct LastScript {
    bytes: [u8; LIMIT],
    /// So many of the bytes are the script.
    len: usize,
    hash: [u8; 32],
}

impl Model for LastScript {
    ghost use Rattle.std.specs.Prelude.{◌≡◌, ◌≤◌, take};
    ghost use Rattle.chain_defs.specs.CkbHash.{ckbhash};

    ghost Value = { Unit {0} };

    ghost view = { λ _. tt };

    ghost invariant = { λ last. (last.len ≤ 128) × (last.hash ≡ ckbhash (take last.len last.bytes)) };
}

/// Bytes with zeros after them.
fn padded(bytes: &[u8]) -> [u8; LIMIT]
    requires { length bytes.now ≤ 128 }
    ensures { take (length bytes.now) result ≡ bytes.now }
{
    let mut all = [0; LIMIT];
    all[..bytes.len()].copy_from_slice(bytes);
    all
}

impl LastScript {
    pub fn new() -> LastScript {
        LastScript {
            bytes: [0; LIMIT],
            len: 0,
            hash: ckbhash(&[]),
        }
    }

    /// The hash of a script.
    #[tactic(auto, unfolding(chain_defs::specs::Cell::script_hash))]
    pub fn hash_of(&mut self, script: &ScriptView<'_>) -> [u8; 32]
        ensures { result ≡ cells.script_hash script.now }
    {
        let bytes = script.bytes();
        if bytes == &self.bytes[..self.len] {
            return self.hash;
        }
        let hash = ckbhash(bytes);
        if bytes.len() <= LIMIT {
            *self = LastScript {
                bytes: padded(bytes),
                len: bytes.len(),
                hash,
            };
        }
        hash
    }
}
