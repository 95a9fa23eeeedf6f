//! A script: a program by its hash, and its arguments.

ghost use Rattle.std.specs.Prelude.{◌≡◌, ◌^◌, ◌<◌, length};

use crate::bytes::ByteVec;
use crate::check::has_fields;
use crate::parts::{content, field};
use crate::view::{Row, View};
use std::marker::Model;

/// The row `Script`.
#[derive(Drop)]
pub struct Script;

impl Model for Script {
    ghost use Rattle.std.specs.Prelude.{[]};
    ghost use Rattle.chain_defs.specs.Schema as schema;

    ghost Value = { schema.Script };

    ghost view = { λ _. schema.script.decoding [] };
}

impl Row for Script {
    ghost use Rattle.chain_defs.specs.Schema.{script};
    ghost use Rattle.chain_defs.specs.Checked.{IsScript};
    ghost use Rattle.chain_defs.proofs.RowLaws.{script-check};

    ghost shape = { script };

    ghost IsChecked = { IsScript };

    ghost is_check = { script-check };

    fn is_encoding(b: &[u8]) -> bool {
        if !has_fields::<3>(b) {
            return false;
        }
        let code_hash = field::<3>(b, 0);
        let hash_type = field::<3>(b, 1);
        let args = field::<3>(b, 2);
        code_hash.len() == 32 && hash_type.len() == 1 && ByteVec::is_encoding(args)
    }
}

/// `table Script`: a program by its hash, and its arguments.
pub type ScriptView<'a> = View<'a, Script>;

#[tactic(auto, unfolding(chain_defs::specs::Schema::script))]
impl<'a> View<'a, Script> {
    pub fn code_hash(&self) -> &'a [u8]
        ensures value { result.now ≡ self.now.code_hash }
        ensures len { length result.now ≡ 32 }
    {
        field::<3>(self.bytes, 0)
    }

    pub fn hash_type(&self) -> u8
        ensures { result ≡ self.now.hash_type }
    {
        field::<3>(self.bytes, 1)[0]
    }

    pub fn args(&self) -> &'a [u8]
        ensures value { result.now ≡ self.now.args }
        ensures fits { length result.now < 2 ^ 32 }
    {
        content(field::<3>(self.bytes, 2))
    }
}
