// Numbers, bytes and names, as they stand in the objects and lists of a block.
use crate::digits::number_of;
use crate::fields::owned;
use crate::lists::Item;
use crate::reading::{array, content, digits_in, named};
use crate::stop::JsonStop;
use serde_json::Value;
use std::alloc::Global;

/// A number below 2^32.
pub struct U32;

impl Item for U32 {
    ghost use Rattle.std.specs.Int.{w32};
    ghost use Rattle.json_blocks.specs.Reading.{number_at};

    ghost reads_as = { number_at w32 };

    #[tactic(auto, unfolding(crate::specs::Reading::number_at))]
    fn read(alloc: Global, value: &Value) -> Result<Vec<u8>, JsonStop> {
        let n = number_of(digits_in(value)?)?;
        if n >= 1 << 32 {
            return Err(JsonStop::Bad);
        }
        owned(alloc, &(n as u32).to_le_bytes())
    }
}

/// A number below 2^64.
pub struct U64;

impl Item for U64 {
    ghost use Rattle.std.specs.Int.{w64};
    ghost use Rattle.json_blocks.specs.Reading.{number_at};

    ghost reads_as = { number_at w64 };

    #[tactic(auto, unfolding(crate::specs::Reading::number_at))]
    fn read(alloc: Global, value: &Value) -> Result<Vec<u8>, JsonStop> {
        let n = number_of(digits_in(value)?)?;
        if n >= 1 << 64 {
            return Err(JsonStop::Bad);
        }
        owned(alloc, &(n as u64).to_le_bytes())
    }
}

/// A number below 2^128.
pub(crate) struct U128;

impl Item for U128 {
    ghost use Rattle.std.specs.Int.{w128};
    ghost use Rattle.json_blocks.specs.Reading.{number_at};

    ghost reads_as = { number_at w128 };

    #[tactic(auto, unfolding(crate::specs::Reading::number_at))]
    fn read(alloc: Global, value: &Value) -> Result<Vec<u8>, JsonStop> {
        let n = number_of(digits_in(value)?)?;
        owned(alloc, &n.to_le_bytes())
    }
}

/// A hash.
pub struct Hash;

impl Item for Hash {
    ghost use Rattle.json_blocks.specs.Reading.{array_at};

    ghost reads_as = { array_at 32 };

    fn read(alloc: Global, value: &Value) -> Result<Vec<u8>, JsonStop> {
        array(alloc, value, 32)
    }
}

/// The short id of a proposal.
pub(crate) struct ShortId;

impl Item for ShortId {
    ghost use Rattle.json_blocks.specs.Reading.{array_at};

    ghost reads_as = { array_at 10 };

    fn read(alloc: Global, value: &Value) -> Result<Vec<u8>, JsonStop> {
        array(alloc, value, 10)
    }
}

/// The encoding of `Bytes`: their count and the bytes.
pub(crate) struct ByteString;

impl Item for ByteString {
    ghost use Rattle.json_blocks.specs.Reading.{content_at};

    ghost reads_as = { content_at };

    fn read(alloc: Global, value: &Value) -> Result<Vec<u8>, JsonStop> {
        content(alloc, value)
    }
}

/// How a script's code is looked up.
pub(crate) struct HashType;

impl Item for HashType {
    ghost use Rattle.std.specs.Prelude.{codes};
    ghost use Rattle.json_blocks.specs.Reading.{named_at};

    ghost reads_as = { named_at (codes "data") (codes "type") };

    fn read(alloc: Global, value: &Value) -> Result<Vec<u8>, JsonStop> {
        named(alloc, value, "data", "type")
    }
}

/// What a cell dep is.
pub(crate) struct DepType;

impl Item for DepType {
    ghost use Rattle.std.specs.Prelude.{codes};
    ghost use Rattle.json_blocks.specs.Reading.{named_at};

    ghost reads_as = { named_at (codes "code") (codes "dep_group") };

    fn read(alloc: Global, value: &Value) -> Result<Vec<u8>, JsonStop> {
        named(alloc, value, "code", "dep_group")
    }
}
