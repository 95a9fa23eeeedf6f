// What values are read as, and lists of them, item by item.
ghost use Rattle.serde_json.specs.View.{view};

use crate::fields::put;
use crate::reading::items;
use crate::stop::JsonStop;
use mol_write::Builder;
use serde_json::Value;
use std::alloc::Global;
use std::marker::PhantomData;

/// What stands in a place of a block: a member's value, or an item of a list.
pub trait Item {
    ghost use Rattle.std.specs.Prelude.{ℕ, List, Option};
    ghost use Rattle.serde_json.specs.Data.{Data};
    ghost use Rattle.serde_json.specs.View.{view};
    ghost use Rattle.json_blocks.specs.Reading.{Gives};

    ghost reads_as: { Data → Option (List ℕ) };

    /// The encoding of the item that a value is read as.
    fn read(alloc: Global, value: &Value) -> Result<Vec<u8>, JsonStop>
        ensures { Gives (λ b. b.items) result (reads_as (view value.now)) };
}

/// The fixvec of the items of an array.
pub(crate) struct Fixvec<I: Item>(PhantomData<I>);

impl<I: Item> Item for Fixvec<I> {
    ghost use Rattle.json_blocks.specs.Reading.{fixvec_at};

    ghost reads_as = { fixvec_at I.Item.reads_as };

    #[tactic(auto, unfolding(crate::specs::Reading::fixvec_at))]
    fn read(alloc: Global, value: &Value) -> Result<Vec<u8>, JsonStop> {
        let items = items(value)?;
        if items.len() >= 1 << 32 {
            return Err(JsonStop::Bad);
        }
        let mut fixvec = Vec::new(alloc);
        fixvec.extend_from_slice(&(items.len() as u32).to_le_bytes())?;
        'items: for item in items {
            let encoding = match I::read(alloc, item) {
                Ok(encoding) => encoding,
                Err(stop) => return Err(stop),
            };
            fixvec.extend_from_slice(&encoding)?;
        }
        Ok(fixvec)
    }
}

/// The dynvec of the items of an array.
pub(crate) struct Dynvec<I: Item>(PhantomData<I>);

impl<I: Item> Item for Dynvec<I> {
    ghost use Rattle.json_blocks.specs.Reading.{dynvec_at};

    ghost reads_as = { dynvec_at I.Item.reads_as };

    #[tactic(auto, unfolding(crate::specs::Reading::dynvec_at))]
    fn read(alloc: Global, value: &Value) -> Result<Vec<u8>, JsonStop> {
        let items = items(value)?;
        let mut dynvec = Builder::new(alloc);
        'items: for item in items {
            let encoding = match I::read(alloc, item) {
                Ok(encoding) => encoding,
                Err(stop) => return Err(stop),
            };
            if let Err(stop) = put(&mut dynvec, &encoding) {
                return Err(stop);
            }
        }
        Ok(dynvec.dynvec()?)
    }
}
