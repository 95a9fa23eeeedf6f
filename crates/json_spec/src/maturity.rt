// Epoch values, as numbers or as they are written by hand.
ghost use Rattle.serde_json.specs.View.{view};
ghost use Rattle.json_blocks.specs.Reading.{Gives};
ghost use Rattle.json_spec.specs.Reading.{span_bytes_at};

use crate::span::span_of;
use json_blocks::{Item, JsonStop, U64};
use serde_json::Value;
use std::alloc::Global;

/// The bytes of an epoch value that is written by hand.
fn span_bytes(alloc: Global, value: &Value) -> Result<Vec<u8>, JsonStop>
    ensures { Gives (λ b. b.items) result (span_bytes_at (view value.now)) }
{
    match value {
        Value::String(text) => match span_of(alloc, text.as_str().as_bytes()) {
            Ok(value) => Ok(value.to_le_bytes().to_vec(alloc)?),
            Err(stop) => Err(stop),
        },
        _ => Err(JsonStop::Bad),
    }
}

/// An epoch value.
pub(crate) struct Epochs;

impl Item for Epochs {
    ghost use Rattle.json_spec.specs.Reading.{epochs_at};

    ghost reads_as = { epochs_at };

    #[tactic(auto, unfolding(crate::specs::Reading::epochs_at))]
    fn read(alloc: Global, value: &Value) -> Result<Vec<u8>, JsonStop> {
        match U64::read(alloc, value) {
            Err(JsonStop::Bad) => span_bytes(alloc, value),
            number => number,
        }
    }
}
