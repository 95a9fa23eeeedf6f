// A specification, read from its text.
ghost use Rattle.std.specs.Prelude.{◌≡◌, IfOk, Err};
ghost use Rattle.serde_json.specs.View.{view};
ghost use Rattle.json_blocks.specs.declared.stop.JsonStop.TheVariants.{Bad};
ghost use Rattle.json_blocks.specs.Reading.{Gives};
ghost use Rattle.json_defs.specs.Laws.{IsEncodingOf, IsNoText};
ghost use Rattle.json_spec.specs.Form as form;
ghost use Rattle.json_spec.specs.Bytes as shape;
ghost use Rattle.json_spec.specs.Reading.{fields_at};

use crate::maturity::Epochs;
use json_blocks::{Hash, Item, JsonStop, Rows, U32, U64, read_text};
use serde_json::Value;
use std::alloc::Global;

/// The size of a specification, in bytes.
const SIZE: u32 = 100;

/// The fields, in the order of their bytes.
#[tactic(auto, unfolding(crate::specs::Reading::fields_at))]
fn read_fields(alloc: Global, value: &Value) -> Result<Vec<u8>, JsonStop>
    ensures { Gives (λ b. b.items) result (fields_at (view value.now)) }
{
    let mut rows = Rows::of(alloc, value, false)?;
    rows.read::<U32>("compact_target");
    rows.read::<Hash>("dao_code_hash");
    rows.read::<U32>("epoch_length");
    rows.read::<U64>("halving_interval");
    rows.read::<Epochs>("maturity");
    rows.read::<U32>("max_block_bytes");
    rows.read::<U64>("max_cycles");
    rows.read::<U32>("max_proposals");
    rows.read::<U64>("primary_reward");
    rows.read::<U64>("secondary_reward");
    rows.read::<U32>("w_close");
    rows.read::<U32>("w_far");
    rows.joined(&[0, 2, 10, 11, 5, 7, 6, 4, 8, 9, 3, 1])
}

/// A specification.
struct Specification;

impl Item for Specification {
    ghost use Rattle.json_spec.specs.Reading.{specification_at};

    ghost reads_as = { specification_at };

    #[tactic(auto, unfolding(crate::specs::Reading::specification_at))]
    fn read(alloc: Global, value: &Value) -> Result<Vec<u8>, JsonStop> {
        let fields = match read_fields(alloc, value) {
            Ok(fields) => fields,
            Err(stop) => return Err(stop),
        };
        let mut bytes = Vec::with_capacity(alloc, SIZE as usize)?;
        bytes.extend_from_slice(&SIZE.to_le_bytes())?;
        bytes.extend_from_slice(&fields)?;
        Ok(bytes)
    }
}

/// The 100 bytes of the specification that a text is read as (docs/FORMATS.md, A specification as JSON). Bad where there is
/// none: the text is no JSON, it nests deeper than 127, or its tree is that of no specification. Whether it keeps S2 to S7 is
/// not asked.
pub fn specification_from_json(alloc: Global, text: &[u8]) -> Result<Vec<u8>, JsonStop>
    ensures found { IfOk result (λ bytes. IsEncodingOf form.specification shape.specification text.now bytes.items) }
    ensures only { result ≡ Err Bad → IsNoText form.specification shape.specification text.now }
{
    read_text::<Specification>(alloc, text)
}
