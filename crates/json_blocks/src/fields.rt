// Encodings that are made of those of their fields.
ghost use Rattle.std.specs.Prelude.{◌≡◌, map, Some};
ghost use Rattle.json_blocks.specs.Reading.{Gives, pushed, at_place, table_of, tables_of, struct_of};

use crate::stop::JsonStop;
use mol_write::Builder;
use std::alloc::Global;

/// The bytes, in memory of their own.
pub(crate) fn owned(alloc: Global, bytes: &[u8]) -> Result<Vec<u8>, JsonStop>
    ensures { Gives (λ b. b.items) result (Some bytes.now) }
{
    let mut all = Vec::with_capacity(alloc, bytes.len())?;
    all.extend_from_slice(bytes)?;
    Ok(all)
}

/// Puts a field after the others, where their table stays shorter than 2^32 bytes.
#[tactic(auto, unfolding(crate::specs::Reading::pushed))]
pub(crate) fn put(builder: &mut Builder, field: &[u8]) -> Result<(), JsonStop>
    ensures { Gives (λ _. builder.new) result (pushed builder.old field.now) }
{
    if field.len() >= 1 << 32 || u64::from(builder.size()) + 4 + field.len() as u64 >= 1 << 32 {
        return Err(JsonStop::Bad);
    }
    builder.push(field)?;
    Ok(())
}

/// The field at a place; no bytes where there is none.
fn field_at(fields: &[Vec<u8>], place: usize) -> &[u8]
    ensures { result.now ≡ at_place (map (λ f. f.items) fields.now) place }
{
    match fields.get(place) {
        Some(field) => field.as_slice(),
        None => &[],
    }
}

/// The table of the fields at these places, where it is shorter than 2^32 bytes.
pub(crate) fn table(
    alloc: Global,
    fields: &[Vec<u8>],
    places: &[usize],
) -> Result<Vec<u8>, JsonStop>
    ensures { Gives (λ b. b.items) result (table_of places.now (map (λ f. f.items) fields.now)) }
{
    let mut table = Builder::new(alloc);
    'places: for place in places {
        if let Err(stop) = put(&mut table, field_at(fields, *place)) {
            return Err(stop);
        }
    }
    Ok(table.dynvec()?)
}

/// The table of the fields at `places`, after that at `inner` became one more of the fields.
pub(crate) fn tables(
    alloc: Global,
    fields: &mut Vec<Vec<u8>>,
    inner: &[usize],
    places: &[usize],
) -> Result<Vec<u8>, JsonStop>
    ensures { Gives (λ b. b.items) result (tables_of inner.now places.now (map (λ f. f.items) fields.old.items)) }
{
    match table(alloc, fields, inner) {
        Ok(first) => {
            fields.push(first)?;
            table(alloc, fields, places)
        }
        Err(stop) => Err(stop),
    }
}

/// The fields at these places, side by side.
pub(crate) fn joined(
    alloc: Global,
    fields: &[Vec<u8>],
    places: &[usize],
) -> Result<Vec<u8>, JsonStop>
    ensures { Gives (λ b. b.items) result (struct_of places.now (map (λ f. f.items) fields.now)) }
{
    let mut bytes = Vec::new(alloc);
    'places: for place in places {
        bytes.extend_from_slice(field_at(fields, *place))?;
    }
    Ok(bytes)
}
