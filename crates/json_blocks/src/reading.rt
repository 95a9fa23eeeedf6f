// The parts of a tree that is read: members by their keys, and numbers and bytes of texts.
ghost use Rattle.serde_json.specs.View.{view, members_view, items_view};
ghost use Rattle.json_defs.specs.Form.{without};
ghost use Rattle.json_defs.specs.Blocks.{free_key};
ghost use Rattle.json_blocks.specs.Reading.{Gives, digits_at, bytes_at, array_at, content_at, named_at, take_at, end_at, array_items};

use crate::digits;
use crate::fields::owned;
use crate::stop::JsonStop;
use serde_json::Value;
use std::alloc::Global;
use std::collections::btree_map::Iter;

/// The members of an object, in the order of their keys.
pub(crate) type Members<'a> = Iter<'a, String, Value>;

/// The next member's value, where it has this key.
pub(crate) fn take<'a>(members: &mut Members<'a>, key: &str) -> Result<&'a Value, JsonStop>
    ensures { Gives (λ v. (view v.now, members_view members.new)) result (take_at key.now (members_view members.old)) }
{
    match members.next() {
        Some((name, value)) => {
            if name.as_str() == key {
                Ok(value)
            } else {
                Err(JsonStop::Bad)
            }
        }
        None => Err(JsonStop::Bad),
    }
}

/// The next member's value, where it has this key. Those of the key `hash` are passed over.
pub(crate) fn take_beside<'a>(members: &mut Members<'a>, key: &str) -> Result<&'a Value, JsonStop>
    ensures { Gives (λ v. (view v.now, without free_key (members_view members.new))) result
        (take_at key.now (without free_key (members_view members.old))) }
{
    'members: while let Some((name, value)) = members.next() {
        if name.as_str() != "hash" {
            return if name.as_str() == key {
                Ok(value)
            } else {
                Err(JsonStop::Bad)
            };
        }
    }
    Err(JsonStop::Bad)
}

/// No member is left.
pub(crate) fn end(members: &mut Members<'_>) -> Result<(), JsonStop>
    ensures { Gives (λ _. tt) result (end_at (members_view members.old)) }
{
    match members.next() {
        None => Ok(()),
        Some(_) => Err(JsonStop::Bad),
    }
}

/// No member is left but for those of the key `hash`.
pub(crate) fn end_beside(members: &mut Members<'_>) -> Result<(), JsonStop>
    ensures { Gives (λ _. tt) result (end_at (without free_key (members_view members.old))) }
{
    'members: while let Some((name, _)) = members.next() {
        if name.as_str() != "hash" {
            return Err(JsonStop::Bad);
        }
    }
    Ok(())
}

/// The items of an array.
pub(crate) fn items(value: &Value) -> Result<&[Value], JsonStop>
    ensures { Gives (λ vs. items_view vs.now) result (array_items (view value.now)) }
{
    match value {
        Value::Array(items) => Ok(items.as_slice()),
        _ => Err(JsonStop::Bad),
    }
}

/// The digits of a text, without its `0x`.
pub(crate) fn digits_in(value: &Value) -> Result<&[u8], JsonStop>
    ensures { Gives (λ s. s.now) result (digits_at (view value.now)) }
{
    match value {
        Value::String(text) => match text.as_str().as_bytes() {
            [zero, x, digits @ ..] => {
                if *zero == b'0' && *x == b'x' {
                    Ok(digits)
                } else {
                    Err(JsonStop::Bad)
                }
            }
            _ => Err(JsonStop::Bad),
        },
        _ => Err(JsonStop::Bad),
    }
}

/// The bytes of a byte string.
fn bytes(alloc: Global, value: &Value) -> Result<Vec<u8>, JsonStop>
    ensures { Gives (λ b. b.items) result (bytes_at (view value.now)) }
{
    digits::bytes_of(alloc, digits_in(value)?)
}

/// A byte string of this length.
#[tactic(auto, unfolding(crate::specs::Reading::array_at))]
pub(crate) fn array(alloc: Global, value: &Value, length: usize) -> Result<Vec<u8>, JsonStop>
    ensures { Gives (λ b. b.items) result (array_at length (view value.now)) }
{
    let bytes = bytes(alloc, value)?;
    if bytes.len() != length {
        return Err(JsonStop::Bad);
    }
    Ok(bytes)
}

/// The encoding of `Bytes`: their count and the bytes.
#[tactic(auto, unfolding(crate::specs::Reading::content_at))]
pub(crate) fn content(alloc: Global, value: &Value) -> Result<Vec<u8>, JsonStop>
    ensures { Gives (λ b. b.items) result (content_at (view value.now)) }
{
    let bytes = bytes(alloc, value)?;
    if bytes.len() >= 1 << 32 {
        return Err(JsonStop::Bad);
    }
    let mut content = Vec::with_capacity(alloc, bytes.len())?;
    content.extend_from_slice(&(bytes.len() as u32).to_le_bytes())?;
    content.extend_from_slice(&bytes)?;
    Ok(content)
}

/// A byte that has names for 0 and 1.
#[tactic(auto, unfolding(crate::specs::Reading::named_at))]
pub(crate) fn named(
    alloc: Global,
    value: &Value,
    zeroth: &str,
    first: &str,
) -> Result<Vec<u8>, JsonStop>
    ensures { Gives (λ b. b.items) result (named_at zeroth.now first.now (view value.now)) }
{
    if let Value::String(text) = value {
        if text.as_str() == zeroth {
            return owned(alloc, &[0]);
        }
        if text.as_str() == first {
            return owned(alloc, &[1]);
        }
    }
    match bytes(alloc, value)?.as_slice() {
        [byte] => {
            if *byte > 1 {
                owned(alloc, &[*byte])
            } else {
                Err(JsonStop::Bad)
            }
        }
        _ => Err(JsonStop::Bad),
    }
}
