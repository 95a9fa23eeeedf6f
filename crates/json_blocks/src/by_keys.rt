// An object, read by its keys.
ghost use Rattle.std.specs.Prelude.{◌≡◌, [], None, Err, map, IfOk, IfSome};
ghost use Rattle.serde_json.specs.View.{view, members_view};
ghost use Rattle.json_blocks.specs.Reading.{Gives, left, members_at, take_at, end_at, value_at, hash_if, table_of, tables_of, struct_of};
ghost use Rattle.json_blocks.specs.ByKeys.{Reads, Ends, IsPut};

use crate::fields::{joined, table, tables};
use crate::items::Hash;
use crate::lists::Item;
use crate::reading::{Members, end, end_beside, take, take_beside};
use crate::stop::JsonStop;
use serde_json::Value;
use std::alloc::Global;

/// The members of an object, read by their keys, one after another, and the fields that they are read as. What stops the
/// reading first is kept: what is read after it has no meaning, and nothing is made of it.
#[derive(Drop)]
pub struct Rows<'a> {
    alloc: Global,
    members: Members<'a>,
    /// Whether members of the key `hash` are passed over.
    beside_hash: bool,
    stop: Option<JsonStop>,
    fields: Vec<Vec<u8>>,
}

/// The next member's value, where it has this key.
fn next<'a>(beside_hash: bool, members: &mut Members<'a>, key: &str) -> Result<&'a Value, JsonStop>
    ensures { Gives (λ v. (view v.now, left beside_hash (members_view members.new))) result
        (take_at key.now (left beside_hash (members_view members.old))) }
{
    if beside_hash {
        take_beside(members, key)
    } else {
        take(members, key)
    }
}

/// No member is left, and nothing stopped the reading.
fn ended(
    stop: Option<JsonStop>,
    beside_hash: bool,
    members: &mut Members<'_>,
) -> Result<(), JsonStop>
    ensures none_left { stop ≡ None → Gives (λ _. tt) result (end_at (left beside_hash (members_view members.old))) }
    ensures stopped { IfSome stop (λ stop. result ≡ Err stop) }
{
    if let Some(stop) = stop {
        return Err(stop);
    }
    if beside_hash {
        end_beside(members)
    } else {
        end(members)
    }
}

impl<'a> Rows<'a> {
    /// The members of an object: all of them, or all but those of the key `hash`.
    pub fn of(alloc: Global, value: &'a Value, beside_hash: bool) -> Result<Rows<'a>, JsonStop>
        ensures left { Gives (λ r. left r.beside_hash (members_view r.members)) result (members_at beside_hash (view value.now)) }
        ensures goes_on { IfOk result (λ r. r.stop ≡ None) }
        ensures none_yet { IfOk result (λ r. map (λ f. f.items) r.fields.items ≡ []) }
    {
        match value {
            Value::Object(members) => Ok(Rows {
                alloc,
                members: members.iter(),
                beside_hash,
                stop: None,
                fields: Vec::new(alloc),
            }),
            _ => Err(JsonStop::Bad),
        }
    }

    /// Puts a field after the others.
    fn put(&mut self, encoding: Vec<u8>)
        ensures put { IsPut self.old.stop (map (λ f. f.items) self.old.fields.items) self.new.stop (map (λ f. f.items) self.new.fields.items) encoding.items }
        ensures members { left self.new.beside_hash (members_view self.new.members) ≡ left self.old.beside_hash (members_view self.old.members) }
    {
        match self.fields.push(encoding) {
            Ok(()) => {}
            Err(_) => self.stop = Some(JsonStop::NoMemory),
        }
    }

    /// Reads the next member's value, where it has this key.
    pub fn read<I: Item>(&mut self, key: &str)
        ensures { Reads self.old.stop (left self.old.beside_hash (members_view self.old.members)) (map (λ f. f.items) self.old.fields.items)
            self.new.stop (left self.new.beside_hash (members_view self.new.members)) (map (λ f. f.items) self.new.fields.items)
            (value_at key.now I.Item.reads_as) }
    {
        if self.stop.is_some() {
            return;
        }
        match next(self.beside_hash, &mut self.members, key) {
            Ok(value) => match I::read(self.alloc, value) {
                Ok(encoding) => self.put(encoding),
                Err(stop) => self.stop = Some(stop),
            },
            Err(stop) => self.stop = Some(stop),
        }
    }

    /// Reads a hash of 32 bytes under this key, where it is to stand here; else its field has no bytes.
    pub(crate) fn read_hash_if(&mut self, is_here: bool, key: &str)
        ensures { Reads self.old.stop (left self.old.beside_hash (members_view self.old.members)) (map (λ f. f.items) self.old.fields.items)
            self.new.stop (left self.new.beside_hash (members_view self.new.members)) (map (λ f. f.items) self.new.fields.items)
            (hash_if is_here key.now) }
    {
        if is_here {
            self.read::<Hash>(key)
        } else {
            self.put(Vec::new(self.alloc))
        }
    }

    /// The struct of the fields at these places, where no member is left. A place counts the rows that were read before it.
    pub fn joined(mut self, places: &[usize]) -> Result<Vec<u8>, JsonStop>
        ensures { Ends self.entry.stop (left self.entry.beside_hash (members_view self.entry.members)) (map (λ f. f.items) self.entry.fields.items) (struct_of places.now) (Gives (λ b. b.items) result) }
    {
        match ended(self.stop, self.beside_hash, &mut self.members) {
            Ok(()) => joined(self.alloc, &self.fields, places),
            Err(stop) => Err(stop),
        }
    }

    /// The table of the fields at these places, where no member is left.
    pub(crate) fn table(mut self, places: &[usize]) -> Result<Vec<u8>, JsonStop>
        ensures { Ends self.entry.stop (left self.entry.beside_hash (members_view self.entry.members)) (map (λ f. f.items) self.entry.fields.items) (table_of places.now) (Gives (λ b. b.items) result) }
    {
        match ended(self.stop, self.beside_hash, &mut self.members) {
            Ok(()) => table(self.alloc, &self.fields, places),
            Err(stop) => Err(stop),
        }
    }

    /// The table of the fields at `places`, of which the last one is the table of those at `inner`.
    pub(crate) fn tables(mut self, inner: &[usize], places: &[usize]) -> Result<Vec<u8>, JsonStop>
        ensures { Ends self.entry.stop (left self.entry.beside_hash (members_view self.entry.members)) (map (λ f. f.items) self.entry.fields.items) (tables_of inner.now places.now) (Gives (λ b. b.items) result) }
    {
        match ended(self.stop, self.beside_hash, &mut self.members) {
            Ok(()) => tables(self.alloc, &mut self.fields, inner, places),
            Err(stop) => Err(stop),
        }
    }
}
