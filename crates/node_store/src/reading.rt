// A body that is read from LOG into the cache.
ghost use Rattle.std.specs.Prelude.{◌≡◌, ◌<◌, Some, None, Err, length, IfOk, IsOk, OnOk, IfSome, IsSome, IsSomeAnd, IsTrue};
ghost use Rattle.outside.specs.Causes.{CountsFault};
ghost use Rattle.outside.specs.declared.disk.Area.TheVariants.{Log as log_area};
ghost use Rattle.outside.specs.declared.disk.Damage.{Damage};
ghost use Rattle.outside.specs.declared.disk.ReadStop.TheVariants.{DiskFault as disk_fault, Damaged as damaged};
ghost use Rattle.chain_defs.specs.Ext.{is_ext};
ghost use Rattle.chain_tree.specs.Entries.{entry_at};
ghost use Rattle.node_store.specs.Stored.{body_at, stored_of, stored_at};
ghost use Rattle.node_store.specs.Held.{held_at, IsKept};

use crate::body::KeptBody;
use crate::cache::Cache;
use chain_tree::{Entry, Tree};
use outside::{Area, Damage, Disk, ReadStop};
use std::alloc::Global;

/// Damage where the body of an entry begins.
fn damage_at(entry: &Entry) -> ReadStop
    ensures { result ≡ damaged (record { area = log_area; at = entry.now.at }) }
{
    ReadStop::Damaged(Damage {
        area: Area::Log,
        at: entry.at,
    })
}

/// The bytes of the body that an entry names, in one piece.
fn read_bytes<D: Disk>(alloc: Global, disk: &mut D, entry: &Entry) -> Result<Vec<u8>, ReadStop>
    ensures content { D.content_of disk.new ≡ D.content_of disk.old }
    ensures same { D.reads_as disk.new ≡ D.reads_as disk.old }
    ensures bytes { IfSome (D.reads_as disk.old) (λ image. IfOk result (λ bytes. body_at image entry.now ≡ Some bytes.items)) }
    ensures missing { IfSome (D.reads_as disk.old) (λ image. (damage : Damage) → result ≡ Err (damaged damage) → body_at image entry.now ≡ None) }
    ensures place { (damage : Damage) → result ≡ Err (damaged damage) → damage ≡ record { area = log_area; at = entry.now.at } }
    ensures cause { CountsFault (D.faults disk.old) (D.faults disk.new) (result ≡ Err disk_fault) }
{
    let mut bytes = match vec![in alloc; 0u8; entry.len as usize] {
        Ok(bytes) => bytes,
        Err(_) => return Err(ReadStop::NoMemory),
    };
    match disk.read(Area::Log, entry.at, &mut bytes) {
        Ok(count) => {
            if count == bytes.len() {
                Ok(bytes)
            } else {
                Err(damage_at(entry))
            }
        }
        Err(_) => Err(ReadStop::DiskFault),
    }
}

/// The body of the entry at a place.
fn read_body<D: Disk>(
    alloc: Global,
    disk: &mut D,
    place: u32,
    entry: &Entry,
) -> Result<KeptBody, ReadStop>
    ensures content { D.content_of disk.new ≡ D.content_of disk.old }
    ensures same { D.reads_as disk.new ≡ D.reads_as disk.old }
    ensures body { IfSome (D.reads_as disk.old) (λ image. IfOk result (λ body. stored_of image place entry.now ≡ Some body)) }
    ensures form { IfOk result (λ body. 0 < place → IsTrue (is_ext body.ext)) }
    ensures missing { IfSome (D.reads_as disk.old) (λ image. (damage : Damage) → result ≡ Err (damaged damage) → stored_of image place entry.now ≡ None) }
    ensures place { (damage : Damage) → result ≡ Err (damaged damage) → damage ≡ record { area = log_area; at = entry.now.at } }
    ensures cause { CountsFault (D.faults disk.old) (D.faults disk.new) (result ≡ Err disk_fault) }
{
    let bytes = match read_bytes(alloc, disk, entry) {
        Ok(bytes) => bytes,
        Err(stop) => return Err(stop),
    };
    match KeptBody::read(place, bytes) {
        Some(body) => Ok(body),
        None => Err(damage_at(entry)),
    }
}

/// Makes the cache hold the body of an entry. One that it holds is not read again.
pub(crate) fn load<D: Disk>(
    alloc: Global,
    disk: &mut D,
    tree: &Tree,
    cache: &mut Cache,
    e: u32,
) -> Result<(), ReadStop>
    requires within { e < length tree.now.entries }
    requires kept { IfSome (D.reads_as disk.old) (IsKept tree.now.entries cache.old.held) }
    ensures content { D.content_of disk.new ≡ D.content_of disk.old }
    ensures same { D.reads_as disk.new ≡ D.reads_as disk.old }
    ensures kept { IfSome (D.reads_as disk.new) (IsKept tree.now.entries cache.new.held) }
    ensures held { OnOk result (IsSome (held_at cache.new.held e)) }
    ensures found { IsSome (held_at cache.old.held e) → IsOk result }
    ensures uncalled { IsSome (held_at cache.old.held e) → disk.new ≡ disk.old }
    ensures missing { IfSome (D.reads_as disk.old) (λ image. (damage : Damage) → result ≡ Err (damaged damage) → stored_at image tree.now.entries e ≡ None) }
    ensures place { (damage : Damage) → result ≡ Err (damaged damage)
        → IsSomeAnd (entry_at tree.now.entries e) (λ entry. damage ≡ record { area = log_area; at = entry.at }) }
    ensures cause { CountsFault (D.faults disk.old) (D.faults disk.new) (result ≡ Err disk_fault) }
    ensures damages { cache.new.damages ≡ cache.old.damages }
    ensures most { cache.new.most ≡ cache.old.most }
{
    if cache.promote(e) {
        return Ok(());
    }
    let body = match read_body(alloc, disk, e, tree.entry(e)) {
        Ok(body) => body,
        Err(stop) => return Err(stop),
    };
    match cache.put(e, body) {
        Ok(()) => Ok(()),
        Err(_) => Err(ReadStop::NoMemory),
    }
}
