// How an item that joins is kept, and its record put on the disk.
ghost use Rattle.std.specs.Prelude.{◌≡◌, ◌≢◌, ◌<◌, ◌≤◌, ◌+◌, ◌^◌, Ok, Err, Some, length, map, IfOk, IfErr, IsSome, IsTrue, OnOk};
ghost use Rattle.outside.specs.Causes.{CountsFault};
ghost use Rattle.outside.specs.Disk.{OthersRead, LeavesOnly};
ghost use Rattle.outside.specs.declared.disk.Area.TheVariants.{Log as log_area};
ghost use Rattle.outside.specs.declared.disk.Damage.{Damage};
ghost use Rattle.outside.specs.declared.disk.ReadStop.TheVariants.{DiskFault, Damaged};
ghost use Rattle.chain_defs.specs.Hashes.{transaction_hash};
ghost use Rattle.chain_defs.specs.Schema as schema;
ghost use Rattle.chain_defs.specs.Schema.{Block};
ghost use Rattle.chain_defs.specs.Shape.{decoded};
ghost use Rattle.chain_defs.specs.Ext.{ext_bytes, is_ext, count_at};
ghost use Rattle.cell_state.specs.State.{rows};
ghost use Rattle.snapshots.specs.Writing.{HasAnyArea};
ghost use Rattle.store_defs.specs.Store.{AreJoined};
ghost use Rattle.node_store.specs.Held.{held_at, OnlyAdds};
ghost use Rattle.node_store.specs.Import.{IsFilled, HasJoined, LeavesEither};
ghost use Rattle.node_store.specs.Node.{IsOwnDiskWhereTold};
ghost use Rattle.node_store.specs.Steps.{moves_to_join};
ghost use Rattle.node_store.specs.Kept.{AreRowsOfFound};
ghost use Rattle.node_store.specs.Judging.{IsReadyItem, IsDecided, place_for};
ghost use Rattle.node_store.specs.declared.decision.Decision.TheVariants.{Joins};

use crate::node::Node;
use crate::{Cache, Joining, KeptBody};
use cell_state::Ext;
use log_file::{Body, append, next_rec};
use outside::{Disk, NoMemory, ReadStop, Steps};
use std::alloc::Global;
use std::sync::ledger::Ledger;

/// The most bytes of an ext: with an item below 2^31 bytes its record's length fits four bytes.
const EXT_LIMIT: usize = (1 << 31) - 4;

/// The bytes of an ext. Above the limit they are out of memory.
fn bytes_of(alloc: Global, ext: &Ext) -> Result<Vec<u8>, NoMemory>
    ensures bytes { IfOk result (λ bytes. bytes.items ≡ ext_bytes ext.now) }
    ensures form { IfOk result (λ bytes. IsTrue (is_ext bytes.items)) }
    ensures fees { IfOk result (λ bytes. count_at bytes.items 0 ≡ length ext.now.fees) }
    ensures short { IfOk result (λ bytes. length bytes.items + 4 ≤ 2 ^ 31) }
{
    if ext.fees.len() > EXT_LIMIT || ext.spent.len() > EXT_LIMIT {
        return Err(NoMemory);
    }
    let bytes = ext.write(alloc)?;
    if bytes.len() > EXT_LIMIT {
        return Err(NoMemory);
    }
    Ok(bytes)
}

/// Makes the record of an item with its ext, and answers the bytes of the ext.
fn fill(alloc: Global, body: &mut Body, item: &[u8], ext: &Ext) -> Result<Vec<u8>, NoMemory>
    requires { length item.now < 2 ^ 31 }
    ensures { IfOk result (λ bytes. IsFilled item.now ext.now bytes.items body.new) }
{
    let bytes = bytes_of(alloc, ext)?;
    body.fill(alloc, item, &bytes)?;
    Ok(bytes)
}

/// Takes all memory that is asked for a block to join: its record is made, and it is held for its place.
fn prepare(
    alloc: Global,
    body: &mut Body,
    cache: &mut Cache,
    place: u32,
    item: &[u8],
    joining: &Joining,
) -> Result<Vec<u8>, NoMemory>
    requires size { length item.now < 2 ^ 31 }
    requires ready { (b : Block) × (decoded schema.block item.now ≡ Some b) × (joining.now.hashes.items ≡ map transaction_hash b.transactions) }
    ensures filled { IfOk result (λ ext. IsFilled item.now joining.now.ext ext.items body.new) }
    ensures held { IfOk result (λ ext. (b : Block) → decoded schema.block item.now ≡ Some b
        → held_at cache.new.held place ≡ Some (record { block = b; ext = ext.items })) }
    ensures only { IfOk result (λ ext. (b : Block) → decoded schema.block item.now ≡ Some b
        → OnlyAdds place (record { block = b; ext = ext.items }) cache.old.held cache.new.held) }
    ensures most { cache.new.most ≡ cache.old.most }
    ensures damages { cache.new.damages ≡ cache.old.damages }
{
    let ext = fill(alloc, body, item, &joining.ext)?;
    let held = KeptBody::of(alloc, item, &ext, &joining.hashes)?;
    cache.put(place, held)?;
    Ok(ext)
}

/// Keeps an item that can join, and puts its record on the disk after the others. The live cells of the node stand where the
/// block goes on from.
pub(crate) fn join<D: Disk, L: Ledger>(
    node: Node,
    alloc: Global,
    disk: &mut D,
    item: &[u8],
    joining: Joining,
    steps: &mut Steps<L>,
) -> Result<Node, ReadStop>
    requires size { length item.now < 2 ^ 31 }
    requires own { IsOwnDiskWhereTold node (D.reads_as disk.old) (D.images disk.old) }
    requires ready { IsReadyItem node.chain item.now (Joins joining) }
    ensures joined { IfOk result (λ next. HasJoined node next item.now joining (D.reads_as disk.old) (D.reads_as disk.new) (D.images disk.old) (D.images disk.new)) }
    ensures left { LeavesEither D.reads_as D.images D.moment D.left_since disk.old disk.new (IsDecided node.chain item.now (Joins joining)) node item.now }
    ensures others { OthersRead log_area (D.reads_as disk.old) (D.reads_as disk.new) }
    ensures beside { IsSome (D.reads_as disk.old) → LeavesOnly D.moment D.left_since disk.old disk.new (HasAnyArea log_area (D.images disk.old)) }
    ensures untouched { IfErr result (λ stop. stop ≢ DiskFault → disk.new ≡ disk.old) }
    ensures undamaged { IsDecided node.chain item.now (Joins joining) → AreJoined node.chain node.exts
        → AreRowsOfFound node.chain.blocks (place_for node.chain.blocks (Joins joining)) (rows node.cells)
        → (damage : Damage) → result ≡ Err (Damaged damage) → ⊥ }
    ensures damage { (damage : Damage) → result ≡ Err (Damaged damage) → damage.area ≡ log_area }
    ensures cause { CountsFault (D.faults disk.old) (D.faults disk.new) (result ≡ Err DiskFault) }
    ensures exactly { OnOk result (steps.new ≡ steps.old + moves_to_join node.chain.blocks joining) }
    ensures most { steps.new ≤ steps.old + 1 }
{
    let Node {
        kept,
        state,
        log,
        mut body,
        mut cache,
    } = node;
    let place = kept.tree.len();
    let ext = match prepare(alloc, &mut body, &mut cache, place, item, &joining) {
        Ok(ext) => ext,
        Err(_) => {
            drop((kept, state, cache));
            return Err(ReadStop::NoMemory);
        }
    };
    let rec = next_rec(&log, &body);
    let (kept, state) = match kept.join(alloc, state, item, &ext, rec, joining, steps) {
        Ok(joined) => joined,
        Err(stop) => {
            drop(cache);
            return Err(stop);
        }
    };
    match append(log, disk, &body) {
        Err(_) => {
            drop((kept, state, cache));
            Err(ReadStop::DiskFault)
        }
        Ok((log, _)) => Ok(Node {
            kept,
            state,
            log,
            body,
            cache,
        }),
    }
}
