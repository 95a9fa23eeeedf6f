// The records after the genesis: those of blocks, and that of the edition.

ghost use Rattle.std.specs.Prelude.{◌≡◌, ◌≢◌, ◌<◌, ◌^◌, length, IfSome, IsNone, OnOk, IfErr, false, true};
ghost use Rattle.chain_tree.specs.Told.{blocks_of};
ghost use Rattle.disk_defs.specs.Log.{is_edition, epoch_in};
ghost use Rattle.log_file.specs.Grammar.{record_of, AreBlocks, read_with, IsTakenFrom, IsMisplaced};
ghost use Rattle.log_file.specs.Stops.{IfDamage, in_log};

use crate::blocks::put;
use crate::number::read_u64;
use crate::stop::LogStop;
use crate::visitor::Visitor;
use chain_tree::Tree;
use outside::{Area, Damage};
use std::alloc::Global;

/// The kind of a record of an edition.
pub(crate) const EDITION: u8 = 4;

/// The epoch in a record of an edition.
fn epoch_of(kind: u8, body: &[u8]) -> Option<u64>
    ensures edition { IfSome result (λ epoch. is_edition (record_of kind body.now) ≡ true) }
    ensures epoch { IfSome result (λ epoch. epoch ≡ epoch_in (record_of kind body.now)) }
    ensures wrong { IsNone result → is_edition (record_of kind body.now) ≡ false }
{
    if kind != EDITION || body.len() != 8 {
        return None;
    }
    Some(read_u64(body, 0))
}

/// Takes what a record after the genesis says: one block more, which is shown, or the edition, which only one tells.
/// The record's body begins at `at`.
pub(crate) fn take<V: Visitor>(
    alloc: Global,
    visitor: &mut V,
    tree: &mut Tree,
    edition: &mut Option<u64>,
    kind: u8,
    body: &[u8],
    at: u64,
) -> Result<(), LogStop>
    requires fits { length body.now < 2 ^ 32 }
    requires blocks { AreBlocks (V.visited visitor.old) tree.old.entries }
    ensures taken { OnOk result (IsTakenFrom at (record_of kind body.now) (read_with (V.visited visitor.old) tree.old.entries edition.old)
        (read_with (V.visited visitor.new) tree.new.entries edition.new)) }
    ensures blocks { OnOk result (AreBlocks (V.visited visitor.new) tree.new.entries) }
    ensures wrong { IfErr result (IfDamage (λ damage. (damage ≡ in_log at)
        × IsMisplaced (blocks_of (V.visited visitor.old)) edition.old (record_of kind body.now))) }
    ensures reads { IfErr result (λ stop. stop ≢ LogStop.DiskFault) }
{
    if kind != EDITION {
        return put(alloc, visitor, tree, kind, body, at);
    }
    let epoch = epoch_of(kind, body);
    if edition.is_some() || epoch.is_none() {
        return Err(LogStop::NotAStore(Damage {
            area: Area::Log,
            at,
        }));
    }
    *edition = epoch;
    Ok(())
}
