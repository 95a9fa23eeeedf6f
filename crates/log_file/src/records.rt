// The records of a log, from start to end.

ghost use Rattle.std.specs.Prelude.{◌≡◌, ◌≢◌, ◌+◌, ◌-◌, ◌*◌, ◌<◌, ◌≤◌, ◌^◌, List, [], Ok, Err, None, length, take, drop, IfSome, IfOk, IfErr, OnOk, true, false};
ghost use Rattle.outside.specs.Causes.{CountsFault};
ghost use Rattle.outside.specs.Disk.{IsAsBefore};
ghost use Rattle.chain_tree.specs.Told.{blocks_of};
ghost use Rattle.chain_defs.specs.Kept.{kept_limit};
ghost use Rattle.chain_defs.specs.Specification.{Specification, specification_of};
ghost use Rattle.disk_defs.specs.Log.{magic, record_at, is_specification, is_genesis, IsNoLogFrom};
ghost use Rattle.log_file.specs.Grammar.{AreBlocks, blocks_with, read_with, IsGenesisOf, IsTakenFrom, edition_room};
ghost use Rattle.log_file.specs.Reading.{IsReading, IsAt, HasPassed, IsOtherHere, IsWrongHere};
ghost use Rattle.log_file.specs.Opening.{HasReadLog, HasReadAll, IsNoContentFrom};
ghost use Rattle.log_file.specs.Stops.{IfDamage, IsInLog};

use crate::blocks::begin;
use crate::edition::take;
use crate::grammar::{is_start, record_at, spec_of};
use crate::reading::Reader;
use crate::stop::LogStop;
use crate::visitor::Visitor;
use chain_tree::Tree;
use epochs::Spec;
use outside::{Area, Damage, Disk};
use std::alloc::Global;

/// Reads the first bytes of a log.
fn read_start<D: Disk>(alloc: Global, disk: &mut D, reader: &mut Reader) -> Result<(), LogStop>
    requires { reader.old.at ≡ 0 }
    ensures at { OnOk result (IsAt reader.old.len 8 reader.new) }
    ensures reading { IfSome (D.reads_as disk.old) (λ image. IsReading image.log reader.old → IsReading image.log reader.new) }
    ensures found { IfSome (D.reads_as disk.old) (λ image. IsReading image.log reader.old → OnOk result (take 8 image.log ≡ magic)) }
    ensures wrong { IfErr result (IfDamage (IsInLog (D.reads_as disk.old) (λ log at. IsReading log reader.old → (take 8 log ≢ magic) × (at ≡ 0)))) }
    ensures as_before { IsAsBefore D.reads_as D.images D.moment D.left_since disk.old disk.new }
    ensures cause { CountsFault (D.faults disk.old) (D.faults disk.new) (result ≡ Err LogStop.DiskFault) }
{
    if reader.left() < 8 {
        return Err(LogStop::NotAStore(Damage {
            area: Area::Log,
            at: 0,
        }));
    }
    match reader.fill(alloc, disk, 8) {
        Ok(()) => {}
        Err(stop) => return Err(stop),
    }
    if !is_start(reader.ahead()) {
        return Err(LogStop::NotAStore(Damage {
            area: Area::Log,
            at: 0,
        }));
    }
    reader.skip(8);
    Ok(())
}

/// Reads the record of the specification.
fn read_spec<D: Disk>(alloc: Global, disk: &mut D, reader: &mut Reader) -> Result<Spec, LogStop>
    ensures at { IfOk result (λ spec. (reader.new.len ≡ reader.old.len) × (reader.new.at ≤ reader.old.at + 2 ^ 32 + 5)) }
    ensures reading { IfSome (D.reads_as disk.old) (λ image. IsReading image.log reader.old → IsReading image.log reader.new) }
    ensures found { IfSome (D.reads_as disk.old) (λ image. IsReading image.log reader.old → IfOk result (λ spec.
        HasPassed image.log (λ r. (is_specification r ≡ true) × (spec ≡ specification_of r.body)) reader.old reader.new)) }
    ensures wrong { IfErr result (IfDamage (IsInLog (D.reads_as disk.old) (λ log at. IsReading log reader.old → IsOtherHere log is_specification reader.old at))) }
    ensures as_before { IsAsBefore D.reads_as D.images D.moment D.left_since disk.old disk.new }
    ensures cause { CountsFault (D.faults disk.old) (D.faults disk.new) (result ≡ Err LogStop.DiskFault) }
{
    match reader.fill_record(alloc, disk) {
        Ok(()) => {}
        Err(stop) => return Err(stop),
    }
    let place = reader.at();
    let Some((kind, body)) = record_at(reader.ahead()) else {
        return Err(LogStop::NotAStore(Damage {
            area: Area::Log,
            at: place,
        }));
    };
    let Some(spec) = spec_of(kind, body) else {
        return Err(LogStop::NotAStore(Damage {
            area: Area::Log,
            at: place + 6,
        }));
    };
    let size = 6 + body.len();
    reader.skip(size);
    Ok(spec)
}

/// Reads the record of the genesis.
fn read_genesis<D: Disk, V: Visitor>(
    alloc: Global,
    disk: &mut D,
    reader: &mut Reader,
    visitor: &mut V,
) -> Result<Tree, LogStop>
    requires { V.visited visitor.old ≡ [] }
    ensures at { IfOk result (λ tree. (reader.new.len ≡ reader.old.len) × (reader.new.at ≤ reader.old.at + 2 ^ 32 + 5)) }
    ensures blocks { IfOk result (λ tree. AreBlocks (V.visited visitor.new) tree.entries) }
    ensures reading { IfSome (D.reads_as disk.old) (λ image. IsReading image.log reader.old → IsReading image.log reader.new) }
    ensures found { IfSome (D.reads_as disk.old) (λ image. IsReading image.log reader.old → IfOk result (λ tree.
        HasPassed image.log (λ r. IsGenesisOf (reader.old.at + 6) r (blocks_with (V.visited visitor.new) tree.entries)) reader.old reader.new)) }
    ensures wrong { IfErr result (IfDamage (IsInLog (D.reads_as disk.old) (λ log at. IsReading log reader.old → IsOtherHere log is_genesis reader.old at))) }
    ensures as_before { IsAsBefore D.reads_as D.images D.moment D.left_since disk.old disk.new }
    ensures cause { CountsFault (D.faults disk.old) (D.faults disk.new) (result ≡ Err LogStop.DiskFault) }
{
    match reader.fill_record(alloc, disk) {
        Ok(()) => {}
        Err(stop) => return Err(stop),
    }
    let place = reader.at();
    let Some((kind, body)) = record_at(reader.ahead()) else {
        return Err(LogStop::NotAStore(Damage {
            area: Area::Log,
            at: place,
        }));
    };
    let tree = match begin(alloc, visitor, kind, body, place + 6) {
        Ok(tree) => tree,
        Err(stop) => return Err(stop),
    };
    let size = 6 + body.len();
    reader.skip(size);
    Ok(tree)
}

/// Reads the start of a log, up to its genesis.
pub(crate) fn read_head<D: Disk, V: Visitor>(
    alloc: Global,
    disk: &mut D,
    reader: &mut Reader,
    visitor: &mut V,
) -> Result<(Spec, Tree), LogStop>
    requires start { reader.old.at ≡ 0 }
    requires none { V.visited visitor.old ≡ [] }
    ensures place { IfOk result (λ head. reader.new.at + 14 ≤ 2 ^ 33 * (length (V.visited visitor.new) + 1)) }
    ensures blocks { IfOk result (λ head. AreBlocks (V.visited visitor.new) head.1.entries) }
    ensures start { IfSome (D.reads_as disk.old) (λ image. IsReading image.log reader.old → IfOk result (λ head. take 8 image.log ≡ magic)) }
    ensures found { IfSome (D.reads_as disk.old) (λ image. IsReading image.log reader.old → IfOk result (λ head.
        HasReadLog image.log head.0 reader.new (read_with (V.visited visitor.new) head.1.entries None))) }
    ensures wrong { IfErr result (IfDamage (IsInLog (D.reads_as disk.old) (λ log at. IsReading log reader.old → IsNoLogFrom log at))) }
    ensures as_before { IsAsBefore D.reads_as D.images D.moment D.left_since disk.old disk.new }
    ensures cause { CountsFault (D.faults disk.old) (D.faults disk.new) (result ≡ Err LogStop.DiskFault) }
{
    match read_start(alloc, disk, reader) {
        Ok(()) => {}
        Err(stop) => return Err(stop),
    }
    let spec = match read_spec(alloc, disk, reader) {
        Ok(spec) => spec,
        Err(stop) => return Err(stop),
    };
    match read_genesis(alloc, disk, reader, visitor) {
        Ok(tree) => Ok((spec, tree)),
        Err(stop) => Err(stop),
    }
}

/// Reads the record that stands here after the genesis, if one does: that of one block more, or that of the edition.
/// Answers whether one does.
fn read_record<D: Disk, V: Visitor>(
    alloc: Global,
    disk: &mut D,
    reader: &mut Reader,
    visitor: &mut V,
    tree: &mut Tree,
    edition: &mut Option<u64>,
) -> Result<bool, LogStop>
    requires { AreBlocks (V.visited visitor.old) tree.old.entries }
    ensures place { reader.old.at + edition_room edition.old ≤ 2 ^ 33 * (length (V.visited visitor.old) + 1)
        → result ≡ Ok true → reader.new.at + edition_room edition.new ≤ 2 ^ 33 * (length (V.visited visitor.new) + 1) }
    ensures blocks { OnOk result (AreBlocks (V.visited visitor.new) tree.new.entries) }
    ensures fewer { result ≡ Ok true → kept_limit - length (V.visited visitor.new) + edition_room edition.new
        < kept_limit - length (V.visited visitor.old) + edition_room edition.old }
    ensures stays { result ≡ Ok false → IsAt reader.old.len reader.old.at reader.new
        × (read_with (V.visited visitor.new) tree.new.entries edition.new ≡ read_with (V.visited visitor.old) tree.old.entries edition.old) }
    ensures reading { IfSome (D.reads_as disk.old) (λ image. IsReading image.log reader.old → IsReading image.log reader.new) }
    ensures found { IfSome (D.reads_as disk.old) (λ image. IsReading image.log reader.old → result ≡ Ok true
        → HasPassed image.log (λ r. IsTakenFrom (reader.old.at + 6) r (read_with (V.visited visitor.old) tree.old.entries edition.old)
        (read_with (V.visited visitor.new) tree.new.entries edition.new)) reader.old reader.new) }
    ensures ended { IfSome (D.reads_as disk.old) (λ image. IsReading image.log reader.old → result ≡ Ok false → record_at (drop reader.old.at image.log) ≡ None) }
    ensures byte { IfSome (D.reads_as disk.old) (λ image. IsReading image.log reader.old → result ≡ Ok false → reader.old.at < reader.old.len
        → 0 < length reader.new.ahead) }
    ensures wrong { IfErr result (IfDamage (IsInLog (D.reads_as disk.old) (λ log at. IsReading log reader.old
        → IsWrongHere log (blocks_of (V.visited visitor.old)) edition.old reader.old at))) }
    ensures as_before { IsAsBefore D.reads_as D.images D.moment D.left_since disk.old disk.new }
    ensures cause { CountsFault (D.faults disk.old) (D.faults disk.new) (result ≡ Err LogStop.DiskFault) }
{
    match reader.fill_record(alloc, disk) {
        Ok(()) => {}
        Err(stop) => return Err(stop),
    }
    let place = reader.at();
    let Some((kind, body)) = record_at(reader.ahead()) else {
        return Ok(false);
    };
    match take(alloc, visitor, tree, edition, kind, body, place + 6) {
        Ok(()) => {}
        Err(stop) => return Err(stop),
    }
    let size = 6 + body.len();
    reader.skip(size);
    Ok(true)
}

/// Reads the records after the genesis to the end of the log, and answers the edition that they tell.
pub(crate) fn read_later<D: Disk, V: Visitor>(
    alloc: Global,
    disk: &mut D,
    reader: &mut Reader,
    visitor: &mut V,
    tree: &mut Tree,
) -> Result<Option<u64>, LogStop>
    requires { AreBlocks (V.visited visitor.old) tree.old.entries }
    ensures place { reader.old.at + 14 ≤ 2 ^ 33 * (length (V.visited visitor.old) + 1)
        → IfOk result (λ edition. reader.new.at + edition_room edition ≤ 2 ^ 33 * (length (V.visited visitor.new) + 1)) }
    ensures blocks { IfOk result (λ edition. AreBlocks (V.visited visitor.new) tree.new.entries) }
    ensures found { (spec : Specification) → IfSome (D.reads_as disk.old) (λ image.
        HasReadLog image.log spec reader.old (read_with (V.visited visitor.old) tree.old.entries None)
        → IfOk result (λ edition. HasReadAll image.log spec reader.new (read_with (V.visited visitor.new) tree.new.entries edition))) }
    ensures wrong { IfErr result (IfDamage (IsInLog (D.reads_as disk.old) (λ log at. (spec : Specification)
        → HasReadLog log spec reader.old (read_with (V.visited visitor.old) tree.old.entries None) → IsNoContentFrom log at))) }
    ensures as_before { IsAsBefore D.reads_as D.images D.moment D.left_since disk.old disk.new }
    ensures cause { CountsFault (D.faults disk.old) (D.faults disk.new) (result ≡ Err LogStop.DiskFault) }
{
    let mut edition = None;
    'records: while read_record(alloc, disk, reader, visitor, tree, &mut edition)? {}
    Ok(edition)
}
