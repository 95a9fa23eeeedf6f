// A new log.

ghost use Rattle.std.specs.Prelude.{◌≡◌, ◌+◌, ◌<◌, ◌≤◌, ◌^◌, ◌++◌, Err, length, IsSome, IfSome, IfOk, OnOk};
ghost use Rattle.std.specs.Option.{option_map};
ghost use Rattle.outside.specs.Causes.{HasCause, CountsFault};
ghost use Rattle.outside.specs.Image.{with_content};
ghost use Rattle.outside.specs.Disk.{IsDurable, OthersRead, LeavesOnly};
ghost use Rattle.outside.specs.declared.disk.Area.TheVariants.{Log as log_area};
ghost use Rattle.outside.specs.declared.disk.WriteStop.TheVariants.{DiskFault, NoMemory as no_memory};
ghost use Rattle.disk_defs.specs.Log.{record_bytes, first_records, new_log};
ghost use Rattle.disk_defs.specs.Rest.{IsSettled, HasNoLonger};
ghost use Rattle.log_file.specs.Grammar.{record_of};
ghost use Rattle.log_file.specs.Pieces.{HasUpTo};

use crate::body::put_header;
use crate::log::Log;
use outside::{Area, Disk, Failed, NoMemory, WriteStop, write_durably};
use std::alloc::Global;

/// A record with its open gate after what is there.
fn put_record(bytes: &mut Vec<u8>, kind: u8, body: &[u8]) -> Result<(), NoMemory>
    requires { length body.now < 2 ^ 32 }
    ensures { OnOk result (bytes.new.items ≡ bytes.old.items ++ record_bytes (record_of kind body.now)) }
{
    bytes.push(1)?;
    put_header(bytes, kind, body.len() as u32)?;
    bytes.extend_from_slice(body)?;
    Ok(())
}

/// The bytes of a new log after what is there.
fn put_new_log(bytes: &mut Vec<u8>, spec: &[u8], genesis: &[u8]) -> Result<(), NoMemory>
    requires spec { length spec.now < 2 ^ 32 }
    requires genesis { length genesis.now < 2 ^ 32 }
    ensures { OnOk result (bytes.new.items ≡ bytes.old.items ++ new_log spec.now genesis.now) }
{
    bytes.extend_from_slice(b"CKBDEV01")?;
    put_record(bytes, 1, spec)?;
    put_record(bytes, 2, genesis)?;
    bytes.push(0)?;
    Ok(())
}

/// The bytes of a new log.
fn new_log(alloc: Global, spec: &[u8], genesis: &[u8]) -> Result<Vec<u8>, NoMemory>
    requires spec { length spec.now < 2 ^ 32 }
    requires genesis { length genesis.now < 2 ^ 32 }
    ensures { IfOk result (λ bytes. bytes.items ≡ new_log spec.now genesis.now) }
{
    let mut bytes = match Vec::with_capacity(alloc, 21 + spec.len() + genesis.len()) {
        Ok(bytes) => bytes,
        Err(_) => return Err(NoMemory),
    };
    match put_new_log(&mut bytes, spec, genesis) {
        Ok(()) => Ok(bytes),
        Err(stop) => Err(stop),
    }
}

/// Puts these bytes in place of what LOG holds.
fn replace_log<D: Disk>(disk: &mut D, bytes: &[u8]) -> Result<(), Failed>
    requires { length bytes.now ≤ 2 ^ 62 }
    ensures written { OnOk result (D.reads_as disk.new ≡ option_map (with_content log_area bytes.now) (D.reads_as disk.old)) }
    ensures durable { OnOk result (IfSome (D.reads_as disk.new) (IsDurable log_area (D.images disk.new))) }
    ensures others { OthersRead log_area (D.reads_as disk.old) (D.reads_as disk.new) }
    ensures moments { LeavesOnly D.moment D.left_since disk.old disk.new (HasUpTo (length bytes.now) (D.images disk.old)) }
    ensures cause { HasCause (D.faults disk.old) (D.faults disk.new) result }
{
    match disk.cut(Area::Log, 0) {
        Ok(()) => {}
        Err(failed) => return Err(failed),
    }
    match write_durably(disk, Area::Log, 0, bytes) {
        Ok(()) => Ok(()),
        Err(failed) => Err(failed),
    }
}

/// Makes a log of a specification and a genesis, in place of what stands there: after `Ok` LOG holds their log and not
/// a byte more. Nothing is promised of the records of LOG before it is whole.
pub fn create<D: Disk>(
    alloc: Global,
    disk: &mut D,
    spec: &[u8],
    genesis: &[u8],
) -> Result<Log, WriteStop>
    requires spec { length spec.now < 2 ^ 32 }
    requires genesis { length genesis.now < 2 ^ 32 }
    ensures made { OnOk result (D.reads_as disk.new ≡ option_map (with_content log_area (new_log spec.now genesis.now)) (D.reads_as disk.old)) }
    ensures settled { IsSome (D.reads_as disk.old)
        → IfOk result (λ log. IsSettled log.place (first_records spec.now genesis.now) (D.reads_as disk.new) (D.images disk.new)) }
    ensures place { IfOk result (λ log. log.place ≡ 20 + length spec.now + length genesis.now) }
    ensures others { OthersRead log_area (D.reads_as disk.old) (D.reads_as disk.new) }
    ensures moments { LeavesOnly D.moment D.left_since disk.old disk.new (HasNoLonger (20 + length spec.now + length genesis.now) (D.images disk.old)) }
    ensures unchanged { result ≡ Err no_memory → disk.new ≡ disk.old }
    ensures cause { CountsFault (D.faults disk.old) (D.faults disk.new) (result ≡ Err DiskFault) }
{
    let bytes = match new_log(alloc, spec, genesis) {
        Ok(bytes) => bytes,
        Err(_) => return Err(WriteStop::NoMemory),
    };
    match replace_log(disk, &bytes) {
        Ok(()) => Ok(Log {
            place: bytes.len() as u64 - 1,
        }),
        Err(_) => Err(WriteStop::DiskFault),
    }
}
