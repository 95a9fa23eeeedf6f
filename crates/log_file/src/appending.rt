// A record more.

ghost use Rattle.std.specs.Prelude.{◌≡◌, ◌+◌, ◌<◌, ◌≤◌, ◌^◌, ◌++◌, ◌∷◌, [], List, length, IfSome, IfOk};
ghost use Rattle.outside.specs.Causes.{HasCause};
ghost use Rattle.outside.specs.Disk.{OthersRead, LeavesOnly};
ghost use Rattle.outside.specs.declared.disk.Area.TheVariants.{Log as log_area};
ghost use Rattle.disk_defs.specs.Log.{Record};
ghost use Rattle.disk_defs.specs.Rest.{IsSettled, IsNoLonger, HasAppended};
ghost use Rattle.log_file.specs.Pieces.{after_gate, Names};

use crate::body::Body;
use crate::log::{Log, Rec};
use outside::{Area, Disk, Failed, write_durably};

/// How the record of `body` is named once it stands after the others.
pub fn next_rec(log: &Log, body: &Body) -> Rec
    requires limit { log.now.place ≤ 2 ^ 61 }
    requires filled { 6 ≤ length body.now }
    ensures { (r : Record) → body.now ≡ after_gate r → Names result log.now.place r }
{
    let piece = body.piece();
    Rec {
        kind: piece[0],
        at: log.place + 6,
        len: (piece.len() - 6) as u32,
    }
}

/// Puts the record of `body` after the others, in four calls of the disk: the record and a closed gate after it are
/// written and synced, and then its own gate is opened and synced. LOG ends one byte after the record, or where it
/// ended before. It takes no memory.
pub fn append<D: Disk>(log: Log, disk: &mut D, body: &Body) -> Result<(Log, Rec), Failed>
    requires limit { log.place ≤ 2 ^ 61 }
    requires filled { 6 ≤ length body.now }
    requires there { IfSome (D.reads_as disk.old) (λ image. log.place < length image.log) }

    // Whatever records the log holds: at each moment a crash leaves those, or those and the new one, and nothing but
    // what was there and one byte after them; and after `Ok` the latter.
    ensures settled { (records : List Record) (r : Record) → body.now ≡ after_gate r → IsSettled log.place records (D.reads_as disk.old) (D.images disk.old)
        → IfOk result (λ answer. IsSettled answer.0.place (records ++ r ∷ []) (D.reads_as disk.new) (D.images disk.new)) }
    ensures moments { (records : List Record) (r : Record) → body.now ≡ after_gate r → IsSettled log.place records (D.reads_as disk.old) (D.images disk.old)
        → LeavesOnly D.moment D.left_since disk.old disk.new (HasAppended log.place records r (D.images disk.old)) }

    ensures place { IfOk result (λ answer. answer.0.place ≡ log.place + length body.now) }
    ensures there { IfOk result (λ answer. IfSome (D.reads_as disk.new) (λ image. answer.0.place < length image.log)) }
    ensures size { IfSome (D.reads_as disk.old) (λ image. IfOk result (λ answer. IfSome (D.reads_as disk.new) (λ now. IsNoLonger answer.0.place image.log now.log))) }
    ensures named { (r : Record) → body.now ≡ after_gate r → IfOk result (λ answer. Names answer.1 log.place r) }
    ensures others { OthersRead log_area (D.reads_as disk.old) (D.reads_as disk.new) }
    ensures cause { HasCause (D.faults disk.old) (D.faults disk.new) result }
{
    let piece = body.piece();
    let size = piece.len();
    match write_durably(disk, Area::Log, log.place + 1, piece) {
        Ok(()) => {}
        Err(failed) => return Err(failed),
    }
    match write_durably(disk, Area::Log, log.place, &[1]) {
        Ok(()) => {}
        Err(failed) => return Err(failed),
    }
    let rec = next_rec(&log, body);
    Ok((
        Log {
            place: log.place + size as u64,
        },
        rec,
    ))
}
