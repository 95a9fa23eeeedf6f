// Records, and what the first of them says.

ghost use Rattle.std.specs.Prelude.{◌≡◌, ◌+◌, ◌<◌, ◌≤◌, ◌^◌, ◌==◌, slice_index, IfSome, IsNone, IsTrue, option_map, length, take, false, true};
ghost use Rattle.std.specs.Str.{bytes_eq};
ghost use Rattle.chain_defs.specs.Specification.{specification_of};
ghost use Rattle.disk_defs.specs.Log as form;
ghost use Rattle.disk_defs.specs.Log.{is_specification};
ghost use Rattle.log_file.specs.Grammar.{record_of};

use crate::number::read_count;
use epochs::Spec;

/// The kind and the body of the whole record at the start, if there is one.
pub(crate) fn record_at(bytes: &[u8]) -> Option<(u8, &[u8])>
    ensures found { option_map (λ found. record_of found.0 found.1.now) result ≡ form.record_at bytes.now }
    ensures within { IfSome result (λ found. 6 + length found.1.now < length bytes.now) }
    ensures fits { IfSome result (λ found. length found.1.now < 2 ^ 32) }
{
    if bytes.len() < 7 {
        return None;
    }
    if bytes[0] != 1 {
        return None;
    }
    let end = 6 + read_count(bytes, 2) as usize;
    if bytes.len() <= end {
        return None;
    }
    Some((bytes[1], &bytes[6..end]))
}

/// Whether bytes begin as a log does.
pub(crate) fn is_start(bytes: &[u8]) -> bool
    ensures value { result ≡ bytes_eq (take 8 bytes.now) form.magic }
    ensures within { IsTrue result → 8 ≤ length bytes.now }
{
    8 <= bytes.len() && &bytes[..8] == b"CKBDEV01".as_slice()
}

/// Whether bytes begin with an open gate.
pub(crate) fn is_open(bytes: &[u8]) -> bool
    ensures { 0 < length bytes.now → result ≡ (slice_index bytes.now 0 == 1) }
{
    !bytes.is_empty() && bytes[0] == 1
}

/// The specification of a record.
pub(crate) fn spec_of(kind: u8, body: &[u8]) -> Option<Spec>
    ensures found { IfSome result (λ spec. is_specification (record_of kind body.now) ≡ true) }
    ensures fields { IfSome result (λ spec. spec ≡ specification_of body.now) }
    ensures wrong { IsNone result → is_specification (record_of kind body.now) ≡ false }
{
    if kind != 1 {
        return None;
    }
    match Spec::read(body) {
        Ok(spec) => Some(spec),
        Err(_) => None,
    }
}
