ghost use Rattle.std.specs.Prelude.{◌≡◌, ℕ, ◌+◌, ◌*◌, ◌<◌, ◌≤◌, ◌^◌, ◌↔◌, length, IsTrue, true, false};
ghost use Rattle.chain_defs.specs.Molecule.{header_number, part_count, part_start, part_of, item_of_fixvec};
ghost use Rattle.mol_schema.specs.Layout.{IsLaidOut, IsCounted};

use crate::little_endian::read_u32;

/// How many offsets the header has, by the first one.
#[tactic(auto, unfolding(chain_defs::specs::Molecule::part_count))]
pub(crate) fn count_parts(bytes: &[u8]) -> usize
    requires { length bytes.now < 8 → length bytes.now ≡ 4 }
    ensures value { result ≡ part_count bytes.now }
    ensures fits { 4 * result < 2 ^ 32 }
{
    if bytes.len() == 4 {
        0
    } else {
        (read_u32(bytes, 4) / 4).saturating_sub(1)
    }
}

/// Where part `i` starts; at the count, the end.
#[tactic(auto, unfolding(chain_defs::specs::Molecule::part_start))]
fn start(bytes: &[u8], count: usize, i: usize) -> usize
    requires counted { count ≡ part_count bytes.now }
    requires header { 4 + 4 * count ≤ length bytes.now }
    ensures { result ≡ part_start bytes.now i }
{
    if i < count {
        read_u32(bytes, 4 + 4 * i)
    } else {
        bytes.len()
    }
}

/// Whether no offset is above the next one or the end.
fn rises(bytes: &[u8], count: usize) -> bool
    requires counted { count ≡ part_count bytes.now }
    requires header { 4 + 4 * count ≤ length bytes.now }
    ensures { IsTrue result ↔ ((i : ℕ) → i < count → part_start bytes.now i ≤ part_start bytes.now (i + 1)) }
{
    let mut from = start(bytes, count, 0);
    for i in 0..count {
        let to = start(bytes, count, i + 1);
        if to < from {
            return false;
        }
        from = to;
    }
    true
}

/// Whether bytes have a length at which a count of parts can be read: no offset, or room for the first one.
pub(crate) fn has_count(bytes: &[u8]) -> bool
    ensures some { result ≡ true → length bytes.now < 8 → length bytes.now ≡ 4 }
    ensures none { result ≡ false → IsLaidOut bytes.now → ⊥ }
{
    if bytes.len() >= 8 {
        return true;
    }
    bytes.len() == 4
}

/// Whether the header is that of a dynvec or a table of so many parts: one pass over the offsets. Where the count is a
/// constant, no loop is left of it.
pub(crate) fn is_laid_out_by(bytes: &[u8], count: usize) -> bool
    requires counted { count ≡ part_count bytes.now }
    requires fits { 4 * count < 2 ^ 32 }
    ensures { IsTrue result ↔ IsLaidOut bytes.now }
{
    let len = bytes.len();
    if len < 4 || read_u32(bytes, 0) != len {
        return false;
    }
    // Where there is no room for an offset, only the empty dynvec is left.
    if len < 8 {
        return len == 4;
    }
    let header = 4 + 4 * count;
    if header > len || start(bytes, count, 0) != header {
        return false;
    }
    rises(bytes, count)
}

/// Whether the header is that of a dynvec or a table.
pub(crate) fn is_laid_out(bytes: &[u8]) -> bool
    ensures { IsTrue result ↔ IsLaidOut bytes.now }
{
    has_count(bytes) && is_laid_out_by(bytes, count_parts(bytes))
}

/// Part `i` of `count`.
pub(crate) fn part<'a>(bytes: &'a [u8], count: usize, i: usize) -> &'a [u8]
    requires laid_out { IsLaidOut bytes.now }
    requires counted { count ≡ part_count bytes.now }
    requires within { i < count }
    ensures { result.now ≡ part_of bytes.now i }
{
    let from = start(bytes, count, i);
    let to = start(bytes, count, i + 1);
    &bytes[from..to]
}

/// Whether the bytes are a count and so many items of `size` bytes. The product may pass 64 bits.
pub(crate) fn is_counted(bytes: &[u8], size: usize) -> bool
    ensures { IsTrue result ↔ IsCounted size bytes.now }
{
    if bytes.len() < 4 {
        return false;
    }
    match read_u32(bytes, 0).checked_mul(size) {
        Some(content) => content == bytes.len() - 4,
        None => false,
    }
}

/// Item `i` of a fixvec.
pub(crate) fn item_at<'a>(bytes: &'a [u8], size: usize, i: usize) -> &'a [u8]
    requires counted { IsCounted size bytes.now }
    requires within { i < header_number bytes.now 0 }
    ensures { result.now ≡ item_of_fixvec size bytes.now i }
{
    let from = 4 + i * size;
    let to = from + size;
    &bytes[from..to]
}
