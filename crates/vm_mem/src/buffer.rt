// Numbers among bytes, the lowest byte first, and bytes that are written over.
ghost use Rattle.std.specs.Prelude.{◌≡◌, ◌+◌, ◌%◌, ◌^◌, ◌≤◌, length, replicate, slice_range};
ghost use Rattle.machine_defs.specs.Memory.{number_of, overwritten};

#[inline(always)]
pub(crate) fn read_u8(bytes: &[u8], at: usize) -> u8
    requires { at + 1 ≤ length bytes.now }
    ensures { result ≡ number_of (slice_range bytes.now at (at + 1)) }
{
    bytes[at]
}

#[inline(always)]
pub(crate) fn read_u16(bytes: &[u8], at: usize) -> u16
    requires { at + 2 ≤ length bytes.now }
    ensures { result ≡ number_of (slice_range bytes.now at (at + 2)) }
{
    u16::from_le_bytes([bytes[at], bytes[at + 1]])
}

#[inline(always)]
pub(crate) fn read_u32(bytes: &[u8], at: usize) -> u32
    requires { at + 4 ≤ length bytes.now }
    ensures number { result ≡ number_of (slice_range bytes.now at (at + 4)) }
    ensures low_half { result % 2 ^ 16 ≡ number_of (slice_range bytes.now at (at + 2)) }
{
    u32::from_le_bytes([bytes[at], bytes[at + 1], bytes[at + 2], bytes[at + 3]])
}

#[inline(always)]
pub(crate) fn read_u64(bytes: &[u8], at: usize) -> u64
    requires { at + 8 ≤ length bytes.now }
    ensures { result ≡ number_of (slice_range bytes.now at (at + 8)) }
{
    u64::from_le_bytes([
        bytes[at],
        bytes[at + 1],
        bytes[at + 2],
        bytes[at + 3],
        bytes[at + 4],
        bytes[at + 5],
        bytes[at + 6],
        bytes[at + 7],
    ])
}

/// Other bytes from a place on.
#[inline(always)]
pub(crate) fn overwrite(bytes: &mut [u8], at: usize, others: &[u8])
    requires { at + length others.now ≤ length bytes.old }
    ensures { bytes.new ≡ overwritten bytes.old at others.now }
{
    bytes[at..at + others.len()].copy_from_slice(others);
}

/// Zeros from a place on.
#[inline]
pub(crate) fn overwrite_with_zeros(bytes: &mut [u8], at: usize, count: usize)
    requires { at + count ≤ length bytes.old }
    ensures { bytes.new ≡ overwritten bytes.old at (replicate count 0) }
{
    bytes[at..at + count].fill(0);
}
