// Little-endian numbers in a record.

ghost use Rattle.std.specs.Prelude.{◌≡◌, ◌+◌, ◌≤◌, length, slice_range};
ghost use Rattle.std.specs.Int.{w32, to_le_bytes};
ghost use Rattle.chain_defs.specs.Ext.{count_at};
ghost use Rattle.chain_defs.specs.Specification.{u64_field};

/// The number that the four bytes from `at` on are.
pub(crate) fn read_count(bytes: &[u8], at: usize) -> u32
    requires { at + 4 ≤ length bytes.now }
    ensures value { result ≡ count_at bytes.now at }
    ensures bytes { to_le_bytes w32 result ≡ slice_range bytes.now at (at + 4) }
{
    let four = &bytes[at..at + 4];
    u32::from_le_bytes([four[0], four[1], four[2], four[3]])
}

/// The number that the eight bytes from `at` on are.
pub(crate) fn read_u64(bytes: &[u8], at: usize) -> u64
    requires { at + 8 ≤ length bytes.now }
    ensures { result ≡ u64_field bytes.now at }
{
    let mut eight = [0; 8];
    eight.copy_from_slice(&bytes[at..at + 8]);
    u64::from_le_bytes(eight)
}
