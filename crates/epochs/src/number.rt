//! Little-endian numbers at a place, and a hash that fills a slice.

ghost use Rattle.std.specs.Prelude.{◌≡◌, ◌≤◌, ◌+◌, length};
ghost use Rattle.std.specs.Int.{w32, w64, from_le_bytes};
ghost use Rattle.chain_defs.specs.Specification.{u32_field, u64_field};

pub(crate) fn u32_at(b: &[u8], place: usize) -> u32
    requires { place + 4 ≤ length b.now }
    ensures { result ≡ u32_field b.now place }
{
    u32_of(&b[place..place + 4])
}

pub(crate) fn u64_at(b: &[u8], place: usize) -> u64
    requires { place + 8 ≤ length b.now }
    ensures { result ≡ u64_field b.now place }
{
    u64_of(&b[place..place + 8])
}

fn u32_of(bytes: &[u8]) -> u32
    requires { length bytes.now ≡ 4 }
    ensures { result ≡ from_le_bytes w32 bytes.now }
{
    u32::from_le_bytes([bytes[0], bytes[1], bytes[2], bytes[3]])
}

fn u64_of(bytes: &[u8]) -> u64
    requires { length bytes.now ≡ 8 }
    ensures { result ≡ from_le_bytes w64 bytes.now }
{
    u64::from_le_bytes([
        bytes[0], bytes[1], bytes[2], bytes[3], bytes[4], bytes[5], bytes[6], bytes[7],
    ])
}

pub(crate) fn hash_of(bytes: &[u8]) -> [u8; 32]
    requires { length bytes.now ≡ 32 }
    ensures { result ≡ bytes.now }
{
    let mut hash = [0; 32];
    hash.copy_from_slice(bytes);
    hash
}
