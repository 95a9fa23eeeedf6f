// How maps hash keys that are digests: their bytes are as good as random, so the last eight that are fed are enough.
ghost use Rattle.std.specs.Prelude.{◌+◌, ◌*◌, ◌%◌, ◌^◌, fold};

use std::hash::{BuildHasher, Hasher};

/// An odd number whose bits are as good as random: with it the high half of the product takes in all eight bytes.
const MULTIPLIER: u64 = 0x9e37_79b9_7f4a_7c15;

/// The last eight bytes that were fed. A whole digest that is fed byte by byte is then one load, where the hasher of
/// std makes a product of each byte.
#[derive(Clone, Copy)]
pub struct DigestHasher(u64);

impl Hasher for DigestHasher {
    ghost use Rattle.chain_tree.specs.Digest.{fed, finished};

    ghost write = { fed };

    ghost finish = { finished };

    #[inline(always)]
    fn finish(&self) -> u64 {
        self.0.wrapping_mul(MULTIPLIER)
    }

    #[inline(always)]
    fn write(&mut self, bytes: &[u8]) {
        'bytes: for byte in bytes {
            self.0 = self.0.wrapping_mul(256).wrapping_add(u64::from(*byte));
        }
    }
}

/// Makes the hasher of each key that is a digest, or a digest and an index.
#[derive(Clone, Copy)]
pub struct ByDigest;

impl BuildHasher for ByDigest {
    type Hasher = DigestHasher;

    ghost use Rattle.chain_tree.specs.Digest.{unfed};

    ghost build_hasher = { λ _. unfed };

    fn build_hasher(&self) -> DigestHasher {
        DigestHasher(0)
    }
}
