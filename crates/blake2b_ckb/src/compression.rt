// The compression function F of BLAKE2b (RFC 7693, 3.1 and 3.2), with all rounds written out.

ghost use Rattle.std.specs.Prelude.{◌≡◌, ◌+◌, ◌<◌, ◌≤◌, length};
ghost use Rattle.chain_defs.specs.CkbHash.{compress, final_flag, mix, round, rounds, word_at, words, work_vector};
ghost use Rattle.blake2b_ckb.specs.Compression.{half_mix};

pub(crate) const BLOCK_LEN: usize = 128;

pub(crate) const IV: [u64; 8] = [
    0x6A09E667F3BCC908,
    0xBB67AE8584CAA73B,
    0x3C6EF372FE94F82B,
    0xA54FF53A5F1D36F1,
    0x510E527FADE682D1,
    0x9B05688C2B3E6C1F,
    0x1F83D9ABFB41BD6B,
    0x5BE0CD19137E2179,
];

fn word_at(bytes: &[u8], i: usize) -> u64
    requires { i + 8 ≤ length bytes.now }
    ensures { result ≡ word_at bytes.now i }
{
    u64::from_le_bytes([
        bytes[i],
        bytes[i + 1],
        bytes[i + 2],
        bytes[i + 3],
        bytes[i + 4],
        bytes[i + 5],
        bytes[i + 6],
        bytes[i + 7],
    ])
}

fn words(block: &[u8]) -> [u64; 16]
    requires { length block.now ≡ 128 }
    ensures { result ≡ words block.now }
{
    [
        word_at(block, 0),
        word_at(block, 8),
        word_at(block, 16),
        word_at(block, 24),
        word_at(block, 32),
        word_at(block, 40),
        word_at(block, 48),
        word_at(block, 56),
        word_at(block, 64),
        word_at(block, 72),
        word_at(block, 80),
        word_at(block, 88),
        word_at(block, 96),
        word_at(block, 104),
        word_at(block, 112),
        word_at(block, 120),
    ]
}

// Half of the mixing function G: it takes one message word, and turns by two widths.
#[inline(always)]
fn half_mix(
    v: &mut [u64; 16],
    a: usize,
    b: usize,
    c: usize,
    d: usize,
    word: u64,
    first: u32,
    second: u32,
)
    requires a { a < 16 }
    requires b { b < 16 }
    requires c { c < 16 }
    requires d { d < 16 }
    ensures { v.new ≡ half_mix v.old a b c d word first second }
{
    v[a] = v[a].wrapping_add(v[b]).wrapping_add(word);
    v[d] = (v[d] ^ v[a]).rotate_right(first);
    v[c] = v[c].wrapping_add(v[d]);
    v[b] = (v[b] ^ v[c]).rotate_right(second);
}

// The mixing function G. Its places and widths are constants once it is inlined.
#[inline(always)]
fn mix(v: &mut [u64; 16], a: usize, b: usize, c: usize, d: usize, x: u64, y: u64)
    requires a { a < 16 }
    requires b { b < 16 }
    requires c { c < 16 }
    requires d { d < 16 }
    ensures { v.new ≡ mix v.old a b c d x y }
{
    half_mix(v, a, b, c, d, x, 32, 24);
    half_mix(v, a, b, c, d, y, 16, 63)
}

// A round, on the message words in its order.
#[inline(always)]
fn round(v: &mut [u64; 16], s: [u64; 16])
    ensures { v.new ≡ round v.old s }
{
    mix(v, 0, 4, 8, 12, s[0], s[1]);
    mix(v, 1, 5, 9, 13, s[2], s[3]);
    mix(v, 2, 6, 10, 14, s[4], s[5]);
    mix(v, 3, 7, 11, 15, s[6], s[7]);
    mix(v, 0, 5, 10, 15, s[8], s[9]);
    mix(v, 1, 6, 11, 12, s[10], s[11]);
    mix(v, 2, 7, 8, 13, s[12], s[13]);
    mix(v, 3, 4, 9, 14, s[14], s[15])
}

// A round on message words.
macro_rules! round_on {
    ($v:ident, $($word:ident)*) => {
        round($v, [$($word),*])
    };
}

// The twelve rounds, each on the message words in the order of its row of SIGMA.
#[inline(always)]
fn rounds(v: &mut [u64; 16], m: [u64; 16])
    ensures { v.new ≡ rounds v.old m 12 }
{
    let [
        m0,
        m1,
        m2,
        m3,
        m4,
        m5,
        m6,
        m7,
        m8,
        m9,
        m10,
        m11,
        m12,
        m13,
        m14,
        m15,
    ] = m;
    round_on!(v, m0 m1 m2 m3 m4 m5 m6 m7 m8 m9 m10 m11 m12 m13 m14 m15);
    round_on!(v, m14 m10 m4 m8 m9 m15 m13 m6 m1 m12 m0 m2 m11 m7 m5 m3);
    round_on!(v, m11 m8 m12 m0 m5 m2 m15 m13 m10 m14 m3 m6 m7 m1 m9 m4);
    round_on!(v, m7 m9 m3 m1 m13 m12 m11 m14 m2 m6 m5 m10 m4 m0 m15 m8);
    round_on!(v, m9 m0 m5 m7 m2 m4 m10 m15 m14 m1 m11 m12 m6 m8 m3 m13);
    round_on!(v, m2 m12 m6 m10 m0 m11 m8 m3 m4 m13 m7 m5 m15 m14 m1 m9);
    round_on!(v, m12 m5 m1 m15 m14 m13 m4 m10 m0 m7 m6 m3 m9 m2 m8 m11);
    round_on!(v, m13 m11 m7 m14 m12 m1 m3 m9 m5 m0 m15 m4 m8 m6 m2 m10);
    round_on!(v, m6 m15 m14 m9 m11 m3 m0 m8 m12 m2 m13 m7 m1 m4 m10 m5);
    round_on!(v, m10 m2 m8 m4 m7 m6 m1 m5 m15 m11 m9 m14 m3 m12 m13 m0);
    round_on!(v, m0 m1 m2 m3 m4 m5 m6 m7 m8 m9 m10 m11 m12 m13 m14 m15);
    round_on!(v, m14 m10 m4 m8 m9 m15 m13 m6 m1 m12 m0 m2 m11 m7 m5 m3)
}

fn final_flag(last: bool) -> u64
    ensures { result ≡ final_flag last }
{
    if last { u64::MAX } else { 0 }
}

fn work_vector(h: [u64; 8], count: u128, last: bool) -> [u64; 16]
    ensures { result ≡ work_vector h count last }
{
    let low = (count % (1 << 64)) as u64;
    let high = (count >> 64) as u64;
    [
        h[0],
        h[1],
        h[2],
        h[3],
        h[4],
        h[5],
        h[6],
        h[7],
        IV[0],
        IV[1],
        IV[2],
        IV[3],
        IV[4] ^ low,
        IV[5] ^ high,
        IV[6] ^ final_flag(last),
        IV[7],
    ]
}

// The compression function F: takes a block into the state. `count` is how many bytes of the
// message end with the block, modulo 2^128.
pub(crate) fn compress(state: &mut [u64; 8], block: &[u8], count: u128, last: bool)
    requires { length block.now ≡ 128 }
    ensures { state.new ≡ compress state.old block.now count last }
{
    let h = *state;
    let mut v = work_vector(h, count, last);
    rounds(&mut v, words(block));
    *state = [
        h[0] ^ v[0] ^ v[8],
        h[1] ^ v[1] ^ v[9],
        h[2] ^ v[2] ^ v[10],
        h[3] ^ v[3] ^ v[11],
        h[4] ^ v[4] ^ v[12],
        h[5] ^ v[5] ^ v[13],
        h[6] ^ v[6] ^ v[14],
        h[7] ^ v[7] ^ v[15],
    ];
}
