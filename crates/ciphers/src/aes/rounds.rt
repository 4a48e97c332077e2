// The rounds of CIPHER, on a state of four words, one for each column.
ghost use Rattle.std.specs.Prelude.{◌≡◌, ◌+◌, ◌<◌, [], ◌∷◌, slice_index};
ghost use Rattle.ciphers.specs.Bytes.{word_bytes, xors};
ghost use Rattle.ciphers.specs.Gf256.{s_box};
ghost use Rattle.ciphers.specs.Fips197.{state_of, mix_column, full_round, last_round, add_round_key};

use super::tables::{row, sbox};

// A column after a round, from the bytes that SHIFTROWS brings into it and a word of the round key.
fn column(a: u8, b: u8, c: u8, d: u8, k: u32) -> u32
    ensures { word_bytes result ≡ xors (mix_column (s_box a) (s_box b) (s_box c) (s_box d)) (word_bytes k) }
{
    row::<0>(a) ^ row::<1>(b) ^ row::<2>(c) ^ row::<3>(d) ^ k
}

// The word of the S-box values of four bytes.
pub(super) fn sub_bytes(a: u8, b: u8, c: u8, d: u8) -> u32
    ensures { word_bytes result ≡ s_box a ∷ s_box b ∷ s_box c ∷ s_box d ∷ [] }
{
    u32::from_be_bytes([sbox(a), sbox(b), sbox(c), sbox(d)])
}

// Each round takes its four columns apart by itself: a function for that would answer an array of arrays, of which each
// byte would have to be looked up twice.
pub(super) fn full_round(s: [u32; 4], k: [u32; 4]) -> [u32; 4]
    ensures { state_of result ≡ full_round (state_of s) (state_of k) }
{
    let a = s[0].to_be_bytes();
    let b = s[1].to_be_bytes();
    let c = s[2].to_be_bytes();
    let d = s[3].to_be_bytes();
    [
        column(a[0], b[1], c[2], d[3], k[0]),
        column(b[0], c[1], d[2], a[3], k[1]),
        column(c[0], d[1], a[2], b[3], k[2]),
        column(d[0], a[1], b[2], c[3], k[3]),
    ]
}

// The last round, which mixes no columns.
pub(super) fn last_round(s: [u32; 4], k: [u32; 4]) -> [u32; 4]
    ensures { state_of result ≡ last_round (state_of s) (state_of k) }
{
    let a = s[0].to_be_bytes();
    let b = s[1].to_be_bytes();
    let c = s[2].to_be_bytes();
    let d = s[3].to_be_bytes();
    [
        sub_bytes(a[0], b[1], c[2], d[3]) ^ k[0],
        sub_bytes(b[0], c[1], d[2], a[3]) ^ k[1],
        sub_bytes(c[0], d[1], a[2], b[3]) ^ k[2],
        sub_bytes(d[0], a[1], b[2], c[3]) ^ k[3],
    ]
}

pub(super) fn add_round_key(s: [u32; 4], k: [u32; 4]) -> [u32; 4]
    ensures { state_of result ≡ add_round_key (state_of s) (state_of k) }
{
    [s[0] ^ k[0], s[1] ^ k[1], s[2] ^ k[2], s[3] ^ k[3]]
}

// The word of the four bytes from i on.
fn word(b: [u8; 16], i: usize) -> u32
    requires { i < 13 }
    ensures { word_bytes result ≡ slice_index b i ∷ slice_index b (i + 1) ∷ slice_index b (i + 2) ∷ slice_index b (i + 3) ∷ [] }
{
    u32::from_be_bytes([b[i], b[i + 1], b[i + 2], b[i + 3]])
}

// The four words of a block.
pub(super) fn load(b: [u8; 16]) -> [u32; 4]
    ensures { state_of result ≡ b }
{
    [word(b, 0), word(b, 4), word(b, 8), word(b, 12)]
}

// The block of four words.
pub(super) fn store(w: [u32; 4]) -> [u8; 16]
    ensures { result ≡ state_of w }
{
    let a = w[0].to_be_bytes();
    let b = w[1].to_be_bytes();
    let c = w[2].to_be_bytes();
    let d = w[3].to_be_bytes();
    [
        a[0], a[1], a[2], a[3], b[0], b[1], b[2], b[3], c[0], c[1], c[2], c[3], d[0], d[1], d[2],
        d[3],
    ]
}
