// KEYEXPANSION, word by word as the standard has it.
ghost use Rattle.std.specs.Prelude.{◌≡◌, ◌-◌, ◌/◌, ◌%◌, ◌<◌, ◌≤◌, [], ◌∷◌, map, if◌then◌else◌, nat_eq};
ghost use Rattle.ciphers.specs.Bytes.{word_bytes, xors};
ghost use Rattle.ciphers.specs.Fips197.{key_expansion, state_of, sub_word, rot_word, rcon, x_power};

use super::rounds::{load, sub_bytes};

const POWERS: [u8; 10] = [0x01, 0x02, 0x04, 0x08, 0x10, 0x20, 0x40, 0x80, 0x1b, 0x36];

// The power of x to n.
fn x_power(n: usize) -> u8
    requires { n < 10 }
    ensures { result ≡ x_power n }
{
    POWERS[n]
}

// SUBWORD of ROTWORD, and Rcon[n + 1] added to it.
fn turned(last: u32, n: usize) -> u32
    requires { n < 10 }
    ensures { word_bytes result ≡ xors (sub_word (rot_word (word_bytes last))) (x_power n ∷ 0 ∷ 0 ∷ 0 ∷ []) }
{
    let t = last.to_be_bytes();
    sub_bytes(t[1], t[2], t[3], t[0]) ^ u32::from_be_bytes([x_power(n), 0, 0, 0])
}

// What is added to the word four places back to make the word at i.
fn temp(last: u32, i: usize) -> u32
    requires { (4 ≤ i) × (i < 44) }
    ensures { word_bytes result ≡ (if nat_eq (i % 4) 0 then xors (sub_word (rot_word (word_bytes last))) (rcon (i / 4)) else word_bytes last) }
{
    if i % 4 == 0 {
        turned(last, i / 4 - 1)
    } else {
        last
    }
}

// All 44 words.
pub(super) fn expansion(key: [u8; 16]) -> [u32; 44]
    ensures key { state_of result ≡ key }
    ensures words { map word_bytes result ≡ key_expansion key }
{
    let mut w = [0u32; 44];
    w[..4].copy_from_slice(&load(key));
    // Each word is made of two before it, so the loop goes by places.
    for i in 4..44 {
        w[i] = w[i - 4] ^ temp(w[i - 1], i);
    }
    w
}
