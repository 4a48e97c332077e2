// CMAC over AES-128 (RFC 4493): the tag of a message of any length, at once or in pieces.
ghost use Rattle.std.specs.Prelude.{◌≡◌, ◌≤◌, length};
ghost use Rattle.ciphers.specs.Fips197.{cipher};
ghost use Rattle.ciphers.specs.Keys.{aes_key};
ghost use Rattle.ciphers.specs.Rfc4493.{subkey1};

use crate::aes::Aes128;

mod pieces;
mod tag;

// A key made ready, with the first subkey.
#[derive(Clone, Copy)]
pub struct Cmac {
    aes: Aes128,
    k1: [u8; 16],
    ghost whole: { length k1 ≡ 16 },
    ghost subkey: { k1 ≡ subkey1 (cipher (aes_key aes)) },
}

// A tag in the making: X, and the last n bytes, which are held back until it is known whether more come. They stand in a block
// with its length beside it, since nothing here has a heap.
#[derive(Drop)]
pub struct Running<'a> {
    mac: &'a Cmac,
    x: [u8; 16],
    block: [u8; 16],
    n: usize,
    ghost fits: { n ≤ 16 },
    ghost full: { length x ≡ 16 },
    ghost whole: { length block ≡ 16 },
}
