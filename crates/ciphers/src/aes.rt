// AES-128, encryption of blocks (FIPS 197).
ghost use Rattle.std.specs.Prelude.{◌≡◌, map, length};
ghost use Rattle.ciphers.specs.Bytes.{word_bytes};
ghost use Rattle.ciphers.specs.Fips197.{key_expansion, state_of};

mod block;
mod rounds;
mod schedule;
mod tables;

// A key made ready: the 44 words that KEYEXPANSION makes of it, of which the first four are the key. It has no model, nor have
// the other types of this crate that are `Copy`: a model would have to give the fields back of the key.
#[derive(Clone, Copy)]
pub struct Aes128 {
    words: [u32; 44],
    ghost full: { length words ≡ 44 },
    ghost expanded: { map word_bytes words ≡ key_expansion (state_of words) },
}
