// A key made ready, and a block under it.
ghost use Rattle.std.specs.Prelude.{◌≡◌, ◌<◌, map};
ghost use Rattle.ciphers.specs.Bytes.{word_bytes};
ghost use Rattle.ciphers.specs.Fips197.{state_of, round_key, cipher_by, cipher};
ghost use Rattle.ciphers.specs.Keys.{aes_key};

use super::Aes128;
use super::rounds::{add_round_key, full_round, last_round, load, store};
use super::schedule::expansion;

impl Aes128 {
    pub fn new(key: [u8; 16]) -> Aes128
        ensures { aes_key result ≡ key }
    {
        Aes128 {
            words: expansion(key),
        }
    }

    // The block that AES-128 makes of `block`.
    pub fn encrypt(&self, block: [u8; 16]) -> [u8; 16]
        ensures { result ≡ cipher (aes_key self.now) block }
    {
        store(self.rounds(load(block)))
    }

    fn round_key(&self, i: usize) -> [u32; 4]
        requires { i < 11 }
        ensures { state_of result ≡ round_key (map word_bytes self.now.words) i }
    {
        let at = 4 * i;
        [
            self.words[at],
            self.words[at + 1],
            self.words[at + 2],
            self.words[at + 3],
        ]
    }

    fn rounds(&self, text: [u32; 4]) -> [u32; 4]
        ensures { state_of result ≡ cipher_by (map word_bytes self.now.words) (state_of text) }
    {
        let mut s = add_round_key(text, self.round_key(0));
        // By number: a chunk of the words is a slice, and a round takes four words.
        for i in 1..10 {
            let next = full_round(s, self.round_key(i));
            s = next;
        }
        last_round(s, self.round_key(10))
    }
}
