// S2V over the plaintext of a ciphertext, of which at most two blocks are at hand at a time.
ghost use Rattle.std.specs.Prelude.{◌≡◌, ◌≤◌, length};
ghost use Rattle.ciphers.specs.Fips197.{cipher};
ghost use Rattle.ciphers.specs.Keys.{aes_key};
ghost use Rattle.ciphers.specs.Rfc4493.{cmac};
ghost use Rattle.ciphers.specs.Rfc5297.{lastly, xor_end, masked};
ghost use Rattle.ciphers.specs.Tagging.{mac_key};

use super::Siv;
use super::s2v::end_tag;
use crate::blocks::{front, xor};
use crate::ctr::{mask, stream_block};

impl Siv {
    // All whole blocks but the last are unmasked and absorbed one by one; the rest, 16 to 31 bytes, comes after them.
    fn long_tag(&self, q: u128, d: [u8; 16], text: &[u8]) -> [u8; 16]
        requires { 16 ≤ length text.now }
        ensures { result ≡ cmac (cipher (mac_key self.now.mac)) (xor_end (masked (cipher (aes_key self.now.ctr)) q text.now) d) }
    {
        let whole = text.len() / 16 - 1;
        let mut running = self.mac.start();
        let (blocks, rest) = text.split_at(16 * whole);
        for (j, block) in blocks.chunks_exact(16).enumerate() {
            running.absorb(&xor(front(block), stream_block(&self.ctr, q, j)));
        }
        let n = rest.len();
        let mut tail = [0u8; 32];
        mask(&self.ctr, q.wrapping_add(whole as u128), rest, &mut tail);
        end_tag(&mut running, &tail[..n], d)
    }

    // V of the plaintext that `text` masks.
    pub(super) fn masked_tag(&self, q: u128, d: [u8; 16], text: &[u8]) -> [u8; 16]
        ensures { result ≡ lastly (cipher (mac_key self.now.mac)) d (masked (cipher (aes_key self.now.ctr)) q text.now) }
    {
        let n = text.len();
        if n >= 16 {
            return self.long_tag(q, d, text);
        }
        let mut block = [0u8; 16];
        mask(&self.ctr, q, text, &mut block);
        self.short_tag(d, &block[..n])
    }
}
