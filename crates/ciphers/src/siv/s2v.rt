// S2V of an associated text and a plaintext.
ghost use Rattle.std.specs.Prelude.{◌≡◌, ◌<◌, ◌≤◌, length};
ghost use Rattle.ciphers.specs.Bytes.{xors, zeros};
ghost use Rattle.ciphers.specs.Fips197.{cipher};
ghost use Rattle.ciphers.specs.Rfc4493.{cmac, dbl, padded};
ghost use Rattle.ciphers.specs.Rfc5297.{lastly, xor_end};
ghost use Rattle.ciphers.specs.Tagging.{mac_key, progress, absorbed, tag_of};

use super::Siv;
use crate::blocks::{double, pad, xor};
use crate::cmac::Running;

// The tag of what was absorbed and of `rest` xorend D.
pub(super) fn end_tag(running: &mut Running, rest: &[u8], d: [u8; 16]) -> [u8; 16]
    requires { 16 ≤ length rest.now }
    ensures { result ≡ tag_of (absorbed (progress running.old) (xor_end rest.now d)) }
{
    let (before, last) = rest.split_last_chunk().unwrap();
    running.absorb(before);
    running.absorb(&xor(*last, d));
    running.finish()
}

impl Siv {
    // D after the associated text.
    pub(super) fn gather(&self, ad: &[u8]) -> [u8; 16]
        ensures { result ≡ xors (dbl (cmac (cipher (mac_key self.now.mac)) zeros)) (cmac (cipher (mac_key self.now.mac)) ad.now) }
    {
        let zero = self.mac.tag(&[0u8; 16]);
        xor(double(zero), self.mac.tag(ad))
    }

    // The tag where the last component is less than a block.
    pub(super) fn short_tag(&self, d: [u8; 16], rest: &[u8]) -> [u8; 16]
        requires { length rest.now < 16 }
        ensures { result ≡ cmac (cipher (mac_key self.now.mac)) (xors (dbl d) (padded rest.now)) }
    {
        self.mac.tag(&xor(double(d), pad(rest)))
    }

    // V, where the plaintext is at hand.
    pub(super) fn plain_tag(&self, d: [u8; 16], plain: &[u8]) -> [u8; 16]
        ensures { result ≡ lastly (cipher (mac_key self.now.mac)) d plain.now }
    {
        if plain.len() < 16 {
            return self.short_tag(d, plain);
        }
        end_tag(&mut self.mac.start(), plain, d)
    }
}
