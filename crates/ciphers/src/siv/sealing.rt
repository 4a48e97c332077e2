// Sealing, and the test of a sealed text.
ghost use Rattle.std.specs.Prelude.{◌≡◌, ◌+◌, ◌-◌, ◌≤◌, true, false, ◌++◌, length, drop, MatchOption};
ghost use Rattle.ciphers.specs.Bytes.{number};
ghost use Rattle.ciphers.specs.Fips197.{cipher};
ghost use Rattle.ciphers.specs.Keys.{aes_key};
ghost use Rattle.ciphers.specs.Rfc5297.{cleared, sealed as sealed_by, genuine, plain_of, OpensSealed};
ghost use Rattle.ciphers.specs.Sivs.{siv_key};
ghost use Rattle.ciphers.specs.Tagging.{mac_key};

use super::Siv;
use crate::aes::Aes128;
use crate::blocks::{front, number_of};
use crate::cmac::Cmac;
use crate::ctr::mask;

// The counter to start from: V with bits 63 and 31 cleared.
fn clear(v: [u8; 16]) -> u128
    ensures { result ≡ cleared (number v) }
{
    number_of(v) & 0xffffffff_ffffffff_7fffffff_7fffffff
}

impl Siv {
    // What is sealed under a key opens under it.
    pub fn new(key: [u8; 32]) -> Siv
        ensures key { siv_key result ≡ key }
        ensures opens { OpensSealed key }
    {
        let mac = Cmac::new(front(&key));
        let ctr = Aes128::new(front(&key[16..]));
        Siv { mac, ctr }
    }

    // Writes V, and the masked plaintext into the rest of the output.
    pub(super) fn seal(&self, ad: &[u8], plain: &[u8], out: &mut [u8])
        requires { length plain.now + 16 ≤ length out.old }
        ensures { out.new ≡ sealed_by (cipher (mac_key self.now.mac)) (cipher (aes_key self.now.ctr)) ad.now plain.now ++ drop (16 + length plain.now) out.old }
    {
        let d = self.gather(ad);
        let v = self.plain_tag(d, plain);
        out[..16].copy_from_slice(&v);
        mask(&self.ctr, clear(v), plain, &mut out[16..]);
    }

    // What comes after V, if V is S2V's value of the plaintext that it masks.
    pub(super) fn genuine<'a>(&self, ad: &[u8], sealed: &'a [u8]) -> Option<&'a [u8]>
        ensures { MatchOption result
            (genuine (cipher (mac_key self.now.mac)) (cipher (aes_key self.now.ctr)) ad.now sealed.now ≡ false)
            (λ text. (genuine (cipher (mac_key self.now.mac)) (cipher (aes_key self.now.ctr)) ad.now sealed.now ≡ true) × (16 ≤ length sealed.now) × (text.now ≡ drop 16 sealed.now)) }
    {
        let (v, text) = sealed.split_first_chunk::<16>()?;
        let d = self.gather(ad);
        let t = self.masked_tag(clear(*v), d, text);
        if t == *v { Some(text) } else { None }
    }

    // Unmasks what comes after V.
    pub(super) fn unmask(&self, sealed: &[u8], out: &mut [u8])
        requires { (16 ≤ length sealed.now) × (length sealed.now ≤ length out.old + 16) }
        ensures { out.new ≡ plain_of (cipher (aes_key self.now.ctr)) sealed.now ++ drop (length sealed.now - 16) out.old }
    {
        mask(&self.ctr, clear(front(sealed)), &sealed[16..], out);
    }
}
