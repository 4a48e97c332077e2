// A key made ready, and the tags under it.
ghost use Rattle.std.specs.Prelude.{◌≡◌, ℕ, ◌≤◌, List, length};
ghost use Rattle.ciphers.specs.Fips197.{cipher};
ghost use Rattle.ciphers.specs.Rfc4493.{last_block, cmac};
ghost use Rattle.ciphers.specs.Tagging.{mac_key, progress, begun, absorbed, tag_of, TagsJoin};

use super::{Cmac, Running};
use crate::aes::Aes128;
use crate::blocks::{double, pad, xor};

impl Cmac {
    pub fn new(key: [u8; 16]) -> Cmac
        ensures { mac_key result ≡ key }
    {
        let aes = Aes128::new(key);
        let k1 = double(aes.encrypt([0; 16]));
        Cmac { aes, k1 }
    }

    // The tag of a message.
    pub fn tag(&self, message: &[u8]) -> [u8; 16]
        ensures { result ≡ cmac (cipher (mac_key self.now)) message.now }
    {
        let mut running = self.start();
        running.absorb(message);
        running.finish()
    }

    // A running tag that has absorbed nothing.
    pub fn start(&self) -> Running<'_>
        ensures { progress result ≡ begun (mac_key self.now) }
    {
        Running {
            mac: self,
            x: [0; 16],
            block: [0; 16],
            n: 0,
        }
    }

    // M_last, of what is left for the last block.
    fn last_block(&self, rest: &[u8]) -> [u8; 16]
        requires { length rest.now ≤ 16 }
        ensures { result ≡ last_block (cipher (mac_key self.now)) rest.now }
    {
        match rest.first_chunk() {
            Some(block) => xor(*block, self.k1),
            None => xor(pad(rest), double(self.k1)),
        }
    }
}

impl Running<'_> {
    // The tag of all that was absorbed.
    pub fn finish(&self) -> [u8; 16]
        ensures value { result ≡ tag_of (progress self.now) }
        ensures tag { (key m : List ℕ) → progress self.now ≡ absorbed (begun key) m → result ≡ cmac (cipher key) m }
    {
        let last = self.mac.last_block(&self.block[..self.n]);
        self.mac.aes.encrypt(xor(self.x, last))
    }
}

// The tag of pieces absorbed one after the other is the tag of the pieces joined.
pub fn tags_join()
    ensures { TagsJoin }
{}
