// A running tag: the smallest steps, and pieces of any length.
ghost use Rattle.std.specs.Prelude.{◌≡◌, ℕ, ◌<◌, ◌≤◌, List, [], ◌∷◌, length};
ghost use Rattle.ciphers.specs.Tagging.{progress, absorbed, turned_over, held_with};

use super::Running;
use crate::blocks::{front, xor};

impl Running<'_> {
    // The full block that is held goes into X.
    fn turn(&mut self)
        requires { self.old.n ≡ 16 }
        ensures room { self.new.n ≡ 0 }
        ensures after { progress self.new ≡ turned_over (progress self.old) }
    {
        let mixed = xor(self.x, self.block);
        let x = self.mac.aes.encrypt(mixed);
        self.x = x;
        self.n = 0;
    }

    // Makes room for a byte that is to come.
    fn make_room(&mut self)
        ensures room { self.new.n < 16 }
        ensures after { (m : List ℕ) → 0 < length m → absorbed (progress self.new) m ≡ absorbed (progress self.old) m }
    {
        if self.n == 16 {
            self.turn();
        }
    }

    fn hold(&mut self, b: u8)
        requires { self.old.n < 16 }
        ensures { progress self.new ≡ held_with (progress self.old) (b ∷ []) }
    {
        self.block[self.n] = b;
        self.n += 1;
    }

    fn hold_block(&mut self, block: [u8; 16])
        requires { self.old.n ≡ 0 }
        ensures { progress self.new ≡ held_with (progress self.old) block }
    {
        self.block = block;
        self.n = 16;
    }

    // Absorbs a block or a byte off the front of `more`, and gives what is left of it.
    fn absorb_front<'a>(&mut self, more: &'a [u8]) -> &'a [u8]
        requires { 0 < length more.now }
        ensures fewer { length result.now < length more.now }
        ensures after { absorbed (progress self.new) result.now ≡ absorbed (progress self.old) more.now }
    {
        self.make_room();
        if self.n == 0 && more.len() >= 16 {
            self.hold_block(front(more));
            return &more[16..];
        }
        self.hold(more[0]);
        &more[1..]
    }

    // Absorbs a piece of the message.
    pub fn absorb(&mut self, piece: &[u8])
        ensures { progress self.new ≡ absorbed (progress self.old) piece.now }
    {
        let mut rest = piece;
        while !rest.is_empty() {
            rest = self.absorb_front(rest);
        }
    }
}
