// Draw sources: where keys and ids take their 32-bit words from.
ghost use Rattle.std.specs.Prelude.{◌≡◌, ℕ, List, take};
ghost use Rattle.ciphers.specs.Bytes.{number};
ghost use Rattle.ciphers.specs.Drawn.{first_word, other_words, cipher_word, cipher_words};
ghost use Rattle.ciphers.specs.Fips197.{cipher};
ghost use Rattle.ciphers.specs.Keys.{aes_key};
ghost use Rattle.ciphers.specs.Sources.{words_left};

use crate::aes::Aes128;
use crate::blocks::block_of;
use crate::fault::{Fault, Layer, Refusal};
use std::marker::Model;

// A source means the list of words left in it.
pub trait Draws {
    ghost left: { Self → List ℕ };

    // Takes the first word left; refused exactly when none is, and the source is then still empty.
    fn draw(&mut self) -> Result<u32, Fault>
        ensures word { result ≡ first_word (left self.old) }
        ensures rest { left self.new ≡ other_words (left self.old) };
}

// A tape: the words of a slice, in order.
#[derive(Drop)]
pub struct Tape<'a> {
    words: &'a [u32],
}

// A tape is seen as the words left on it.
impl<'a> Model for Tape<'a> {
    ghost use Rattle.std.specs.Prelude.{ℕ, List};

    ghost Value = { List ℕ };

    ghost view = { λ t. t.words.now };
}

impl<'a> Tape<'a> {
    pub fn new(words: &'a [u32]) -> Tape<'a>
        ensures { result ≡ words.now }
    {
        Tape { words }
    }
}

impl Draws for Tape<'_> {
    ghost left = { λ t. t };

    fn draw(&mut self) -> Result<u32, Fault> {
        let none_left = Fault::new(Refusal::NoWordLeft, Layer::Draws);
        let (first, rest) = self.words.split_first().ok_or(none_left)?;
        self.words = rest;
        Ok(*first)
    }
}

// Words that AES makes of the numbers from 0 on, as many as were asked for.
#[derive(Clone, Copy)]
pub struct CipherWords {
    aes: Aes128,
    next: u64,
    end: u64,
}

// The first four bytes of a block, as a number.
fn first_word(block: [u8; 16]) -> u32
    ensures { result ≡ number (take 4 block) }
{
    u32::from_be_bytes(*block.first_chunk().unwrap())
}

// Word n of a key.
fn word(aes: &Aes128, n: u64) -> u32
    ensures { result ≡ cipher_word (cipher (aes_key aes.now)) n }
{
    first_word(aes.encrypt(block_of(n as u128)))
}

impl CipherWords {
    pub fn new(key: [u8; 16], count: u64) -> CipherWords
        ensures { words_left result ≡ cipher_words (cipher key) 0 count }
    {
        CipherWords {
            aes: Aes128::new(key),
            next: 0,
            end: count,
        }
    }
}

impl Draws for CipherWords {
    ghost left = { words_left };

    fn draw(&mut self) -> Result<u32, Fault> {
        let n = self.next;
        if n >= self.end {
            return Err(Fault::new(Refusal::NoWordLeft, Layer::Draws));
        }
        let w = word(&self.aes, n);
        self.next = n + 1;
        Ok(w)
    }
}
