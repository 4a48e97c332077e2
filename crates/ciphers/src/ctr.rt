// Counter mode: a text and the key stream from a counter on.
ghost use Rattle.std.specs.Prelude.{◌≡◌, ◌+◌, ◌-◌, ◌/◌, ◌%◌, ◌<◌, ◌≤◌, ◌++◌, length, take, drop, nat_lt};
ghost use Rattle.ciphers.specs.Aeads.{sealing_answer, sealed_into};
ghost use Rattle.ciphers.specs.Fips197.{cipher};
ghost use Rattle.ciphers.specs.Keys.{aes_key};
ghost use Rattle.ciphers.specs.Bytes.{xors};
ghost use Rattle.ciphers.specs.Rfc5297.{counter as counter_block, masked, MasksTwice};

use crate::aes::Aes128;
use crate::blocks::{block_of, front, xor};
use crate::fault::{Fault, Layer, Refusal};

// Block j of the key stream.
pub(crate) fn stream_block(aes: &Aes128, q: u128, j: usize) -> [u8; 16]
    ensures { result ≡ cipher (aes_key aes.now) (counter_block q j) }
{
    aes.encrypt(block_of(q.wrapping_add(j as u128)))
}

// Masks the first 16 bytes of `text` into `out`.
fn mask_block(stream: [u8; 16], text: &[u8], out: &mut [u8])
    requires { (16 ≤ length text.now) × (16 ≤ length out.old) }
    ensures { out.new ≡ xors (take 16 text.now) stream ++ drop 16 out.old }
{
    out[..16].copy_from_slice(&xor(front(text), stream));
}

// Masks less than a block.
fn mask_rest(stream: [u8; 16], text: &[u8], out: &mut [u8])
    requires { (length text.now < 16) × (length text.now ≤ length out.old) }
    ensures { out.new ≡ xors text.now stream ++ drop (length text.now) out.old }
{
    for (i, byte) in text.iter().enumerate() {
        out[i] = byte ^ stream[i];
    }
}

// Masks `text` into the front of `out`, whose bytes past the text stay. Masking twice gives the text back.
pub(crate) fn mask(aes: &Aes128, q: u128, text: &[u8], out: &mut [u8])
    requires { length text.now ≤ length out.old }
    ensures { out.new ≡ masked (cipher (aes_key aes.now)) q text.now ++ drop (length text.now) out.old }
{
    for (j, block) in text.chunks_exact(16).enumerate() {
        mask_block(stream_block(aes, q, j), block, &mut out[16 * j..]);
    }
    let whole = text.len() / 16;
    let stream = stream_block(aes, q, whole);
    mask_rest(stream, &text[16 * whole..], &mut out[16 * whole..]);
}

// Counter mode of a text of any length, from a counter on. The same call undoes it.
pub fn apply(aes: &Aes128, counter: u128, text: &[u8], out: &mut [u8]) -> Result<usize, Fault>
    ensures answer { result ≡ sealing_answer (nat_lt (length out.old) (length text.now)) (masked (cipher (aes_key aes.now)) counter text.now) }
    ensures output { out.new ≡ sealed_into (nat_lt (length out.old) (length text.now)) (masked (cipher (aes_key aes.now)) counter text.now) out.old }
{
    if out.len() < text.len() {
        return Err(Fault::new(Refusal::WrongSize, Layer::Aead));
    }
    mask(aes, counter, text, out);
    Ok(text.len())
}

// Counter mode twice from one counter is no change, for every cipher, counter and text.
pub fn masks_twice()
    ensures { MasksTwice }
{}
