// The public calls, held to a vector.
use crate::failure::{Failure, agree};
use crate::vector::{Call, Vector};
use ciphers::aead::Aead;
use ciphers::aes::Aes128;
use ciphers::cmac::Cmac;
use ciphers::ctr;
use ciphers::fault::{Fault, Layer, Refusal};
use ciphers::siv::Siv;
use std::alloc::Global;

// Each whole block by itself.
fn aes(heap: Global, key: [u8; 16], plaintext: &[u8], ciphertext: &[u8]) -> Result<(), Failure> {
    let aes = Aes128::new(key);
    let mut out = Vec::new(heap);
    let (blocks, _) = plaintext.as_chunks::<16>();
    for block in blocks {
        out.extend_from_slice(&aes.encrypt(*block))?;
    }
    agree(heap, "the ciphertext", ciphertext, &out)
}

// Encrypts, and decrypts again.
fn ctr(
    heap: Global,
    key: [u8; 16],
    counter: [u8; 16],
    plaintext: &[u8],
    ciphertext: &[u8],
) -> Result<(), Failure> {
    let aes = Aes128::new(key);
    let from = u128::from_be_bytes(counter);
    let mut out = vec![in heap; 0u8; plaintext.len()]?;
    ctr::apply(&aes, from, plaintext, &mut out)?;
    agree(heap, "the ciphertext", ciphertext, &out)?;
    let mut back = vec![in heap; 0u8; out.len()]?;
    ctr::apply(&aes, from, &out, &mut back)?;
    agree(heap, "the plaintext", plaintext, &back)
}

// The tag at once, in two pieces at every cut, and byte by byte.
fn cmac(heap: Global, key: [u8; 16], message: &[u8], tag: [u8; 16]) -> Result<(), Failure> {
    let mac = Cmac::new(key);
    agree(heap, "the tag", &tag, &mac.tag(message))?;
    let mut bytewise = mac.start();
    for (cut, byte) in message.iter().enumerate() {
        let (front, back) = message.split_at(cut);
        let mut running = mac.start();
        running.absorb(front);
        running.absorb(back);
        agree(heap, "the tag in two pieces", &tag, &running.finish())?;
        bytewise.absorb(&[*byte]);
    }
    agree(heap, "the tag byte by byte", &tag, &bytewise.finish())
}

// A copy that was damaged at any one byte is refused, and nothing of it comes out.
fn siv_damaged(heap: Global, siv: &Siv, data: &[u8], output: &[u8]) -> Result<(), Failure> {
    // By position, since each copy is damaged at another one.
    for at in 0..output.len() {
        let mut copy = output.to_vec(heap)?;
        copy[at] ^= 1;
        let mut out = vec![in heap; 0u8; output.len()]?;
        let refused = matches!(
            siv.decrypt(&copy, data, &mut out),
            Err(Fault {
                refusal: Refusal::DoesNotOpen,
                layer: Layer::Aead,
                ..
            })
        );
        if !refused || out.iter().any(|b| *b != 0) {
            return Err(Failure::Accepted);
        }
    }
    Ok(())
}

// Seals, opens again, and refuses damaged copies.
fn siv(
    heap: Global,
    key: [u8; 32],
    data: &[u8],
    plaintext: &[u8],
    output: &[u8],
) -> Result<(), Failure> {
    let siv = Siv::new(key);
    let mut sealed = vec![in heap; 0u8; output.len()]?;
    let n = siv.encrypt(plaintext, data, &mut sealed)?;
    sealed.truncate(n);
    agree(heap, "the output", output, &sealed)?;
    let mut opened = vec![in heap; 0u8; plaintext.len()]?;
    let n = siv.decrypt(output, data, &mut opened)?;
    opened.truncate(n);
    agree(heap, "the plaintext", plaintext, &opened)?;
    siv_damaged(heap, &siv, data, output)
}

impl Vector<'_> {
    pub fn run(&self, heap: Global) -> Result<(), Failure> {
        match &self.call {
            Call::Aes {
                key,
                plaintext,
                ciphertext,
            } => aes(heap, *key, plaintext, ciphertext),
            Call::Ctr {
                key,
                counter,
                plaintext,
                ciphertext,
            } => ctr(heap, *key, *counter, plaintext, ciphertext),
            Call::Cmac { key, message, tag } => cmac(heap, *key, message, *tag),
            Call::Siv {
                key,
                data,
                plaintext,
                output,
            } => siv(heap, *key, data, plaintext, output),
        }
    }
}
