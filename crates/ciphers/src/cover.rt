// An Aead that hides nothing and guards against nothing but a text of another length: for tests and for comparing with other software.
ghost use Rattle.std.specs.Prelude.{◌≡◌, ◌+◌, ◌≤◌, ◌++◌, length, drop, Some, None, MatchOption};
ghost use Rattle.ciphers.specs.Aeads.{Encrypted, out_of_bounds, sealing_answer, sealed_into};
ghost use Rattle.ciphers.specs.Covers.{covered, uncovered};
ghost use Rattle.std.proofs.Common.{rules};

use crate::aead::{Aead, check_opening, check_sizes};
use crate::fault::Fault;

// A ciphertext is the associated text's length in four bytes, the highest first, and then the plaintext.
#[derive(Clone, Copy)]
pub struct PlainCover;

// Writes the length and the plaintext into the front of `out`.
fn cover(plain: &[u8], text: &[u8], out: &mut [u8])
    requires { (length text.now ≤ 256) × (length plain.now + 4 ≤ length out.old) }
    ensures { out.new ≡ covered text.now plain.now ++ drop (4 + length plain.now) out.old }
{
    let head = (text.len() as u32).to_be_bytes();
    out[..4].copy_from_slice(&head);
    out[4..4 + plain.len()].copy_from_slice(plain);
}

// The plaintext of a sealed text, if its first four bytes are the text's length, as numbers of any size.
fn uncover<'a>(sealed: &'a [u8], text: &[u8]) -> Option<&'a [u8]>
    ensures { MatchOption result (uncovered sealed.now text.now ≡ None) (λ plain. uncovered sealed.now text.now ≡ Some plain.now) }
{
    let (head, plain) = sealed.split_first_chunk::<4>()?;
    let written = u32::from_be_bytes(*head);
    if written as usize == text.len() {
        Some(plain)
    } else {
        None
    }
}

impl Aead for PlainCover {
    ghost opens = { λ _. uncovered };

    ghost OVERHEAD = { 4 };

    const OVERHEAD: usize = 4;

    ghost few = { Prim.search rules };

    fn encrypt(
        &self,
        plaintext: &[u8],
        additional_data: &[u8],
        out: &mut [u8],
    ) -> Result<usize, Fault>
        ensures sealed { Encrypted uncovered 4 plaintext.now additional_data.now out.old out.new result }
        ensures answer { result ≡ sealing_answer (out_of_bounds 4 (length plaintext.now) (length additional_data.now) (length out.old)) (covered additional_data.now plaintext.now) }
        ensures output { out.new ≡ sealed_into (out_of_bounds 4 (length plaintext.now) (length additional_data.now) (length out.old)) (covered additional_data.now plaintext.now) out.old }
    {
        check_sizes(
            Self::OVERHEAD,
            plaintext.len(),
            additional_data.len(),
            out.len(),
        )?;
        cover(plaintext, additional_data, out);
        Ok(4 + plaintext.len())
    }

    fn decrypt(
        &self,
        ciphertext: &[u8],
        additional_data: &[u8],
        out: &mut [u8],
    ) -> Result<usize, Fault> {
        let plain = check_opening(uncover(ciphertext, additional_data), out.len())?;
        out[..plain.len()].copy_from_slice(plain);
        Ok(plain.len())
    }
}
