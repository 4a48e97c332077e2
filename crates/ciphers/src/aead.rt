// Authenticated encryption with associated data, into outputs that the caller lends.
ghost use Rattle.std.specs.Prelude.{◌≡◌, ℕ, ◌≤◌, length, if◌then◌else◌, Ok, Err, MatchOption, nat_lt};
ghost use Rattle.ciphers.specs.declared.fault.Layer.TheVariants.{Aead as AeadLayer};
ghost use Rattle.ciphers.specs.declared.fault.Refusal.TheVariants.{DoesNotOpen, WrongSize};
ghost use Rattle.ciphers.specs.Faults.{fault};
ghost use Rattle.ciphers.specs.Aeads.{Meaning, Encrypted, out_of_bounds, opening_answer, opened_into};

use crate::fault::{Fault, Layer, Refusal};

// The most that encrypt takes.
const MAX_PLAINTEXT: usize = 4096;

const MAX_ASSOCIATED_DATA: usize = 256;

// An Aead means what each ciphertext opens to; no call alters that.
pub trait Aead {
    ghost opens: { Self → Meaning };

    ghost OVERHEAD: { ℕ };

    // By how many bytes at most a ciphertext is longer than its plaintext.
    const OVERHEAD: usize;

    // Seals into the front of `out` and answers the length; which ciphertext it makes is left open.
    fn encrypt(
        &self,
        plaintext: &[u8],
        additional_data: &[u8],
        out: &mut [u8],
    ) -> Result<usize, Fault>
        ensures { Encrypted (opens self.now) OVERHEAD plaintext.now additional_data.now out.old out.new result };

    // Opens into the front of `out` and answers the length.
    fn decrypt(
        &self,
        ciphertext: &[u8],
        additional_data: &[u8],
        out: &mut [u8],
    ) -> Result<usize, Fault>
        ensures answer { result ≡ opening_answer (opens self.now ciphertext.now additional_data.now) (length out.old) }
        ensures output { out.new ≡ opened_into (opens self.now ciphertext.now additional_data.now) out.old };

    ghost few: { OVERHEAD ≤ 64 };
}

// What encrypt tests, of the three lengths.
pub(crate) fn check_sizes(
    overhead: usize,
    plain: usize,
    text: usize,
    room: usize,
) -> Result<(), Fault>
    requires { overhead ≤ 64 }
    ensures { result ≡ (if out_of_bounds overhead plain text room then Err (fault WrongSize AeadLayer) else Ok tt) }
{
    if plain > MAX_PLAINTEXT || text > MAX_ASSOCIATED_DATA || room < plain + overhead {
        return Err(Fault::new(Refusal::WrongSize, Layer::Aead));
    }
    Ok(())
}

// What decrypt tests: first whether there is a text that opens, then whether its plaintext, as long as it, has room.
pub(crate) fn check_opening(text: Option<&[u8]>, room: usize) -> Result<&[u8], Fault>
    ensures { MatchOption text.entry (result ≡ Err (fault DoesNotOpen AeadLayer))
        (λ t. result ≡ (if nat_lt room (length t.now) then Err (fault WrongSize AeadLayer) else Ok t)) }
{
    let text = text.ok_or(Fault::new(Refusal::DoesNotOpen, Layer::Aead))?;
    if room < text.len() {
        return Err(Fault::new(Refusal::WrongSize, Layer::Aead));
    }
    Ok(text)
}
