// SIV as an Aead: the associated data is its one component, even where it is empty.
ghost use Rattle.std.specs.Prelude.{◌≡◌, length};
ghost use Rattle.ciphers.specs.Aeads.{Encrypted, out_of_bounds, sealing_answer, sealed_into};
ghost use Rattle.ciphers.specs.Rfc5297.{siv_sealed, siv_opened};
ghost use Rattle.ciphers.specs.Sivs.{siv_key};
ghost use Rattle.std.proofs.Common.{rules};

use super::Siv;
use crate::aead::{Aead, check_opening, check_sizes};
use crate::fault::Fault;

impl Aead for Siv {
    ghost opens = { λ s c ad. siv_opened (siv_key s) ad c };

    ghost OVERHEAD = { 16 };

    const OVERHEAD: usize = 16;

    ghost few = { Prim.search rules };

    fn encrypt(
        &self,
        plaintext: &[u8],
        additional_data: &[u8],
        out: &mut [u8],
    ) -> Result<usize, Fault>
        ensures sealed { Encrypted (λ c ad. siv_opened (siv_key self.now) ad c) 16 plaintext.now additional_data.now out.old out.new result }
        ensures answer { result ≡ sealing_answer (out_of_bounds 16 (length plaintext.now) (length additional_data.now) (length out.old)) (siv_sealed (siv_key self.now) additional_data.now plaintext.now) }
        ensures output { out.new ≡ sealed_into (out_of_bounds 16 (length plaintext.now) (length additional_data.now) (length out.old)) (siv_sealed (siv_key self.now) additional_data.now plaintext.now) out.old }
    {
        check_sizes(
            Self::OVERHEAD,
            plaintext.len(),
            additional_data.len(),
            out.len(),
        )?;
        self.seal(additional_data, plaintext, out);
        Ok(16 + plaintext.len())
    }

    // Nothing is written before V has been tested over the whole plaintext.
    fn decrypt(
        &self,
        ciphertext: &[u8],
        additional_data: &[u8],
        out: &mut [u8],
    ) -> Result<usize, Fault> {
        let text = check_opening(self.genuine(additional_data, ciphertext), out.len())?;
        self.unmask(ciphertext, out);
        Ok(text.len())
    }
}
