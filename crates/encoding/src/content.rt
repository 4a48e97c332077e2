// What a field holds.
ghost use Rattle.std.specs.Prelude.{◌≡◌, ◌==◌, List, ℕ, true, false, length, MatchResult};
ghost use Rattle.std.specs.Borrow.{Bor};
ghost use Rattle.ciphers.specs.Faults.{fault};
ghost use Rattle.ciphers.specs.declared.fault.Refusal.TheVariants.{BreaksEncoding};
ghost use Rattle.ciphers.specs.declared.fault.Layer.TheVariants.{Encoding};
ghost use Rattle.encoding.specs.Scanning.{IsNumber, IsBytes};
ghost use Rattle.encoding.specs.declared.content.Content.TheVariants.{Number, Bytes};

use ciphers::fault::{Fault, Layer, Refusal};

// A number, or bytes of a length that stands before them.
#[derive(Clone, Copy)]
pub enum Content<'a> {
    Number(u64),
    Bytes(&'a [u8]),
}

// What the reader refuses with.
pub(crate) fn broken() -> Fault
    ensures { result ≡ fault BreaksEncoding Encoding }
{
    Fault::new(Refusal::BreaksEncoding, Layer::Encoding)
}

impl<'a> Content<'a> {
    pub(crate) fn number(self) -> Result<u64, Fault>
        ensures { MatchResult result (λ v. self.entry ≡ Number v) (λ f. (f ≡ fault BreaksEncoding Encoding) × IsBytes self.entry) }
    {
        match self {
            Content::Number(value) => Ok(value),
            Content::Bytes(_) => Err(broken()),
        }
    }

    pub(crate) fn bytes(self) -> Result<&'a [u8], Fault>
        ensures { MatchResult result (λ b. self.entry ≡ Bytes b) (λ f. (f ≡ fault BreaksEncoding Encoding) × IsNumber self.entry) }
    {
        match self {
            Content::Number(_) => Err(broken()),
            Content::Bytes(payload) => Ok(payload),
        }
    }

    // The bytes of a text that is written once, and never as no byte.
    pub(crate) fn first_text(self, is_absent: bool) -> Result<&'a [u8], Fault>
        ensures { MatchResult result
            (λ b. (self.entry ≡ Bytes b) × (is_absent ≡ true) × ((length b.now == 0) ≡ false))
            (λ f. (f ≡ fault BreaksEncoding Encoding) × ((b : Bor (List ℕ)) → self.entry ≡ Bytes b → is_absent ≡ true → (length b.now == 0) ≡ true)) }
    {
        let payload = self.bytes()?;
        if !is_absent || payload.is_empty() {
            return Err(broken());
        }
        Ok(payload)
    }
}
