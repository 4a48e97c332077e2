// A key's type, as `type.googleapis.com/..`: at most 64 bytes, each from 0x21 to 0x7E.
ghost use Rattle.std.specs.Prelude.{◌≡◌, ◌-◌, ◌≤◌, true, [], length, replicate, Decides, MatchResult, ◌==◌};
ghost use Rattle.ciphers.specs.Faults.{fault};
ghost use Rattle.ciphers.specs.declared.fault.Refusal.TheVariants.{BreaksEncoding};
ghost use Rattle.ciphers.specs.declared.fault.Layer.TheVariants.{Encoding};
ghost use Rattle.encoding.specs.Lists.{list, unused, visible};
ghost use Rattle.std.specs.Cmp.{partial_equiv_from_equiv};
ghost use Rattle.std.specs.Cmp.Rules.{comparing};
ghost use Rattle.std.proofs.Common.{rules};
ghost use Rattle.std.specs.Str.{bytes_eq};

use crate::bounded::Bounded;
use crate::content::broken;
use ciphers::fault::Fault;

// Past its length the array is zero, so that equal bytes are one value.
#[derive(Clone, Copy)]
pub struct TypeUrl {
    text: Bounded<u8, 64>,
    ghost seen: { visible (list text) ≡ true },
    ghost clean: { unused text ≡ replicate (64 - text.len) 0 },
}

impl TypeUrl {
    pub fn empty() -> TypeUrl
        ensures { list result.text ≡ [] }
    {
        TypeUrl {
            text: Bounded::empty(0),
        }
    }

    // The type URL with these bytes, or a refusal if they break a limit.
    pub fn new(bytes: &[u8]) -> Result<TypeUrl, Fault>
        ensures { MatchResult result (λ u. list u.text ≡ bytes.now)
            (λ f. (f ≡ fault BreaksEncoding Encoding) × ((length bytes.now ≤ 64) × (visible bytes.now ≡ true) → ⊥)) }
    {
        if !bytes.iter().all(|b| b.is_ascii_graphic()) {
            return Err(broken());
        }
        let text = Bounded::from_slice(bytes, 0)?;
        Ok(TypeUrl { text })
    }

    pub fn as_bytes(&self) -> &[u8]
        ensures { result.now ≡ list self.now.text }
    {
        let text = &self.text;
        text.as_slice()
    }

    pub fn is_empty(&self) -> bool
        ensures { result ≡ (length (list self.now.text) == 0) }
    {
        self.text.is_empty()
    }
}

// Yes exactly for equal type URLs. A derived one would need one of bounded lists, and that compared places not in use.
impl PartialEq for TypeUrl {
    ghost eq = { λ a b. bytes_eq (list a.text) (list b.text) };

    ghost laws = { partial_equiv_from_equiv (Prim.search (comparing, rules)) };

    fn eq(&self, other: &TypeUrl) -> bool
        ensures bytes { result ≡ bytes_eq (list self.now.text) (list other.now.text) }
        ensures same { Decides result (self.now ≡ other.now) }
    {
        self.as_bytes() == other.as_bytes()
    }
}

impl Eq for TypeUrl {
    ghost laws = { Prim.search (comparing, rules) };
}
