// A member of a record: what it is written as, and how one more field fills it.
ghost use Rattle.std.specs.Prelude.{ℕ, ◌^◌, ◌<◌, ℤ, MatchOption, FitsSigned, ◌≢◌, ◌≡◌, List, IfErr, is_ok, ⊤};
ghost use Rattle.std.specs.Int.Signed.{mag};
ghost use Rattle.std.proofs.Common.{of_z};
ghost use Rattle.std.specs.Int.{w32, w64};
ghost use Rattle.encoding.specs.Wire.{Field, encode};
ghost use Rattle.encoding.specs.Laying.{Counted, Laid};
ghost use Rattle.encoding.specs.Scanning.{field_of};
ghost use Rattle.encoding.specs.Members.{unsigned, signed, text, present, each};
ghost use Rattle.encoding.specs.Lists.{list};
ghost use Rattle.encoding.specs.Messages.{Broken, Filled};

use crate::bounded::Bounded;
use crate::content::{Content, broken};
use crate::message::{Message, read};
use crate::output::Output;
use crate::sizes::{record_len, text_len, unsigned_len};
use crate::url::TypeUrl;
use ciphers::fault::Fault;

pub(crate) trait Member {
    // The fields that it is written as, with its number.
    ghost part: { ℕ → Self → List Field };

    // The values that it can have.
    ghost Fits: { Self → Type 0 } = { λ _. ⊤ };

    // How many bytes it takes, or the largest number there is.
    fn size(&self) -> usize
        ensures { (k : ℕ) → k < 16 → Counted (encode (part k self.now)) result };

    // Lays it over the output, as far as it reaches. A field's number has no type of its own: each call would make one and
    // each contract take it apart.
    fn put(&self, field: u64, out: &mut Output<'_>)
        requires { field < 16 }
        ensures { Laid (encode (part field self.now)) out.old out.new };

    // Takes one more field, where it was absent and the value is within its limits.
    fn fill(&mut self, content: Content<'_>) -> Result<(), Fault>
        ensures fits { Fits self.old → Fits self.new }
        ensures step { (k : ℕ) → Filled (part k) Fits (is_ok result) self.old self.new (field_of k content.entry) }
        ensures fault { IfErr result Broken };
}

impl Member for u32 {
    ghost part = { unsigned };

    ghost Fits = { λ v. v < 2 ^ 32 };

    fn size(&self) -> usize {
        unsigned_len(*self as u64)
    }

    fn put(&self, field: u64, out: &mut Output<'_>) {
        out.unsigned(field, *self as u64);
    }

    fn fill(&mut self, content: Content<'_>) -> Result<(), Fault> {
        match content {
            Content::Number(value @ 1..=0xffff_ffff) if *self == 0 => {
                *self = value as u32;
                Ok(())
            }
            _ => Err(broken()),
        }
    }
}

// The 64 bits of a signed number.
fn wide(x: i32) -> u64
    ensures { result ≡ of_z w64 x }
{
    i64::from(x).cast_unsigned()
}

// The signed number whose 64 bits are `v`, if it has 32.
fn narrow(v: u64) -> Option<i32>
    ensures { MatchOption result ((z : ℤ) → FitsSigned w32 z → of_z w64 z ≢ v) (λ z. of_z w64 z ≡ v) }
{
    i32::try_from(v.cast_signed()).ok()
}

impl Member for i32 {
    ghost part = { signed };

    ghost Fits = { λ v. FitsSigned w32 v };

    fn size(&self) -> usize {
        unsigned_len(wide(*self))
    }

    fn put(&self, field: u64, out: &mut Output<'_>) {
        out.unsigned(field, wide(*self));
    }

    fn fill(&mut self, content: Content<'_>) -> Result<(), Fault> {
        let value = content.number()?;
        if *self != 0 || value == 0 {
            return Err(broken());
        }
        *self = narrow(value).ok_or_else(broken)?;
        Ok(())
    }
}

impl<const N: usize> Member for Bounded<u8, N> {
    ghost part = { λ k b. text k (list b) };

    fn size(&self) -> usize {
        text_len(self.len())
    }

    fn put(&self, field: u64, out: &mut Output<'_>) {
        out.text(field, self.as_slice());
    }

    fn fill(&mut self, content: Content<'_>) -> Result<(), Fault> {
        let payload = content.first_text(self.is_empty())?;
        *self = Bounded::from_slice(payload, 0)?;
        Ok(())
    }
}

impl Member for TypeUrl {
    ghost part = { λ k u. text k (list u.text) };

    fn size(&self) -> usize {
        text_len(self.as_bytes().len())
    }

    fn put(&self, field: u64, out: &mut Output<'_>) {
        out.text(field, self.as_bytes());
    }

    fn fill(&mut self, content: Content<'_>) -> Result<(), Fault> {
        let payload = content.first_text(self.is_empty())?;
        *self = TypeUrl::new(payload)?;
        Ok(())
    }
}

// A record inside another has its own reader, and is refused where that refuses.
impl<R: Message> Member for Option<R> {
    ghost part = { λ k o. present R.fields k o };

    fn size(&self) -> usize {
        match self {
            None => 0,
            Some(inner) => record_len(inner),
        }
    }

    fn put(&self, field: u64, out: &mut Output<'_>) {
        if let Some(inner) = self {
            out.record(field, inner);
        }
    }

    fn fill(&mut self, content: Content<'_>) -> Result<(), Fault> {
        let payload = content.bytes()?;
        if self.is_some() {
            return Err(broken());
        }
        *self = Some(read(payload)?);
        Ok(())
    }
}

impl<R: Message, const N: usize> Member for Bounded<R, N> {
    ghost part = { λ k b. each R.fields k (list b) };

    fn size(&self) -> usize {
        let mut total = 0usize;
        for one in self.as_slice() {
            total = total.saturating_add(record_len(one));
        }
        total
    }

    fn put(&self, field: u64, out: &mut Output<'_>) {
        for item in self.as_slice() {
            out.record(field, item);
        }
    }

    fn fill(&mut self, content: Content<'_>) -> Result<(), Fault> {
        self.push(read(content.bytes()?)?)
    }
}
