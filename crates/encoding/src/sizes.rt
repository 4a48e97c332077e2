// How many bytes a field takes, by arithmetic alone; or the largest number there is.
ghost use Rattle.std.specs.Prelude.{◌≡◌, ℕ, ◌+◌, ◌-◌, ◌^◌, ◌<◌, min, List, length};
ghost use Rattle.encoding.specs.Wire.{bytes, encode_field, encode};
ghost use Rattle.encoding.specs.Members.{unsigned, text};
ghost use Rattle.encoding.specs.Laying.{Counted};

use crate::message::Message;
use crate::varint::varint_len;

pub(crate) fn unsigned_len(value: u64) -> usize
    ensures { (k : ℕ) → k < 16 → Counted (encode (unsigned k value)) result }
{
    if value == 0 {
        return 0;
    }
    varint_len(value) + 1
}

// A field with so many bytes in it. Most lengths take one byte, and then no sum has to stop.
fn field_len(len: usize) -> usize
    ensures { (k : ℕ) (b : List ℕ) → k < 16 → len ≡ length b → Counted (encode_field (bytes k b)) result }
{
    if len < 0x80 {
        return len + 2;
    }
    len.saturating_add(varint_len(len as u64) + 1)
}

pub(crate) fn text_len(len: usize) -> usize
    ensures { (k : ℕ) (b : List ℕ) → k < 16 → len ≡ length b → Counted (encode (text k b)) result }
{
    if len == 0 {
        return 0;
    }
    field_len(len)
}

pub(crate) fn record_len<R: Message>(inner: &R) -> usize
    ensures { (k : ℕ) → k < 16 → Counted (encode_field (bytes k (encode (R.fields inner.now)))) result }
{
    field_len(inner.size())
}
