// An output that is written from its front: what fits is written, and `at` goes on to where the whole would end. There is no
// heap, so it is lent, and its length may be too short.
ghost use Rattle.std.specs.Prelude.{◌≡◌, ◌+◌, ◌*◌, ◌<◌, [], ◌∷◌, ◌++◌};

use crate::message::Message;

#[derive(Drop)]
pub struct Output<'a> {
    pub out: &'a mut [u8],
    pub at: usize,
}

impl Output<'_> {
    ghost use Rattle.encoding.specs.Wire.{base128, varint, bytes, encode_field, encode};
    ghost use Rattle.encoding.specs.Members.{unsigned, text};
    ghost use Rattle.encoding.specs.Scanning.{cap};
    ghost use Rattle.encoding.specs.Laying.{Laid};

    fn byte(&mut self, byte: u8)
        ensures { Laid (byte ∷ []) self.old self.new }
    {
        if self.at < self.out.len() {
            self.out[self.at] = byte;
        }
        self.at = self.at.saturating_add(1);
    }

    fn bytes(&mut self, from: &[u8])
        ensures { Laid from.now self.old self.new }
    {
        if self.at < self.out.len() {
            let n = from.len().min(self.out.len() - self.at);
            let end = self.at + n;
            self.out[self.at..end].copy_from_slice(&from[..n]);
        }
        self.at = self.at.saturating_add(from.len());
    }

    // A number of at most `left` bytes before the last.
    fn digits(&mut self, value: u64, left: u8)
        requires small { value < cap left }
        ensures { Laid (base128 left value) self.old self.new }
    {
        if left == 0 || value < 128 {
            self.byte(value as u8);
            return;
        }
        let low = value % 128 + 128;
        self.byte(low as u8);
        self.digits(value / 128, left - 1);
    }

    fn varint(&mut self, value: u64)
        ensures { Laid (varint value) self.old self.new }
    {
        // Most are one byte, and most lengths one or two.
        if value < 128 {
            self.byte(value as u8);
            return;
        }
        if value < 16384 {
            self.byte((value % 128 + 128) as u8);
            self.byte((value / 128) as u8);
            return;
        }
        self.digits(value, 9);
    }

    pub(crate) fn unsigned(&mut self, field: u64, value: u64)
        requires { field < 16 }
        ensures { Laid (encode (unsigned field value)) self.old self.new }
    {
        if value == 0 {
            return;
        }
        self.varint(8 * field);
        self.varint(value);
    }

    // The key and the length of a field with bytes in it.
    fn head(&mut self, field: u64, len: usize)
        requires { field < 16 }
        ensures { Laid (varint (8 * field + 2) ++ varint len) self.old self.new }
    {
        self.varint(8 * field + 2);
        self.varint(len as u64);
    }

    pub(crate) fn text(&mut self, field: u64, from: &[u8])
        requires { field < 16 }
        ensures { Laid (encode (text field from.now)) self.old self.new }
    {
        if from.is_empty() {
            return;
        }
        self.head(field, from.len());
        self.bytes(from);
    }

    pub(crate) fn record<R: Message>(&mut self, field: u64, inner: &R)
        requires { field < 16 }
        ensures { Laid (encode_field (bytes field (encode (R.fields inner.now)))) self.old self.new }
    {
        self.head(field, inner.size());
        inner.put(self);
    }
}
