// Splitting bytes into fields.
ghost use Rattle.std.specs.Option.{MatchOption};
ghost use Rattle.encoding.specs.Scanning.{NoField, IsField};

use crate::content::Content;
use crate::varint::take_varint;

// A field at the front of some bytes: its number, what it holds, and how many bytes it takes.
#[derive(Clone, Copy)]
pub(crate) struct Piece<'a> {
    pub(crate) number: u64,
    pub(crate) content: Content<'a>,
    pub(crate) size: usize,
}

pub(crate) fn scan(bytes: &[u8]) -> Option<Piece<'_>>
    ensures { MatchOption result (NoField bytes.now) (λ p. IsField bytes.now p) }
{
    let (key, k) = take_varint(bytes)?;
    let (value, n) = take_varint(&bytes[k..])?;
    let number = key / 8;
    let head = k + n;
    match key % 8 {
        0 => Some(Piece {
            number,
            content: Content::Number(value),
            size: head,
        }),
        2 => {
            let payload = bytes[head..].get(..value as usize)?;
            Some(Piece {
                number,
                content: Content::Bytes(payload),
                size: head + payload.len(),
            })
        }
        _ => None,
    }
}
