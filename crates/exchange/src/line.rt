// A line of the list, and what comes of it.
use crate::kind::Kind;
use std::alloc::{AllocError, Global};

#[derive(Drop)]
pub struct Line<'a> {
    kind: Kind,
    bytes: Vec<u8>,
    wanted: &'a str,
}

#[derive(Drop)]
pub struct Verdict {
    pub kind: Kind,
    // The length of what was accepted.
    pub accepted: Option<usize>,
    // What the library said, where the list says something else.
    pub other: Option<String>,
}

// What a digit stands for.
fn digit(c: u8) -> Option<u8> {
    match c {
        b'0'..=b'9' => Some(c - b'0'),
        b'a'..=b'f' => Some(c - b'a' + 10),
        _ => None,
    }
}

// The bytes of a word of digits. What is no digit is passed over, and so is a last digit without a second. They are made as the
// word is read, with no copy of the digits beside them.
fn bytes_of(heap: Global, word: &str) -> Result<Vec<u8>, AllocError> {
    let mut bytes = Vec::new(heap);
    let mut high: Option<u8> = None;
    for d in word.bytes().filter_map(digit) {
        match high.take() {
            None => high = Some(d),
            Some(h) => bytes.push(h << 4 | d)?,
        }
    }
    Ok(bytes)
}

impl<'a> Line<'a> {
    // None where the text is no line of a list.
    pub fn parse(heap: Global, text: &'a str) -> anyhow::Result<Option<Line<'a>>> {
        let mut words = text.splitn(3, ' ');
        let (Some(name), Some(word), Some(wanted)) = (words.next(), words.next(), words.next())
        else {
            return Ok(None);
        };
        let Ok(kind) = name.parse::<Kind>() else {
            return Ok(None);
        };
        let bytes = bytes_of(heap, word)?;
        Ok(Some(Line {
            kind,
            bytes,
            wanted,
        }))
    }

    pub fn judge(&self, heap: Global, out: &mut [u8]) -> Result<Verdict, AllocError> {
        let answer = self.kind.answer(&self.bytes, out);
        let said = format!(in heap; "{answer}")?;
        let other = if said.as_str() == self.wanted {
            None
        } else {
            Some(said)
        };
        Ok(Verdict {
            kind: self.kind,
            accepted: answer.0.is_ok().then_some(self.bytes.len()),
            other,
        })
    }
}
