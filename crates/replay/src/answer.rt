// What a call answered, as the list writes it. Places are not written: tink-core has none.
use ciphers::fault::{Fault, Refusal};
use encoding::records::KeyId;
use rows::Row;
use std::fmt;

#[derive(Drop)]
pub enum Answer {
    Done,
    Id(KeyId),
    Count(usize),
    Words(Vec<u32>),
    Keyset(Vec<u8>),
    // A keyset whose encoding is not the one of the list. Its bytes are not handed out.
    OtherKeyset,
    Primitive(Vec<u8>),
    Key(Vec<u8>),
}

// An answer or a refusal, as it prints.
#[derive(Clone, Copy)]
pub struct Said<'a>(pub &'a Result<Answer, Fault>);

fn write_words<W: fmt::Write>(words: &[u32], f: &mut fmt::Formatter<W>) -> fmt::Result {
    f.write_str("words")?;
    for word in words {
        write!(f, " {word}")?;
    }
    Ok(())
}

// A key manager's reason follows its number.
fn write_fault<W: fmt::Write>(fault: &Fault, f: &mut fmt::Formatter<W>) -> fmt::Result {
    write!(f, "refused {} {}", fault.number(), fault.letter())?;
    if fault.refusal == Refusal::KeyManagerReason {
        write!(f, " {}", fault.reason)?;
    }
    Ok(())
}

impl fmt::Display for Answer {
    fn fmt<W: fmt::Write>(&self, f: &mut fmt::Formatter<W>) -> fmt::Result {
        match self {
            Answer::Done => f.write_str("ok"),
            Answer::Id(id) => write!(f, "ok {id}"),
            Answer::Count(count) => write!(f, "count {count}"),
            Answer::Words(words) => write_words(words, f),
            Answer::Keyset(row) => write!(f, "keyset {}", Row(row)),
            Answer::OtherKeyset => f.write_str("keyset another one"),
            Answer::Primitive(row) => write!(f, "primitive {}", Row(row)),
            Answer::Key(row) => write!(f, "key {}", Row(row)),
        }
    }
}

impl fmt::Display for Said<'_> {
    fn fmt<W: fmt::Write>(&self, f: &mut fmt::Formatter<W>) -> fmt::Result {
        match self.0 {
            Ok(answer) => write!(f, "{answer}"),
            Err(fault) => write_fault(fault, f),
        }
    }
}
