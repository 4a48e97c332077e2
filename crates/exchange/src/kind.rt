// The kinds of records, and what the library makes of one.
use ciphers::fault::Fault;
use encoding::message::{Message, read, write};
use encoding::records::{EncryptedKeyset, Key, KeyData, KeyInfo, KeyTemplate, Keyset, KeysetInfo};
use std::fmt;
use std::str::FromStr;

#[derive(Clone, Copy, PartialEq, Eq, PartialOrd, Ord)]
pub enum Kind {
    KeyData,
    KeyTemplate,
    Key,
    Keyset,
    KeyInfo,
    KeysetInfo,
    EncryptedKeyset,
}

// What the library answered to a record that it read: its bytes again, or others.
#[derive(Clone, Copy)]
pub enum Written {
    Same,
    Other,
}

#[derive(Clone, Copy)]
pub struct Answer(pub Result<Written, Fault>);

// No kind has that name.
#[derive(Drop)]
pub struct NoKind;

impl Kind {
    pub const ALL: [Kind; 7] = [
        Kind::KeyData,
        Kind::KeyTemplate,
        Kind::Key,
        Kind::Keyset,
        Kind::KeyInfo,
        Kind::KeysetInfo,
        Kind::EncryptedKeyset,
    ];

    fn name(self) -> &'static str {
        match self {
            Kind::KeyData => "KeyData",
            Kind::KeyTemplate => "KeyTemplate",
            Kind::Key => "Key",
            Kind::Keyset => "Keyset",
            Kind::KeyInfo => "KeyInfo",
            Kind::KeysetInfo => "KeysetInfo",
            Kind::EncryptedKeyset => "EncryptedKeyset",
        }
    }

    // The most bytes that a record takes.
    pub fn largest(self) -> usize {
        match self {
            Kind::KeyData => <KeyData as Message>::LARGEST,
            Kind::KeyTemplate => <KeyTemplate as Message>::LARGEST,
            Kind::Key => <Key as Message>::LARGEST,
            Kind::Keyset => <Keyset as Message>::LARGEST,
            Kind::KeyInfo => <KeyInfo as Message>::LARGEST,
            Kind::KeysetInfo => <KeysetInfo as Message>::LARGEST,
            Kind::EncryptedKeyset => <EncryptedKeyset as Message>::LARGEST,
        }
    }

    // What the library answers to the bytes of a record.
    pub fn answer(self, bytes: &[u8], out: &mut [u8]) -> Answer {
        Answer(match self {
            Kind::KeyData => again::<KeyData>(bytes, out),
            Kind::KeyTemplate => again::<KeyTemplate>(bytes, out),
            Kind::Key => again::<Key>(bytes, out),
            Kind::Keyset => again::<Keyset>(bytes, out),
            Kind::KeyInfo => again::<KeyInfo>(bytes, out),
            Kind::KeysetInfo => again::<KeysetInfo>(bytes, out),
            Kind::EncryptedKeyset => again::<EncryptedKeyset>(bytes, out),
        })
    }
}

// Reads a record and writes it again.
fn again<R: Message>(bytes: &[u8], out: &mut [u8]) -> Result<Written, Fault> {
    let made = read::<R>(bytes)?;
    let n = write(&made, out)?;
    if out.get(..n) == Some(bytes) {
        Ok(Written::Same)
    } else {
        Ok(Written::Other)
    }
}

impl FromStr for Kind {
    type Err = NoKind;

    fn from_str(name: &str) -> Result<Kind, NoKind> {
        Kind::ALL
            .into_iter()
            .find(|kind| kind.name() == name)
            .ok_or(NoKind)
    }
}

impl fmt::Display for Kind {
    fn fmt<W: fmt::Write>(&self, f: &mut fmt::Formatter<W>) -> fmt::Result {
        f.write_str(self.name())
    }
}

impl fmt::Display for Answer {
    fn fmt<W: fmt::Write>(&self, f: &mut fmt::Formatter<W>) -> fmt::Result {
        match self.0 {
            Ok(Written::Same) => f.write_str("ok"),
            Ok(Written::Other) => f.write_str("other bytes"),
            Err(fault) => {
                let number = fault.number();
                let letter = fault.letter();
                let place = fault.place;
                write!(f, "{number} {letter} {place}")
            }
        }
    }
}
