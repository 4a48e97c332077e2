// A line of the file: the call that it is for, and the rows of that call.
use anyhow::{Context, anyhow, bail, ensure};
use std::alloc::Global;
use std::str::SplitWhitespace;

#[derive(Drop)]
pub struct Vector<'a> {
    pub name: &'a str,
    pub call: Call,
}

#[derive(Drop)]
pub enum Call {
    Aes {
        key: [u8; 16],
        plaintext: Vec<u8>,
        ciphertext: Vec<u8>,
    },
    Ctr {
        key: [u8; 16],
        counter: [u8; 16],
        plaintext: Vec<u8>,
        ciphertext: Vec<u8>,
    },
    Cmac {
        key: [u8; 16],
        message: Vec<u8>,
        tag: [u8; 16],
    },
    Siv {
        key: [u8; 32],
        data: Vec<u8>,
        plaintext: Vec<u8>,
        output: Vec<u8>,
    },
}

// The rows of a line that are still to be read.
#[derive(Drop)]
struct Rows<'a> {
    heap: Global,
    words: SplitWhitespace<'a>,
}

impl Rows<'_> {
    fn row(&mut self) -> anyhow::Result<Vec<u8>> {
        let text = self.words.next().context("a line has too few rows")?;
        Ok(rows::read(self.heap, text)?)
    }

    // A row of N bytes.
    fn array<const N: usize>(&mut self) -> anyhow::Result<[u8; N]> {
        <[u8; N]>::try_from(self.row()?).map_err(|_| anyhow!(
            "a key, a counter or a tag has another length"
        ))
    }

    // A row of whole blocks.
    fn blocks(&mut self) -> anyhow::Result<Vec<u8>> {
        let row = self.row()?;
        ensure!(row.len() % 16 == 0, "a text is not of whole blocks");
        Ok(row)
    }

    fn call(&mut self, name: &str) -> anyhow::Result<Call> {
        let call = match name {
            "aes" => Call::Aes {
                key: self.array()?,
                plaintext: self.blocks()?,
                ciphertext: self.blocks()?,
            },
            "ctr" => Call::Ctr {
                key: self.array()?,
                counter: self.array()?,
                plaintext: self.row()?,
                ciphertext: self.row()?,
            },
            "cmac" => Call::Cmac {
                key: self.array()?,
                message: self.row()?,
                tag: self.array()?,
            },
            "siv" => Call::Siv {
                key: self.array()?,
                data: self.row()?,
                plaintext: self.row()?,
                output: self.row()?,
            },
            _ => bail!("a line names no call that is known"),
        };
        Ok(call)
    }
}

impl Vector<'_> {
    pub fn parse(heap: Global, line: &str) -> anyhow::Result<Vector<'_>> {
        let (name, rest) = line.split_once(" = ").context("a line has no ` = `")?;
        let mut words = rest.split_whitespace();
        let call = words.next().unwrap_or("");
        let mut rows = Rows { heap, words };
        let call = rows.call(call)?;
        ensure!(rows.words.next().is_none(), "a line has too many rows");
        Ok(Vector { name, call })
    }
}
