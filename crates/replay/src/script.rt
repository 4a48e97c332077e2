// A line of the script: the call that it names, and what the call is given. Byte rows and a tape stay as they are written.
use anyhow::{Context, bail, ensure};
use encoding::records::KeyId;
use keysets::manager::Edit;
use std::str::SplitWhitespace;

// What a template or a key is made of. A key has no prefix type; a template's is any number, as the record's is.
#[derive(Clone, Copy)]
pub struct Asked<'a> {
    pub type_url: &'a [u8],
    pub prefix: Option<i32>,
    pub value: &'a str,
}

// The calls that make a key of a template, with words from the tape.
#[derive(Clone, Copy)]
pub enum Making {
    Add { primary: bool },
    Rotate,
    New,
    NewKey,
}

#[derive(Clone, Copy)]
pub enum Command<'a> {
    Register(&'a [u8]),
    Tape(&'a str),
    Words,
    Make(Making, Asked<'a>),
    Primitive(Asked<'a>),
    Load(&'a str),
    Edit(Edit, KeyId),
    Keyset,
    Count,
    Validate,
    Version { version: u32, highest: u32 },
    // A call that is not carried out, and whether the keyset stays as it was.
    Other { harmless: bool },
}

// The words of a line that are still to be read.
#[derive(Drop)]
struct Words<'a>(SplitWhitespace<'a>);

impl<'a> Words<'a> {
    fn word(&mut self) -> anyhow::Result<&'a str> {
        self.0.next().context("the command has too few words")
    }

    fn number(&mut self) -> anyhow::Result<u32> {
        Ok(self.word()?.parse::<u32>()?)
    }

    // A `-` is the empty one.
    fn type_url(&mut self) -> anyhow::Result<&'a [u8]> {
        match self.word()? {
            "-" => Ok(b""),
            text => Ok(text.as_bytes()),
        }
    }

    // A type URL, a prefix type and a value.
    fn template(&mut self) -> anyhow::Result<Asked<'a>> {
        Ok(Asked {
            type_url: self.type_url()?,
            prefix: Some(self.word()?.parse::<i32>()?),
            value: self.word()?,
        })
    }

    // A type URL and a value.
    fn key(&mut self) -> anyhow::Result<Asked<'a>> {
        Ok(Asked {
            type_url: self.type_url()?,
            prefix: None,
            value: self.word()?,
        })
    }

    fn is_primary(&mut self) -> anyhow::Result<bool> {
        match self.0.next() {
            None => Ok(false),
            Some("primary") => Ok(true),
            Some(_) => bail!("the word after a template is not `primary`"),
        }
    }

    fn add(&mut self) -> anyhow::Result<Command<'a>> {
        let asked = self.template()?;
        let primary = self.is_primary()?;
        Ok(Command::Make(Making::Add { primary }, asked))
    }

    fn version(&mut self) -> anyhow::Result<Command<'a>> {
        Ok(Command::Version {
            version: self.number()?,
            highest: self.number()?,
        })
    }

    fn edit(&mut self, edit: Edit) -> anyhow::Result<Command<'a>> {
        Ok(Command::Edit(edit, self.number()?))
    }

    fn command(&mut self, name: &str) -> anyhow::Result<Command<'a>> {
        match name {
            "register" => Ok(Command::Register(self.type_url()?)),
            "words" => Ok(Command::Words),
            "add" => self.add(),
            "rotate" => Ok(Command::Make(Making::Rotate, self.template()?)),
            "new" => Ok(Command::Make(Making::New, self.template()?)),
            "newkey" => Ok(Command::Make(Making::NewKey, self.key()?)),
            "key" => Ok(Command::Primitive(self.key()?)),
            "load" => Ok(Command::Load(self.word()?)),
            "enable" => self.edit(Edit::Enable),
            "disable" => self.edit(Edit::Disable),
            "destroy" => self.edit(Edit::Destroy),
            "delete" => self.edit(Edit::Delete),
            "primary" => self.edit(Edit::SetPrimary),
            "keyset" => Ok(Command::Keyset),
            "count" => Ok(Command::Count),
            "validate" => Ok(Command::Validate),
            "version" => self.version(),
            "build" | "info" | "seal" | "store" | "reduced" => {
                Ok(Command::Other { harmless: true })
            }
            _ => Ok(Command::Other { harmless: false }),
        }
    }
}

// The name of a command, and the rest of its line.
pub fn split(line: &str) -> (&str, &str) {
    line.split_once(' ').unwrap_or((line, ""))
}

impl<'a> Command<'a> {
    pub fn parse(line: &'a str) -> anyhow::Result<Command<'a>> {
        let (name, rest) = split(line);
        if name == "tape" {
            return Ok(Command::Tape(rest));
        }
        let mut words = Words(rest.split_whitespace());
        let command = words.command(name)?;
        if !matches!(command, Command::Other { .. }) {
            ensure!(words.0.next().is_none(), "the command has too many words");
        }
        Ok(command)
    }
}
