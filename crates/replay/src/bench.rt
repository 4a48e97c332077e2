// The state of a case, as the library keeps it, and how a command is carried out.
use crate::answer::Answer;
use crate::kind::Kind;
use crate::script::{Asked, Command, Making};
use crate::stop::Stop;
use ciphers::draws::{Draws, Tape};
use ciphers::fault::Fault;
use encoding::message::read;
use encoding::records::{KeyId, KeyTemplate, Keyset};
use keysets::manager::{Edit, Manager};
use keysets::registry::{Place, Registry};
use keysets::validation::validate_key_version;
use std::alloc::{AllocError, Global};
use std::{iter, mem};

// The words are those left on the tape, the first one first.
#[derive(Drop)]
pub struct Bench<'a, M> {
    heap: Global,
    manager: Manager,
    words: Vec<u32>,
    registry: Registry<'a, M>,
}

// The words left on a tape that had at most so many.
fn words_left(heap: Global, tape: &mut Tape, most: usize) -> Result<Vec<u32>, AllocError> {
    iter::from_fn(|| tape.draw().ok()).take(most).collect(heap)
}

fn numbers(heap: Global, text: &str) -> anyhow::Result<Vec<u32>> {
    text.split_whitespace()
        .map(|word| -> anyhow::Result<u32> { Ok(word.parse::<u32>()?) })
        .try_collect(heap)
}

impl<'a, M: Kind> Bench<'a, M> {
    pub fn new(heap: Global, bank: &'a mut [Place<M>]) -> Bench<'a, M> {
        Bench {
            heap,
            manager: Manager::new(),
            words: Vec::new(heap),
            registry: Registry::new(bank),
        }
    }

    fn register(&mut self, type_url: &[u8]) -> Result<(), Stop> {
        if !M::manager().does_support(type_url) {
            return Err(Stop::Lost);
        }
        Ok(self.registry.register_key_manager(0)?)
    }

    // A keyset of one new key, in place of the one there was.
    fn start_over(&mut self, kt: &KeyTemplate, tape: &mut Tape) -> Result<(), Fault> {
        let mut fresh = Manager::new();
        fresh.rotate(&self.registry, kt, tape)?;
        self.manager = fresh;
        Ok(())
    }

    fn made(&mut self, making: Making, kt: &KeyTemplate, tape: &mut Tape) -> Result<Answer, Stop> {
        match making {
            Making::Add { primary } => {
                let id = self.manager.add(&self.registry, kt, primary, tape)?;
                Ok(Answer::Id(id))
            }
            Making::Rotate => Ok(Answer::Id(self.manager.rotate(&self.registry, kt, tape)?)),
            Making::New => {
                self.start_over(kt, tape)?;
                Ok(Answer::Done)
            }
            Making::NewKey => {
                let key = self.registry.new_key(kt, tape)?;
                Ok(Answer::Key(key.as_slice().to_vec(self.heap)?))
            }
        }
    }

    // A template outside the limits cannot be made, and the call is left out.
    fn make(&mut self, making: Making, asked: Asked) -> Result<Answer, Stop> {
        let value = rows::read(self.heap, asked.value)?;
        let kt = KeyTemplate::new(asked.type_url, &value, asked.prefix.unwrap_or(0)).map_err(
            |_| Stop::LeftOut,
        )?;
        let words = mem::replace(&mut self.words, Vec::new(self.heap));
        let mut tape = Tape::new(&words);
        let answer = self.made(making, &kt, &mut tape);
        self.words = words_left(self.heap, &mut tape, words.len())?;
        answer
    }

    fn primitive(&self, asked: Asked) -> Result<Answer, Stop> {
        let value = rows::read(self.heap, asked.value)?;
        let primitive = self.registry.primitive(asked.type_url, &value)?;
        Ok(Answer::Primitive(M::row(self.heap, primitive)?))
    }

    // The keyset of the bytes, in place of the one there was.
    fn load(&mut self, row: &str) -> Result<(), Stop> {
        let bytes = rows::read(self.heap, row)?;
        let ks = read::<Keyset>(&bytes)?;
        self.manager = Manager::from_keyset(&ks)?;
        Ok(())
    }

    fn edit(&mut self, edit: Edit, id: KeyId) -> Result<(), Fault> {
        match edit {
            Edit::Enable => self.manager.enable(id),
            Edit::Disable => self.manager.disable(id),
            Edit::Destroy => self.manager.destroy(id),
            Edit::Delete => self.manager.delete(id),
            Edit::SetPrimary => self.manager.set_primary(id),
        }
    }

    // Whether the keyset is the one of the list's answer.
    fn keyset(&self, theirs: &str) -> Result<Answer, Stop> {
        let Some(text) = theirs.strip_prefix("keyset ") else {
            return Ok(Answer::OtherKeyset);
        };
        let bytes = rows::read(self.heap, text)?;
        if !self.manager.has_encoding(&bytes) {
            return Ok(Answer::OtherKeyset);
        }
        Ok(Answer::Keyset(bytes))
    }

    // Carries a command out. The list's answer tells which keyset to compare with, and whether another call took effect.
    pub fn run(&mut self, command: Command, theirs: &str) -> Result<Answer, Stop> {
        match command {
            Command::Register(type_url) => self.register(type_url)?,
            Command::Tape(text) => self.words = numbers(self.heap, text)?,
            Command::Words => return Ok(Answer::Words(self.words.clone()?)),
            Command::Make(making, asked) => return self.make(making, asked),
            Command::Primitive(asked) => return self.primitive(asked),
            Command::Load(row) => self.load(row)?,
            Command::Edit(edit, id) => self.edit(edit, id)?,
            Command::Keyset => return self.keyset(theirs),
            Command::Count => return Ok(Answer::Count(self.manager.key_count())),
            Command::Validate => self.manager.validate()?,
            Command::Version { version, highest } => validate_key_version(version, highest)?,
            Command::Other { harmless } if harmless || !theirs.starts_with("ok") => {
                return Err(Stop::LeftOut);
            }
            Command::Other { harmless: _ } => return Err(Stop::Lost),
        }
        Ok(Answer::Done)
    }
}
