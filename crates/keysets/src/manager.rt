// A keyset and what may be done to it. Key bytes do not leave the manager.
ghost use Rattle.std.specs.Prelude.{◌≡◌, length};
ghost use Rattle.encoding.specs.Views.{keyset_view};
ghost use Rattle.keysets.specs.Answering.{giving};
ghost use Rattle.keysets.specs.Checks.{checked};
ghost use Rattle.keysets.specs.Edits.{empty_keyset};

use crate::check::check;
use ciphers::fault::Fault;
use encoding::records::Keyset;
use std::marker::Model;

mod adds;
mod edits;
mod makes;
mod reads;

#[derive(Drop)]
pub struct Manager {
    ks: Keyset,
}

// A manager is seen as what its keyset means.
impl Model for Manager {
    ghost use Rattle.encoding.specs.Meanings.{KeysetMeaning};
    ghost use Rattle.encoding.specs.Views.{keyset_view};

    ghost Value = { KeysetMeaning };

    ghost view = { λ m. keyset_view m.ks };
}

// The edits, each of the first key with an id.
#[derive(Clone, Copy, PartialEq, Eq, Debug)]
pub enum Edit {
    Enable,
    Disable,
    Destroy,
    Delete,
    SetPrimary,
}

impl Manager {
    // A manager of the keyset with no key.
    pub fn new() -> Manager
        ensures { result ≡ empty_keyset }
    {
        Manager { ks: Keyset::new() }
    }

    // A manager of a keyset that passes the check, as one of another make that was decoded.
    pub fn from_keyset(ks: &Keyset) -> Result<Manager, Fault>
        ensures { result ≡ giving (keyset_view ks.now) (checked (keyset_view ks.now)) }
    {
        check(ks)?;
        Ok(Manager { ks: *ks })
    }

    pub fn key_count(&self) -> usize
        ensures { result ≡ length self.now.keys }
    {
        self.ks.key.len()
    }
}
