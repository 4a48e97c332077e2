// What other crates may read of a keyset, key by key: never the key bytes.
ghost use Rattle.std.specs.Prelude.{◌≡◌};
ghost use Rattle.std.specs.Option.{option_map};
ghost use Rattle.encoding.specs.Lists.{item};
ghost use Rattle.std.specs.Str.{bytes_eq};
ghost use Rattle.encoding.specs.Meanings.{keyset_fields};
ghost use Rattle.encoding.specs.Wire.{encode};
ghost use Rattle.encoding.specs.Views.{key_view};
ghost use Rattle.keysets.specs.Validation.{valid};
ghost use Rattle.keysets.specs.Reading.{id_at, status_at, prefix_at};

use crate::manager::Manager;
use crate::validation::validate;
use ciphers::fault::Fault;
use encoding::message::{Message, write};
use encoding::records::{Key, KeyId, Keyset};

impl Manager {
    pub fn primary_key_id(&self) -> KeyId
        ensures { result ≡ self.now.primary_key_id }
    {
        self.ks.primary_key_id
    }

    pub fn key_id_at(&self, at: usize) -> Option<KeyId>
        ensures { result ≡ id_at at self.now }
    {
        let key = self.key_at(at)?;
        Some(key.key_id)
    }

    pub fn status_at(&self, at: usize) -> Option<i32>
        ensures { result ≡ status_at at self.now }
    {
        let key = self.key_at(at)?;
        Some(key.status)
    }

    pub fn prefix_type_at(&self, at: usize) -> Option<i32>
        ensures { result ≡ prefix_at at self.now }
    {
        let key = self.key_at(at)?;
        Some(key.output_prefix_type)
    }

    // Whether these are the keyset's bytes: the key bytes themselves are not handed out.
    pub fn has_encoding(&self, bytes: &[u8]) -> bool
        ensures { result ≡ bytes_eq (encode (keyset_fields self.now)) bytes.now }
    {
        let mut out = [0u8; Keyset::LARGEST];
        // Under `is_ok_and` the check knows what the closure may read, but not what it answers.
        match write(&self.ks, &mut out) {
            Ok(len) => &out[..len] == bytes,
            Err(_) => false,
        }
    }

    // Whether the keyset is a valid one.
    pub fn validate(&self) -> Result<(), Fault>
        ensures { result ≡ valid self.now }
    {
        validate(&self.ks)
    }

    pub(super) fn key_at(&self, at: usize) -> Option<Key>
        ensures { option_map key_view result ≡ item self.now.keys at }
    {
        self.ks.key.get(at)
    }
}
