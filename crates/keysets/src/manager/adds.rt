// New keys: the registry makes the data, an id is drawn from the same source, and the key goes to the end.
ghost use Rattle.std.specs.Prelude.{◌≡◌, ◌<◌, true, length};
ghost use Rattle.encoding.specs.Views.{key_view, key_template_view};
ghost use Rattle.keysets.specs.Claims.{DistinctIds};
ghost use Rattle.keysets.specs.Managers.{answered};
ghost use Rattle.keysets.specs.Registries.{managers};
ghost use Rattle.keysets.specs.Running.{NewKeyUsable};
ghost use Rattle.keysets.specs.Adding.{is_present, drawn_id, id_answer, words_after_id, made_key, words_made, with_key, Adds};

use crate::manager::Manager;
use crate::registry::Registry;
use crate::registry::key_manager::KeyManager;
use ciphers::draws::Draws;
use ciphers::fault::{Fault, Layer, Refusal};
use encoding::numbers::{KeyStatusType, OutputPrefixType};
use encoding::records::{Key, KeyId, KeyTemplate};

impl Manager {
    // Whether a key has an id.
    fn is_present(&self, id: KeyId) -> bool
        ensures { result ≡ is_present id self.now.keys }
    {
        self.find(id).is_ok()
    }

    // The first word drawn that is the id of no key, and how many words that took: the count is asked for by the project's
    // rules, and counts no index.
    fn new_key_id<D: Draws>(&self, words: &mut D) -> Result<(KeyId, u64), Fault>
        ensures id { result ≡ id_answer (drawn_id self.now.keys (D.left words.old)) }
        ensures words { D.left words.new ≡ words_after_id (drawn_id self.now.keys (D.left words.old)) (D.left words.old) }
    {
        let mut taken = 0u64;
        loop {
            let word = words.draw()?;
            taken = taken.saturating_add(1);
            if !self.is_present(word) {
                return Ok((word, taken));
            }
        }
    }

    // The key of a template: its data, then its id, then its prefix type is tested. The words are gone then.
    fn make_key<M: KeyManager, D: Draws>(
        &self,
        registry: &Registry<M>,
        kt: &KeyTemplate,
        words: &mut D,
    ) -> Result<Key, Fault>
        ensures key { answered key_view result ≡ made_key (managers M.maker M.keys registry.now) (key_template_view kt.now) self.now.keys (D.left words.old) }
        ensures words { D.left words.new ≡ words_made (managers M.maker M.keys registry.now) (key_template_view kt.now) self.now.keys (D.left words.old) }
    {
        let key_data = registry.new_key_data(kt, words)?;
        let (key_id, _taken) = self.new_key_id(words)?;
        if OutputPrefixType::try_from(kt.output_prefix_type).is_err() {
            return Err(Fault::new(Refusal::UnknownPrefixType, Layer::Manager));
        }
        Ok(Key {
            key_data: Some(key_data),
            status: KeyStatusType::Enabled.into(),
            key_id,
            output_prefix_type: kt.output_prefix_type,
        })
    }

    // The key goes to the end.
    fn append(&mut self, key: Key, as_primary: bool)
        requires { length self.old.keys < 16 }
        ensures { self.new ≡ with_key as_primary (key_view key) self.old }
    {
        let _ = self.ks.key.push(key);
        if as_primary {
            self.ks.primary_key_id = key.key_id;
        }
    }

    // A new key by a template, and perhaps the primary one: tink-core's `add` has the same parameter. A keyset of 16 keys
    // refuses before anything else. Ids that differ keep differing, and the new key has a primitive: `primitive_at` at its
    // position does not refuse.
    pub fn add<M: KeyManager, D: Draws>(
        &mut self,
        registry: &Registry<M>,
        kt: &KeyTemplate,
        as_primary: bool,
        words: &mut D,
    ) -> Result<KeyId, Fault>
        ensures adds { Adds (managers M.maker M.keys registry.now) (key_template_view kt.now) as_primary self.old self.new (D.left words.old) (D.left words.new) result }
        ensures distinct { DistinctIds self.old.keys → DistinctIds self.new.keys }
        ensures usable { NewKeyUsable (managers M.maker M.keys registry.now) (length self.old.keys) self.new result }
    {
        if self.ks.key.len() >= 16 {
            return Err(Fault::new(Refusal::KeysetFull, Layer::Manager));
        }
        let key = self.make_key(registry, kt, words)?;
        self.append(key, as_primary);
        Ok(key.key_id)
    }

    // A new key that is the primary one.
    pub fn rotate<M: KeyManager, D: Draws>(
        &mut self,
        registry: &Registry<M>,
        kt: &KeyTemplate,
        words: &mut D,
    ) -> Result<KeyId, Fault>
        ensures adds { Adds (managers M.maker M.keys registry.now) (key_template_view kt.now) true self.old self.new (D.left words.old) (D.left words.new) result }
        ensures distinct { DistinctIds self.old.keys → DistinctIds self.new.keys }
        ensures usable { NewKeyUsable (managers M.maker M.keys registry.now) (length self.old.keys) self.new result }
    {
        self.add(registry, kt, true, words)
    }
}
