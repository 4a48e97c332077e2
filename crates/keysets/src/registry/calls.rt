// The calls of a registry.
ghost use Rattle.std.specs.Prelude.{◌≡◌, ℕ, ◌<◌, false, List, length, is_some, is_ok, if◌then◌else◌, Some, None, MatchResult, nat_lt};
ghost use Rattle.encoding.specs.Lists.{list};
ghost use Rattle.encoding.specs.Views.{key_data_view, url_bytes};
ghost use Rattle.keysets.specs.Managers.{answered};
ghost use Rattle.keysets.specs.Registries.{managers, registered_at, register_answer, url_at, found, unknown, new_key_by, new_key_data_by, words_by, primitive_by};

use crate::registry::key_manager::KeyManager;
use crate::registry::{Place, Registry};
use ciphers::draws::Draws;
use ciphers::fault::{Fault, Layer, Refusal};
use encoding::records::{KeyData, KeyTemplate, Value};

impl<M> Place<M> {
    // A manager that is not registered.
    pub fn new(manager: M) -> Place<M>
        ensures manager { result.manager ≡ manager }
        ensures registered { result.registered ≡ false }
    {
        Place {
            manager,
            registered: false,
        }
    }
}

impl<'a, M: KeyManager> Registry<'a, M> {
    // A registry of the bank as it stands.
    pub fn new(bank: &'a mut [Place<M>]) -> Registry<'a, M>
        ensures bank { result.bank.now ≡ bank.old }
        ensures lent { result.bank.ghost_name ≡ bank.entry.ghost_name }
    {
        Registry { bank }
    }

    // The manager that is registered for a type URL, or 13 R.
    pub fn get_key_manager(&self, type_url: &[u8]) -> Result<&M, Fault>
        ensures { MatchResult result
            (λ m. found type_url.now (managers M.maker M.keys self.now) ≡ Some (record { maker = M.maker m.now; keys = M.keys m.now }))
            (λ f. (f ≡ unknown) × (found type_url.now (managers M.maker M.keys self.now) ≡ None)) }
    {
        for place in &*self.bank {
            if place.registered && place.manager.does_support(type_url) {
                return Ok(&place.manager);
            }
        }
        Err(Fault::new(Refusal::NotRegistered, Layer::Registry))
    }

    fn is_registered(&self, type_url: &[u8]) -> bool
        ensures { result ≡ is_some (found type_url.now (managers M.maker M.keys self.now)) }
    {
        self.get_key_manager(type_url).is_ok()
    }

    // Whether the type of the manager at a place is registered, by it or by another.
    fn is_taken(&self, number: usize) -> bool
        requires { number < length self.now.bank.now }
        ensures { result ≡ is_some (found (url_at M.maker self.now.bank.now number) (managers M.maker M.keys self.now)) }
    {
        let bank = &*self.bank;
        self.is_registered(bank[number].manager.type_url())
    }

    // Registers the manager at a place of the bank.
    pub fn register_key_manager(&mut self, number: usize) -> Result<(), Fault>
        ensures answer { result ≡ register_answer (nat_lt number (length self.old.bank.now)) (is_some (found (url_at M.maker self.old.bank.now number) (managers M.maker M.keys self.old))) }
        ensures bank { self.new.bank.now ≡ (if is_ok result then registered_at number self.old.bank.now else self.old.bank.now) }
        ensures lent { self.new.bank.ghost_name ≡ self.old.bank.ghost_name }
    {
        if number >= self.bank.len() {
            return Err(Fault::new(Refusal::NotRegistered, Layer::Registry));
        }
        if self.is_taken(number) {
            return Err(Fault::new(Refusal::RegisteredAlready, Layer::Registry));
        }
        self.bank[number].registered = true;
        Ok(())
    }

    // A new key's data, by the manager of the template's type.
    pub fn new_key_data<D: Draws>(&self, kt: &KeyTemplate, words: &mut D) -> Result<KeyData, Fault>
        ensures key { answered key_data_view result ≡ new_key_data_by (found (url_bytes kt.now.type_url) (managers M.maker M.keys self.now)) (list kt.now.value) (D.left words.old) }
        ensures words { D.left words.new ≡ words_by (found (url_bytes kt.now.type_url) (managers M.maker M.keys self.now)) (list kt.now.value) (D.left words.old) }
    {
        let manager = self.get_key_manager(kt.type_url.as_bytes())?;
        manager.new_key_data(kt.value.as_slice(), words)
    }

    // A new key's bytes.
    pub fn new_key<D: Draws>(&self, kt: &KeyTemplate, words: &mut D) -> Result<Value, Fault>
        ensures key { answered list result ≡ new_key_by (found (url_bytes kt.now.type_url) (managers M.maker M.keys self.now)) (list kt.now.value) (D.left words.old) }
        ensures words { D.left words.new ≡ words_by (found (url_bytes kt.now.type_url) (managers M.maker M.keys self.now)) (list kt.now.value) (D.left words.old) }
    {
        let manager = self.get_key_manager(kt.type_url.as_bytes())?;
        manager.new_key(kt.value.as_slice(), words)
    }

    // The primitive of a key's bytes, by the manager of its type.
    pub fn primitive(&self, type_url: &[u8], sk: &[u8]) -> Result<M::Primitive, Fault>
        ensures { result ≡ primitive_by (found type_url.now (managers M.maker M.keys self.now)) sk.now }
    {
        if sk.is_empty() {
            return Err(Fault::new(Refusal::EmptyValue, Layer::Registry));
        }
        self.get_key_manager(type_url)?.primitive(sk)
    }

    pub fn primitive_from_key_data(&self, kd: &KeyData) -> Result<M::Primitive, Fault>
        ensures { result ≡ primitive_by (found (url_bytes kd.now.type_url) (managers M.maker M.keys self.now)) (list kd.now.value) }
    {
        self.primitive(kd.type_url.as_bytes(), kd.value.as_slice())
    }
}
