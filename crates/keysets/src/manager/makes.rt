// Primitives of the keys of a keyset, for other crates: the key bytes stay here.
ghost use Rattle.std.specs.Prelude.{◌≡◌};
ghost use Rattle.encoding.specs.Views.{key_view};
ghost use Rattle.keysets.specs.Registries.{managers};
ghost use Rattle.keysets.specs.Running.{key_primitive, primitive_at};

use crate::check::check_key;
use crate::manager::Manager;
use crate::registry::Registry;
use crate::registry::key_manager::KeyManager;
use ciphers::fault::{Fault, Layer, Refusal};
use encoding::numbers::OutputPrefixType;
use encoding::records::Key;

// The check of handles and saves, then the registry, then the prefix type.
fn make_primitive<M: KeyManager>(registry: &Registry<M>, key: &Key) -> Result<M::Primitive, Fault>
where
    M::Primitive: Drop,
    ensures { result ≡ key_primitive (managers M.maker M.keys registry.now) (key_view key.now) }
{
    check_key(key)?;
    let no_data = Fault::new(Refusal::NoKeyData, Layer::Handle);
    let key_data = key.key_data.ok_or(no_data)?;
    let primitive = registry.primitive_from_key_data(&key_data)?;
    if OutputPrefixType::try_from(key.output_prefix_type).is_err() {
        return Err(Fault::new(Refusal::UnknownPrefixType, Layer::Manager));
    }
    Ok(primitive)
}

impl Manager {
    // The primitive of the key at a position, whatever its status. A refusal is at that position, or 10 M where no key is.
    pub fn primitive_at<M: KeyManager>(
        &self,
        registry: &Registry<M>,
        at: usize,
    ) -> Result<M::Primitive, Fault>
    where
        M::Primitive: Drop,
        ensures { result ≡ primitive_at (managers M.maker M.keys registry.now) at self.now }
    {
        let no_key = Fault::new(Refusal::KeyNotFound, Layer::Manager);
        let key = self.key_at(at).ok_or(no_key)?;
        make_primitive(registry, &key).map_err(|fault| fault.at(at))
    }
}
