// The check of handles and saves.
ghost use Rattle.std.specs.Prelude.{◌≡◌};
ghost use Rattle.encoding.specs.Views.{key_data_view, key_view, keyset_view};
ghost use Rattle.keysets.specs.Checks.{checked_data, checked_key, checked};

use ciphers::fault::{Fault, Layer, Refusal};
use encoding::numbers::{KeyMaterialType, KeyStatusType};
use encoding::records::{Key, KeyData, Keyset};

// Key data has a known material type.
fn check_key_data(key_data: &KeyData) -> Result<(), Fault>
    ensures { result ≡ checked_data (key_data_view key_data.now) }
{
    let unknown = Fault::new(Refusal::UnknownMaterial, Layer::Handle);
    KeyMaterialType::try_from(key_data.key_material_type).map_err(|_| unknown)?;
    Ok(())
}

// A key without data is Destroyed.
pub fn check_key(key: &Key) -> Result<(), Fault>
    ensures { result ≡ checked_key (key_view key.now) }
{
    match (key.key_data, KeyStatusType::try_from(key.status)) {
        (Some(key_data), _) => check_key_data(&key_data),
        (None, Ok(KeyStatusType::Destroyed)) => Ok(()),
        (None, _) => Err(Fault::new(Refusal::NoKeyData, Layer::Handle)),
    }
}

// The first key that fails, in keyset order, is the fault's place.
pub fn check(keyset: &Keyset) -> Result<(), Fault>
    ensures { result ≡ checked (keyset_view keyset.now) }
{
    for (i, key) in keyset.key.as_slice().iter().enumerate() {
        check_key(key).map_err(|fault| fault.at(i))?;
    }
    Ok(())
}
