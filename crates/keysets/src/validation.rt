// Which keys and keysets are valid.
ghost use Rattle.std.specs.Prelude.{◌≡◌, nat_le};
ghost use Rattle.encoding.specs.Views.{key_view, keyset_view};
ghost use Rattle.keysets.specs.Answering.{only_if, giving};
ghost use Rattle.keysets.specs.Validation.{version_too_high, valid_key, enabled_key, not_public_key, not_second, valid_whole, valid};
ghost use Rattle.keysets.specs.Seeing.{seen_after};

use ciphers::fault::{Fault, Layer, Refusal};
use encoding::numbers::{KeyMaterialType, KeyStatusType, OutputPrefixType};
use encoding::records::{Key, KeyId, Keyset};

// What the keys gone through had: three facts, each of which stands alone.
#[derive(Clone, Copy)]
struct Seen {
    some_enabled: bool,
    some_primary: bool,
    some_not_public: bool,
}

// A version is valid up to the highest expected.
pub fn validate_key_version(version: u32, max_expected: u32) -> Result<(), Fault>
    ensures { result ≡ only_if (nat_le version max_expected) version_too_high }
{
    if version > max_expected {
        return Err(Fault::new(Refusal::VersionTooHigh, Layer::Validation));
    }
    Ok(())
}

// The rules of a key by itself.
pub fn validate_key(key: &Key) -> Result<(), Fault>
    ensures { result ≡ valid_key (key_view key.now) }
{
    if key.key_id == 0 {
        return Err(Fault::new(Refusal::ZeroKeyId, Layer::Validation));
    }
    if key.key_data.is_none() {
        return Err(Fault::new(Refusal::NoKeyData, Layer::Validation));
    }
    if OutputPrefixType::try_from(key.output_prefix_type).is_err() {
        return Err(Fault::new(Refusal::UnknownPrefixType, Layer::Validation));
    }
    if KeyStatusType::try_from(key.status).is_err() {
        return Err(Fault::new(Refusal::UnknownStatus, Layer::Validation));
    }
    Ok(())
}

// Key by key, and then what only the whole keyset shows.
pub fn validate(keyset: &Keyset) -> Result<(), Fault>
    ensures { result ≡ valid (keyset_view keyset.now) }
{
    let keys = keyset.key.as_slice();
    if keys.is_empty() {
        return Err(Fault::new(Refusal::EmptyKeyset, Layer::Validation));
    }
    let primary = keyset.primary_key_id;
    let mut seen = Seen {
        some_enabled: false,
        some_primary: false,
        some_not_public: false,
    };
    for (i, key) in keys.iter().enumerate() {
        validate_key(key).map_err(|fault| fault.at(i))?;
        seen = seen.after(key, primary).map_err(|fault| fault.at(i))?;
    }
    seen.conclude()
}

fn is_enabled(key: &Key) -> bool
    ensures { result ≡ enabled_key (key_view key.now) }
{
    KeyStatusType::try_from(key.status) == Ok(KeyStatusType::Enabled)
}

// Whether the key is Enabled with material other than public.
fn is_not_public(key: &Key) -> bool
    ensures { result ≡ not_public_key (key_view key.now) }
{
    is_enabled(key)
        && key.key_data.is_some_and(|data| {
            KeyMaterialType::try_from(data.key_material_type)
                != Ok(KeyMaterialType::AsymmetricPublic)
        })
}

impl Seen {
    // One key more, unless it is a second Enabled key with the primary id.
    fn after(self, key: &Key, primary: KeyId) -> Result<Seen, Fault>
        ensures { result ≡ giving (seen_after primary (key_view key.now) self) (not_second primary self.some_primary (key_view key.now)) }
    {
        let enabled = is_enabled(key);
        let is_primary = enabled && key.key_id == primary;
        if self.some_primary && is_primary {
            return Err(Fault::new(Refusal::SecondPrimary, Layer::Validation));
        }
        Ok(Seen {
            some_enabled: self.some_enabled || enabled,
            some_primary: self.some_primary || is_primary,
            some_not_public: self.some_not_public || is_not_public(key),
        })
    }

    fn conclude(self) -> Result<(), Fault>
        ensures { result ≡ valid_whole self.some_enabled self.some_primary self.some_not_public }
    {
        if !self.some_enabled {
            return Err(Fault::new(Refusal::NoneEnabled, Layer::Validation));
        }
        if !self.some_primary && self.some_not_public {
            return Err(Fault::new(Refusal::NoPrimary, Layer::Validation));
        }
        Ok(())
    }
}
