// Making records of bytes and numbers, within the limits. A key's data and a template have the same three members under
// Tink's names, and are made alike.
ghost use Rattle.std.specs.Prelude.{◌≡◌, [], MatchResult};
ghost use Rattle.ciphers.specs.Faults.{fault};
ghost use Rattle.ciphers.specs.declared.fault.Refusal.TheVariants.{BreaksEncoding};
ghost use Rattle.ciphers.specs.declared.fault.Layer.TheVariants.{Encoding};
ghost use Rattle.encoding.specs.Meanings.{key_data_of, key_template_of, keyset_of};
ghost use Rattle.encoding.specs.Limits.{KeyDataWithin, KeyTemplateWithin};
ghost use Rattle.encoding.specs.Views.{key_data_view, key_template_view, keyset_view};

use crate::bounded::Bounded;
use crate::message::Message;
use crate::records::{Key, KeyData, KeyTemplate, Keyset};
use crate::url::TypeUrl;
use ciphers::fault::Fault;

impl KeyData {
    // Refuses exactly what is past a limit.
    pub fn new(url: &[u8], value: &[u8], material: i32) -> Result<KeyData, Fault>
        ensures { MatchResult result
            (λ d. key_data_view d ≡ key_data_of url.now value.now material)
            (λ f. (f ≡ fault BreaksEncoding Encoding) × (KeyDataWithin (key_data_of url.now value.now material) → ⊥)) }
    {
        let type_url = TypeUrl::new(url)?;
        let value = Bounded::from_slice(value, 0)?;
        Ok(KeyData {
            type_url,
            value,
            key_material_type: material,
        })
    }
}

impl KeyTemplate {
    // Refuses exactly what is past a limit.
    pub fn new(url: &[u8], value: &[u8], prefix: i32) -> Result<KeyTemplate, Fault>
        ensures { MatchResult result
            (λ t. key_template_view t ≡ key_template_of url.now value.now prefix)
            (λ f. (f ≡ fault BreaksEncoding Encoding) × (KeyTemplateWithin (key_template_of url.now value.now prefix) → ⊥)) }
    {
        let type_url = TypeUrl::new(url)?;
        let value = Bounded::from_slice(value, 0)?;
        Ok(KeyTemplate {
            type_url,
            value,
            output_prefix_type: prefix,
        })
    }
}

impl Keyset {
    // No key, and primary 0.
    pub fn new() -> Keyset
        ensures { keyset_view result ≡ keyset_of 0 [] }
    {
        Keyset {
            primary_key_id: 0,
            key: Bounded::empty(Key::empty()),
        }
    }
}
