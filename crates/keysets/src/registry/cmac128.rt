// Keys for CMAC: 16 bytes from four words.
ghost use Rattle.keysets.specs.Cmac128.{cmac128_maker, cmac128_keys, cmac128_url_fits, cmac128_material_known};
ghost use Rattle.std.proofs.Common.{rules};

use crate::registry::key_manager::{KeyMaking, KeyManager, Primitives};
use ciphers::draws::Draws;
use ciphers::fault::{Fault, Layer, Refusal};
use encoding::bounded::Bounded;
use encoding::numbers::KeyMaterialType;
use encoding::records::Value;

// The primitive: a key for CMAC.
#[derive(Clone, Copy)]
pub struct MacKey {
    pub bytes: [u8; 16],
}

// The manager of `junction/cmac128`.
#[derive(Clone, Copy)]
pub struct Cmac128;

impl Primitives for Cmac128 {
    type Primitive = MacKey;

    ghost maker = { λ _. cmac128_maker };

    ghost url_fits = { λ _. cmac128_url_fits };
}

impl KeyMaking for Cmac128 {
    ghost keys = { λ _. cmac128_keys };

    ghost material_known = { λ _. cmac128_material_known };

    ghost lawful = { Prim.search rules };
}

impl KeyManager for Cmac128 {
    fn primitive(&self, serialized_key: &[u8]) -> Result<MacKey, Fault> {
        let wrong_size = Fault::new(Refusal::KeyManagerReason, Layer::KeyManager).because(1);
        let bytes = <[u8; 16]>::try_from(serialized_key).map_err(|_| wrong_size)?;
        Ok(MacKey { bytes })
    }

    fn new_key<D: Draws>(
        &self,
        serialized_key_format: &[u8],
        words: &mut D,
    ) -> Result<Value, Fault> {
        if !serialized_key_format.is_empty() {
            return Err(Fault::new(Refusal::KeyManagerReason, Layer::KeyManager).because(2));
        }
        let a = words.draw()?.to_be_bytes();
        let b = words.draw()?.to_be_bytes();
        let c = words.draw()?.to_be_bytes();
        let d = words.draw()?.to_be_bytes();
        // No loop fills it: nothing is known of an array that is filled by `chunks_exact_mut`.
        let key = [
            a[0], a[1], a[2], a[3], b[0], b[1], b[2], b[3], c[0], c[1], c[2], c[3], d[0], d[1],
            d[2], d[3],
        ];
        Bounded::from_slice(&key, 0)
    }

    fn type_url(&self) -> &[u8] {
        b"junction/cmac128"
    }

    fn key_material_type(&self) -> KeyMaterialType {
        KeyMaterialType::Symmetric
    }
}
