// Public halves of chip keys: 32 bytes that the format brings in.
ghost use Rattle.keysets.specs.ChipPublic.{chip_public_maker, chip_public_keys, chip_public_url_fits, chip_public_material_known};
ghost use Rattle.std.proofs.Common.{rules};

use crate::registry::key_manager::{KeyMaking, KeyManager, Primitives};
use ciphers::draws::Draws;
use ciphers::fault::{Fault, Layer, Refusal};
use encoding::bounded::Bounded;
use encoding::numbers::KeyMaterialType;
use encoding::records::Value;

// The primitive: one half of a chip's key, and which. Neither field says anything of the other.
#[derive(Clone, Copy)]
pub struct Chip {
    pub public: bool,
    pub half: [u8; 32],
}

// The manager of `junction/chip-public`.
#[derive(Clone, Copy)]
pub struct ChipPublic;

impl Primitives for ChipPublic {
    type Primitive = Chip;

    ghost maker = { λ _. chip_public_maker };

    ghost url_fits = { λ _. chip_public_url_fits };
}

impl KeyMaking for ChipPublic {
    ghost keys = { λ _. chip_public_keys };

    ghost material_known = { λ _. chip_public_material_known };

    ghost lawful = { Prim.search rules };
}

impl KeyManager for ChipPublic {
    fn primitive(&self, serialized_key: &[u8]) -> Result<Chip, Fault> {
        let wrong_size = Fault::new(Refusal::KeyManagerReason, Layer::KeyManager).because(1);
        let half = <[u8; 32]>::try_from(serialized_key).map_err(|_| wrong_size)?;
        Ok(Chip { public: true, half })
    }

    fn new_key<D: Draws>(
        &self,
        serialized_key_format: &[u8],
        words: &mut D,
    ) -> Result<Value, Fault> {
        if serialized_key_format.len() != 32 {
            return Err(Fault::new(Refusal::KeyManagerReason, Layer::KeyManager).because(2));
        }
        Bounded::from_slice(serialized_key_format, 0)
    }

    fn type_url(&self) -> &[u8] {
        b"junction/chip-public"
    }

    fn key_material_type(&self) -> KeyMaterialType {
        KeyMaterialType::AsymmetricPublic
    }
}
