// Tink's records, under its names. Status, prefix type and material hold any number, so that reading undoes writing; the
// enums of `numbers` name the ones with a meaning.
// A record outside the limits cannot be made: 16 keys, type URLs of 64 bytes, values of 128, an encrypted keyset of 4,160.
ghost use Rattle.std.specs.Prelude.{◌^◌, ◌<◌};
ghost use Rattle.std.specs.Int.Signed.{mag};

use crate::bounded::Bounded;
use crate::url::TypeUrl;

pub type KeyId = u32;

// The bytes of a key, or of a key format.
pub type Value = Bounded<u8, 128>;

#[derive(Clone, Copy)]
pub struct KeyData {
    pub type_url: TypeUrl,
    pub value: Value,
    pub key_material_type: i32,
    ghost material_width: { mag key_material_type < 2 ^ 31 },
}

#[derive(Clone, Copy)]
pub struct KeyTemplate {
    pub type_url: TypeUrl,
    pub value: Value,
    pub output_prefix_type: i32,
    ghost prefix_width: { mag output_prefix_type < 2 ^ 31 },
}

#[derive(Clone, Copy)]
pub struct Key {
    pub key_data: Option<KeyData>,
    pub status: i32,
    pub key_id: KeyId,
    pub output_prefix_type: i32,
    ghost status_width: { mag status < 2 ^ 31 },
    ghost id_width: { key_id < 2 ^ 32 },
    ghost prefix_width: { mag output_prefix_type < 2 ^ 31 },
}

#[derive(Clone, Copy)]
pub struct Keyset {
    pub primary_key_id: KeyId,
    pub key: Bounded<Key, 16>,
    ghost id_width: { primary_key_id < 2 ^ 32 },
}

#[derive(Clone, Copy)]
pub struct KeyInfo {
    pub type_url: TypeUrl,
    pub status: i32,
    pub key_id: KeyId,
    pub output_prefix_type: i32,
    ghost status_width: { mag status < 2 ^ 31 },
    ghost id_width: { key_id < 2 ^ 32 },
    ghost prefix_width: { mag output_prefix_type < 2 ^ 31 },
}

#[derive(Clone, Copy)]
pub struct KeysetInfo {
    pub primary_key_id: KeyId,
    pub key_info: Bounded<KeyInfo, 16>,
    ghost id_width: { primary_key_id < 2 ^ 32 },
}

#[derive(Clone, Copy)]
pub struct EncryptedKeyset {
    pub encrypted_keyset: Bounded<u8, 4160>,
    pub keyset_info: Option<KeysetInfo>,
}
