// The interface of key managers: each understands the keys of one type, makes them, and makes primitives of them.
ghost use Rattle.std.specs.Prelude.{◌≡◌, ℕ, ◌≤◌, List, pos};
ghost use Rattle.std.specs.Str.{bytes_eq};
ghost use Rattle.encoding.specs.Lists.{list};
ghost use Rattle.encoding.specs.Numbers.{material_number};
ghost use Rattle.encoding.specs.Views.{key_data_view};
ghost use Rattle.keysets.specs.Managers.{Maker, KeyMaker, UrlFits, Lawful, words_after, primitive_answer, key_answer, key_data_answer, answered};

use ciphers::draws::Draws;
use ciphers::fault::Fault;
use encoding::numbers::KeyMaterialType;
use encoding::records::{KeyData, Value};
use encoding::url::TypeUrl;

// What a manager's primitives are. It has no calls: the interface may be split, and what it means stays.
pub trait Primitives {
    type Primitive;

    ghost maker: { Self → Maker Self.Primitive };

    ghost url_fits: { (m : Self) → UrlFits (maker m).type_url };
}

// How a manager makes keys.
pub trait KeyMaking: Primitives {
    ghost keys: { Self → KeyMaker };

    ghost material_known: { (m : Self) → (keys m).material ≤ 4 };

    ghost lawful: { (m : Self) (format words : List ℕ) → Lawful (Self.maker m) words ((keys m).new_key format words) };
}

pub trait KeyManager: KeyMaking {
    // The primitive of a key, or 16 K with the manager's reason.
    fn primitive(&self, serialized_key: &[u8]) -> Result<Self::Primitive, Fault>
        ensures { result ≡ primitive_answer ((Self.maker self.now).primitive serialized_key.now) };

    // A new key's bytes. A reason takes no word; after 20 D the source is empty.
    fn new_key<D: Draws>(&self, serialized_key_format: &[u8], words: &mut D) -> Result<Value, Fault>
        ensures key { answered list result ≡ key_answer ((Self.keys self.now).new_key serialized_key_format.now (D.left words.old)) }
        ensures words { D.left words.new ≡ words_after ((Self.keys self.now).new_key serialized_key_format.now (D.left words.old)) (D.left words.old) };

    fn type_url(&self) -> &[u8]
        ensures { result.now ≡ (Self.maker self.now).type_url };

    fn key_material_type(&self) -> KeyMaterialType
        ensures { material_number result ≡ pos (Self.keys self.now).material };

    // Whether keys of that type are this manager's.
    fn does_support(&self, type_url: &[u8]) -> bool
        ensures { result ≡ bytes_eq type_url.now (Self.maker self.now).type_url }
    {
        type_url == self.type_url()
    }

    // A new key with its type and material.
    fn new_key_data<D: Draws>(
        &self,
        serialized_key_format: &[u8],
        words: &mut D,
    ) -> Result<KeyData, Fault>
        ensures key { answered key_data_view result ≡ key_data_answer (Self.maker self.now).type_url (Self.keys self.now).material ((Self.keys self.now).new_key serialized_key_format.now (D.left words.old)) }
        ensures words { D.left words.new ≡ words_after ((Self.keys self.now).new_key serialized_key_format.now (D.left words.old)) (D.left words.old) }
    {
        let value = self.new_key(serialized_key_format, words)?;
        let type_url = TypeUrl::new(self.type_url())?;
        Ok(KeyData {
            type_url,
            value,
            key_material_type: self.key_material_type().into(),
        })
    }
}
