// Keys and keysets: each record by its own fields alone.
ghost use Rattle.std.specs.Prelude.{◌≡◌};
ghost use Rattle.std.proofs.Common.{rules};
ghost use Rattle.encoding.specs.Known.{key_data_knows, key_knows, keyset_knows};
ghost use Rattle.encoding.specs.Views.{key_data_view, key_view, keyset_view, fields_of_key_data, fields_of_key, fields_of_keyset};
ghost use Rattle.encoding.specs.KeyDatas;
ghost use Rattle.encoding.specs.Keys;
ghost use Rattle.encoding.specs.Keysets;

use crate::bounded::Bounded;
use crate::content::{Content, broken};
use crate::member::Member;
use crate::message::Message;
use crate::output::Output;
use crate::records::{Key, KeyData, Keyset};
use crate::url::TypeUrl;
use ciphers::fault::Fault;

impl Message for KeyData {
    ghost fields = { fields_of_key_data };

    ghost knows = { key_data_knows };

    ghost LARGEST = { 208 };

    const LARGEST: usize = 208; // type_url 66, value 131, key_material_type 11

    ghost same = { λ r s. key_data_view r ≡ key_data_view s };

    ghost sound = { λ r. KeyDatas.sound r };

    ghost modest = { Prim.search rules };

    ghost told = { λ r s e. KeyDatas.told r s e };

    fn empty() -> KeyData {
        KeyData {
            type_url: TypeUrl::empty(),
            value: Bounded::empty(0),
            key_material_type: 0,
        }
    }

    fn add(&mut self, field: u64, content: Content<'_>) -> Result<(), Fault> {
        match field {
            1 => self.type_url.fill(content),
            2 => self.value.fill(content),
            3 => self.key_material_type.fill(content),
            _ => Err(broken()),
        }
    }

    fn size(&self) -> usize {
        self.type_url
            .size()
            .saturating_add(self.value.size())
            .saturating_add(self.key_material_type.size())
    }

    fn put(&self, out: &mut Output<'_>) {
        self.type_url.put(1, out);
        self.value.put(2, out);
        self.key_material_type.put(3, out);
    }
}

impl Message for Key {
    ghost fields = { fields_of_key };

    ghost knows = { key_knows };

    ghost LARGEST = { 239 };

    const LARGEST: usize = 239;

    ghost same = { λ r s. key_view r ≡ key_view s };

    ghost sound = { λ r. Keys.sound r };

    ghost modest = { Prim.search rules };

    ghost told = { λ r s e. Keys.told r s e };

    fn empty() -> Key {
        Key {
            key_data: None,
            status: 0,
            key_id: 0,
            output_prefix_type: 0,
        }
    }

    fn add(&mut self, field: u64, content: Content<'_>) -> Result<(), Fault> {
        match field {
            1 => self.key_data.fill(content),
            2 => self.status.fill(content),
            3 => self.key_id.fill(content),
            4 => self.output_prefix_type.fill(content),
            _ => Err(broken()),
        }
    }

    fn size(&self) -> usize {
        let numbers = self
            .status
            .size()
            .saturating_add(self.key_id.size())
            .saturating_add(self.output_prefix_type.size());
        self.key_data.size().saturating_add(numbers)
    }

    fn put(&self, out: &mut Output<'_>) {
        self.key_data.put(1, out);
        self.status.put(2, out);
        self.key_id.put(3, out);
        self.output_prefix_type.put(4, out);
    }
}

impl Message for Keyset {
    ghost fields = { fields_of_keyset };

    ghost knows = { keyset_knows };

    ghost LARGEST = { 3878 };

    const LARGEST: usize = 3878;

    ghost same = { λ r s. keyset_view r ≡ keyset_view s };

    ghost sound = { λ r. Keysets.sound r };

    ghost modest = { Prim.search rules };

    ghost told = { λ r s e. Keysets.told r s e };

    fn empty() -> Keyset {
        Keyset::new()
    }

    fn add(&mut self, field: u64, content: Content<'_>) -> Result<(), Fault> {
        match field {
            1 => self.primary_key_id.fill(content),
            2 => self.key.fill(content),
            _ => Err(broken()),
        }
    }

    fn size(&self) -> usize {
        self.primary_key_id.size().saturating_add(self.key.size())
    }

    fn put(&self, out: &mut Output<'_>) {
        self.primary_key_id.put(1, out);
        self.key.put(2, out);
    }
}
