// What is told of a keyset beside its keys, and the encrypted one that carries it: each record by its own fields alone.
ghost use Rattle.std.specs.Prelude.{◌≡◌};
ghost use Rattle.std.proofs.Common.{rules};
ghost use Rattle.encoding.specs.Known.{key_info_knows, keyset_info_knows, encrypted_keyset_knows};
ghost use Rattle.encoding.specs.Views.{key_info_view, keyset_info_view, encrypted_keyset_view, fields_of_key_info, fields_of_keyset_info, fields_of_encrypted_keyset};
ghost use Rattle.encoding.specs.KeyInfos;
ghost use Rattle.encoding.specs.KeysetInfos;
ghost use Rattle.encoding.specs.EncryptedKeysets;

use crate::bounded::Bounded;
use crate::content::{Content, broken};
use crate::member::Member;
use crate::message::Message;
use crate::output::Output;
use crate::records::{EncryptedKeyset, KeyInfo, KeysetInfo};
use crate::url::TypeUrl;
use ciphers::fault::Fault;

impl Message for KeyInfo {
    ghost fields = { fields_of_key_info };

    ghost knows = { key_info_knows };

    ghost LARGEST = { 94 };

    const LARGEST: usize = 94;

    ghost same = { λ r s. key_info_view r ≡ key_info_view s };

    ghost sound = { λ r. KeyInfos.sound r };

    ghost modest = { Prim.search rules };

    ghost told = { λ r s e. KeyInfos.told r s e };

    fn empty() -> KeyInfo {
        KeyInfo {
            type_url: TypeUrl::empty(),
            status: 0,
            key_id: 0,
            output_prefix_type: 0,
        }
    }

    fn add(&mut self, field: u64, content: Content<'_>) -> Result<(), Fault> {
        match field {
            1 => self.type_url.fill(content),
            2 => self.status.fill(content),
            3 => self.key_id.fill(content),
            4 => self.output_prefix_type.fill(content),
            _ => Err(broken()),
        }
    }

    fn size(&self) -> usize {
        let numbers = self
            .status
            .size()
            .saturating_add(self.key_id.size())
            .saturating_add(self.output_prefix_type.size());
        self.type_url.size().saturating_add(numbers)
    }

    fn put(&self, out: &mut Output<'_>) {
        self.type_url.put(1, out);
        self.status.put(2, out);
        self.key_id.put(3, out);
        self.output_prefix_type.put(4, out);
    }
}

impl Message for KeysetInfo {
    ghost fields = { fields_of_keyset_info };

    ghost knows = { keyset_info_knows };

    ghost LARGEST = { 1542 };

    const LARGEST: usize = 1542;

    ghost same = { λ r s. keyset_info_view r ≡ keyset_info_view s };

    ghost sound = { λ r. KeysetInfos.sound r };

    ghost modest = { Prim.search rules };

    ghost told = { λ r s e. KeysetInfos.told r s e };

    fn empty() -> KeysetInfo {
        KeysetInfo {
            primary_key_id: 0,
            key_info: Bounded::empty(KeyInfo::empty()),
        }
    }

    fn add(&mut self, field: u64, content: Content<'_>) -> Result<(), Fault> {
        match field {
            1 => self.primary_key_id.fill(content),
            2 => self.key_info.fill(content),
            _ => Err(broken()),
        }
    }

    fn size(&self) -> usize {
        self.primary_key_id
            .size()
            .saturating_add(self.key_info.size())
    }

    fn put(&self, out: &mut Output<'_>) {
        self.primary_key_id.put(1, out);
        self.key_info.put(2, out);
    }
}

impl Message for EncryptedKeyset {
    ghost fields = { fields_of_encrypted_keyset };

    ghost knows = { encrypted_keyset_knows };

    ghost LARGEST = { 5708 };

    const LARGEST: usize = 5708;

    ghost same = { λ r s. encrypted_keyset_view r ≡ encrypted_keyset_view s };

    ghost sound = { λ r. EncryptedKeysets.sound r };

    ghost modest = { Prim.search rules };

    ghost told = { λ r s e. EncryptedKeysets.told r s e };

    fn empty() -> EncryptedKeyset {
        EncryptedKeyset {
            encrypted_keyset: Bounded::empty(0),
            keyset_info: None,
        }
    }

    fn add(&mut self, field: u64, content: Content<'_>) -> Result<(), Fault> {
        match field {
            2 => self.encrypted_keyset.fill(content),
            3 => self.keyset_info.fill(content),
            _ => Err(broken()),
        }
    }

    fn size(&self) -> usize {
        self.encrypted_keyset
            .size()
            .saturating_add(self.keyset_info.size())
    }

    fn put(&self, out: &mut Output<'_>) {
        self.encrypted_keyset.put(2, out);
        self.keyset_info.put(3, out);
    }
}
