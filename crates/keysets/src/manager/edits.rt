// The edits. Status and edit together decide, in one `match` that changes the key in place. The list lends no `&mut` to
// an item, so the key is a copy and is put back.
ghost use Rattle.std.specs.Prelude.{◌≡◌, ◌+◌, ◌++◌, take, drop, not, if◌then◌else◌, Some, None, MatchResult};
ghost use Rattle.encoding.specs.Lists.{list};
ghost use Rattle.encoding.specs.Views.{key_view};
ghost use Rattle.keysets.specs.Answering.{only_if};
ghost use Rattle.encoding.specs.Kinds.{status_of};
ghost use Rattle.keysets.specs.Edits.{position_of, key_at, takes, spares_primary, spared_in, key_after, keyset_after, key_is_primary, key_not_found, status_bars, Edits};

use crate::manager::{Edit, Manager};
use ciphers::fault::{Fault, Layer, Refusal};
use encoding::bounded::Bounded;
use encoding::message::Message;
use encoding::numbers::KeyStatusType;
use encoding::records::{Key, KeyId};

// A key and its position.
#[derive(Clone, Copy)]
pub(super) struct Found {
    pub(super) at: usize,
    pub(super) key: Key,
}

impl Edit {
    // Whether the edit refuses the primary id.
    fn spares_primary(self) -> bool
        ensures { result ≡ spares_primary self }
    {
        matches!(self, Edit::Disable | Edit::Destroy | Edit::Delete)
    }
}

// The key takes the edit, or its status bars it; `at` is its position.
fn edit_key(key: &mut Key, edit: Edit, at: usize) -> Result<(), Fault>
    ensures after { key_view key.new ≡ (if takes edit (status_of key.old.status) then key_after edit (key_view key.old) else key_view key.old) }
    ensures value { result ≡ only_if (takes edit (status_of key.old.status)) (status_bars at) }
{
    match (KeyStatusType::try_from(key.status), edit) {
        (Ok(KeyStatusType::Enabled | KeyStatusType::Disabled), Edit::Enable) => {
            key.status = KeyStatusType::Enabled.into();
        }
        (Ok(KeyStatusType::Enabled | KeyStatusType::Disabled), Edit::Disable) => {
            key.status = KeyStatusType::Disabled.into();
        }
        (Ok(_), Edit::Destroy) => {
            key.status = KeyStatusType::Destroyed.into();
            key.key_data = None;
        }
        (_, Edit::Delete) | (Ok(KeyStatusType::Enabled), Edit::SetPrimary) => {}
        _ => return Err(Fault::new(Refusal::StatusBars, Layer::Manager).at(at)),
    }
    Ok(())
}

// The key at a place leaves. It is not inlined, since the compiler puts the move of the keys into the loop that searches for one.
#[inline(never)]
fn take_out(keys: &mut Bounded<Key, 16>, at: usize)
    ensures { list keys.new ≡ take at (list keys.old) ++ drop (at + 1) (list keys.old) }
{
    keys.remove(at, Key::empty());
}

impl Manager {
    // An Enabled or Disabled key becomes Enabled.
    pub fn enable(&mut self, key_id: KeyId) -> Result<(), Fault>
        ensures { Edits Edit.Enable key_id self.old self.new result }
    {
        self.edit(Edit::Enable, key_id)
    }

    // An Enabled or Disabled key that is not primary becomes Disabled.
    pub fn disable(&mut self, key_id: KeyId) -> Result<(), Fault>
        ensures { Edits Edit.Disable key_id self.old self.new result }
    {
        self.edit(Edit::Disable, key_id)
    }

    // An Enabled, Disabled or Destroyed key that is not primary becomes Destroyed, and its data goes.
    pub fn destroy(&mut self, key_id: KeyId) -> Result<(), Fault>
        ensures { Edits Edit.Destroy key_id self.old self.new result }
    {
        self.edit(Edit::Destroy, key_id)
    }

    // A key that is not primary leaves the keyset.
    pub fn delete(&mut self, key_id: KeyId) -> Result<(), Fault>
        ensures { Edits Edit.Delete key_id self.old self.new result }
    {
        self.edit(Edit::Delete, key_id)
    }

    // An Enabled key becomes primary.
    pub fn set_primary(&mut self, key_id: KeyId) -> Result<(), Fault>
        ensures { Edits Edit.SetPrimary key_id self.old self.new result }
    {
        self.edit(Edit::SetPrimary, key_id)
    }

    // Refuses the primary id to the edits that spare it.
    fn check_spared(&self, edit: Edit, id: KeyId) -> Result<(), Fault>
        ensures { result ≡ only_if (not (spared_in edit id self.now)) key_is_primary }
    {
        if edit.spares_primary() && self.ks.primary_key_id == id {
            return Err(Fault::new(Refusal::KeyIsPrimary, Layer::Manager));
        }
        Ok(())
    }

    // The first key with an id, and its position.
    pub(super) fn find(&self, id: KeyId) -> Result<Found, Fault>
        ensures { MatchResult result
            (λ k. (position_of id self.now.keys ≡ Some k.at) × (key_view k.key ≡ key_at self.now.keys k.at))
            (λ f. (position_of id self.now.keys ≡ None) × (f ≡ key_not_found)) }
    {
        let keys = self.ks.key.as_slice();
        for (i, key) in keys.iter().enumerate() {
            if key.key_id == id {
                return Ok(Found { at: i, key: *key });
            }
        }
        Err(Fault::new(Refusal::KeyNotFound, Layer::Manager))
    }

    fn edit(&mut self, edit: Edit, id: KeyId) -> Result<(), Fault>
        ensures { Edits edit id self.old self.new result }
    {
        self.check_spared(edit, id)?;
        let mut found = self.find(id)?;
        edit_key(&mut found.key, edit, found.at)?;
        self.put_back(edit, id, found.at, found.key);
        Ok(())
    }

    // The key at `at`, which has the id, took an edit and became `key`.
    fn put_back(&mut self, edit: Edit, id: KeyId, at: usize, key: Key)
        ensures { self.new ≡ keyset_after edit id at (key_view key) self.old }
    {
        match edit {
            Edit::Enable | Edit::Disable | Edit::Destroy => {
                self.ks.key.set(at, key);
            }
            Edit::Delete => {
                take_out(&mut self.ks.key, at);
            }
            Edit::SetPrimary => self.ks.primary_key_id = id,
        }
    }
}
