// A keyset as lines of text, key by key: ids, statuses and prefix types, and which id is primary. No key bytes.
ghost use Rattle.std.specs.Prelude.{◌≡◌, Some, IfOk, string_bytes};
ghost use Rattle.std.specs.Option.{option_map};
ghost use Rattle.encoding.specs.Lists.{item};
ghost use Rattle.encoding.specs.Kinds.{status_of, prefix_of};
ghost use Rattle.sheet.specs.Rows.{status_text, prefix_text, row_of, sheet_of};

use encoding::numbers::{KeyStatusType, OutputPrefixType};
use encoding::records::KeyId;
use keysets::manager::Manager;
use std::alloc::{AllocError, Global};
use std::fmt;

// What is listed of a key. Status and prefix type are the record's, which holds any number.
#[derive(Clone, Copy)]
struct Row {
    id: KeyId,
    status: i32,
    prefix: i32,
    is_primary: bool,
}

// The names are those of a derived `Debug`, but no contract says what that prints.
fn status_text(status: i32) -> &'static str
    ensures { result.now ≡ status_text (status_of status) }
{
    match KeyStatusType::try_from(status) {
        Ok(KeyStatusType::Enabled) => "Enabled",
        Ok(KeyStatusType::Disabled) => "Disabled",
        Ok(KeyStatusType::Destroyed) => "Destroyed",
        Err(_) => "unknown",
    }
}

fn prefix_text(prefix: i32) -> &'static str
    ensures { result.now ≡ prefix_text (prefix_of prefix) }
{
    match OutputPrefixType::try_from(prefix) {
        Ok(OutputPrefixType::Tink) => "Tink",
        Ok(OutputPrefixType::Legacy) => "Legacy",
        Ok(OutputPrefixType::Raw) => "Raw",
        Ok(OutputPrefixType::Crunchy) => "Crunchy",
        Err(_) => "unknown",
    }
}

impl fmt::Display for Row {
    ghost use Rattle.sheet.specs.Rows.{text_of};

    ghost output = { λ row. Some (text_of row) };

    fn fmt<W: fmt::Write>(&self, f: &mut fmt::Formatter<W>) -> fmt::Result {
        let id = self.id;
        let status = status_text(self.status);
        let prefix = prefix_text(self.prefix);
        let mark = if self.is_primary { " primary" } else { "" };
        writeln!(f, "{id} {status} {prefix}{mark}")
    }
}

// The row of the key at a position, if there is one.
fn row_at(manager: &Manager, at: usize) -> Option<Row>
    ensures { result ≡ option_map (row_of manager.now.primary_key_id) (item manager.now.keys at) }
{
    let id = manager.key_id_at(at)?;
    let status = manager.status_at(at)?;
    let prefix = manager.prefix_type_at(at)?;
    let is_primary = id == manager.primary_key_id();
    Some(Row {
        id,
        status,
        prefix,
        is_primary,
    })
}

// The lines of all keys, in keyset order.
pub fn keys(heap: Global, manager: &Manager) -> Result<String, AllocError>
    ensures { IfOk result (λ text. string_bytes text ≡ sheet_of manager.now) }
{
    let mut text = String::new(heap);
    // By position, since a manager hands out no keys.
    for at in 0..manager.key_count() {
        if let Some(row) = row_at(manager, at) {
            write!(text, "{row}")?;
        }
    }
    Ok(text)
}
