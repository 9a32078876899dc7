//! A table of settings, and the names of its entries.
ghost use Rattle.std.specs.Prelude.{◌≡◌, IfSome, IfNone, IfOk, IfErr, string_bytes, option_map};
ghost use Rattle.toml.specs.Data.{get_member};
ghost use Rattle.toml.specs.View.{view, table_view};
ghost use Rattle.mq_settings.specs.Settings.{Spells, IsTableRefusal};
ghost use Rattle.mq_settings.specs.Keys.{key_name, is_known, IsLeastUnknown, HasOnly};

use crate::settings::fault::SettingsFault;
use crate::settings::flaw::Flaw;
use crate::settings::key::Key;
use std::alloc::Global;
use toml::{Table, Value};

/// The value at a key.
pub fn value_at<'a>(table: &'a Table, key: Key) -> Option<&'a Value>
    ensures { option_map (λ v. view v.now) result ≡ get_member (key_name key)
        (table_view table.now) }
{
    table.get(key.name())
}

/// Whether one of the keys has this name.
fn is_known(keys: &[Key], name: &str) -> bool
    ensures { result ≡ is_known keys.now name.now }
{
    keys.iter().any(|key| key.name() == name)
}

/// The least name in the table that is none of the keys.
pub fn least_unknown<'a>(table: &'a Table, keys: &[Key]) -> Option<&'a String>
    ensures some { IfSome result (λ name. IsLeastUnknown keys.now (table_view table.now)
        (string_bytes name.now)) }
    ensures none { IfNone result (HasOnly keys.now (table_view table.now)) }
{
    for name in table.keys() {
        if !is_known(keys, name.as_str()) {
            return Some(name);
        }
    }
    None
}

/// The table that a text spells, if it has no other entries than those of the keys.
pub fn read_table(alloc: Global, text: &[u8], keys: &[Key]) -> Result<Table, SettingsFault>
    ensures table { IfOk result (λ table. Spells text.now (table_view table)) }
    ensures names { IfOk result (λ table. HasOnly keys.now (table_view table)) }
    ensures refusal { IfErr result (IsTableRefusal keys.now text.now) }
{
    let table = match toml::table_from_slice(alloc, text) {
        Ok(table) => table,
        Err(error) => {
            return Err(if error.is_memory() {
                SettingsFault::Memory
            } else {
                SettingsFault::Text(Flaw::new(text, error))
            });
        }
    };
    if let Some(name) = least_unknown(&table, keys) {
        return Err(SettingsFault::Unknown(name.clone()?));
    }
    Ok(table)
}
