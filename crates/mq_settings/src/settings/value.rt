//! The value of one key of a table of settings.
ghost use Rattle.std.specs.Prelude.{◌≡◌, Ok, Err, None, Some, ◌≢◌, IfOk, IfErr, ok_or};
ghost use Rattle.mq_ledger.specs.Day.{ByRule, IsRule};
ghost use Rattle.toml.specs.Data.{as_integer};
ghost use Rattle.toml.specs.View.{view, table_view};
ghost use Rattle.mq_settings.specs.Settings.{IsTextAt, IsHostAt, IsAddressAt, count_at, count_in};
ghost use Rattle.mq_settings.specs.Settings.{keep_at, keep_connection_at, IsZoneByRule, IsZoneAt};
ghost use Rattle.mq_settings.specs.Settings.{level_named, level_at, zone_by_offset, IsPlaceAt};
ghost use Rattle.mq_settings.specs.Settings.{IsPathAt};

use crate::settings::address::address_flaw;
use crate::settings::fault::SettingsFault;
use crate::settings::key::Key;
use crate::settings::table::value_at;
use log::LevelFilter;
use mq_ledger::{RuleFault, Zone};
use mq_request::{Host, is_host};
use std::alloc::Global;
use std::net::SocketAddr;
use toml::{Table, Value};

/// A text that has to be there.
fn read_text<'a>(table: &'a Table, key: Key) -> Result<&'a str, SettingsFault>
    ensures { IsTextAt key (table_view table.now) result }
{
    match value_at(table, key) {
        None => Err(SettingsFault::Missing(key)),
        Some(value) => match value.as_str() {
            Some(text) => Ok(text),
            None => Err(SettingsFault::Bad(key)),
        },
    }
}

/// An address and a port that have to be there.
pub fn read_address(table: &Table, key: Key) -> Result<SocketAddr, SettingsFault>
    ensures { IsAddressAt key (table_view table.now) result }
{
    let text = read_text(table, key)?;
    match text.parse::<SocketAddr>() {
        Ok(address) => Ok(address),
        Err(_) => Err(SettingsFault::Address(key, address_flaw(text))),
    }
}

/// The host's name, which has to be there.
pub fn read_host(alloc: Global, table: &Table) -> Result<Host, SettingsFault>
    ensures ok { IfOk result (λ host. IsHostAt (table_view table.now) (Ok host)) }
    ensures fault { IfErr result (λ e. e ≢ SettingsFault.Memory
        → IsHostAt (table_view table.now) (Err e)) }
{
    let text = read_text(table, Key::Host)?;
    if !is_host(text.as_bytes()) {
        return Err(SettingsFault::Bad(Key::Host));
    }
    Ok(Host::from_slice(alloc, text.as_bytes())?)
}

/// A number from `least` to `most`.
fn count_in(key: Key, least: u32, most: u32, found: Option<i64>) -> Result<u32, SettingsFault>
    ensures { result ≡ count_in key least most found }
{
    match found.map(u32::try_from) {
        Some(Ok(count)) if least <= count && count <= most => Ok(count),
        _ => Err(SettingsFault::Bad(key)),
    }
}

/// A number from `least` to `most`; `absent` where there is none, which is `Missing` if that is
/// `None`.
pub fn read_count(
    table: &Table,
    key: Key,
    least: u32,
    most: u32,
    absent: Option<u32>,
) -> Result<u32, SettingsFault>
    ensures { result ≡ count_at key least most (ok_or absent (SettingsFault.Missing key))
        (table_view table.now) }
{
    match value_at(table, key) {
        None => absent.ok_or(SettingsFault::Missing(key)),
        Some(value) => count_in(key, least, most, value.as_integer()),
    }
}

/// For how many days before today the ledger keeps what it knows: all, where the key is absent.
pub fn read_keep(table: &Table) -> Result<Option<u32>, SettingsFault>
    ensures { result ≡ keep_at (table_view table.now) }
{
    match value_at(table, Key::Keep) {
        None => Ok(None),
        Some(value) => match count_in(Key::Keep, 1, 366, value.as_integer()) {
            Ok(days) => Ok(Some(days)),
            Err(fault) => Err(fault),
        },
    }
}

/// Whether the connection of a request is kept for the next one: not, where the key is absent.
pub fn read_keep_connection(table: &Table) -> Result<bool, SettingsFault>
    ensures { result ≡ keep_connection_at (table_view table.now) }
{
    match value_at(table, Key::KeepConnection) {
        None => Ok(false),
        Some(value) => value
            .as_bool()
            .ok_or(SettingsFault::Bad(Key::KeepConnection)),
    }
}

/// The zone of minutes east of UTC, within a day.
fn zone_of_minutes(minutes: i32) -> Result<Zone, SettingsFault>
    ensures { result ≡ zone_by_offset (Some minutes) }
{
    match Zone::of_offset(minutes) {
        Ok(zone) => Ok(zone),
        Err(_) => Err(SettingsFault::Bad(Key::Offset)),
    }
}

fn zone_by_offset(found: Option<i64>) -> Result<Zone, SettingsFault>
    ensures { result ≡ zone_by_offset found }
{
    match found.map(i32::try_from) {
        Some(Ok(minutes)) => zone_of_minutes(minutes),
        _ => Err(SettingsFault::Bad(Key::Offset)),
    }
}

/// The zone of a rule's text.
fn zone_of_text(text: &str) -> Result<Zone, SettingsFault>
    ensures ok { IfOk result (λ zone. (zone ≡ ByRule text.now) × IsRule text.now) }
    ensures err { IfErr result (λ e. (e ≡ SettingsFault.Bad Key.Rule) × ¬ IsRule text.now) }
{
    match Zone::of_rule(text) {
        Ok(zone) => Ok(zone),
        Err(RuleFault::Rule) => Err(SettingsFault::Bad(Key::Rule)),
        Err(RuleFault::Memory) => Err(SettingsFault::Memory),
    }
}

fn zone_by_rule(value: &Value) -> Result<Zone, SettingsFault>
    ensures { IsZoneByRule (Some (view value.now)) result }
{
    match value.as_str() {
        Some(text) => zone_of_text(text),
        None => Err(SettingsFault::Bad(Key::Rule)),
    }
}

/// What the days go by: an offset or a rule, of which one has to be there, and not both.
pub fn read_zone(table: &Table) -> Result<Zone, SettingsFault>
    ensures { IsZoneAt (table_view table.now) result }
{
    match (value_at(table, Key::Offset), value_at(table, Key::Rule)) {
        (None, None) => Err(SettingsFault::Missing(Key::Offset)),
        (None, Some(rule)) => zone_by_rule(rule),
        (Some(offset), None) => zone_by_offset(offset.as_integer()),
        (Some(offset), Some(_)) => match zone_by_offset(offset.as_integer()) {
            Ok(_) => Err(SettingsFault::Bad(Key::Rule)),
            Err(fault) => Err(fault),
        },
    }
}

/// The level of that name.
fn level_named(name: &str) -> Option<LevelFilter>
    ensures { result ≡ level_named name.now }
{
    match name {
        "off" => Some(LevelFilter::Off),
        "error" => Some(LevelFilter::Error),
        "warn" => Some(LevelFilter::Warn),
        "info" => Some(LevelFilter::Info),
        _ => None,
    }
}

/// How much is logged: warnings, if nothing is said.
pub fn read_level(table: &Table) -> Result<LevelFilter, SettingsFault>
    ensures { result ≡ level_at (table_view table.now) }
{
    let Some(value) = value_at(table, Key::Log) else {
        return Ok(LevelFilter::Warn);
    };
    match value.as_str().and_then(level_named) {
        Some(level) => Ok(level),
        None => Err(SettingsFault::Bad(Key::Log)),
    }
}

/// Where the ledger is kept.
#[derive(Debug, Drop)]
pub enum Place {
    /// In the memory of the server, for as long as it runs.
    Memory,
    /// In the database file at this path, which isn't empty.
    File(String),
}

/// Where the ledger is kept, which has to be said.
pub fn read_place(alloc: Global, table: &Table) -> Result<Place, SettingsFault>
    ensures ok { IfOk result (λ place. IsPlaceAt (table_view table.now) (Ok place)) }
    ensures fault { IfErr result (λ e. e ≢ SettingsFault.Memory
        → IsPlaceAt (table_view table.now) (Err e)) }
{
    let text = read_text(table, Key::Store)?;
    if text == "memory" {
        return Ok(Place::Memory);
    }
    if text.is_empty() {
        return Err(SettingsFault::Bad(Key::Store));
    }
    Ok(Place::File(String::from_str(alloc, text)?))
}

/// The path of a file: none, where the key is absent.
pub fn read_path(alloc: Global, table: &Table, key: Key) -> Result<Option<String>, SettingsFault>
    ensures ok { IfOk result (λ path. IsPathAt key (table_view table.now) (Ok path)) }
    ensures fault { IfErr result (λ e. e ≢ SettingsFault.Memory
        → IsPathAt key (table_view table.now) (Err e)) }
{
    let Some(value) = value_at(table, key) else {
        return Ok(None);
    };
    match value.as_str() {
        Some(path) if !path.is_empty() => Ok(Some(String::from_str(alloc, path)?)),
        _ => Err(SettingsFault::Bad(key)),
    }
}
