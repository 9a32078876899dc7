//! The servers that a text lists.
ghost use Rattle.std.specs.Prelude.{◌≡◌, ◌≢◌, ◌↔◌, [], IfOk, IsTrue, codes, length, vec_len};
ghost use Rattle.std.specs.List.{All};
ghost use Rattle.toml.specs.Data.{member, no_members};
ghost use Rattle.toml.specs.View.{items_view, table_view, view};
ghost use Rattle.mq_settings.specs.Settings.{Spells};
ghost use Rattle.mq_servers.specs.Lists.{AreNew, IsServer, IsServerList, ListsServers};

use crate::fault::ServersFault;
use mq_settings::{Flaw, address_flaw};
use std::alloc::{AllocError, Global};
use std::net::SocketAddr;
use toml::{Table, Value};

/// The one name of the file.
const NAME: &str = "servers";

/// The most servers.
const SERVERS: usize = 16;

/// The addresses of the servers that a text lists: 1 to 16, in its order, none twice.
pub fn read_servers(alloc: Global, text: &[u8]) -> Result<Vec<SocketAddr>, ServersFault>
    ensures { IfOk result (λ servers. ListsServers text.now servers.items) }
{
    let table = read_table(alloc, text)?;
    read_list(alloc, value_of(&table)?)
}

/// The table that a text spells.
fn read_table(alloc: Global, text: &[u8]) -> Result<Table, ServersFault>
    ensures { IfOk result (λ table. Spells text.now (table_view table)) }
{
    match toml::table_from_slice(alloc, text) {
        Ok(table) => Ok(table),
        Err(error) if error.is_memory() => Err(ServersFault::Memory),
        Err(error) => Err(ServersFault::Text(Flaw::new(text, error))),
    }
}

/// The value of a table's one entry, which is named `servers`.
fn value_of(table: &Table) -> Result<&Value, ServersFault>
    ensures { IfOk result (λ value. table_view table.now
        ≡ member (codes "servers") (view value.now) no_members) }
{
    match table.get(NAME) {
        Some(value) if has_one(table) => Ok(value),
        _ => Err(names_fault(table)),
    }
}

/// Whether a table has one entry.
fn has_one(table: &Table) -> bool
    ensures { IsTrue result ↔ (length table.now.entries ≡ 1) }
{
    table.len() == 1
}

/// Why a table is refused by its names: the least of them that isn't `servers`, or it has none.
fn names_fault(table: &Table) -> ServersFault {
    for name in table.keys() {
        if name.as_str() != NAME {
            return match name.clone() {
                Ok(name) => ServersFault::Unknown(name),
                Err(_) => ServersFault::Memory,
            };
        }
    }
    ServersFault::Missing
}

/// The addresses of a list.
fn read_list(alloc: Global, value: &Value) -> Result<Vec<SocketAddr>, ServersFault>
    ensures { IfOk result (λ servers. IsServerList (view value.now) servers.items) }
{
    let Some(entries) = value.as_array() else {
        return Err(ServersFault::NoList);
    };
    if entries.is_empty() || SERVERS < entries.len() {
        return Err(ServersFault::NoList);
    }
    read_entries(alloc, entries.as_slice())
}

/// The addresses of these entries, of which none stands twice.
fn read_entries(alloc: Global, entries: &[Value]) -> Result<Vec<SocketAddr>, ServersFault>
    ensures new { IfOk result (λ servers. AreNew (items_view entries.now) [] servers.items) }
    ensures count { IfOk result (λ servers. vec_len servers ≡ length entries.now) }
{
    let mut servers = Vec::new(alloc);
    for entry in entries {
        let server = read_entry(alloc, entry)?;
        if !is_new(servers.as_slice(), server) {
            return Err(ServersFault::Twice(server));
        }
        servers.push(server)?;
    }
    Ok(servers)
}

/// Whether an address is none of these.
fn is_new(servers: &[SocketAddr], server: SocketAddr) -> bool
    ensures { IsTrue result ↔ All (λ other. other ≢ server) servers.now }
{
    servers.iter().all(|other| *other != server)
}

/// The address that an entry spells.
fn read_entry(alloc: Global, entry: &Value) -> Result<SocketAddr, ServersFault>
    ensures { IfOk result (IsServer (view entry.now)) }
{
    let Some(text) = entry.as_str() else {
        return Err(ServersFault::NoList);
    };
    match text.parse::<SocketAddr>() {
        Ok(server) => Ok(server),
        Err(_) => Err(address_fault(alloc, text)),
    }
}

/// What a text lacks that is no numeric address with a port.
fn address_fault(alloc: Global, text: &str) -> ServersFault {
    match String::from_str(alloc, text) {
        Ok(copy) => ServersFault::Address(copy, address_flaw(text)),
        Err(_) => ServersFault::Memory,
    }
}
