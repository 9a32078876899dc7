//! The permits that a text lists.
ghost use Rattle.std.specs.Prelude.{◌<◌, IfOk, OnOk, vec_len};
ghost use Rattle.toml.specs.View.{items_view, view};
ghost use Rattle.mq_permits_file.specs.Lists.{AddsHost, AreOrigins, IsHostLine, IsListOf, IsOrigin};

use crate::fault::{OriginFlaw, PermitsFault};
use crate::line::line_of;
use crate::origin::read_origin;
use mq_permits::{Hosts, Origin, Permits};
use mq_request::{Host, is_host};
use mq_settings::Flaw;
use std::alloc::Global;
use toml::{Table, Value};

/// The most hosts.
const HOSTS: usize = 1_000;

/// The most entries of a list.
const ORIGINS: usize = 16;

/// The permits that a text lists: from which addresses each host asks, and who sets limits and
/// reads reports. It is refused where nobody could set limits.
pub fn read_permits(alloc: Global, text: &[u8]) -> Result<Permits, PermitsFault>
    ensures { IfOk result (λ permits. 0 < vec_len permits.admin) }
{
    let table = read_table(alloc, text)?;
    let reader = Reader { alloc, text };
    reader.check_names(&table, &["hosts", "peers"])?;
    let hosts = match reader.table_at(&table, "hosts")? {
        Some(hosts) => reader.read_hosts(hosts)?,
        None => Hosts::new(alloc),
    };
    let Some(peers) = reader.table_at(&table, "peers")? else {
        return Err(PermitsFault::NoAdmin);
    };
    reader.check_names(peers, &["admin", "report"])?;
    let admin = reader.list_at(peers, "admin")?;
    if admin.is_empty() {
        return Err(PermitsFault::NoAdmin);
    }
    let report = reader.list_at(peers, "report")?;
    Ok(Permits {
        hosts,
        admin,
        report,
    })
}

/// The table that a text spells.
fn read_table(alloc: Global, text: &[u8]) -> Result<Table, PermitsFault> {
    match toml::table_from_slice(alloc, text) {
        Ok(table) => Ok(table),
        Err(error) if error.is_memory() => Err(PermitsFault::Memory),
        Err(error) => Err(PermitsFault::Text(Flaw::new(text, error))),
    }
}

/// A text that is read, for the lines of what is refused in it.
#[derive(Clone, Copy)]
struct Reader<'t> {
    alloc: Global,
    text: &'t [u8],
}

/// What is wrong with what stands under a name.
#[derive(Clone, Copy)]
enum Wrong {
    Unknown,
    NoTable,
    NoHost,
    NoList,
    ManyOrigins,
    Origin(OriginFlaw),
}

impl Reader<'_> {
    /// Why what stands under this name is refused, with its line.
    fn refusal(&self, name: &str, wrong: Wrong) -> PermitsFault {
        let Ok(copy) = String::from_str(self.alloc, name) else {
            return PermitsFault::Memory;
        };
        let line = line_of(self.alloc, self.text, name);
        match wrong {
            Wrong::Unknown => PermitsFault::Unknown(line, copy),
            Wrong::NoTable => PermitsFault::NoTable(line, copy),
            Wrong::NoHost => PermitsFault::Host(line, copy),
            Wrong::NoList => PermitsFault::NoList(line, copy),
            Wrong::ManyOrigins => PermitsFault::ManyOrigins(line, copy),
            Wrong::Origin(flaw) => PermitsFault::Origin(line, copy, flaw),
        }
    }

    /// Whether a table has no other names than these.
    fn check_names(&self, table: &Table, names: &[&str]) -> Result<(), PermitsFault> {
        for name in table.keys() {
            if !names.iter().any(|known| *known == name.as_str()) {
                return Err(self.refusal(name.as_str(), Wrong::Unknown));
            }
        }
        Ok(())
    }

    /// The table under a name, if one is there.
    fn table_at<'t>(
        &self,
        table: &'t Table,
        name: &str,
    ) -> Result<Option<&'t Table>, PermitsFault> {
        let Some(value) = table.get(name) else {
            return Ok(None);
        };
        match value.as_table() {
            Some(found) => Ok(Some(found)),
            None => Err(self.refusal(name, Wrong::NoTable)),
        }
    }

    /// The hosts of a table, each with its addresses.
    fn read_hosts(&self, table: &Table) -> Result<Hosts, PermitsFault> {
        if HOSTS < table.len() {
            return Err(PermitsFault::ManyHosts);
        }
        let mut hosts = Hosts::new(self.alloc);
        for (name, value) in table {
            self.add_host(&mut hosts, name.as_str(), value)?;
        }
        Ok(hosts)
    }

    /// Adds a host by its name, with its addresses.
    fn add_host(&self, hosts: &mut Hosts, name: &str, value: &Value) -> Result<(), PermitsFault>
        ensures { OnOk result (AddsHost name.now (view value.now) hosts.old hosts.new) }
    {
        let origins = self.read_host(name, value)?;
        let host = Host::from_slice(self.alloc, name.as_bytes())?;
        hosts.put(host, origins)?;
        Ok(())
    }

    /// The addresses of a host of this name.
    fn read_host(&self, name: &str, value: &Value) -> Result<Vec<Origin>, PermitsFault>
        ensures { IfOk result (λ origins. IsHostLine name.now (view value.now) origins.items) }
    {
        if !is_host(name.as_bytes()) {
            return Err(self.refusal(name, Wrong::NoHost));
        }
        self.read_list(name, value)
    }

    /// The entries of the list under a name, which has none where it isn't there.
    fn list_at(&self, table: &Table, name: &str) -> Result<Vec<Origin>, PermitsFault> {
        match table.get(name) {
            Some(value) => self.read_list(name, value),
            None => Ok(Vec::new(self.alloc)),
        }
    }

    /// The entries of a list, which stands under this name.
    fn read_list(&self, name: &str, value: &Value) -> Result<Vec<Origin>, PermitsFault>
        ensures { IfOk result (λ origins. IsListOf (view value.now) origins.items) }
    {
        let Some(entries) = value.as_array() else {
            return Err(self.refusal(name, Wrong::NoList));
        };
        if ORIGINS < entries.len() {
            return Err(self.refusal(name, Wrong::ManyOrigins));
        }
        self.read_entries(name, entries.as_slice())
    }

    /// What these entries write, of a list under this name.
    fn read_entries(&self, name: &str, entries: &[Value]) -> Result<Vec<Origin>, PermitsFault>
        ensures { IfOk result (λ origins. AreOrigins (items_view entries.now) origins.items) }
    {
        let mut origins = Vec::new(self.alloc);
        for entry in entries {
            origins.push(self.read_entry(name, entry)?)?;
        }
        Ok(origins)
    }

    /// What an entry writes, of a list under this name.
    fn read_entry(&self, name: &str, entry: &Value) -> Result<Origin, PermitsFault>
        ensures { IfOk result (IsOrigin (view entry.now)) }
    {
        let Some(text) = entry.as_str() else {
            return Err(self.refusal(name, Wrong::NoList));
        };
        match read_origin(text) {
            Ok(origin) => Ok(origin),
            Err(flaw) => Err(self.refusal(text, Wrong::Origin(flaw))),
        }
    }
}
