//! The settings of the filter and of the server, read from TOML.
ghost use Rattle.std.specs.Prelude.{IfOk, IfErr};
ghost use Rattle.toml.specs.Data.{Members};
ghost use Rattle.mq_settings.specs.Settings.{Spells, IsFilterSettings, IsFilterRefusal};
ghost use Rattle.mq_settings.specs.Settings.{IsServerSettings};
ghost use Rattle.mq_settings.specs.Settings.{IsServerRefusal};

mod address;
mod fault;
mod flaw;
mod key;
mod table;
mod value;

pub use address::{AddressFlaw, address_flaw};
pub use fault::SettingsFault;
pub use flaw::Flaw;
pub use key::Key;
use log::LevelFilter;
use mq_ledger::Zone;
use mq_request::Host;
use std::alloc::Global;
use std::net::SocketAddr;
pub use value::Place;

/// What the filter runs by.
#[derive(Debug, Drop)]
pub struct FilterSettings {
    /// The name under which this host asks, 1 to 64 bytes.
    pub host: Host,
    /// The quota server's address and port.
    pub server: SocketAddr,
    /// How often a request is sent, 1 to 10.
    pub tries: u32,
    /// Milliseconds of each connect, read and write, 1 to 60,000.
    pub timeout: u32,
    /// For how many seconds no request is sent after one that got no answer in time, 0 to 3,600.
    pub pause: u32,
    /// For how many seconds a login isn't asked for after its limit was reached, 0 to 60.
    pub hold: u32,
    /// The connection of a request is kept for the next one.
    pub keep_connection: bool,
    /// Which lines are logged: those of this level and the levels before it.
    pub log: LevelFilter,
    /// The path of the file to which its figures are written: none, if nothing is said.
    pub metrics: Option<String>,
}

/// What the server runs by.
#[derive(Debug, Drop)]
pub struct ServerSettings {
    /// The address and port at which it listens.
    pub listen: SocketAddr,
    /// Where the ledger is kept.
    pub store: Place,
    /// The limit of a login that has none of its own, 0 to 1,000,000 recipients a day.
    pub default: u32,
    /// What the ledger's days go by.
    pub zone: Zone,
    /// How many days before today are kept while it serves, 1 to 366: all, if nothing is said.
    pub keep: Option<u32>,
    /// For how many milliseconds a peer may neither send nor take anything, 1 to 60,000. Until all
    /// that it asked is answered, it has twice as long.
    pub timeout: u32,
    /// For how many seconds a connection may stay without a request after one, 1 to 3,600.
    pub idle: u32,
    /// Which lines are logged: those of this level and the levels before it.
    pub log: LevelFilter,
    /// The path of the file that lists who may ask what: everybody everything, if nothing is said.
    pub permits: Option<String>,
    /// The path of the file to which its figures are written: none, if nothing is said.
    pub metrics: Option<String>,
}

const FILTER_KEYS: [Key; 9] = [
    Key::Host,
    Key::Server,
    Key::Tries,
    Key::Timeout,
    Key::Pause,
    Key::Hold,
    Key::KeepConnection,
    Key::Log,
    Key::Metrics,
];

const SERVER_KEYS: [Key; 11] = [
    Key::Listen,
    Key::Store,
    Key::Default,
    Key::Offset,
    Key::Rule,
    Key::Keep,
    Key::Timeout,
    Key::Idle,
    Key::Log,
    Key::Permits,
    Key::Metrics,
];

/// Reads the filter's settings.
///
/// That memory runs out may be met before any other cause of refusal.
pub fn read_filter_settings(alloc: Global, text: &[u8]) -> Result<FilterSettings, SettingsFault>
    ensures settings { IfOk result (λ settings. (table : Members) × Spells text.now table
        × IsFilterSettings table settings) }
    ensures refusal { IfErr result (IsFilterRefusal text.now) }
{
    let table = table::read_table(alloc, text, &FILTER_KEYS)?;
    let host = value::read_host(alloc, &table)?;
    let server = value::read_address(&table, Key::Server)?;
    let tries = value::read_count(&table, Key::Tries, 1, 10, Some(3))?;
    let timeout = value::read_count(&table, Key::Timeout, 1, 60_000, Some(2_000))?;
    let pause = value::read_count(&table, Key::Pause, 0, 3_600, Some(0))?;
    let hold = value::read_count(&table, Key::Hold, 0, 60, Some(0))?;
    let keep_connection = value::read_keep_connection(&table)?;
    let log = value::read_level(&table)?;
    let metrics = value::read_path(alloc, &table, Key::Metrics)?;
    Ok(FilterSettings {
        host,
        server,
        tries,
        timeout,
        pause,
        hold,
        keep_connection,
        log,
        metrics,
    })
}

/// Reads the server's settings.
///
/// That memory runs out may be met before any other cause of refusal.
pub fn read_server_settings(alloc: Global, text: &[u8]) -> Result<ServerSettings, SettingsFault>
    ensures settings { IfOk result (λ settings. (table : Members) × Spells text.now table
        × IsServerSettings table settings) }
    ensures refusal { IfErr result (IsServerRefusal text.now) }
{
    let table = table::read_table(alloc, text, &SERVER_KEYS)?;
    let listen = value::read_address(&table, Key::Listen)?;
    let store = value::read_place(alloc, &table)?;
    let default = value::read_count(&table, Key::Default, 0, 1_000_000, None)?;
    let zone = value::read_zone(&table)?;
    let keep = value::read_keep(&table)?;
    let timeout = value::read_count(&table, Key::Timeout, 1, 60_000, Some(2_000))?;
    let idle = value::read_count(&table, Key::Idle, 1, 3_600, Some(60))?;
    let log = value::read_level(&table)?;
    let permits = value::read_path(alloc, &table, Key::Permits)?;
    let metrics = value::read_path(alloc, &table, Key::Metrics)?;
    Ok(ServerSettings {
        listen,
        store,
        default,
        zone,
        keep,
        timeout,
        idle,
        log,
        permits,
        metrics,
    })
}
