//! Why a subcommand isn't done before it asks a server or opens a ledger.
ghost use Rattle.std.specs.Prelude.{◌≡◌};

use mq_servers::ServersFault;
use mq_settings::{FileFault, SettingsFault};
use std::alloc::{AllocError, AllocFailed};
use thiserror::Error;

/// Why a subcommand isn't done before it asks a server or opens a ledger. Its text is printed after
/// `mailquota: `.
#[derive(Debug, Drop, Error)]
pub enum ProcessFault {
    #[error("bad host")]
    Host,
    #[error("bad login")]
    Login,
    #[error("bad address")]
    Address,
    /// The words name no server, and no settings are where they belong.
    #[error("no server is named; use --server, list it in /etc/mailquota/servers.toml, or copy the server's settings to /etc/mailquota/server.toml or the filter's to /etc/mailquota/filter.toml")]
    NoServer,
    /// The words name no day, and no settings of a server are where they belong, which have the
    /// zone of today.
    #[error("which day is today isn't known; use --day or --from with a date, or copy the server's settings, which have the zone, to /etc/mailquota/server.toml")]
    NoDay,
    /// The words name no host, and no settings of a filter are where they belong.
    #[error("no host is named; use --host, or copy the filter's settings to /etc/mailquota/filter.toml")]
    NoHost,
    #[error("out of memory")]
    Memory,
    #[error("{0}")]
    File(FileFault),
    #[error("{0}")]
    Settings(SettingsFault),
    /// The file that lists the servers lists none.
    #[error("{0}")]
    Servers(ServersFault),
    /// The server of the settings listens at all addresses of its machine, which isn't this one.
    #[error("the server listens at all addresses, and isn't known to run here; use --server, or list it in /etc/mailquota/servers.toml")]
    EveryAddress,
    /// More than 4,000 servers are to be summed up.
    #[error("more than 4000 servers")]
    ManyServers,
    /// The clock can't be read, or its milliseconds can't be a run's number.
    #[error("run number unavailable")]
    NoRun,
    /// The clock can't be read, or what it shows is before 1970-01-02 or after
    /// 3000-01-01T00:00:00Z.
    #[error("day unavailable")]
    NoMoment,
    /// The day that is given isn't today, which is the second one: by the zone of the settings, or
    /// in UTC where none are given.
    #[error("day {0} is not today, which is day {1}; use --force")]
    NotToday(u32, u32),
}

impl ProcessFault {
    ghost use Rattle.mq_process.specs.Faults.{process_status};

    /// The exit status: 2 where the words are at fault, else 1.
    pub fn status(&self) -> u8
        ensures { result ≡ process_status self.now }
    {
        match self {
            ProcessFault::Host
            | ProcessFault::Login
            | ProcessFault::Address
            | ProcessFault::NoServer
            | ProcessFault::EveryAddress
            | ProcessFault::ManyServers
            | ProcessFault::NoDay
            | ProcessFault::NoHost
            | ProcessFault::NotToday(_, _) => 2,
            _ => 1,
        }
    }
}

impl From<AllocError> for ProcessFault {
    ghost use Rattle.mq_process.specs.declared.fault.ProcessFault.TheVariants.{Memory};

    ghost from_gives = { λ _ fault. fault ≡ Memory };

    fn from(_error: AllocError) -> ProcessFault {
        ProcessFault::Memory
    }
}

impl<T: Drop> From<AllocFailed<T>> for ProcessFault {
    ghost use Rattle.mq_process.specs.declared.fault.ProcessFault.TheVariants.{Memory};

    ghost from_gives = { λ _ fault. fault ≡ Memory };

    fn from(_error: AllocFailed<T>) -> ProcessFault {
        ProcessFault::Memory
    }
}
