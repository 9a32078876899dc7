//! What the words of a command line ask for, as types: what each subcommand is given.

use crate::addresses::Servers;

/// The settings of a server where no words name others.
pub const SERVER_SETTINGS: &str = "/etc/mailquota/server.toml";

/// The settings of a filter where no words name others.
pub const FILTER_SETTINGS: &str = "/etc/mailquota/filter.toml";

/// The file that lists the servers which a command asks where no words name others.
pub const SERVERS_FILE: &str = "/etc/mailquota/servers.toml";

/// How what is asked for is printed.
#[derive(Clone, Copy)]
pub enum OutputArgument {
    /// As text: for people on a terminal, and for scripts elsewhere.
    Text,
    /// As JSON.
    Json,
}

/// What `replay` is given.
#[derive(Clone, Copy)]
pub struct ReplayArguments<'a> {
    /// The limit of a login that has none of its own, 0 to 1,000,000 recipients a day.
    pub default: u32,
    /// How far the ledger's days are east of UTC, in minutes: 0 to 1,439.
    pub east: u32,
    /// How far they are west of it, in minutes: 0 to 1,439. What counts is the difference.
    pub west: u32,
    /// The POSIX zone rule that the days go by in place of an offset.
    pub rule: Option<&'a str>,
    /// Whether the ledger is tables in a store in memory, and no list.
    pub sql: bool,
}

/// What `init` is given.
#[derive(Clone, Copy)]
pub struct InitArguments<'a> {
    /// The file of the server's settings.
    pub config: &'a str,
}

/// What `filter` is given.
#[derive(Clone, Copy)]
pub struct FilterArguments<'a> {
    /// The file of settings.
    pub config: &'a str,
    /// The number of the run, 1 to 281,474,976,710,655, or the clock's.
    pub run: Option<u64>,
    /// Whether it only looks at the settings and asks whether the server answers.
    pub check: bool,
}

/// How many connections are served.
#[derive(Clone, Copy)]
pub enum ConnectionsArgument {
    /// So many, 1 to 1,000,000.
    Count(u32),
    /// They have no end.
    Endless,
}

/// What `server` is given.
#[derive(Clone, Copy)]
pub struct ServerArguments<'a> {
    /// The file of settings.
    pub config: &'a str,
    /// Whether a new ledger is made in the database file of the settings.
    pub create: bool,
    /// How many connections are served.
    pub connections: ConnectionsArgument,
}

/// What `status` is given where it asks servers by their addresses.
#[derive(Drop)]
pub struct ProbeArguments<'a> {
    /// The servers that are asked, or none where settings name them.
    pub servers: Servers<'a>,
    /// The mail host of which it asks whether its requests are taken, or none.
    pub host: Option<&'a str>,
    /// How it is printed.
    pub output: OutputArgument,
}

/// What `status` is given where it asks the server of a file of settings.
#[derive(Clone, Copy)]
pub struct StatusArguments<'a> {
    /// The file of the server's settings.
    pub config: &'a str,
}

/// What `audit` is given.
#[derive(Clone, Copy)]
pub struct AuditArguments<'a> {
    /// The file of the server's settings.
    pub config: &'a str,
    /// How it is printed.
    pub output: OutputArgument,
}

/// What `limits` is given.
#[derive(Clone, Copy)]
pub struct LimitsArguments<'a> {
    /// The file of the server's settings.
    pub config: &'a str,
    /// How it is printed.
    pub output: OutputArgument,
}

/// What the words of `forget` ask for.
#[derive(Clone, Copy)]
pub struct ForgetWords<'a> {
    /// The file of the server's settings.
    pub config: &'a str,
    /// The first day that is remembered; a given number is 0 to 376,200.
    pub before: DayArgument,
    /// The database file that is made.
    pub into: &'a str,
}

/// What `forget` is given.
#[derive(Clone, Copy)]
pub struct ForgetArguments<'a> {
    /// The file of the server's settings.
    pub config: &'a str,
    /// The first day that is remembered, 0 to 376,200.
    pub before: u32,
    /// The database file that is made.
    pub into: &'a str,
}

/// How a login is named.
#[derive(Clone, Copy)]
pub enum LoginArgument<'a> {
    /// As smtpd reports it.
    Reported(&'a str),
    /// As a report prints it.
    Printed(&'a str),
}

/// How a day is named.
#[derive(Clone, Copy)]
pub enum DayArgument {
    /// Today, by the zone of the server's settings.
    Today,
    /// The day that is so many days before today, 0 to 376,200.
    Ago(u32),
    /// The day after today.
    Tomorrow,
    /// The day of this number.
    Given(u32),
}

/// The limit that a login is given.
#[derive(Clone, Copy)]
pub enum LimitArgument {
    /// So many recipients a day, 0 to 1,000,000.
    Recipients(u32),
    /// That of a login that has none of its own, at each server by itself.
    Default,
}

/// What `limit` is given.
#[derive(Drop)]
pub struct LimitArguments<'a> {
    /// The servers that are asked, or none where settings name them.
    pub servers: Servers<'a>,
    /// The file of the server's settings, or none.
    pub config: Option<&'a str>,
    /// The name under which the limit is asked for, as a host.
    pub host: &'a str,
    /// The login whose limit is set.
    pub login: LoginArgument<'a>,
    /// The day from which on the limit governs; a given number is 0 to 376,200.
    pub from: DayArgument,
    /// The limit.
    pub cap: LimitArgument,
    /// The number of the run, 1 to 281,474,976,710,655, or the clock's.
    pub run: Option<u64>,
}

/// What `stop` is given.
#[derive(Drop)]
pub struct StopArguments<'a> {
    /// The servers that are asked, or none where settings name them.
    pub servers: Servers<'a>,
    /// The file of the server's settings, or none.
    pub config: Option<&'a str>,
    /// The name under which the limits are asked for, as a host.
    pub host: &'a str,
    /// The login that is stopped.
    pub login: LoginArgument<'a>,
    /// The day from which on the login has nothing more; a given number is 0 to 376,199.
    pub day: DayArgument,
    /// Whether it is stopped also on a day that isn't today, or where it sent nothing lately.
    pub is_forced: bool,
    /// Whether it is stopped also from each later day on which its limit changes.
    pub is_all: bool,
    /// Whether servers that give no answer are asked again until they do, for an hour at most.
    pub is_waiting: bool,
}

/// What `resume` is given.
#[derive(Drop)]
pub struct ResumeArguments<'a> {
    /// The servers that are asked, or none where settings name them.
    pub servers: Servers<'a>,
    /// The file of the server's settings, or none.
    pub config: Option<&'a str>,
    /// The name under which the limits are asked for, as a host.
    pub host: &'a str,
    /// The login that has more again.
    pub login: LoginArgument<'a>,
    /// The day from which on the login has more again; a given number is 0 to 376,199.
    pub day: DayArgument,
    /// How many recipients more it has on that day, and on each later day, 0 to 1,000,000, or the
    /// limit that it had.
    pub cap: Option<u32>,
}

/// What `day` is given.
#[derive(Clone, Copy)]
pub struct DayArguments<'a> {
    /// The file of the server's settings.
    pub config: &'a str,
    /// The day that is asked for, or that of the moment; a given number is 0 to 376,200.
    pub named: Option<DayArgument>,
    /// The second since 1970-01-01T00:00:00Z whose day is asked for, 86,400 to 32,503,680,000, or
    /// the clock's.
    pub moment: Option<u64>,
    /// How it is printed.
    pub output: OutputArgument,
}

/// What `retire` is given.
#[derive(Clone, Copy)]
pub struct RetireArguments<'a> {
    /// The server's numeric address and port, or none where settings name the servers.
    pub server: Option<&'a str>,
    /// The file of the server's settings, or none.
    pub config: Option<&'a str>,
    /// The host whose runs are given up, or that of the filter's settings.
    pub host: Option<&'a str>,
    /// The number of the run below which they are given up, 1 to 281,474,976,710,655, or the
    /// clock's.
    pub run: Option<u64>,
}

/// What `report` is given.
#[derive(Drop)]
pub struct ReportArguments<'a> {
    /// The servers that are asked, or none where settings name them.
    pub servers: Servers<'a>,
    /// The file of the server's settings, or none.
    pub config: Option<&'a str>,
    /// The day that is reported; a given number is 0 to 376,200.
    pub day: DayArgument,
    /// The one login that is reported, or all.
    pub login: Option<LoginArgument<'a>>,
    /// How many logins are reported, those that used most, 1 to 1,000,000, or all.
    pub top: Option<u32>,
    /// Whether several servers are shown apart, and not their sums.
    pub is_each: bool,
    /// How it is printed.
    pub output: OutputArgument,
}

/// What the words ask for.
#[derive(Drop)]
pub enum Arguments<'a> {
    Init(InitArguments<'a>),
    Status(StatusArguments<'a>),
    Probe(ProbeArguments<'a>),
    Replay(ReplayArguments<'a>),
    Filter(FilterArguments<'a>),
    Server(ServerArguments<'a>),
    Limit(LimitArguments<'a>),
    Retire(RetireArguments<'a>),
    Stop(StopArguments<'a>),
    Resume(ResumeArguments<'a>),
    Day(DayArguments<'a>),
    Report(ReportArguments<'a>),
    Limits(LimitsArguments<'a>),
    Audit(AuditArguments<'a>),
    Forget(ForgetWords<'a>),
}
