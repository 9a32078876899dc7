//! The subcommands and their options.
ghost use Rattle.std.specs.Prelude.{◌≡◌, map};
ghost use Rattle.mq_words.specs.CommandLine.{audit_shape, day_shape, filter_shape, forget_shape};
ghost use Rattle.mq_words.specs.CommandLine.{init_shape, limit_shape, limits_shape, replay_shape};
ghost use Rattle.mq_words.specs.CommandLine.{report_shape, resume_shape, retire_shape};
ghost use Rattle.mq_words.specs.CommandLine.{server_shape, shape_of_subcommand, status_shape};
ghost use Rattle.mq_words.specs.CommandLine.{stop_shape, subcommand_shapes};

use mq_process::{FILTER_SETTINGS, SERVER_SETTINGS};
use mq_request::bounds::{AMOUNT_LIMIT, FIRST_MOMENT, LAST_DAY, LAST_MOMENT, LAST_RUN};

/// The numbers from the least to the most.
#[derive(Clone, Copy)]
pub struct Range<N> {
    /// The first number of the range.
    pub least: N,
    /// The last number of the range.
    pub most: N,
}

/// Day numbers, from 1970-01-01 on.
pub const DAYS: Range<u32> = Range {
    least: 0,
    most: LAST_DAY,
};

/// Day numbers with a later one: `stop` and `resume` set the limit from the next day on too.
pub const EARLIER_DAYS: Range<u32> = Range {
    least: 0,
    most: LAST_DAY - 1,
};

/// Recipients of a login and day.
pub const AMOUNTS: Range<u32> = Range {
    least: 0,
    most: AMOUNT_LIMIT,
};

/// Connections of a server.
pub const CROWDS: Range<u32> = Range {
    least: 1,
    most: 1_000_000,
};

/// Logins of a report.
pub const TOPS: Range<u32> = Range {
    least: 1,
    most: 1_000_000,
};

/// Minutes between the begin of a day and UTC's.
pub const MINUTES: Range<u32> = Range {
    least: 0,
    most: 1439,
};

/// Runs of a host's filter.
pub const RUNS: Range<u64> = Range {
    least: 1,
    most: LAST_RUN,
};

/// Seconds since 1970-01-01 UTC.
pub const MOMENTS: Range<u64> = Range {
    least: FIRST_MOMENT,
    most: LAST_MOMENT,
};

/// What an option takes.
#[derive(Clone, Copy)]
pub enum Takes {
    Nothing,
    Text,
    /// One text each time that it is given, of any number of times.
    Texts,
    /// A day, by its number or its date, or one of yesterday, today and tomorrow.
    Day(Range<u32>),
    /// A number of recipients, or `default`.
    Limit,
    Number(Range<u32>),
    LongNumber(Range<u64>),
}

/// Which other options an option goes with.
#[derive(Clone, Copy)]
pub enum Need {
    Optional,
    Required,
    /// It is one of the options of this group, of which at most one is given.
    OneOf(&'static str),
    /// It may not be given where the option or group of this name is.
    Without(&'static str),
    /// It may be given only where the option of this name is.
    With(&'static str),
}

/// An option of a subcommand, or one of the words that stand without a name.
#[derive(Clone, Copy)]
pub struct CommandOption {
    pub name: &'static str,
    /// How help names what it takes.
    pub value: &'static str,
    pub help: &'static str,
    pub takes: Takes,
    pub need: Need,
    /// What stands for one that isn't given.
    pub default: Option<&'static str>,
}

/// A subcommand and its options.
#[derive(Clone, Copy)]
pub struct Subcommand {
    pub name: &'static str,
    pub about: &'static str,
    /// How help shows its words, where that isn't made of its options.
    pub usage: Option<&'static str>,
    /// The words without a name, in order.
    pub words: &'static [CommandOption],
    pub options: &'static [CommandOption],
    /// The groups of options of each of which one has to be given.
    pub groups: &'static [&'static str],
}

/// The group of options that name the server that is asked.
const ASKED: &str = "asked server";

/// The group of options that name a login.
const NAMED: &str = "named login";

/// The group of options that name a day.
const DATED: &str = "named day";

/// The group of options that say what a login may have.
const CAPPED: &str = "given limit";

const CONFIG: CommandOption = CommandOption {
    name: "config",
    value: "FILE",
    help: "Settings",
    takes: Takes::Text,
    need: Need::Optional,
    default: Some(SERVER_SETTINGS),
};

const FILTER_CONFIG: CommandOption = CommandOption {
    name: "config",
    value: "FILE",
    help: "Settings",
    takes: Takes::Text,
    need: Need::Optional,
    default: Some(FILTER_SETTINGS),
};

const ASKED_CONFIG: CommandOption = CommandOption {
    name: "config",
    value: "FILE",
    help: "Settings of the server: its address and its days",
    takes: Takes::Text,
    need: Need::Optional,
    default: None,
};

const RETIRED_CONFIG: CommandOption = CommandOption {
    name: "config",
    value: "FILE",
    help: "Settings of the server, where --host is given",
    takes: Takes::Text,
    need: Need::With("host"),
    default: None,
};

const CHECK: CommandOption = CommandOption {
    name: "check",
    value: "",
    help: "Check the settings, ask the server, and end",
    takes: Takes::Nothing,
    need: Need::Optional,
    default: None,
};

const ANY_SERVER: CommandOption = CommandOption {
    name: "server",
    value: "ADDRESS",
    help: "Numeric address and port of a server; may be repeated",
    takes: Takes::Texts,
    need: Need::OneOf(ASKED),
    default: None,
};

const ITS_SETTINGS: CommandOption = CommandOption {
    name: "config",
    value: "FILE",
    help: "Settings of the server: read its file if it's silent",
    takes: Takes::Text,
    need: Need::OneOf(ASKED),
    default: None,
};

const PROBED_HOST: CommandOption = CommandOption {
    name: "host",
    value: "HOST",
    help: "Also ask whether this mail host's requests are taken",
    takes: Takes::Text,
    need: Need::Without("config"),
    default: None,
};

const CREATE: CommandOption = CommandOption {
    name: "create",
    value: "",
    help: "Make a new ledger; one in memory is always new",
    takes: Takes::Nothing,
    need: Need::Optional,
    default: None,
};

const CONNECTIONS: CommandOption = CommandOption {
    name: "connections",
    value: "N",
    help: "End after so many connections",
    takes: Takes::Number(CROWDS),
    need: Need::Optional,
    default: Some("1000000"),
};

const ENDLESS: CommandOption = CommandOption {
    name: "endless",
    value: "",
    help: "Serve any number of connections",
    takes: Takes::Nothing,
    need: Need::Without("connections"),
    default: None,
};

const RUN: CommandOption = CommandOption {
    name: "run",
    value: "N",
    help: "Number of the run; else the clock's milliseconds",
    takes: Takes::LongNumber(RUNS),
    need: Need::Optional,
    default: None,
};

const SERVER: CommandOption = CommandOption {
    name: "server",
    value: "ADDRESS",
    help: "Numeric address and port of the server",
    takes: Takes::Text,
    need: Need::Optional,
    default: None,
};

const SERVERS: CommandOption = CommandOption {
    name: "server",
    value: "ADDRESS",
    help: "Numeric address and port of a server; repeatable",
    takes: Takes::Texts,
    need: Need::Optional,
    default: None,
};

const HOST: CommandOption = CommandOption {
    name: "host",
    value: "HOST",
    help: "Name under which it asks",
    takes: Takes::Text,
    need: Need::Optional,
    default: Some("admin"),
};

const RETIRED_HOST: CommandOption = CommandOption {
    name: "host",
    value: "HOST",
    help: "Mail host; else that of /etc/mailquota/filter.toml",
    takes: Takes::Text,
    need: Need::Optional,
    default: None,
};

const RETIRED_RUN: CommandOption = CommandOption {
    name: "run",
    value: "N",
    help: "Retire runs below this; else below the clock's time",
    takes: Takes::LongNumber(RUNS),
    need: Need::Optional,
    default: None,
};

const LOGIN_WORD: CommandOption = CommandOption {
    name: "LOGIN",
    value: "LOGIN",
    help: "Login, as a report prints it",
    takes: Takes::Text,
    need: Need::OneOf(NAMED),
    default: None,
};

const LOGIN: CommandOption = CommandOption {
    name: "login",
    value: "LOGIN",
    help: "Login as smtpd reports it, in place of LOGIN",
    takes: Takes::Text,
    need: Need::OneOf(NAMED),
    default: None,
};

const LOGIN_TEXT: CommandOption = CommandOption {
    name: "login-text",
    value: "TEXT",
    help: "Login as a report prints it, in place of LOGIN",
    takes: Takes::Text,
    need: Need::OneOf(NAMED),
    default: None,
};

const FROM: CommandOption = CommandOption {
    name: "from",
    value: "DAY",
    help: "The limit's first day, as 2026-11-30; else today",
    takes: Takes::Day(DAYS),
    need: Need::OneOf(DATED),
    default: None,
};

const AGO: CommandOption = CommandOption {
    name: "ago",
    value: "N",
    help: "That many days before today",
    takes: Takes::Number(DAYS),
    need: Need::OneOf(DATED),
    default: None,
};

const CAP_WORD: CommandOption = CommandOption {
    name: "CAP",
    value: "CAP",
    help: "Recipients a day, or default",
    takes: Takes::Limit,
    need: Need::OneOf(CAPPED),
    default: None,
};

const CAP: CommandOption = CommandOption {
    name: "cap",
    value: "N",
    help: "Recipients a day, in place of CAP",
    takes: Takes::Limit,
    need: Need::OneOf(CAPPED),
    default: None,
};

const DAY: CommandOption = CommandOption {
    name: "day",
    value: "DAY",
    help: "Date as 2026-11-30, number or yesterday; else today",
    takes: Takes::Day(DAYS),
    need: Need::OneOf(DATED),
    default: None,
};

const EARLIER_DAY: CommandOption = CommandOption {
    name: "day",
    value: "DAY",
    help: "Date as 2026-11-30, number or yesterday; else today",
    takes: Takes::Day(EARLIER_DAYS),
    need: Need::OneOf(DATED),
    default: None,
};

const FORCE: CommandOption = CommandOption {
    name: "force",
    value: "",
    help: "Also on another day, or if it sent nothing lately",
    takes: Takes::Nothing,
    need: Need::Optional,
    default: None,
};

const ALL: CommandOption = CommandOption {
    name: "all",
    value: "",
    help: "Also from each later day with a limit of its own",
    takes: Takes::Nothing,
    need: Need::Optional,
    default: None,
};

const WAIT: CommandOption = CommandOption {
    name: "wait",
    value: "",
    help: "Ask a server that is away again, for up to an hour",
    takes: Takes::Nothing,
    need: Need::Optional,
    default: None,
};

const MORE: CommandOption = CommandOption {
    name: "cap",
    value: "N",
    help: "Recipients more, each day; else the limit it had",
    takes: Takes::Number(AMOUNTS),
    need: Need::Optional,
    default: None,
};

const EACH: CommandOption = CommandOption {
    name: "each",
    value: "",
    help: "Show several servers apart, not their sums",
    takes: Takes::Nothing,
    need: Need::Optional,
    default: None,
};

const JSON: CommandOption = CommandOption {
    name: "json",
    value: "",
    help: "Print JSON",
    takes: Takes::Nothing,
    need: Need::Optional,
    default: None,
};

const REPORT_JSON: CommandOption = CommandOption {
    name: "json",
    value: "",
    help: "Print JSON; of several servers the sums",
    takes: Takes::Nothing,
    need: Need::Without("each"),
    default: None,
};

const PROBE_JSON: CommandOption = CommandOption {
    name: "json",
    value: "",
    help: "Print JSON, an object a line",
    takes: Takes::Nothing,
    need: Need::Without("config"),
    default: None,
};

const TOP: CommandOption = CommandOption {
    name: "top",
    value: "N",
    help: "The N logins that used most, most first",
    takes: Takes::Number(TOPS),
    need: Need::Without(NAMED),
    default: None,
};

const DAY_WORD: CommandOption = CommandOption {
    name: "DAY",
    value: "DAY",
    help: "Date as 2026-11-30, number, or yesterday, today, tomorrow",
    takes: Takes::Day(DAYS),
    need: Need::Optional,
    default: None,
};

const AT: CommandOption = CommandOption {
    name: "at",
    value: "SECONDS",
    help: "Second since 1970-01-01 UTC; else now",
    takes: Takes::LongNumber(MOMENTS),
    need: Need::Without("DAY"),
    default: None,
};

const DEFAULT: CommandOption = CommandOption {
    name: "default",
    value: "N",
    help: "Limit of a login that has none of its own",
    takes: Takes::Number(AMOUNTS),
    need: Need::Optional,
    default: Some("100"),
};

const SQL: CommandOption = CommandOption {
    name: "sql",
    value: "",
    help: "Keep the ledger in tables in memory",
    takes: Takes::Nothing,
    need: Need::Optional,
    default: None,
};

const EAST: CommandOption = CommandOption {
    name: "east",
    value: "M",
    help: "Minutes that a day begins before UTC's",
    takes: Takes::Number(MINUTES),
    need: Need::Optional,
    default: Some("0"),
};

const WEST: CommandOption = CommandOption {
    name: "west",
    value: "M",
    help: "Minutes that a day begins after UTC's",
    takes: Takes::Number(MINUTES),
    need: Need::Optional,
    default: Some("0"),
};

const RULE: CommandOption = CommandOption {
    name: "rule",
    value: "RULE",
    help: "Zone rule of the days, such as CET-1CEST,M3.5.0,M10.5.0/3",
    takes: Takes::Text,
    need: Need::Optional,
    default: None,
};

const BEFORE: CommandOption = CommandOption {
    name: "before",
    value: "DAY",
    help: "First day that is kept: its date or its number",
    takes: Takes::Day(DAYS),
    need: Need::Required,
    default: None,
};

const INTO: CommandOption = CommandOption {
    name: "into",
    value: "FILE",
    help: "Database file to make, which must not be there",
    takes: Takes::Text,
    need: Need::Required,
    default: None,
};

static INIT_COMMAND: Subcommand = Subcommand {
    name: "init",
    about: "Make the ledger of a server's settings",
    usage: None,
    words: &[],
    options: &[CONFIG],
    groups: &[],
};

static SERVER_COMMAND: Subcommand = Subcommand {
    name: "server",
    about: "Serve the ledger to filters",
    usage: None,
    words: &[],
    options: &[CONFIG, CREATE, CONNECTIONS, ENDLESS],
    groups: &[],
};

static FILTER_COMMAND: Subcommand = Subcommand {
    name: "filter",
    about: "Answer smtpd on standard input and output",
    usage: None,
    words: &[],
    options: &[FILTER_CONFIG, RUN, CHECK],
    groups: &[],
};

static STATUS_COMMAND: Subcommand = Subcommand {
    name: "status",
    about: "Say whether the quota server answers",
    usage: None,
    words: &[],
    options: &[ANY_SERVER, PROBED_HOST, ITS_SETTINGS, PROBE_JSON],
    groups: &[],
};

static LIMIT_COMMAND: Subcommand = Subcommand {
    name: "limit",
    about: "Set the limit of a login from a day on",
    usage: Some("mailquota limit [OPTIONS] <LOGIN> <CAP>"),
    words: &[LOGIN_WORD, CAP_WORD],
    options: &[
        SERVERS,
        ASKED_CONFIG,
        HOST,
        LOGIN,
        LOGIN_TEXT,
        FROM,
        AGO,
        CAP,
        RUN,
    ],
    groups: &[NAMED, CAPPED],
};

static STOP_COMMAND: Subcommand = Subcommand {
    name: "stop",
    about: "Let a login have nothing more, today and on each later day",
    usage: Some("mailquota stop [OPTIONS] <LOGIN>"),
    words: &[LOGIN_WORD],
    options: &[
        SERVERS,
        ASKED_CONFIG,
        HOST,
        LOGIN,
        LOGIN_TEXT,
        EARLIER_DAY,
        AGO,
        FORCE,
        ALL,
        WAIT,
    ],
    groups: &[NAMED],
};

static RESUME_COMMAND: Subcommand = Subcommand {
    name: "resume",
    about: "Let a login have more again, today and on each later day",
    usage: Some("mailquota resume [OPTIONS] <LOGIN>"),
    words: &[LOGIN_WORD],
    options: &[
        SERVERS,
        ASKED_CONFIG,
        HOST,
        LOGIN,
        LOGIN_TEXT,
        EARLIER_DAY,
        AGO,
        MORE,
    ],
    groups: &[NAMED],
};

static DAY_COMMAND: Subcommand = Subcommand {
    name: "day",
    about: "Print a day's number and, on a terminal, its date",
    usage: None,
    words: &[DAY_WORD],
    options: &[CONFIG, AT, JSON],
    groups: &[],
};

static RETIRE_COMMAND: Subcommand = Subcommand {
    name: "retire",
    about: "Retire a host's earlier filters: what they reserved counts as sent",
    usage: None,
    words: &[],
    options: &[SERVER, RETIRED_CONFIG, RETIRED_HOST, RETIRED_RUN],
    groups: &[],
};

static REPORT_COMMAND: Subcommand = Subcommand {
    name: "report",
    about: "Print what logins used on a day",
    usage: None,
    words: &[LOGIN_WORD],
    options: &[
        SERVERS,
        ASKED_CONFIG,
        DAY,
        AGO,
        LOGIN,
        LOGIN_TEXT,
        TOP,
        EACH,
        REPORT_JSON,
    ],
    groups: &[],
};

static LIMITS_COMMAND: Subcommand = Subcommand {
    name: "limits",
    about: "Print the limits that are set in the ledger in a file",
    usage: None,
    words: &[],
    options: &[CONFIG, JSON],
    groups: &[],
};

static AUDIT_COMMAND: Subcommand = Subcommand {
    name: "audit",
    about: "Check the books of the ledger in a file",
    usage: None,
    words: &[],
    options: &[CONFIG, JSON],
    groups: &[],
};

static FORGET_COMMAND: Subcommand = Subcommand {
    name: "forget",
    about: "Make a new ledger file without the days before a day",
    usage: None,
    words: &[],
    options: &[CONFIG, BEFORE, INTO],
    groups: &[],
};

static REPLAY_COMMAND: Subcommand = Subcommand {
    name: "replay",
    about: "Answer frames in hexadecimal from standard input over a new ledger",
    usage: None,
    words: &[],
    options: &[DEFAULT, EAST, WEST, RULE, SQL],
    groups: &[],
};

// A clause can't name a table, and the proof of a whole one is dear: so each row is handed out with
// what clap reads of it.

fn init() -> &'static Subcommand
    ensures { shape_of_subcommand result.now ≡ init_shape }
{
    &INIT_COMMAND
}

fn server() -> &'static Subcommand
    ensures { shape_of_subcommand result.now ≡ server_shape }
{
    &SERVER_COMMAND
}

fn filter() -> &'static Subcommand
    ensures { shape_of_subcommand result.now ≡ filter_shape }
{
    &FILTER_COMMAND
}

fn status() -> &'static Subcommand
    ensures { shape_of_subcommand result.now ≡ status_shape }
{
    &STATUS_COMMAND
}

fn limit() -> &'static Subcommand
    ensures { shape_of_subcommand result.now ≡ limit_shape }
{
    &LIMIT_COMMAND
}

fn stop() -> &'static Subcommand
    ensures { shape_of_subcommand result.now ≡ stop_shape }
{
    &STOP_COMMAND
}

fn resume() -> &'static Subcommand
    ensures { shape_of_subcommand result.now ≡ resume_shape }
{
    &RESUME_COMMAND
}

fn day() -> &'static Subcommand
    ensures { shape_of_subcommand result.now ≡ day_shape }
{
    &DAY_COMMAND
}

fn retire() -> &'static Subcommand
    ensures { shape_of_subcommand result.now ≡ retire_shape }
{
    &RETIRE_COMMAND
}

fn report() -> &'static Subcommand
    ensures { shape_of_subcommand result.now ≡ report_shape }
{
    &REPORT_COMMAND
}

fn limits() -> &'static Subcommand
    ensures { shape_of_subcommand result.now ≡ limits_shape }
{
    &LIMITS_COMMAND
}

fn audit() -> &'static Subcommand
    ensures { shape_of_subcommand result.now ≡ audit_shape }
{
    &AUDIT_COMMAND
}

fn forget() -> &'static Subcommand
    ensures { shape_of_subcommand result.now ≡ forget_shape }
{
    &FORGET_COMMAND
}

fn replay() -> &'static Subcommand
    ensures { shape_of_subcommand result.now ≡ replay_shape }
{
    &REPLAY_COMMAND
}

/// The subcommands, in the order in which people need them.
pub fn subcommands() -> [&'static Subcommand; 14]
    ensures { map (λ s. shape_of_subcommand s.now) result ≡ subcommand_shapes }
{
    [
        init(),
        server(),
        filter(),
        status(),
        limit(),
        stop(),
        resume(),
        day(),
        retire(),
        report(),
        limits(),
        audit(),
        forget(),
        replay(),
    ]
}
