//! The figures of a server.

use crate::connections::ConnectionCounts;
use crate::counts::{Counter, Gauge};
use crate::histogram::Histogram;
use crate::requests::RequestCounts;
use crate::text::{FigureKind, Label, write_head, write_value};
use crate::warnings::WarningCounts;
use std::fmt;

/// What a server is.
#[derive(Drop)]
pub struct ServerBuild {
    /// The program's version.
    pub version: String,
    /// The ledger's zone, as the log has it.
    pub zone: String,
}

/// The figures of a server, since it started. Times of day are milliseconds since
/// 1970-01-01T00:00:00Z, times that something took are milliseconds, sizes are bytes, and days are
/// day numbers since 1970-01-01, by the ledger's zone.
#[derive(Drop)]
pub struct ServerMetrics {
    pub build: ServerBuild,
    /// When the server started.
    pub started: Gauge,
    /// When the figures are told.
    pub written: Gauge,
    pub requests: RequestCounts,
    /// Recipients that reserves were granted, each once since this counts.
    pub granted: Counter,
    /// Recipients that releases gave back, and that settles left over of transactions that began
    /// since this counts.
    pub released: Counter,
    pub connections: ConnectionCounts,
    /// What the ledger took for a request, or for those of a round together.
    pub commits: Histogram,
    /// From the read that brought a request until its reply was handed to the system.
    pub replies: Histogram,
    /// The answers that the ledger had as they were counted last: with nights at the start and after
    /// each of them, else as the figures were told.
    pub answers: Gauge,
    /// The open transactions that began since it is counted.
    pub transactions: Gauge,
    /// The size of the ledger's file.
    pub ledger_bytes: Gauge,
    /// The size of the log beside it.
    pub log_bytes: Gauge,
    /// The memory that the server has.
    pub memory_bytes: Gauge,
    /// The limit of a login that has none of its own.
    pub default_limit: Gauge,
    pub warnings: WarningCounts,
    pub night: NightMetrics,
}

/// The figures of the last night in which days were forgotten.
#[derive(Default, Drop)]
pub struct NightMetrics {
    /// When it was over.
    pub over: Gauge,
    /// How long it took.
    pub took: Gauge,
    /// The answers that it kept.
    pub answers: Gauge,
    /// The first day that it kept.
    pub day: Gauge,
}

impl ServerMetrics {
    /// Those of a server that has done nothing yet.
    pub fn new(build: ServerBuild) -> ServerMetrics {
        ServerMetrics {
            build,
            started: Gauge::new(),
            written: Gauge::new(),
            requests: RequestCounts::new(),
            granted: Counter::new(),
            released: Counter::new(),
            connections: ConnectionCounts::new(),
            commits: Histogram::new(),
            replies: Histogram::new(),
            answers: Gauge::new(),
            transactions: Gauge::new(),
            ledger_bytes: Gauge::new(),
            log_bytes: Gauge::new(),
            memory_bytes: Gauge::new(),
            default_limit: Gauge::new(),
            warnings: WarningCounts::new(),
            night: NightMetrics::default(),
        }
    }

    /// What the server is, and since when.
    fn write_server<W: fmt::Write>(&self, f: &mut fmt::Formatter<W>) -> fmt::Result {
        let name = "mailquota_server_info";
        write_head(
            f,
            name,
            FigureKind::Gauge,
            "The server's version, and its ledger's zone.",
        )?;
        let labels = [
            Label {
                name: "version",
                value: self.build.version.as_str(),
            },
            Label {
                name: "zone",
                value: self.build.zone.as_str(),
            },
        ];
        write_value(f, name, &labels, &1u32)?;
        self.started.write_millis(
            f,
            "mailquota_server_start_time_seconds",
            "When the server started, in seconds since 1970.",
        )?;
        self.written.write_millis(
            f,
            "mailquota_server_written_time_seconds",
            "When this file was written, in seconds since 1970.",
        )
    }

    /// What was asked, and what it came to.
    fn write_requests<W: fmt::Write>(&self, f: &mut fmt::Formatter<W>) -> fmt::Result {
        self.requests.write(
            f,
            "mailquota_server_requests_total",
            "Requests by their kinds and by what they came to. A reserve that was granted since the \
                server started, and comes again, is repeated; others count each time as what they came to.",
        )?;
        self.granted.write(
            f,
            "mailquota_server_recipients_granted_total",
            "Recipients that reserves were granted, each once since the server started.",
        )?;
        self.released.write(
            f,
            "mailquota_server_recipients_released_total",
            "Recipients that releases gave back, and that settles left over of transactions that \
                began since the server started, each once.",
        )
    }

    /// The connections, and how long their peers waited.
    fn write_connections<W: fmt::Write>(&self, f: &mut fmt::Formatter<W>) -> fmt::Result {
        self.connections.open.write(
            f,
            "mailquota_server_connections",
            "Connections that are open.",
        )?;
        self.connections.accepted.write(
            f,
            "mailquota_server_connections_accepted_total",
            "Connections that were accepted.",
        )?;
        self.connections.write_given_up(
            f,
            "mailquota_server_connections_given_up_total",
            "Connections that were given up, by their causes.",
        )?;
        self.commits.write(
            f,
            "mailquota_server_commit_seconds",
            "What the ledger took for a request, or for those of a round together.",
        )?;
        self.replies.write(
            f,
            "mailquota_server_reply_seconds",
            "From the read that brought requests until their replies were handed to the system.",
        )
    }

    /// The ledger, its files and the memory.
    fn write_ledger<W: fmt::Write>(&self, f: &mut fmt::Formatter<W>) -> fmt::Result {
        self.answers.write(
            f,
            "mailquota_server_answers",
            "Answers that the ledger had as they were counted last: with the setting keep at the \
                start and after each night, else as this was written.",
        )?;
        self.transactions.write(
            f,
            "mailquota_server_open_transactions",
            "Open transactions that began since the server started, of 100,000 at most.",
        )?;
        self.write_files(f)?;
        self.memory_bytes.write(
            f,
            "mailquota_server_memory_bytes",
            "The memory that the server has.",
        )?;
        self.default_limit.write(
            f,
            "mailquota_server_default_limit",
            "The limit of a login that has none of its own: recipients a day.",
        )
    }

    /// The sizes of the ledger's files, where it has any.
    fn write_files<W: fmt::Write>(&self, f: &mut fmt::Formatter<W>) -> fmt::Result {
        let name = "mailquota_server_file_bytes";
        if self.ledger_bytes.get().is_none() && self.log_bytes.get().is_none() {
            return Ok(());
        }
        write_head(
            f,
            name,
            FigureKind::Gauge,
            "The sizes of the ledger's file and of its log.",
        )?;
        write_file_size(f, name, "ledger", &self.ledger_bytes)?;
        write_file_size(f, name, "log", &self.log_bytes)
    }

    /// What was warned of, and the last night.
    fn write_care<W: fmt::Write>(&self, f: &mut fmt::Formatter<W>) -> fmt::Result {
        self.warnings.write(
            f,
            "mailquota_server_warnings_total",
            "Warnings and errors, by the parts of the program that logged them.",
        )?;
        self.night.over.write_millis(
            f,
            "mailquota_server_last_night_time_seconds",
            "When days were forgotten last, in seconds since 1970.",
        )?;
        self.night.took.write_millis(
            f,
            "mailquota_server_last_night_seconds",
            "How long that took.",
        )?;
        self.night.answers.write(
            f,
            "mailquota_server_last_night_answers",
            "The answers that were kept then.",
        )?;
        self.night.day.write(
            f,
            "mailquota_server_last_night_day",
            "The first day that was kept then: days since 1970 by the ledger's zone.",
        )
    }
}

impl fmt::Display for ServerMetrics {
    fn fmt<W: fmt::Write>(&self, f: &mut fmt::Formatter<W>) -> fmt::Result {
        self.write_server(f)?;
        self.write_requests(f)?;
        self.write_connections(f)?;
        self.write_ledger(f)?;
        self.write_care(f)
    }
}

/// The size of a file, where it is known.
fn write_file_size<W: fmt::Write>(
    f: &mut fmt::Formatter<W>,
    name: &str,
    file: &str,
    size: &Gauge,
) -> fmt::Result {
    let label = Label {
        name: "file",
        value: file,
    };
    match size.get() {
        Some(bytes) => write_value(f, name, &[label], &bytes),
        None => Ok(()),
    }
}
