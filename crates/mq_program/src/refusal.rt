//! What the log says of a store that is refused.
ghost use Rattle.std.specs.Prelude.{◌≡◌, false};

use crate::fault::ProgramFault;
use log::{Log, error};
use mq_ledger::Zone;
use mq_request::EscapedText;
use mq_rows::VERSION;
use mq_settings::ServerSettings;
use mq_store::{OpenFault, OpenRefused};
use mq_tables::rule::{read_rule, rule_of};
use mq_tables::setting::read_setting;
use sqlite::{Alter, Connection, Error};
use std::fmt;

/// What a ledger is made with, as the log has it.
#[derive(Clone, Copy)]
pub(crate) enum Term<'a> {
    /// Minutes east of UTC.
    Offset(i64),
    /// A zone rule, or what stands in its place.
    Rule(&'a [u8]),
    /// The limit of a login that has none of its own.
    Default(i64),
}

impl fmt::Display for Term<'_> {
    fn fmt<W: fmt::Write>(&self, f: &mut fmt::Formatter<W>) -> fmt::Result {
        match self {
            Term::Offset(minutes) => write!(f, "offset {minutes}"),
            Term::Rule(text) => write!(f, "rule {}", EscapedText(text)),
            Term::Default(cap) => write!(f, "default {cap}"),
        }
    }
}

/// What the days of a zone go by.
pub(crate) fn days_by(zone: &Zone) -> Term<'_> {
    match zone.rule() {
        Some(text) => Term::Rule(text),
        None => Term::Offset(i64::from(zone.minutes())),
    }
}

/// The fault of a database in the file at a path that is refused; why is logged.
pub(crate) fn refused_by<G: Log, S: Alter + Drop>(
    log: &G,
    path: &str,
    create: bool,
    settings: &ServerSettings,
    refused: OpenRefused<S>,
) -> ProgramFault
    ensures { result ≡ ProgramFault.Open refused.fault }
{
    let OpenRefused { fault, connection } = refused;
    let mut connection = connection;
    if connection.is_autocommit() {
        log_refusal(log, path, create, settings, &fault, &mut connection);
    }
    ProgramFault::Open(fault)
}

/// Logs why a database is refused, as far as it can be read once more.
fn log_refusal<G: Log, S: Alter>(
    log: &G,
    path: &str,
    create: bool,
    settings: &ServerSettings,
    fault: &OpenFault,
    connection: &mut Connection<S>,
)
    requires autocommit { connection.old.in_transaction ≡ false }
{
    match fault {
        OpenFault::NotOurs if create => {
            error!(log; "{path}: a ledger, or a table that is named as one of its tables, is there");
        }
        OpenFault::NotOurs => log_foreign(log, path, connection),
        OpenFault::ZoneDiffers => log_zone(log, path, &settings.zone, connection),
        OpenFault::DefaultDiffers => log_default(log, path, settings.default, connection),
        OpenFault::Store(cause) => error!(log; "{path}: {cause}"),
        // The last line says all of it.
        OpenFault::Damaged { .. } | OpenFault::Memory => {}
    }
}

/// Logs what a database lacks that is no ledger's.
fn log_foreign<G: Log, S: Alter>(log: &G, path: &str, connection: &mut Connection<S>)
    requires autocommit { connection.old.in_transaction ≡ false }
{
    match read_setting(connection) {
        Ok(Some(setting)) => log_version(log, path, setting.version),
        Ok(None) => error!(log; "{path}: no ledger: its settings are no numbers"),
        Err(Error::QueryReturnedNoRows) => error!(log; "{path}: no ledger: it has no settings"),
        Err(cause) => error!(log; "{path}: no ledger: {cause}"),
    }
}

/// Logs what is wrong with tables that say of themselves that they have this version.
fn log_version<G: Log>(log: &G, path: &str, version: i64) {
    if (1..=i64::from(VERSION)).contains(&version) {
        error!(
            log;
            "{path}: tables of version {version}, but one is missing, is one too many or has wrong contents"
        );
    } else {
        error!(log; "{path}: tables of version {version}, this program knows 1 to {VERSION}");
    }
}

/// Logs what the days of a ledger go by, and those of the settings.
fn log_zone<G: Log, S: Alter>(log: &G, path: &str, zone: &Zone, connection: &mut Connection<S>)
    requires autocommit { connection.old.in_transaction ≡ false }
{
    let setting = read_setting(connection);
    let rule = read_rule(connection);
    let rule = match &rule {
        Ok(row) => rule_of(row),
        Err(_) => None,
    };
    match (rule, setting) {
        (Some(text), _) => log_terms(log, path, Term::Rule(text), days_by(zone)),
        (None, Ok(Some(setting))) => {
            log_terms(log, path, Term::Offset(setting.minutes), days_by(zone));
        }
        _ => {}
    }
}

/// Logs what a ledger was made with, and what the settings have in its place.
fn log_terms<G: Log>(log: &G, path: &str, made: Term<'_>, asked: Term<'_>) {
    error!(log; "{path}: made with {made}, the settings have {asked}");
}

/// Logs the default of a ledger, and that of the settings.
fn log_default<G: Log, S: Alter>(log: &G, path: &str, default: u32, connection: &mut Connection<S>)
    requires autocommit { connection.old.in_transaction ≡ false }
{
    if let Ok(Some(setting)) = read_setting(connection) {
        let asked = Term::Default(i64::from(default));
        log_terms(log, path, Term::Default(setting.cap), asked);
    }
}
