//! Why a store is refused, by the ledger that is to be opened and by each request.

ghost use Rattle.std.specs.Prelude.{◌≡◌, ◌&&◌, Some, None};
ghost use Rattle.std.specs.Ordering.{int_eq};
ghost use Rattle.mq_ledger.specs.Day.{minutes_in, rule_in};
ghost use Rattle.mq_store.specs.Causes.{answer_to, cause_in, first_cause, is_closed};
ghost use Rattle.mq_store.specs.Opening.{fault_of, fault_of_code, fault_in, fault_where};
ghost use Rattle.mq_store.specs.Opening.{fault_by_rule};
ghost use Rattle.mq_store.specs.Opening.{fault_by_any_rule, fault_by_floors, known_version};
ghost use Rattle.mq_store.specs.Opening.{same_rule, create_fault};
ghost use Rattle.mq_store.specs.Opening.{open_fault, within_transaction};

use mq_ledger::{LedgerFault, Zone};
use mq_request::{EscapedText, Login};
use mq_tables::floor::are_floors;
use mq_tables::rule::rule_of;
use mq_tables::setting::Setting;
use sqlite::{Alter, Connection, Error, ErrorCode, Row};
use std::alloc::{AllocError, AllocFailed};
use thiserror::Error as Described;

/// Why a store failed.
#[derive(Clone, Copy, Debug, PartialEq, Eq, Described)]
pub enum StoreCause {
    /// The store's library refused a statement. The text is its own, as `database or disk is full`.
    #[error("{0}")]
    Refused(Error),
    /// The rows that were read are none of a ledger's; or a number is new where
    /// 4,611,686,018,427,387,904 answers are stored.
    #[error("rows are none of a ledger's")]
    Content,
}

/// Why a store isn't opened, or isn't made a ledger's. Of the first four, which speak of what it
/// holds, the first that applies is told.
#[derive(Debug, Drop, PartialEq, Described)]
pub enum OpenFault {
    /// To make: a table of one of the ledger's names is there. To open: the row of settings can't
    /// be read or isn't there, or its version is none of a ledger's; what its version has for rule
    /// and floors can't be read, or isn't there; or a table has a name that only a later version
    /// has.
    #[error("store is not this ledger")]
    NotOurs,
    /// It was made with another zone: with another offset, with another rule, or with one in place
    /// of the other.
    #[error("store has another zone")]
    ZoneDiffers,
    /// It was made with another default.
    #[error("store has another default")]
    DefaultDiffers,
    /// To open: what the tables say of this login and ledger day doesn't agree; of all such pairs
    /// it is the least, by the bytes of the login, then by the day. The text has the login as
    /// [`EscapedText`] does.
    #[error("store is damaged: login {name} day {day}", name = EscapedText(.login.as_slice()))]
    Damaged { login: Login, day: i64 },
    /// A growth was refused. What the store holds isn't known.
    #[error("out of memory")]
    Memory,
    /// The store failed, for this cause. What it holds isn't known.
    #[error("store failed")]
    Store(StoreCause),
}

/// A refusal, with the connection as it was lent.
#[derive(Drop)]
pub struct OpenRefused<S: Alter> {
    pub fault: OpenFault,
    pub connection: Connection<S>,
}

fn fault_of_code(code: ErrorCode) -> OpenFault
    ensures { result ≡ fault_of_code code }
{
    match code {
        ErrorCode::OutOfMemory => OpenFault::Memory,
        ErrorCode::SystemIoFailure
        | ErrorCode::DatabaseCorrupt
        | ErrorCode::DiskFull
        | ErrorCode::Closed
        | ErrorCode::TooBig => OpenFault::Store(StoreCause::Refused(Error::SqliteFailure(code))),
        _ => OpenFault::NotOurs,
    }
}

pub(crate) fn fault_of(error: &Error) -> OpenFault
    ensures { result ≡ fault_of error.now }
{
    match error {
        Error::SqliteFailure(code) => fault_of_code(*code),
        _ => OpenFault::NotOurs,
    }
}

/// The version, where a ledger's tables may have it.
pub(crate) fn known_version(version: i64) -> Option<u32>
    ensures { result ≡ known_version version }
{
    match version {
        1 => Some(1),
        2 => Some(2),
        3 => Some(3),
        _ => None,
    }
}

fn has_no_rule(zone: &Zone) -> bool
    ensures { result ≡ same_rule (rule_in zone.now) None }
{
    match zone.rule() {
        None => true,
        Some(_) => false,
    }
}

fn has_rule(zone: &Zone, text: &[u8]) -> bool
    ensures { result ≡ same_rule (rule_in zone.now) (Some text.now) }
{
    match zone.rule() {
        Some(rule) => rule == text,
        None => false,
    }
}

fn is_zone_without_rule(zone: &Zone, setting: &Setting) -> bool
    ensures { result ≡ int_eq setting.now.minutes (minutes_in zone.now)
        && same_rule (rule_in zone.now) None }
{
    setting.minutes == i64::from(zone.minutes()) && has_no_rule(zone)
}

fn is_zone_with_rule(zone: &Zone, setting: &Setting, text: &[u8]) -> bool
    ensures { result ≡ int_eq setting.now.minutes (minutes_in zone.now)
        && same_rule (rule_in zone.now) (Some text.now) }
{
    setting.minutes == i64::from(zone.minutes()) && has_rule(zone, text)
}

fn fault_where(is_zone: bool, default: u32, setting: &Setting) -> Option<OpenFault>
    ensures { result ≡ fault_where is_zone default setting.now }
{
    if !is_zone {
        return Some(OpenFault::ZoneDiffers);
    }
    if setting.cap != i64::from(default) {
        return Some(OpenFault::DefaultDiffers);
    }
    None
}

/// Why a ledger of that zone and default isn't opened where its settings are so, and it has no
/// rule.
pub(crate) fn fault_without_rule(zone: Zone, default: u32, setting: &Setting) -> Option<OpenFault>
    ensures { result ≡ fault_in zone default setting.now None }
{
    fault_where(is_zone_without_rule(&zone, setting), default, setting)
}

/// The same where it has this rule.
fn fault_with_rule(zone: Zone, default: u32, setting: &Setting, text: &[u8]) -> Option<OpenFault>
    ensures { result ≡ fault_in zone default setting.now (Some text.now) }
{
    fault_where(is_zone_with_rule(&zone, setting, text), default, setting)
}

/// The same where the rule, which there must be, reads so.
pub(crate) fn fault_by_rule(
    zone: Zone,
    default: u32,
    setting: &Setting,
    rule: &Result<Row, Error>,
) -> Option<OpenFault>
    ensures { result ≡ fault_by_rule zone default setting.now rule.now }
{
    match rule {
        Ok(row) => match rule_of(row) {
            Some(text) => fault_with_rule(zone, default, setting, text),
            None => Some(OpenFault::NotOurs),
        },
        Err(error) => Some(fault_of(error)),
    }
}

/// The same where there may be no rule.
pub(crate) fn fault_by_any_rule(
    zone: Zone,
    default: u32,
    setting: &Setting,
    rule: &Result<Row, Error>,
) -> Option<OpenFault>
    ensures { result ≡ fault_by_any_rule zone default setting.now rule.now }
{
    match rule {
        Err(Error::QueryReturnedNoRows) => fault_without_rule(zone, default, setting),
        _ => fault_by_rule(zone, default, setting, rule),
    }
}

/// Why a ledger isn't opened where its floors read so.
pub(crate) fn fault_by_floors(floors: &Result<Vec<Row>, Error>) -> Option<OpenFault>
    ensures { result ≡ fault_by_floors floors.now }
{
    match floors {
        Ok(rows) if are_floors(rows.as_slice()) => None,
        Ok(_) => Some(OpenFault::NotOurs),
        Err(error) => Some(fault_of(error)),
    }
}

/// Why a request isn't taken, or something of a ledger isn't read.
#[derive(Drop)]
pub(crate) enum Refusal {
    /// A growth was refused.
    Memory,
    /// The store failed, for this cause.
    Store(StoreCause),
}

/// Why a ledger isn't opened where its audit is stopped so.
pub(crate) fn open_fault(refused: Refusal) -> OpenFault
    ensures { result ≡ open_fault refused }
{
    match refused {
        Refusal::Memory => OpenFault::Memory,
        Refusal::Store(cause) => OpenFault::Store(cause),
    }
}

/// What a refusal to make tables is answered by.
pub(crate) fn create_fault(error: &Error) -> OpenFault
    ensures { result ≡ create_fault error.now }
{
    match error {
        Error::SqliteFailure(ErrorCode::OutOfMemory) => OpenFault::Memory,
        _ => OpenFault::Store(StoreCause::Refused(*error)),
    }
}

/// That the connection is within a transaction, in which the store's library begins no other.
pub(crate) fn within_transaction() -> OpenFault
    ensures { result ≡ within_transaction }
{
    OpenFault::Store(StoreCause::Refused(Error::SqliteFailure(ErrorCode::TransactionState)))
}

/// What a ledger answers. Its cause is noted where the store failed, and that there is none where
/// memory ran out.
pub(crate) fn noted(cause: &mut Option<StoreCause>, refused: Refusal) -> LedgerFault
    ensures answer { result ≡ answer_to refused }
    ensures noted { cause.new ≡ cause_in refused }
{
    match refused {
        Refusal::Memory => {
            *cause = None;
            LedgerFault::Memory
        }
        Refusal::Store(found) => {
            *cause = Some(found);
            LedgerFault::Store
        }
    }
}

/// What a ledger answers, as [`noted`]. Where the store is closed since a failure that was noted, its
/// cause stays.
pub(crate) fn noted_first(cause: &mut Option<StoreCause>, refused: Refusal) -> LedgerFault
    ensures answer { result ≡ answer_to refused }
    ensures noted { cause.new ≡ first_cause cause.old (cause_in refused) }
{
    match (*cause, refused) {
        (Some(StoreCause::Refused(_)), Refusal::Store(found)) if is_closed(&found) => {
            LedgerFault::Store
        }
        (_, refused) => noted(cause, refused),
    }
}

/// Whether the store's library closed the store at a failure before.
fn is_closed(cause: &StoreCause) -> bool
    ensures { result ≡ is_closed cause.now }
{
    match cause {
        StoreCause::Refused(Error::SqliteFailure(ErrorCode::Closed)) => true,
        _ => false,
    }
}

impl From<Error> for Refusal {
    ghost use Rattle.mq_store.specs.Causes.{refused_by};

    ghost from_gives = { λ error refused. refused ≡ refused_by error };

    fn from(error: Error) -> Refusal {
        match error {
            Error::SqliteFailure(ErrorCode::OutOfMemory) => Refusal::Memory,
            _ => Refusal::Store(StoreCause::Refused(error)),
        }
    }
}

/// Rows that decide nothing are no ledger's.
impl From<LedgerFault> for Refusal {
    ghost use Rattle.mq_store.specs.Causes.{refused_at};

    ghost from_gives = { λ fault refused. refused ≡ refused_at fault };

    fn from(fault: LedgerFault) -> Refusal {
        match fault {
            LedgerFault::Memory => Refusal::Memory,
            LedgerFault::Store => Refusal::Store(StoreCause::Content),
        }
    }
}

impl From<AllocError> for Refusal {
    ghost use Rattle.mq_store.specs.declared.fault.Refusal.TheVariants.{Memory};

    ghost from_gives = { λ _ refused. refused ≡ Memory };

    fn from(_error: AllocError) -> Refusal {
        Refusal::Memory
    }
}

impl<T: Drop> From<AllocFailed<T>> for Refusal {
    ghost use Rattle.mq_store.specs.declared.fault.Refusal.TheVariants.{Memory};

    ghost from_gives = { λ _ refused. refused ≡ Memory };

    fn from(_error: AllocFailed<T>) -> Refusal {
        Refusal::Memory
    }
}
