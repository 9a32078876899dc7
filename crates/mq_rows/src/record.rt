//! The rows of the ledger's tables, a type for each table. Fields stand in the order of the
//! columns.
use mq_request::{Bytes, Host, Id, Login};

/// The one row of `setting`, and with it that of `rule`: what the ledger goes by, and how many
/// entries its history has.
#[derive(Drop)]
pub struct SettingRecord {
    /// The version of the tables: [`VERSION`](crate::VERSION), or `older_version` of the ledger's
    /// zone.
    pub version: u32,
    /// The minutes of the ledger's zone east of UTC, -1,439 to 1,439; 0 with a rule.
    pub minutes: i32,
    /// The limit of a login that has none for a day: recipients, 0 to 1,000,000.
    pub cap: u32,
    /// How many entries the history has: the rows of `answer`.
    pub arrivals: u64,
    /// The text of the zone's rule, where there is one: the row of `rule`, a table of versions 2
    /// and 3.
    pub rule: Option<Bytes>,
}

/// A row of `answer`: a numbered request and the reply that its number keeps.
#[derive(Drop)]
pub struct AnswerRecord {
    /// The place among all that were answered, from 1 on.
    pub n: u64,
    pub id: Id,
    /// The body that spells the request.
    pub request: Bytes,
    /// The body that spells the reply; empty where the request's run is retired.
    pub reply: Bytes,
}

/// A row of `trans`: how a transaction stands.
#[derive(Drop)]
pub struct TransactionRecord {
    pub host: Host,
    /// The run of the host's filter, 1 to 281,474,976,710,655.
    pub run: u64,
    /// The transaction's number in the run, 1 to 4,294,967,295.
    pub txn: u32,
    pub login: Login,
    /// When it began: seconds since 1970-01-01T00:00:00Z.
    pub moment: u64,
    /// The ledger day of that moment, 0 to 376,200.
    pub day: u32,
    /// The recipients that it holds, 0 once it is closed.
    pub held: u32,
    /// The recipients that it was settled with, 0 where it wasn't; what it held where a retire
    /// closed it.
    pub settled: u32,
    /// Whether it was settled or released, or its run is retired.
    pub closed: bool,
}

/// A row of `usage`: what a login has used on a day.
#[derive(Drop)]
pub struct UsageRecord {
    pub login: Login,
    /// The ledger day, 0 to 376,200.
    pub day: u32,
    /// Recipients of settled transactions, and those that transactions held which a retire closed.
    pub settled: u32,
    /// Recipients that open transactions hold.
    pub reserved: u32,
}

/// A row of `ceiling`: a limit of a login that was set.
#[derive(Drop)]
pub struct LimitRecord {
    pub login: Login,
    /// The ledger day from which it holds, 0 to 376,200.
    pub day: u32,
    /// Recipients a day, 0 to 1,000,000.
    pub cap: u32,
}

/// A row of `retired`, a table of version 3: the floor of a host.
#[derive(Drop)]
pub struct RetiredRecord {
    pub host: Host,
    /// The runs of the host below this one are retired: 1 to 281,474,976,710,655.
    pub run: u64,
}
