//! What is read of the tables for a request, and what the request then writes.
use crate::record::{AnswerRecord, LimitRecord, RetiredRecord, TransactionRecord, UsageRecord};
use mq_request::{Host, Reply};

/// What becomes of the rows of a table. At most one row changes.
#[derive(Drop)]
pub enum Write<R> {
    /// They stay.
    Keep,
    /// One more, whose key no row has.
    Insert(R),
    /// The row of this key gets these values.
    Update(R),
}

/// What the tables have about a numbered request. What its kind doesn't need is `None`.
#[derive(Drop)]
pub struct FoundRows {
    /// For a reserve, settle or release: the row of its transaction.
    pub transaction: Option<TransactionRecord>,
    /// For a reserve, settle or release: the row of its login and of the ledger day of its moment.
    pub usage: Option<UsageRecord>,
    /// For a reserve: of the limits of its login that hold on that day or from an earlier one on,
    /// the latest.
    pub governing: Option<LimitRecord>,
    /// For a limit: of the days from its own on on which its login has used more than it asks for,
    /// the first.
    pub over: Option<UsageRecord>,
    /// For a limit: the row of its login and day.
    pub limit: Option<LimitRecord>,
    /// For a retire: the row of its host's floor.
    pub floor: Option<RetiredRecord>,
}

/// Runs of a host that a retire retires.
#[derive(Drop)]
pub struct Runs {
    pub host: Host,
    /// The first of them.
    pub from: u64,
    /// The last of them; there are none where it is below the first.
    pub to: u64,
}

/// The reply to a numbered request whose number is new, and what is written with it.
#[derive(Drop)]
pub struct Plan {
    pub reply: Reply,
    /// The row of the answer: one more.
    pub answer: AnswerRecord,
    /// The count of answers in the row of settings.
    pub arrivals: u64,
    /// For a retire: what the open transactions of these runs hold is settled, and the replies of
    /// these runs are cleared, before the rest is written.
    pub given_up: Option<Runs>,
    pub transaction: Write<TransactionRecord>,
    pub usage: Write<UsageRecord>,
    pub limit: Write<LimitRecord>,
    pub retired: Write<RetiredRecord>,
}
