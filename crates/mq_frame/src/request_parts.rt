//! A request in a body, as parts that borrow from it.
ghost use Rattle.mq_frame.specs.Reading.{Reads, whole, pair, count, transaction, request_at};
ghost use Rattle.mq_frame.specs.Reading.{request_of_kind};
ghost use Rattle.mq_frame.specs.Parts.{shown_transaction, shown_request};

use crate::fields::{
    IdParts, after_at, amount_at, count_at, day_at, id_alone, id_at, login_at, moment_at,
    ordinal_at,
};
use crate::format::{LIMIT, LIST, RELEASE, RESERVE, RETIRE, SETTLE, USAGE};

/// What names a transaction, and its login and moment.
#[derive(Clone, Copy)]
pub struct TransactionParts<'a> {
    /// The id of the request, whose host and run are the transaction's.
    pub id: IdParts<'a>,
    /// The transaction's number in the run, 1 to 4,294,967,295.
    pub txn: u32,
    /// When it began, 86,400 to 32,503,680,000 seconds since 1970-01-01T00:00:00Z.
    pub moment: u64,
    /// 1 to 255 bytes.
    pub login: &'a [u8],
}

/// A request in a body.
#[derive(Clone, Copy)]
pub enum RequestParts<'a> {
    Reserve {
        transaction: TransactionParts<'a>,
        count: u32,
    },
    Settle {
        transaction: TransactionParts<'a>,
        count: u32,
    },
    Release {
        transaction: TransactionParts<'a>,
    },
    Limit {
        id: IdParts<'a>,
        from_day: u32,
        cap: u32,
        login: &'a [u8],
    },
    Usage {
        login: &'a [u8],
        day: u32,
    },
    List {
        day: u32,
        after: &'a [u8],
    },
    Retire {
        id: IdParts<'a>,
    },
}

fn transaction_at(bytes: &[u8]) -> Option<(TransactionParts<'_>, &[u8])>
    ensures { Reads (λ x. (shown_transaction x.0, x.1.now)) result (transaction.read bytes.now) }
{
    let (id, rest) = id_at(bytes)?;
    let (txn, rest) = ordinal_at(rest)?;
    let (moment, rest) = moment_at(rest)?;
    let (login, rest) = login_at(rest)?;
    Some((
        TransactionParts {
            id,
            txn,
            moment,
            login,
        },
        rest,
    ))
}

fn whole_transaction(bytes: &[u8]) -> Option<TransactionParts<'_>>
    ensures { Reads shown_transaction result (whole transaction bytes.now) }
{
    match transaction_at(bytes) {
        Some((transaction, [])) => Some(transaction),
        _ => None,
    }
}

fn transaction_and_count(bytes: &[u8]) -> Option<(TransactionParts<'_>, u32)>
    ensures { Reads (λ x. (shown_transaction x.0, x.1)) result
        (whole (pair transaction count) bytes.now) }
{
    let (transaction, rest) = transaction_at(bytes)?;
    match count_at(rest) {
        Some((count, [])) => Some((transaction, count)),
        _ => None,
    }
}

fn limit_at(bytes: &[u8]) -> Option<RequestParts<'_>>
    ensures { Reads shown_request result (request_of_kind LIMIT bytes.now) }
{
    let (id, rest) = id_at(bytes)?;
    let (from_day, rest) = day_at(rest)?;
    let (cap, rest) = amount_at(rest)?;
    match login_at(rest) {
        Some((login, [])) => Some(RequestParts::Limit {
            id,
            from_day,
            cap,
            login,
        }),
        _ => None,
    }
}

fn usage_at(bytes: &[u8]) -> Option<RequestParts<'_>>
    ensures { Reads shown_request result (request_of_kind USAGE bytes.now) }
{
    let (login, rest) = login_at(bytes)?;
    match day_at(rest) {
        Some((day, [])) => Some(RequestParts::Usage { login, day }),
        _ => None,
    }
}

fn list_at(bytes: &[u8]) -> Option<RequestParts<'_>>
    ensures { Reads shown_request result (request_of_kind LIST bytes.now) }
{
    let (day, rest) = day_at(bytes)?;
    match after_at(rest) {
        Some((after, [])) => Some(RequestParts::List { day, after }),
        _ => None,
    }
}

/// The request that the body spells, none where it spells none.
pub fn request_parts(body: &[u8]) -> Option<RequestParts<'_>>
    ensures { Reads shown_request result (request_at body.now) }
{
    let (kind, rest) = body.split_first()?;
    match *kind {
        RESERVE => {
            let (transaction, count) = transaction_and_count(rest)?;
            Some(RequestParts::Reserve { transaction, count })
        }
        SETTLE => {
            let (transaction, count) = transaction_and_count(rest)?;
            Some(RequestParts::Settle { transaction, count })
        }
        RELEASE => {
            let transaction = whole_transaction(rest)?;
            Some(RequestParts::Release { transaction })
        }
        LIMIT => limit_at(rest),
        USAGE => usage_at(rest),
        LIST => list_at(rest),
        RETIRE => {
            let id = id_alone(rest)?;
            Some(RequestParts::Retire { id })
        }
        _ => None,
    }
}
